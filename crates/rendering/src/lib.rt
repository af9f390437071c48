// Rendering: the picture that the decoded planes of a layout hold, row by row.
#![tactic(auto)]

use answer::{Refusal, fault};
use layout::RasterLayout;

mod gather;
mod plain;

ghost use Rattle.std.specs.Prelude.{◌≡◌, true, ◌&&◌, ◌++◌, ◌+◌, ◌*◌, ltb};
ghost use Rattle.answer.specs.Outcome.{Step};
ghost use Rattle.layout.specs.Layout.{packed as packedOf, record_faults};
ghost use Rattle.pixels.specs.Render.{draw_faults, Rendered};
ghost use Rattle.rendering.specs.Rows.{RenderServed, RowAsked, RowRendered, RowsRendered, Colours};

// A row of indices or bits. Neither call refuses: what it would refuse was ruled out before.
fn packed_row(l: RasterLayout, file: &[u8], raw: &[u8], y: usize, out: &mut [u8])
    requires { RowAsked l file.now raw.now y out.old × (packedOf l ≡ true) }
    ensures { RowRendered l file.now raw.now y out.old out.new }
{
    let from = y * l.encoded_width;
    let end = from + l.encoded_width;
    let row = &raw[from..end];
    if l.fields.palette {
        let _ = slots::palette_row(file, l.fields.map, l.fields.slots, l.fields.le, row, out);
    } else {
        let _ = slots::bilevel_row(row, l.fields.white, out);
    }
}

fn render_row(l: RasterLayout, file: &[u8], raw: &[u8], y: usize, out: &mut [u8])
    requires { RowAsked l file.now raw.now y out.old }
    ensures { RowRendered l file.now raw.now y out.old out.new }
{
    if l.fields.palette || l.fields.slots == 8 {
        packed_row(l, file, raw, y, out);
    } else {
        plain::plain_row(l, raw, y, out);
    }
}

fn render_rows(l: RasterLayout, file: &[u8], raw: &[u8], out: &mut [u8])
    requires { RenderServed l file.now raw.now out.old }
    ensures { RowsRendered l file.now raw.now out.old out.new }
{
    let row_bytes = l.fields.w * (l.fields.ch * l.fields.bytes);
    let mut at: usize = 0;
    for y in 0..l.fields.h {
        let end = at + row_bytes;
        render_row(l, file, raw, y, &mut out[at..end]);
        at = end;
    }
}

// Whether the palette's map lies beyond the file, in whole numbers.
fn map_beyond(l: RasterLayout, length: usize) -> bool
    requires { Colours l }
    ensures { result ≡ (l.fields.palette && ltb length (l.fields.map + 6 * l.colors)) }
{
    l.fields.palette && (length < l.fields.map || length - l.fields.map < 6 * l.colors)
}

// What is refused of a record without a fault, in rule 6.7's order.
fn check_draw(
    l: RasterLayout,
    file_len: usize,
    raw_len: usize,
    out_len: usize,
) -> Result<(), Refusal>
    requires { Colours l }
    ensures { Step (draw_faults l file_len raw_len out_len) result }
{
    fault(l.fields.bytes == 8, Refusal::Unsupported)?;
    fault(map_beyond(l, file_len), Refusal::Truncated)?;
    fault(raw_len < l.scratch_len, Refusal::Truncated)?;
    fault(out_len < l.output_len, Refusal::OutputTooSmall)
}

// What is refused at all.
fn check_render(
    l: RasterLayout,
    file_len: usize,
    raw_len: usize,
    out_len: usize,
) -> Result<(), Refusal>
    ensures { Step (record_faults l ++ draw_faults l file_len raw_len out_len) result }
{
    layout::check_record(l)?;
    check_draw(l, file_len, raw_len, out_len)
}

// The picture that planes of this layout hold; `file` has the colours of a palette.
pub fn render(l: RasterLayout, file: &[u8], raw: &[u8], out: &mut [u8]) -> Result<(), Refusal>
    ensures { Rendered l file.now raw.now out.old result out.new }
{
    check_render(l, file.len(), raw.len(), out.len())?;
    render_rows(l, file, raw, out);
    Ok(())
}
