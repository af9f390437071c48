// Rows whose bytes of the planes hold several samples or palette indices: rendered, and bilevel rows written.
#![tactic(auto)]

mod bits;
mod paint;

ghost use Rattle.std.specs.Prelude.{◌≡◌, ◌+◌, ◌/◌, ◌≤◌, ltb, length};
ghost use Rattle.answer.specs.Outcome.{Step};
ghost use Rattle.slots.specs.Rows.{eighths as eighthsOf, SpreadInto, BilevelRow, BitsInto, BitRow, palette_faults, PaletteRow};

use answer::{Refusal, fault};

// Bytes that hold n bits.
fn eighths(n: usize) -> usize
    ensures { result ≡ eighthsOf n }
{
    n.div_ceil(8)
}

fn spread_whole(raw: &[u8], white: bool, out: &mut [u8])
    requires { length out.old / 8 ≤ length raw.now }
    ensures { SpreadInto raw.now white out.old out.new }
{
    for i in 0..out.len() / 8 {
        bits::spread(pixels::flip(white, raw[i]), 8, out, 8 * i);
    }
}

// A bilevel row: a byte for each bit, the highest bit first.
pub fn bilevel_row(raw: &[u8], white: bool, out: &mut [u8]) -> Result<(), Refusal>
    ensures { BilevelRow raw.now white out.old result out.new }
{
    let bytes = out.len() / 8;
    let rest = out.len() % 8;
    if raw.len() < eighths(out.len()) {
        return Err(Refusal::Truncated);
    }
    spread_whole(raw, white, out);
    if 0 < rest {
        bits::spread(pixels::flip(white, raw[bytes]), rest, out, 8 * bytes);
    }
    Ok(())
}

// By places: over chunks of eight columns, of which the last may be shorter, 64 KiB took 90 µs in place of 29.
fn whole_bits(picture: &[u8], white: bool, out: &mut [u8])
    requires { length picture.now / 8 ≤ length out.old }
    ensures { BitsInto picture.now white out.old out.new }
{
    for b in 0..picture.len() / 8 {
        let columns = &picture[8 * b..8 * b + 8];
        out[b] = bits::byte(columns, white);
    }
}

// A bilevel row's bytes: a bit for each byte of the picture, the highest bit first, 0 past the row's end.
pub fn bit_row(picture: &[u8], white: bool, out: &mut [u8]) -> Result<(), Refusal>
    ensures { BitRow picture.now white out.old result out.new }
{
    let bytes = picture.len() / 8;
    let rest = picture.len() % 8;
    if out.len() < eighths(picture.len()) {
        return Err(Refusal::OutputTooSmall);
    }
    whole_bits(picture, white, out);
    if 0 < rest {
        let columns = &picture[8 * bytes..];
        out[bytes] = bits::byte(columns, white);
    }
    Ok(())
}

// Whether so many bytes from a place on end past the end of n, in whole numbers.
fn past_end(n: usize, place: usize, bytes: usize) -> bool
    ensures { result ≡ ltb n (place + bytes) }
{
    n < place || n - place < bytes
}

// What a palette row cannot be painted from. The last test divides by the slots, so it waits for the first.
fn check_palette(
    file: usize,
    map: usize,
    slots: usize,
    raw: usize,
    out: usize,
) -> Result<(), Refusal>
    ensures { Step (palette_faults file map slots raw out) result }
{
    fault(!matches!(slots, 1 | 2 | 8), Refusal::Unsupported)?;
    fault(out % 3 != 0, Refusal::Invalid)?;
    let beyond = past_end(file, map, 6 * layout::colours(slots));
    fault(beyond, Refusal::Truncated)?;
    fault(raw < (out / 3).div_ceil(slots), Refusal::Truncated)
}

// A palette row: three bytes for each index, from the map of a file.
pub fn palette_row(
    file: &[u8],
    map: usize,
    slots: usize,
    le: bool,
    raw: &[u8],
    out: &mut [u8],
) -> Result<(), Refusal>
    ensures { PaletteRow file.now map slots le raw.now out.old result out.new }
{
    check_palette(file.len(), map, slots, raw.len(), out.len())?;
    paint::paint_row(file, map + pixels::high(le), slots, raw, out);
    Ok(())
}
