// A page past every fault but its strips': its layout, its predictor, its compression, and what its strips are found by.
ghost use Rattle.std.specs.Prelude.{◌≡◌, ◌*◌};
ghost use Rattle.answer.specs.Outcome.{unless, outcome};
ghost use Rattle.layout.specs.Layout.{layout_faults, completed};
ghost use Rattle.directory.specs.Page.{strips_by};
ghost use Rattle.directory.specs.Parts.{SmallRow, whole_by, PageOpened};

use crate::strips::Strips;
use answer::Refusal;
use layout::RasterLayout;
use tags::Tags;

#[derive(Clone, Copy)]
pub(crate) struct Whole {
    pub layout: RasterLayout,
    pub predictor: usize,
    pub compression: usize,
    pub strips: Strips,
}

// The bytes of a row.
fn row_bytes(l: RasterLayout) -> u32
    requires { SmallRow l }
    ensures { result ≡ l.encoded_width * l.plane_channels }
{
    (l.encoded_width * l.plane_channels) as u32
}

fn strips_by(t: Tags, l: RasterLayout) -> Strips
    requires { (l ≡ completed t.fields) × (SmallRow l) }
    ensures { result ≡ strips_by t }
{
    Strips {
        le: t.fields.le,
        offsets: t.offsets,
        counts: t.counts,
        rows: t.rows,
        each: t.each,
        row: row_bytes(l),
        packbits: t.compression == 32773,
    }
}

// The layout check, of a page whose tags are sound.
fn lay_out(t: Tags) -> Result<Whole, Refusal>
    ensures { outcome result ≡ unless (layout_faults t.fields) (whole_by t) }
{
    let l = layout::check_layout(t.fields)?;
    Ok(Whole {
        layout: l,
        predictor: t.predictor,
        compression: t.compression,
        strips: strips_by(t, l),
    })
}

// A page of a file.
pub(crate) fn open_page(file: &[u8], page: usize) -> Result<Whole, Refusal>
    ensures { PageOpened file.now page result }
{
    let t = tags::read_tags(file, page)?;
    lay_out(t)
}
