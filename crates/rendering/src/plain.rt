// A row whose bytes are bytes of the planes: gathered, then finished in place.
ghost use Rattle.rendering.specs.Rows.{PlainRowAsked, WholeRow, Finished, PlainRendered};

use crate::gather::gather;
use layout::RasterLayout;

// White inverted, colours made straight beside alpha, which whole pixels are not refused.
fn finish(l: RasterLayout, out: &mut [u8])
    requires { WholeRow l out.old }
    ensures { Finished l out.old out.new }
{
    if l.fields.alpha == 1 {
        let _ = pixels::straighten_row(out, l.fields.ch, true, l.fields.white);
    } else if l.fields.white {
        if l.fields.alpha == 0 {
            pixels::invert(out);
        } else {
            let _ = pixels::straighten_row(out, l.fields.ch, false, true);
        }
    }
}

pub(crate) fn plain_row(l: RasterLayout, raw: &[u8], y: usize, out: &mut [u8])
    requires { PlainRowAsked l raw.now y out.old }
    ensures { PlainRendered l raw.now y out.old out.new }
{
    gather(l, raw, y, out);
    finish(l, out);
}
