// Rows of at most four channels, from the sums that they start with.
ghost use Rattle.std.specs.Prelude.{not, true, false, [], ◌∷◌};
ghost use Rattle.answer.specs.Outcome.{pick};
ghost use Rattle.samples.specs.Sample.{strip};
ghost use Rattle.rows.specs.Row.{FewFit, ResumedInto, FewRows, ResumedRows};

use crate::form::Form;
use crate::held::held;

// The row is lent anew, whole: so its place and its length come in registers, and are not stored and read back. So do the numbers of its `Form`, which
// come one by one: from the struct rows of a pixel took up to 1.5 times as long.
fn by_channels<const TURNED: bool>(
    raw: &[u8],
    channels: usize,
    width: usize,
    le: bool,
    start: &[u64],
    out: &mut [u8],
)
    requires { FewFit raw.now channels width start.now out.old }
    ensures { ResumedInto raw.now channels width le (pick TURNED (not le) le) start.now out.old out.new }
{
    let from: usize = 0;
    let row = &raw[from..];
    if channels == 1 {
        held::<1, TURNED>(row, width, le, start, out)
    } else if channels == 2 {
        held::<2, TURNED>(row, width, le, start, out)
    } else if channels == 3 {
        held::<3, TURNED>(row, width, le, start, out)
    } else {
        held::<4, TURNED>(row, width, le, start, out)
    }
}

// In the other order than the words come in. The sums come as numbers: of those the compiler makes no vector of a pixel, which is slower
// than its words one by one where they have eight bytes that are turned.
fn turned(
    raw: &[u8],
    channels: usize,
    width: usize,
    le: bool,
    a: u64,
    b: u64,
    c: u64,
    d: u64,
    out: &mut [u8],
)
    requires { FewFit raw.now channels width (a ∷ b ∷ c ∷ d ∷ []) out.old }
    ensures { ResumedInto raw.now channels width le (not le) (a ∷ b ∷ c ∷ d ∷ []) out.old out.new }
{
    by_channels::<true>(raw, channels, width, le, &[a, b, c, d], out)
}

// Both are called from two places, and so stay calls: with an `if` in place of the arms rows of 16 pixels ran at 0.64 to 0.97.
fn few(raw: &[u8], form: Form, start: &[u64], out: &mut [u8])
    requires { FewFit raw.now form.channels form.width start.now out.old }
    ensures { ResumedInto raw.now form.channels form.width form.le form.out_le start.now out.old out.new }
{
    let (channels, width) = (form.channels, form.width);
    match form.le {
        true => match form.out_le {
            true => by_channels::<false>(raw, channels, width, form.le, start, out),
            false => turned(
                raw, channels, width, form.le, start[0], start[1], start[2], start[3], out,
            ),
        },
        false => match form.out_le {
            true => turned(
                raw, channels, width, form.le, start[0], start[1], start[2], start[3], out,
            ),
            false => by_channels::<false>(raw, channels, width, form.le, start, out),
        },
    }
}

// Each row from the same sums.
// The loops are called from here alone, so that the compiler puts them in this one.
pub(crate) fn rows(raw: &[u8], row_bytes: usize, form: Form, start: &[u64], out: &mut [u8])
    requires { FewRows raw.now (strip row_bytes form.channels form.width) start.now out.old }
    ensures { ResumedRows raw.now (strip row_bytes form.channels form.width) form.le form.out_le start.now out.old out.new }
{
    // By hand: a count of rows is a division, for which a packet's piece of 1400 bytes took up to 9 ns more, of 91.
    let mut at: usize = 0;
    while at < raw.len() {
        let end = at + row_bytes;
        let row = &raw[at..end];
        let to = &mut out[at..end];
        few(row, form, start, to);
        at = end;
    }
}
