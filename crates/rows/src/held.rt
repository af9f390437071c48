// A row of N channels, from the sums that they start with: N is known to the compiler, and each channel's sum stays in a local.
ghost use Rattle.std.specs.Prelude.{not};
ghost use Rattle.answer.specs.Outcome.{pick};
ghost use Rattle.rows.specs.Row.{FewFit, ResumedInto};

use crate::{arms, word};

// A pixel is read before it is written: the compiler cannot tell that the two slices are apart, and makes a vector of a pixel only so.
// Marked, so that each arm's loop is taken in: of four channels of three bytes it costs the compiler more than it takes in unmarked.
#[inline]
fn pixels<const N: usize>(
    raw: &[u8],
    width: usize,
    le: bool,
    out_le: bool,
    start: &[u64],
    out: &mut [u8],
)
    requires { FewFit raw.now N width start.now out.old }
    ensures { ResumedInto raw.now N width le out_le start.now out.old out.new }
{
    let mut sums = [0u64; N];
    sums.copy_from_slice(&start[..N]);
    let pixel = N * width;
    let mut at: usize = 0;
    for n in 0..raw.len() / pixel {
        let mut from = at;
        for c in 0..N {
            sums[c] = word::sum(raw, from, width, le, sums[c]);
            from += width;
        }
        let mut to = at;
        for c in 0..N {
            word::put(out, to, width, out_le, sums[c]);
            to += width;
        }
        at += pixel;
    }
}

// The samples in the order that the words come in, or in the other.
pub(crate) fn held<const N: usize, const TURNED: bool>(
    raw: &[u8],
    width: usize,
    le: bool,
    start: &[u64],
    out: &mut [u8],
)
    requires { FewFit raw.now N width start.now out.old }
    ensures { ResumedInto raw.now N width le (pick TURNED (not le) le) start.now out.old out.new }
{
    arms::known(
        width,
        le,
        &mut |width, le|
            requires { FewFit raw.now N width start.now out.now }
            ensures { ResumedInto raw.entry.now N width le (pick TURNED (not le) le) start.entry.now out.entry.now out.exit.now }
        { pixels::<N>(raw, width, le, if TURNED { !le } else { le }, start, out) },
    )
}
