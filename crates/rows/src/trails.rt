// A row of several channels past its first words: the sample `channels` before is read back from the output.
ghost use Rattle.std.specs.Prelude.{◌≡◌, true, false};
ghost use Rattle.words.specs.Promises.{served};
ghost use Rattle.rows.specs.Row.{one_row, meant_at, Led, TransformedInto};

use crate::word;

// Marked as `held::pixels` is, so that each arm has its own loop.
#[inline]
pub(crate) fn trails(
    raw: &[u8],
    channels: usize,
    width: usize,
    le: bool,
    out_le: bool,
    out: &mut [u8],
)
    requires { (served width ≡ true) × Led (meant_at raw.now channels width le out_le false) raw.now channels width out.old }
    ensures { TransformedInto raw.now (one_row raw.now channels width) true le out_le false out.old out.new }
{
    let step = channels * width;
    // By hand: over a count of words the compiler turns words of eight bytes in vectors, 0.2 to 0.6 as fast; `step_by` is 0.56 to 0.9 as fast.
    let mut at = step;
    while at < raw.len() {
        let sample = word::sum(raw, at, width, le, word::get(out, at - step, width, out_le));
        word::put(out, at, width, out_le, sample);
        at += width;
    }
}
