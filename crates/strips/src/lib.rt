// Strips: `convert` gives the samples of a strip, `forward` the strip that reads back to these samples.
#![tactic(auto)]

ghost use Rattle.samples.specs.Promises.{Converted, Forwarded};

use answer::Refusal;
use samples::Strip;

// The samples of a strip, each stored in the asked byte order.
pub fn convert(
    raw: &[u8],
    strip: Strip,
    le: bool,
    predict: bool,
    out_le: bool,
    out: &mut [u8],
) -> Result<(), Refusal>
    ensures { Converted raw.now strip predict le out_le out.old result out.new }
{
    rows::transform_rows(raw, strip, le, predict, out_le, false, out)
}

// Forward prediction: the words that `convert` reads back to these samples.
pub fn forward(
    raw: &[u8],
    strip: Strip,
    le: bool,
    predict: bool,
    out_le: bool,
    out: &mut [u8],
) -> Result<(), Refusal>
    ensures { Forwarded raw.now strip predict le out_le out.old result out.new }
{
    rows::transform_rows(raw, strip, le, predict, out_le, true, out)
}
