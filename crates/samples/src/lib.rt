// Samples: what a sample of a strip is, whether a strip has its geometry, and its words in another byte order.
#![tactic(auto)]

ghost use Rattle.std.specs.Prelude.{◌≡◌};
ghost use Rattle.answer.specs.Outcome.{xor};
ghost use Rattle.samples.specs.Promises.{StripChecked, Reordered};

use answer::Refusal;

// A strip's geometry: bytes of a row, samples of a pixel, and bytes of a sample.
#[derive(Clone, Copy)]
pub struct Strip {
    pub row: usize,
    pub channels: usize,
    pub width: usize,
}

// Whether a strip of so many bytes has this geometry: whole rows, each of whole groups of a word for each channel.
pub fn check_strip(raw_len: usize, strip: Strip) -> Result<(), Refusal>
    ensures { StripChecked raw_len strip result }
{
    if !words::width_served(strip.width) {
        return Err(Refusal::Unsupported);
    }
    if strip.channels == 0 {
        return Err(Refusal::Unsupported);
    }
    if 64 < strip.channels {
        return Err(Refusal::Unsupported);
    }
    if strip.row == 0 {
        return Err(Refusal::Unsupported);
    }
    if strip.row % (strip.channels * strip.width) != 0 {
        return Err(Refusal::Invalid);
    }
    if raw_len % strip.row != 0 {
        return Err(Refusal::Invalid);
    }
    Ok(())
}

fn orders_differ(a: bool, b: bool) -> bool
    ensures { result ≡ xor a b }
{
    if a { !b } else { b }
}

// The same words in another byte order, or the same: what conversion is without prediction.
pub fn reorder(
    raw: &[u8],
    width: usize,
    le: bool,
    out_le: bool,
    out: &mut [u8],
) -> Result<(), Refusal>
    ensures { Reordered raw.now width le out_le out.old result out.new }
{
    if !words::width_served(width) {
        return Err(Refusal::Unsupported);
    }
    if raw.len() % width != 0 {
        return Err(Refusal::Invalid);
    }
    if out.len() < raw.len() {
        return Err(Refusal::OutputTooSmall);
    }
    if orders_differ(le, out_le) {
        swaps::swap_components(raw, width, out)
    } else {
        transport::commit_uninit(raw, out)
    }
}
