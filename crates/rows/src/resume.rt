// A row that is taken up in its middle, from the sums so far of its channels: words one by one up to a pixel's start, whole pixels in the
// loops of rows, and the words that are left.
ghost use Rattle.std.specs.Prelude.{◌≡◌, ◌+◌, ◌<◌, ◌≤◌, true, ◌==◌};
ghost use Rattle.answer.specs.Outcome.{pick};
ghost use Rattle.words.specs.Promises.{served};
ghost use Rattle.rows.specs.Resume.{leading, RunFits, RanInto, PixelsFit, LastFits, Held};

use crate::form::Form;
use crate::{few, word};

fn following(channel: usize, channels: usize) -> usize
    requires { channel < channels }
    ensures { result ≡ pick (channel + 1 == channels) 0 (channel + 1) }
{
    if channel + 1 == channels {
        0
    } else {
        channel + 1
    }
}

// Word by word, from any channel. With a `Form` pieces of five and more channels ran at 0.68 to 0.75.
fn words(
    raw: &[u8],
    first: usize,
    channels: usize,
    width: usize,
    le: bool,
    out_le: bool,
    sums: &mut [u64],
    out: &mut [u8],
)
    requires { RunFits raw.now first channels width sums.old out.old }
    ensures { RanInto raw.now first channels width le out_le sums.old sums.new out.new }
{
    let mut channel = first;
    // By hand: a count of words is a division, with which pieces of up to 1400 bytes ran at 0.83 to 0.93.
    let mut at: usize = 0;
    while at < raw.len() {
        let sample = word::sum(raw, at, width, le, sums[channel]);
        sums[channel] = sample;
        word::put(out, at, width, out_le, sample);
        at += width;
        channel = following(channel, channels);
    }
}

// The last sample of each channel, read back.
fn held(out: &[u8], last: usize, form: Form, sums: &mut [u64])
    requires { LastFits out.now last form.channels form.width sums.old }
    ensures { Held out.now last form.channels form.width form.out_le sums.old sums.new }
{
    let mut at = last;
    for channel in 0..form.channels {
        sums[channel] = word::get(out, at, form.width, form.out_le);
        at += form.width;
    }
}

// Whole pixels.
fn pixels(raw: &[u8], form: Form, sums: &mut [u64], out: &mut [u8])
    requires { PixelsFit raw.now form.channels form.width sums.old out.old }
    ensures { RanInto raw.now 0 form.channels form.width form.le form.out_le sums.old sums.new out.new }
{
    if raw.len() == 0 {
        return;
    }
    if 4 < form.channels {
        return words(
            raw,
            0,
            form.channels,
            form.width,
            form.le,
            form.out_le,
            sums,
            out,
        );
    }
    few::rows(raw, raw.len(), form, sums, out);
    held(out, raw.len() - form.channels * form.width, form, sums)
}

// Words from a pixel's start on.
fn from_pixel(raw: &[u8], form: Form, sums: &mut [u64], out: &mut [u8])
    requires { RunFits raw.now 0 form.channels form.width sums.old out.old }
    ensures { RanInto raw.now 0 form.channels form.width form.le form.out_le sums.old sums.new out.new }
{
    let start: usize = 0;
    let whole = raw.len() - raw.len() % (form.channels * form.width);
    pixels(&raw[start..whole], form, sums, &mut out[start..whole]);
    words(
        &raw[whole..],
        0,
        form.channels,
        form.width,
        form.le,
        form.out_le,
        sums,
        &mut out[whole..],
    )
}

// The bytes of so many that stand before a pixel's start.
fn leading(n: usize, first: usize, channels: usize, width: usize) -> usize
    requires { (first < channels) × ((channels ≤ 64) × (served width ≡ true)) }
    ensures { result ≡ leading n first channels width }
{
    if first == 0 {
        return 0;
    }
    let begun = (channels - first) * width;
    if n < begun { n } else { begun }
}

// Words from any channel on.
pub(crate) fn run(raw: &[u8], first: usize, form: Form, sums: &mut [u64], out: &mut [u8])
    requires { RunFits raw.now first form.channels form.width sums.old out.old }
    ensures { RanInto raw.now first form.channels form.width form.le form.out_le sums.old sums.new out.new }
{
    let start: usize = 0;
    let lead = leading(raw.len(), first, form.channels, form.width);
    words(
        &raw[start..lead],
        first,
        form.channels,
        form.width,
        form.le,
        form.out_le,
        sums,
        &mut out[start..lead],
    );
    from_pixel(&raw[lead..], form, sums, &mut out[lead..])
}
