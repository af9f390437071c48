// Whether a start and pieces lead to a state.
ghost use Rattle.std.specs.Prelude.{◌≡◌, true, ◌||◌, ◌+◌, ◌≤◌, eqb, ltb, length, get_or};
ghost use Rattle.answer.specs.Outcome.{pick};
ghost use Rattle.words.specs.Word.{modulus};
ghost use Rattle.words.specs.Promises.{served};
ghost use Rattle.laws.specs.Turns.{every};
ghost use Rattle.packets.specs.State.{sum_right, tails_right, sums_right, consistent};
ghost use Rattle.packets.specs.Promises.{plan, state};

use crate::feed;
use samples::Strip;

fn byte_right(x: u8, is_live: bool) -> bool
    ensures { result ≡ (is_live || eqb x 0) }
{
    is_live | (x == 0)
}

fn tail_right(tail: &[u8], begun: usize) -> bool
    requires { length tail.now ≡ 8 }
    ensures { result ≡ tails_right tail.now begun }
{
    let mut right = true;
    for (i, byte) in tail.iter().enumerate() {
        right = right & byte_right(*byte, i < begun);
    }
    right
}

// The greatest word of a width.
fn greatest(width: usize) -> u64
    requires { served width ≡ true }
    ensures { result + 1 ≡ modulus width }
{
    if width == 1 {
        255
    } else if width == 2 {
        65535
    } else if width == 3 {
        16777215
    } else if width == 4 {
        4294967295
    } else {
        18446744073709551615
    }
}

// The sums of the channels that have a sample.
fn sums_small(sums: &[u64], width: usize, begun: usize) -> bool
    requires { (served width ≡ true) × ((length sums.now ≡ 64) × (begun ≤ 64)) }
    ensures { result ≡ every begun (sum_right sums.now width begun) }
{
    let most = greatest(width);
    let mut right = true;
    for sum in &sums[..begun] {
        right = right & (*sum <= most);
    }
    right
}

// Whether all are 0.
fn none(s: &[u64]) -> bool
    ensures { result ≡ every (length s.now) (λ i. eqb (get_or s.now i 0) 0) }
{
    let mut any: u64 = 0;
    for number in s {
        any = any | *number;
    }
    any == 0
}

// And no sum past them. With up to four channels most of these are at fixed places, which the compiler looks at in one go.
fn sums_right(sums: &[u64], width: usize, begun: usize) -> bool
    requires { (served width ≡ true) × ((length sums.now ≡ 64) × (begun ≤ 64)) }
    ensures { result ≡ sums_right sums.now width begun }
{
    let few: usize = 4;
    let end: usize = 64;
    let right = sums_small(sums, width, begun);
    if begun <= few {
        right & none(&sums[begun..few]) & none(&sums[few..end])
    } else {
        right & none(&sums[begun..end])
    }
}

fn begun_channels(predict: bool, begun: usize, channels: usize) -> usize
    ensures { result ≡ pick predict (pick (ltb begun channels) begun channels) 0 }
{
    if !predict {
        return 0;
    }
    if begun < channels { begun } else { channels }
}

// The numbers of a plan come one by one, and so stay in registers. Of the byte orders nothing is asked.
pub(crate) fn passes(
    row_bytes: usize,
    channels: usize,
    width: usize,
    predict: bool,
    received: usize,
    tail: &[u8],
    sums: &[u64],
) -> bool
    requires { (length tail.now ≡ 8) × (length sums.now ≡ 64) }
    ensures { result ≡ consistent (state (plan row_bytes channels width true predict true) received tail.now sums.now) }
{
    let strip = Strip {
        row: row_bytes,
        channels,
        width,
    };
    if samples::check_strip(0, strip).is_err() {
        return false;
    }
    if 1073741824 < received {
        return false;
    }
    if !tail_right(tail, feed::past(received, width)) {
        return false;
    }
    let begun = begun_channels(predict, feed::whole(received % row_bytes, width), channels);
    sums_right(sums, width, begun)
}
