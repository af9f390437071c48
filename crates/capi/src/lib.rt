// The C interface: a thin function for each call, which include/hamrisk.h declares. Each returns 0 for done or rule 1.1's number of the
// refusal; a value comes back through a lent number, which a refusal leaves as it was.
#![tactic(auto)]

use answer::{ByteAt, Refusal, SampleAt};
use samples::Strip;

mod layouts;
mod packing;
mod pages;
mod states;

ghost use Rattle.std.specs.Prelude.{◌≡◌};
ghost use Rattle.answer.specs.Outcome.{outcome};
ghost use Rattle.words.specs.Promises.{ReadWord, LoadedWord};
ghost use Rattle.samples.specs.Sample.{strip};
ghost use Rattle.samples.specs.Promises.{StripChecked, Converted, Forwarded};
ghost use Rattle.damage.specs.Promises.{Marked};
ghost use Rattle.swaps.specs.Swapped.{Swapped};
ghost use Rattle.transport.specs.Moved.{Committed, Reversed};
ghost use Rattle.capi.specs.Told.{status as statusOf, Told, Lent};

// A strip's geometry, which C hands in as three numbers.
fn strip_of(row: usize, channels: usize, width: usize) -> Strip
    ensures { result ≡ strip row channels width }
{
    Strip {
        row,
        channels,
        width,
    }
}

// 0 for done, or rule 1.1's number of the refusal.
pub(crate) fn status(d: Result<(), Refusal>) -> u32
    ensures { result ≡ statusOf (outcome d) }
{
    match d {
        Ok(()) => 0,
        Err(kind) => u32::from(kind),
    }
}

// The same of an answer with a value, which is lent back; on a refusal what is lent stays as it was.
pub(crate) fn lend<T: Copy>(answer: Result<T, Refusal>, to: &mut T) -> u32
    ensures { Lent outcome (λ a. a ≡ answer) result to.old to.new }
{
    match answer {
        Err(kind) => u32::from(kind),
        Ok(value) => {
            *to = value;
            0
        }
    }
}

// The word of `width` bytes at a place.
#[unsafe(no_mangle)]
pub extern "C" fn hamrisk_read_word(
    s: &[u8],
    at: usize,
    width: usize,
    le: bool,
    value: &mut u64,
) -> u32
    ensures { Lent outcome (ReadWord s.now at width le) result value.old value.new }
{
    lend(words::read_word(s, ByteAt(at), width, le), value)
}

// Sample i of one byte, or of two if `wide`.
#[unsafe(no_mangle)]
pub extern "C" fn hamrisk_load(s: &[u8], i: usize, wide: bool, le: bool, value: &mut u32) -> u32
    ensures { Lent outcome (LoadedWord s.now i wide le) result value.old value.new }
{
    lend(words::load(s, SampleAt(i), wide, le), value)
}

// Whether a strip has this geometry.
#[unsafe(no_mangle)]
pub extern "C" fn hamrisk_check_strip(
    raw_len: usize,
    row_bytes: usize,
    channels: usize,
    width: usize,
) -> u32
    ensures { Told outcome (StripChecked raw_len (strip row_bytes channels width)) result }
{
    status(samples::check_strip(raw_len, strip_of(row_bytes, channels, width)))
}

// The samples of a strip, each stored in the asked byte order.
#[unsafe(no_mangle)]
pub extern "C" fn hamrisk_convert(
    raw: &[u8],
    row_bytes: usize,
    channels: usize,
    width: usize,
    le: bool,
    predict: bool,
    out_le: bool,
    out: &mut [u8],
) -> u32
    ensures { Told outcome (λ d. Converted raw.now (strip row_bytes channels width) predict le out_le out.old d out.new) result }
{
    let strip = strip_of(row_bytes, channels, width);
    status(strips::convert(raw, strip, le, predict, out_le, out))
}

// Forward prediction: the words that `hamrisk_convert` reads back to these samples.
#[unsafe(no_mangle)]
pub extern "C" fn hamrisk_forward(
    raw: &[u8],
    row_bytes: usize,
    channels: usize,
    width: usize,
    le: bool,
    predict: bool,
    out_le: bool,
    out: &mut [u8],
) -> u32
    ensures { Told outcome (λ d. Forwarded raw.now (strip row_bytes channels width) predict le out_le out.old d out.new) result }
{
    let strip = strip_of(row_bytes, channels, width);
    status(strips::forward(raw, strip, le, predict, out_le, out))
}

// Which samples the damaged bytes can change, and how many they are.
#[unsafe(no_mangle)]
pub extern "C" fn hamrisk_marks(
    damage: &[u8],
    row_bytes: usize,
    channels: usize,
    width: usize,
    predict: bool,
    marks: &mut [u8],
    count: &mut usize,
) -> u32
    ensures { Lent outcome (λ d. Marked damage.now (strip row_bytes channels width) predict marks.old d marks.new) result count.old count.new }
{
    let strip = strip_of(row_bytes, channels, width);
    lend(damage::marks(damage, strip, predict, marks), count)
}

// Every byte's bits reversed, in place.
#[unsafe(no_mangle)]
pub extern "C" fn hamrisk_reverse_bits(s: &mut [u8])
    ensures { Reversed s.old s.new }
{
    transport::reverse_bits(s)
}

// Each group of `width` bytes backwards.
#[unsafe(no_mangle)]
pub extern "C" fn hamrisk_swap_components(raw: &[u8], width: usize, out: &mut [u8]) -> u32
    ensures { Told outcome (λ d. Swapped raw.now width out.old d out.new) result }
{
    status(swaps::swap_components(raw, width, out))
}

// A copy at the front of `out`.
#[unsafe(no_mangle)]
pub extern "C" fn hamrisk_commit(source: &[u8], out: &mut [u8]) -> u32
    ensures { Told outcome (λ d. Committed source.now out.old d out.new) result }
{
    status(transport::commit_uninit(source, out))
}
