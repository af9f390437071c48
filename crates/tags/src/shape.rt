// Tags 256 to 262: width, height, bits of a sample, compression, and what the samples mean.
ghost use Rattle.std.specs.Prelude.{◌≡◌};
ghost use Rattle.answer.specs.Outcome.{Step};
ghost use Rattle.tags.specs.Tags.{shape_of, depth_of, all_equal, served_depth, bits_faults, served_compression, shape_faults};
ghost use Rattle.entries.specs.Parts.{Room};

use answer::{Refusal, fault};
use entries::{Amount, Directory, Field, Kinds, Need, check_field, field_from, value};

#[derive(Clone, Copy)]
pub(crate) struct Shape {
    pub width: Field,
    pub height: Field,
    pub bits: Field,
    pub compression: Field,
    pub photometric: Field,
}

pub(crate) fn read_shape(file: &[u8], d: Directory) -> Shape
    requires { Room file.now d }
    ensures { result ≡ shape_of file.now d }
{
    let width = field_from(file, d, 0, 256, 0);
    let height = field_from(file, d, width.entry, 257, 0);
    let bits = field_from(file, d, height.entry, 258, 1);
    let compression = field_from(file, d, bits.entry, 259, 1);
    let photometric = field_from(file, d, compression.entry, 262, 0);
    Shape {
        width,
        height,
        bits,
        compression,
        photometric,
    }
}

// Whether every value of a field is its first.
fn all_equal(file: &[u8], le: bool, bits: Field) -> bool
    ensures { result ≡ all_equal file.now le bits }
{
    let first = value(file, le, bits, 0);
    for j in 0..bits.count {
        if value(file, le, bits, j) != first {
            return false;
        }
    }
    true
}

// The bits of a sample.
#[tactic(auto, unfolding(crate::specs::Tags::depth_of))]
pub(crate) fn depth_of(file: &[u8], le: bool, bits: Field) -> u32
    ensures { result ≡ depth_of file.now le bits }
{
    if bits.there {
        value(file, le, bits, 0)
    } else {
        bits.value
    }
}

fn served_depth(depth: u32) -> bool
    ensures { result ≡ served_depth depth }
{
    (depth == 1) | (depth == 4) | (depth == 8) | (depth == 16)
}

// The values are looked at once they are known to be there.
#[tactic(auto, using(answer::proofs::Chains::unless_next), unfolding(crate::specs::Tags::bits_faults))]
fn check_bits(file: &[u8], le: bool, f: Field) -> Result<(), Refusal>
    ensures { Step (bits_faults file.now le f) result }
{
    check_field(
        file.len(),
        Need::Defaulted,
        Kinds::Shorts,
        Amount::Several,
        f,
    )?;
    fault(f.there & !all_equal(file, le, f), Refusal::Unsupported)?;
    fault(!served_depth(depth_of(file, le, f)), Refusal::Unsupported)
}

fn served_compression(compression: u32) -> bool
    ensures { result ≡ served_compression compression }
{
    (compression == 1) | (compression == 32773)
}

#[tactic(auto, using(answer::proofs::Chains::unless_next), unfolding(crate::specs::Tags::shape_faults))]
pub(crate) fn check_shape(file: &[u8], le: bool, s: Shape) -> Result<(), Refusal>
    ensures { Step (shape_faults file.now le s) result }
{
    let size = file.len();
    check_field(size, Need::Required, Kinds::LongsToo, Amount::One, s.width)?;
    check_field(size, Need::Required, Kinds::LongsToo, Amount::One, s.height)?;
    check_bits(file, le, s.bits)?;
    check_field(
        size,
        Need::Defaulted,
        Kinds::Shorts,
        Amount::One,
        s.compression,
    )?;
    fault(
        !served_compression(s.compression.value),
        Refusal::Unsupported,
    )?;
    check_field(
        size,
        Need::Required,
        Kinds::Shorts,
        Amount::One,
        s.photometric,
    )?;
    fault(3 < s.photometric.value, Refusal::Unsupported)
}
