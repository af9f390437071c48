// Tags 273 to 284: where strips stand, samples of a pixel, rows of a strip, lengths of strips, and planes apart or not.
ghost use Rattle.std.specs.Prelude.{◌≡◌};
ghost use Rattle.answer.specs.Outcome.{Step};
ghost use Rattle.tags.specs.Tags.{split_of, samples_of, strips_of, samples_faults, planar_faults, split_faults};
ghost use Rattle.entries.specs.Parts.{From};

use crate::shape::Shape;
use crate::strips_per_plane;
use answer::{Refusal, fault};
use entries::{Amount, Directory, Field, Kinds, Need, check_field, field_from};

// The rows of a strip where nothing is said: all.
const ALL_ROWS: u32 = 4294967295;

#[derive(Clone, Copy)]
pub(crate) struct Split {
    pub offsets: Field,
    pub samples: Field,
    pub rows: Field,
    pub counts: Field,
    pub planar: Field,
}

pub(crate) fn read_split(file: &[u8], d: Directory, from: usize) -> Split
    requires { From file.now d from 273 }
    ensures { result ≡ split_of file.now d }
{
    let offsets = field_from(file, d, from, 273, 0);
    let samples = field_from(file, d, offsets.entry, 277, 1);
    let rows = field_from(file, d, samples.entry, 278, ALL_ROWS);
    let counts = field_from(file, d, rows.entry, 279, 0);
    let planar = field_from(file, d, counts.entry, 284, 1);
    Split {
        offsets,
        samples,
        rows,
        counts,
        planar,
    }
}

// The samples of a pixel.
pub(crate) fn samples_of(photometric: u32, extra: bool) -> usize
    ensures { result ≡ samples_of photometric extra }
{
    let colours = if photometric == 2 { 3 } else { 1 };
    if extra { colours + 1 } else { colours }
}

#[tactic(auto, using(answer::proofs::Chains::unless_next), unfolding(crate::specs::Tags::samples_faults))]
fn check_samples(size: usize, s: Shape, f: Field) -> Result<(), Refusal>
    ensures { Step (samples_faults size s f) result }
{
    let plain = samples_of(s.photometric.value, false);
    let more = samples_of(s.photometric.value, true);
    let samples = f.value as usize;
    check_field(size, Need::Defaulted, Kinds::Shorts, Amount::One, f)?;
    fault(f.value != s.bits.count, Refusal::Invalid)?;
    fault(!((samples == plain) | (samples == more)), Refusal::Invalid)
}

#[tactic(auto, unfolding(crate::specs::Tags::strips_of))]
fn strips(rows: u32, t: Split) -> usize
    ensures { result ≡ strips_of rows t }
{
    let per = strips_per_plane(rows, t.rows.value) as usize;
    if t.planar.value == 2 {
        per * t.samples.value as usize
    } else {
        per
    }
}

#[tactic(auto, using(answer::proofs::Chains::unless_next), unfolding(crate::specs::Tags::planar_faults))]
fn check_planar(size: usize, s: Shape, t: Split) -> Result<(), Refusal>
    ensures { Step (planar_faults size s t) result }
{
    let planar = t.planar.value;
    check_field(size, Need::Defaulted, Kinds::Shorts, Amount::One, t.planar)?;
    fault(!((planar == 1) | (planar == 2)), Refusal::Unsupported)?;
    fault(
        t.offsets.count as usize != strips(s.height.value, t),
        Refusal::Invalid,
    )
}

#[tactic(auto, using(answer::proofs::Chains::unless_next), unfolding(crate::specs::Tags::split_faults))]
pub(crate) fn check_split(size: usize, s: Shape, t: Split) -> Result<(), Refusal>
    ensures { Step (split_faults size s t) result }
{
    check_field(
        size,
        Need::Required,
        Kinds::LongsToo,
        Amount::Several,
        t.offsets,
    )?;
    check_samples(size, s, t.samples)?;
    check_field(size, Need::Defaulted, Kinds::LongsToo, Amount::One, t.rows)?;
    fault(t.rows.value == 0, Refusal::Invalid)?;
    check_field(
        size,
        Need::Required,
        Kinds::LongsToo,
        Amount::Several,
        t.counts,
    )?;
    fault(t.counts.count != t.offsets.count, Refusal::Invalid)?;
    check_planar(size, s, t)
}
