// Tags 317 to 338: the predictor, the colour map, and the extra sample.
ghost use Rattle.std.specs.Prelude.{◌≡◌};
ghost use Rattle.answer.specs.Outcome.{Step};
ghost use Rattle.tags.specs.Tags.{extras_of, map_values, is_palette, predictor_faults, map_faults, extra_faults, extras_faults};
ghost use Rattle.entries.specs.Parts.{From};

use crate::shape::Shape;
use crate::split::{Split, samples_of};
use answer::{Refusal, fault};
use entries::{Amount, Directory, Field, Kinds, Need, check_field, field_from};

#[derive(Clone, Copy)]
pub(crate) struct Extras {
    pub predictor: Field,
    pub map: Field,
    pub extra: Field,
}

pub(crate) fn read_extras(file: &[u8], d: Directory, from: usize) -> Extras
    requires { From file.now d from 317 }
    ensures { result ≡ extras_of file.now d }
{
    let predictor = field_from(file, d, from, 317, 1);
    let map = field_from(file, d, predictor.entry, 320, 0);
    let extra = field_from(file, d, map.entry, 338, 0);
    Extras {
        predictor,
        map,
        extra,
    }
}

#[tactic(auto, using(answer::proofs::Chains::unless_next), unfolding(crate::specs::Tags::predictor_faults))]
fn check_predictor(size: usize, depth: u32, f: Field) -> Result<(), Refusal>
    ensures { Step (predictor_faults size depth f) result }
{
    check_field(size, Need::Defaulted, Kinds::Shorts, Amount::One, f)?;
    fault(
        !((f.value == 1) | ((f.value == 2) & (8 <= depth))),
        Refusal::Unsupported,
    )
}

// The values of a colour map.
fn map_values(depth: u32) -> usize
    ensures { result ≡ map_values depth }
{
    match depth {
        1 => 6,
        4 => 48,
        8 => 768,
        _ => 196608,
    }
}

pub(crate) fn is_palette(s: Shape) -> bool
    ensures { result ≡ is_palette s }
{
    s.photometric.value == 3
}

#[tactic(auto, using(answer::proofs::Chains::unless_next), unfolding(crate::specs::Tags::map_faults))]
fn check_map(size: usize, s: Shape, depth: u32, f: Field) -> Result<(), Refusal>
    ensures { Step (map_faults size s depth f) result }
{
    if !is_palette(s) {
        return Ok(());
    }
    check_field(size, Need::Required, Kinds::Shorts, Amount::Several, f)?;
    fault(f.count as usize != map_values(depth), Refusal::Invalid)
}

#[tactic(auto, using(answer::proofs::Chains::unless_next), unfolding(crate::specs::Tags::extra_faults))]
fn check_extra(size: usize, s: Shape, t: Split, f: Field) -> Result<(), Refusal>
    ensures { Step (extra_faults size s t f) result }
{
    let right = samples_of(s.photometric.value, f.there);
    check_field(size, Need::Defaulted, Kinds::Shorts, Amount::One, f)?;
    fault(
        f.there & !((f.value == 1) | (f.value == 2)),
        Refusal::Unsupported,
    )?;
    fault(t.samples.value as usize != right, Refusal::Invalid)
}

#[tactic(auto, using(answer::proofs::Chains::unless_next), unfolding(crate::specs::Tags::extras_faults))]
pub(crate) fn check_extras(
    size: usize,
    s: Shape,
    t: Split,
    depth: u32,
    x: Extras,
) -> Result<(), Refusal>
    ensures { Step (extras_faults size s t depth x) result }
{
    check_predictor(size, depth, x.predictor)?;
    check_map(size, s, depth, x.map)?;
    check_extra(size, s, t, x.extra)
}
