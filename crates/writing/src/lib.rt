// Plane writing: the planes whose rendering is a picture.
#![tactic(auto)]

mod levels;
mod one_plane;
mod planar;

ghost use Rattle.std.specs.Prelude.{◌≡◌};
ghost use Rattle.answer.specs.Outcome.{Sound, Step};
ghost use Rattle.layout.specs.Layout.{record_faults};
ghost use Rattle.pixels.specs.Planes.{plane_faults, write_faults, Written};
ghost use Rattle.writing.specs.Parts.{planar as planarOf, WriteServed, WrittenInto};

use answer::{Refusal, fault};
use layout::RasterLayout;

// What is refused of a record without a fault, in rule 7.3's order. The bytes of a picture are looked at last, and only if all of them are there.
fn check_planes(l: RasterLayout, picture: &[u8], planes: &[u8]) -> Result<(), Refusal>
    requires { Sound (record_faults l) }
    ensures { Step (plane_faults l picture.now planes.now) result }
{
    fault(l.fields.palette, Refusal::Unsupported)?;
    fault(l.fields.bytes == 8, Refusal::Unsupported)?;
    fault(l.fields.alpha == 1, Refusal::Unsupported)?;
    fault(picture.len() < l.output_len, Refusal::Truncated)?;
    fault(planes.len() < l.scratch_len, Refusal::OutputTooSmall)?;
    levels::check_levels(l, picture)
}

// What is refused at all.
fn check_write(l: RasterLayout, picture: &[u8], planes: &[u8]) -> Result<(), Refusal>
    ensures { Step (write_faults l picture.now planes.now) result }
{
    layout::check_record(l)?;
    check_planes(l, picture, planes)
}

// Whether channels stand in planes of their own.
fn is_planar(l: RasterLayout) -> bool
    ensures { result ≡ planarOf l }
{
    l.fields.separate && l.fields.slots != 8
}

// What is not refused, written.
fn write(l: RasterLayout, picture: &[u8], planes: &mut [u8])
    requires { WriteServed l picture.now planes.old }
    ensures { WrittenInto l picture.now planes.old planes.new }
{
    if is_planar(l) {
        planar::write_apart(l, picture, planes);
    } else {
        one_plane::write_rows(l, picture, planes);
    }
}

// The planes whose rendering is a picture.
pub fn write_planes(l: RasterLayout, picture: &[u8], planes: &mut [u8]) -> Result<(), Refusal>
    ensures { Written l picture.now planes.old result planes.new }
{
    check_write(l, picture, planes)?;
    write(l, picture, planes);
    Ok(())
}
