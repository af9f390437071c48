ghost use Rattle.std.specs.Prelude.{◌≡◌};
ghost use Rattle.answer.specs.Outcome.{Sound};
ghost use Rattle.layout.specs.Layout.{plane_channels, planes as planesOf, layout_faults, completed};

use crate::{Fields, RasterLayout, colours};

// Bytes of a place of a plane.
#[tactic(auto, unfolding(crate::specs::Layout::plane_channels))]
fn plane_channels(f: Fields) -> usize
    requires { Sound (layout_faults f) }
    ensures { result ≡ plane_channels f }
{
    if f.palette {
        1
    } else if f.separate {
        f.bytes
    } else {
        f.ch * f.bytes
    }
}

#[tactic(auto, unfolding(crate::specs::Layout::planes))]
fn planes(f: Fields) -> usize
    ensures { result ≡ planesOf f }
{
    if f.separate { f.ch } else { 1 }
}

// The record with what follows from its fields.
#[tactic(auto, unfolding(crate::specs::Layout::encoded_width, crate::specs::Layout::plane_length, crate::specs::Layout::scratch_length, crate::specs::Layout::output_length, crate::specs::Layout::colours))]
pub(crate) fn complete(f: Fields) -> RasterLayout
    requires { Sound (layout_faults f) }
    ensures { result ≡ completed f }
{
    let encoded_width = (f.w - 1) / f.slots + 1;
    let plane_channels = plane_channels(f);
    let planes = planes(f);
    let plane_len = encoded_width * f.h * plane_channels;
    RasterLayout {
        fields: f,
        encoded_width,
        plane_channels,
        planes,
        plane_len,
        scratch_len: plane_len * planes,
        output_len: f.w * f.h * f.ch * f.bytes,
        colors: colours(f.slots),
    }
}
