// Where a byte of the picture comes from.
ghost use Rattle.std.specs.Prelude.{◌≡◌, true, false};
ghost use Rattle.layout.specs.Layout.{Asked, packed, packed_index, high_first, SampleWithin, sample_index, plain_index, source_index};

use crate::RasterLayout;
use answer::SampleAt;

// Whether a byte of a plane holds several samples, or a place of the map.
fn is_packed(l: RasterLayout) -> bool
    ensures { result ≡ packed l }
{
    l.fields.palette || l.fields.slots == 8
}

// Rows of whole bytes.
#[tactic(auto, unfolding(crate::specs::Layout::packed_index))]
fn packed_index(l: RasterLayout, k: usize) -> usize
    requires { (Asked l k) × (packed l ≡ true) }
    ensures { result ≡ packed_index l k }
{
    let p = k / l.fields.ch;
    p / l.fields.w * l.encoded_width + p % l.fields.w / l.fields.slots
}

// The two bytes of a little-endian word change places.
#[tactic(auto, unfolding(crate::specs::Layout::high_first))]
fn high_first(bytes: usize, le: bool, c: usize) -> usize
    ensures { result ≡ high_first bytes le c }
{
    if bytes == 2 && le {
        c - c % 2 + 1 - c % 2
    } else {
        c
    }
}

// Which sample of the planes channel c of pixel p is.
fn sample_of(l: RasterLayout, p: usize, c: usize) -> SampleAt
    requires { SampleWithin l p c }
    ensures { result.0 ≡ sample_index l p c }
{
    if l.fields.separate {
        SampleAt(c * (l.plane_len / l.fields.bytes) + p)
    } else {
        SampleAt(p * l.fields.ch + c)
    }
}

// Whole bytes, in one plane or in one for each channel. The place is always there: the last arm answers no call.
fn plain_index(l: RasterLayout, k: usize) -> usize
    requires { (Asked l k) × (packed l ≡ false) }
    ensures { result ≡ plain_index l k }
{
    let stride = l.fields.ch * l.fields.bytes;
    let c = high_first(l.fields.bytes, l.fields.le, k % stride);
    let sample = sample_of(l, k / stride, c / l.fields.bytes);
    match words::byte_place(sample, l.fields.bytes, l.scratch_len) {
        Ok(at) => at.0 + c % l.fields.bytes,
        Err(_) => 0,
    }
}

// Where byte k of the picture comes from.
pub(crate) fn source_index(l: RasterLayout, k: usize) -> usize
    requires { Asked l k }
    ensures { result ≡ source_index l k }
{
    if is_packed(l) {
        packed_index(l, k)
    } else {
        plain_index(l, k)
    }
}
