// The bytes of a row in the picture's order, where each is a byte of the planes.
ghost use Rattle.pixels.specs.Render.{OneOrTwo};
ghost use Rattle.rendering.specs.Rows.{PlainRowAsked, Gathered, PixelFits, PixelGathered, PlanesFit, PlanesInto};

use layout::RasterLayout;

// A pixel of so many channels of so many bytes, each from its plane.
fn pixel<const CHANNELS: usize, const BYTES: usize>(
    raw: &[u8],
    plane_len: usize,
    place: usize,
    le: bool,
    at: usize,
    out: &mut [u8],
)
    requires { PixelFits raw.now plane_len place CHANNELS BYTES at out.old × OneOrTwo BYTES }
    ensures { PixelGathered raw.now plane_len place CHANNELS BYTES le at out.old out.new }
{
    let mut from = place;
    let mut to = at;
    for c in 0..CHANNELS {
        let mut stored = [0; BYTES];
        stored.copy_from_slice(&raw[from..from + BYTES]);
        let word = pixels::word(stored, le);
        let end = to + BYTES;
        out[to..end].copy_from_slice(&word);
        from += plane_len;
        to += BYTES;
    }
}

// A row of pixels whose channels stand in planes of their own. What tells where they are comes one by one: from a struct the compiler made no
// vectors of planes of one byte, 23.6 µs for 64 KiB in place of 2.6.
fn pixels_apart<const CHANNELS: usize, const BYTES: usize>(
    raw: &[u8],
    plane_len: usize,
    from: usize,
    le: bool,
    out: &mut [u8],
)
    requires { PlanesFit raw.now plane_len from CHANNELS BYTES out.old }
    ensures { PlanesInto raw.now plane_len from CHANNELS BYTES le out.old out.new }
{
    let stride = CHANNELS * BYTES;
    let mut place = from;
    let mut at: usize = 0;
    for p in 0..out.len() / stride {
        pixel::<CHANNELS, BYTES>(raw, plane_len, place, le, at, out);
        place += BYTES;
        at += stride;
    }
}

// The same for each number of channels that a picture has.
fn planes<const BYTES: usize>(
    raw: &[u8],
    plane_len: usize,
    from: usize,
    channels: usize,
    le: bool,
    out: &mut [u8],
)
    requires { PlanesFit raw.now plane_len from channels BYTES out.old }
    ensures { PlanesInto raw.now plane_len from channels BYTES le out.old out.new }
{
    match channels {
        1 => pixels_apart::<1, BYTES>(raw, plane_len, from, le, out),
        2 => pixels_apart::<2, BYTES>(raw, plane_len, from, le, out),
        3 => pixels_apart::<3, BYTES>(raw, plane_len, from, le, out),
        _ => pixels_apart::<4, BYTES>(raw, plane_len, from, le, out),
    }
}

// A row's bytes. Words of one or two bytes, as many as there is room for, are not refused.
pub(crate) fn gather(l: RasterLayout, raw: &[u8], y: usize, out: &mut [u8])
    requires { PlainRowAsked l raw.now y out.old }
    ensures { Gathered l raw.now y out.old out.new }
{
    let from = y * (l.encoded_width * l.plane_channels);
    if !l.fields.separate {
        let end = from + out.len();
        let _ = samples::reorder(&raw[from..end], l.fields.bytes, l.fields.le, false, out);
    } else if l.fields.bytes == 2 {
        planes::<2>(raw, l.plane_len, from, l.fields.ch, l.fields.le, out);
    } else {
        planes::<1>(raw, l.plane_len, from, l.fields.ch, l.fields.le, out);
    }
}
