// Planes one after another, each filled with its channel of every pixel.
ghost use Rattle.std.specs.Prelude.{◌≡◌, ◌<◌};
ghost use Rattle.pixels.specs.Render.{OneOrTwo};
ghost use Rattle.pixels.specs.Planes.{flips_channel};
ghost use Rattle.writing.specs.Parts.{ChannelFits, ChannelInto, PlaneOf, PlaneWritten, Apart, WrittenInto};

use layout::RasterLayout;

// One channel of every pixel, of this many bytes.
fn channel_of<const BYTES: usize>(
    picture: &[u8],
    first: usize,
    stride: usize,
    le: bool,
    out: &mut [u8],
)
    requires { ChannelFits picture.now first stride BYTES out.old × OneOrTwo BYTES }
    ensures { ChannelInto picture.now first stride BYTES le out.old out.new }
{
    let mut from = first;
    let mut at: usize = 0;
    for p in 0..out.len() / BYTES {
        let mut shown = [0; BYTES];
        shown.copy_from_slice(&picture[from..from + BYTES]);
        let word = pixels::word(shown, le);
        let end = at + BYTES;
        out[at..end].copy_from_slice(&word);
        from += stride;
        at += BYTES;
    }
}

fn channel(picture: &[u8], first: usize, stride: usize, bytes: usize, le: bool, out: &mut [u8])
    requires { ChannelFits picture.now first stride bytes out.old × OneOrTwo bytes }
    ensures { ChannelInto picture.now first stride bytes le out.old out.new }
{
    if bytes == 2 {
        channel_of::<2>(picture, first, stride, le, out);
    } else {
        channel_of::<1>(picture, first, stride, le, out);
    }
}

// Whether white flips channel c: every one but alpha.
fn flips_channel(l: RasterLayout, c: usize) -> bool
    requires { c < l.fields.ch }
    ensures { result ≡ flips_channel l c }
{
    l.fields.white && (l.fields.alpha == 0 || c != l.fields.ch - 1)
}

// The plane of channel c.
fn write_plane(l: RasterLayout, picture: &[u8], c: usize, out: &mut [u8])
    requires { PlaneOf l picture.now c out.old }
    ensures { PlaneWritten l picture.now c out.old out.new }
{
    channel(
        picture,
        c * l.fields.bytes,
        l.fields.ch * l.fields.bytes,
        l.fields.bytes,
        l.fields.le,
        out,
    );
    if flips_channel(l, c) {
        pixels::invert(out);
    }
}

// Every plane.
pub(crate) fn write_apart(l: RasterLayout, picture: &[u8], planes: &mut [u8])
    requires { Apart l picture.now planes.old }
    ensures { WrittenInto l picture.now planes.old planes.new }
{
    let mut start: usize = 0;
    for c in 0..l.fields.ch {
        let end = start + l.plane_len;
        write_plane(l, picture, c, &mut planes[start..end]);
        start = end;
    }
}
