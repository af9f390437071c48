// Sections 6 and 7 of docs/RULES.md, rendering and plane writing, read slowly: each byte worked out by itself.
use crate::layout_reading::{check_record, packed, position_of, source};
use crate::outcome::Fault;
use crate::picture::Picture;
use crate::whole::{byte_at, digit};

// The first fault in rendering.
pub(crate) fn check_render(p: &Picture) -> Result<(), Fault> {
    check_record(p)?;
    Fault::Unsupported.when(p.bytes == 8)?;
    let map_end = p.map.saturating_add(p.colors.saturating_mul(6));
    Fault::Truncated.when(p.palette && p.file < map_end || p.length < p.scratch_len)?;
    Fault::OutputTooSmall.when(p.room < p.output_len)
}

// The place of a palette at column x, from the byte that holds it: the high nibble, and the high bit, first.
fn palette_place(slots: usize, v: u8, x: usize) -> usize {
    let v = usize::from(v);
    match slots {
        8 => digit(v, 2, 7 - x % 8),
        2 => digit(v, 16, 1 - x % 2),
        _ => v,
    }
}

// The more significant byte of the 16-bit entry of channel c: the map holds all reds, then greens, then blues.
fn colour(p: &Picture, file: &[u8], c: usize, place: usize) -> u8 {
    let entry = c.saturating_mul(p.colors).saturating_add(place);
    let low = p.map.saturating_add(entry.saturating_mul(2));
    byte_at(file, low.saturating_add(usize::from(p.le)))
}

// v, or 255 - v with white.
fn flipped(p: &Picture, v: u8) -> u8 {
    if p.white { 255 - v } else { v }
}

// A colour beside alpha byte a: of 255 times it over a the nearest number, the higher one of two, and at most 255.
fn straight(p: &Picture, v: u8, a: u8) -> u8 {
    let u = flipped(p, v);
    if p.alpha == 2 {
        return u;
    }
    if a == 0 {
        return 0;
    }
    let (n, d) = (255 * usize::from(u), usize::from(a));
    let up = d <= 2 * (n % d);
    u8::try_from(n / d + usize::from(up)).unwrap_or(255)
}

// Byte k of a picture whose rows are packed.
fn packed_byte(p: &Picture, file: &[u8], v: u8, k: usize) -> u8 {
    let at = position_of(p, k);
    let place = palette_place(p.slots, v, at.column);
    if p.palette {
        colour(p, file, at.channel, place)
    } else if place == 0 {
        flipped(p, 0)
    } else {
        flipped(p, 255)
    }
}

// Byte k of the picture that planes hold.
pub(crate) fn rendered(p: &Picture, file: &[u8], raw: &[u8], k: usize) -> u8 {
    let v = byte_at(raw, source(p, k));
    let last = p.ch.saturating_sub(1);
    let c = position_of(p, k).channel;
    if packed(p) {
        packed_byte(p, file, v, k)
    } else if p.alpha == 0 {
        flipped(p, v)
    } else if c == last {
        v
    } else {
        let alpha = k.saturating_sub(c).saturating_add(last);
        straight(p, v, byte_at(raw, source(p, alpha)))
    }
}

// Whether a byte of a bilevel picture is neither 0 nor 255.
fn some_odd(p: &Picture, picture: &[u8]) -> bool {
    picture
        .iter()
        .take(p.output_len)
        .any(|v| !matches!(*v, 0 | 255))
}

// The first fault in plane writing.
pub(crate) fn check_write(p: &Picture, picture: &[u8]) -> Result<(), Fault> {
    check_record(p)?;
    Fault::Unsupported.when(p.palette || p.bytes == 8 || p.alpha == 1)?;
    Fault::Truncated.when(p.length < p.output_len)?;
    Fault::OutputTooSmall.when(p.room < p.scratch_len)?;
    Fault::Invalid.when(p.slots == 8 && some_odd(p, picture))
}

// What byte k of the picture, which is v, puts into its byte of the planes: for bilevel one bit.
fn put_in(p: &Picture, v: u8, k: usize) -> u8 {
    let at = position_of(p, k);
    let u = flipped(p, v);
    if p.slots == 8 {
        return if u == 255 { 128 >> (at.column % 8) } else { 0 };
    }
    let is_alpha = p.alpha != 0 && at.channel.saturating_add(1) == p.ch;
    if is_alpha { v } else { u }
}

// Byte b of the planes of a picture: what the bytes whose place it is put there.
pub(crate) fn plane_byte(p: &Picture, picture: &[u8], b: usize) -> u8 {
    (0..p.output_len)
        .filter(|k| source(p, *k) == b)
        .map(|k| put_in(p, byte_at(picture, k), k))
        .fold(0, |sum: u8, v| sum.wrapping_add(v))
}
