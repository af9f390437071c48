// Pixels: what is done to bytes of a picture once they stand in its order. What a rendered and a written byte is stands in specs/.
#![tactic(auto)]

mod shares;

ghost use Rattle.std.specs.Prelude.{◌≡◌, ◌+◌, ◌/◌, true, min};
ghost use Rattle.laws.specs.Tabled.{Tabled};
ghost use Rattle.pixels.specs.Render.{flipped, high_byte, Turned};
ghost use Rattle.pixels.specs.Finish.{Inverted, share_of, StraightBy, ColourBy, PixelGiven, WholePixels, PixelStraightened, PixelsStraightened, Straightened};

use crate::shares::SHARES;
use answer::Refusal;

// A byte, inverted where white is 0.
pub fn flip(white: bool, v: u8) -> u8
    ensures { result ≡ flipped white v }
{
    if white { 255 - v } else { v }
}

// Which byte of a stored two-byte word is the more significant one.
pub fn high(le: bool) -> usize
    ensures { result ≡ high_byte le }
{
    if le { 1 } else { 0 }
}

// A stored word's bytes as the picture has them, or a picture's as they are stored: turned where that is little-endian.
pub fn word<const BYTES: usize>(stored: [u8; BYTES], le: bool) -> [u8; BYTES]
    ensures { Turned BYTES stored.entry le result }
{
    let mut word = stored;
    for b in 0..BYTES {
        let from = if le { BYTES - 1 - b } else { b };
        word[b] = stored[from];
    }
    word
}

// Parts of 2^17 to nearest, at most 255. By hand: with `min` before the sum, which is a branch, rows whose colours are above their alpha took 3 to 5
// times as long.
fn rounded(full: u64) -> u8
    ensures { result ≡ (min full 33423360 + 65536) / 131072 }
{
    if full < 33423360 {
        ((full + 65536) / 131072) as u8
    } else {
        255
    }
}

// A colour that was multiplied by alpha, divided by it again: rule 6.5 for alpha kind 1. Times its alpha's share it is 255 × u / a in parts of 2^17,
// of which 33423360 are 255 and 65536 a half.
fn straighten(u: u8, share: u32) -> u8
    ensures { StraightBy share u result }
{
    let full = (u as u64) * (share as u64);
    rounded(full)
}

// A colour byte beside an alpha of this share.
fn colour(v: u8, share: u32, multiplied: bool, white: bool) -> u8
    ensures { ColourBy share multiplied white v result }
{
    let u = flip(white, v);
    if multiplied { straighten(u, share) } else { u }
}

// Every byte inverted, in place.
pub fn invert(s: &mut [u8])
    ensures { Inverted s.old s.new }
{
    for v in s.iter_mut() {
        *v = flip(true, *v);
    }
}

fn straighten_pixel(s: &mut [u8], at: usize, last: usize, multiplied: bool, white: bool, share: u32)
    requires { PixelGiven s.old at last multiplied share }
    ensures { PixelStraightened s.old at last multiplied white s.new }
{
    for c in 0..last {
        s[at + c] = colour(s[at + c], share, multiplied, white);
    }
}

// Every pixel by its alpha's share, which the compiler leaves out where nothing was multiplied.
#[inline(always)]
fn straighten_pixels(
    s: &mut [u8],
    channels: usize,
    multiplied: bool,
    white: bool,
    shares: &[u32; 256],
)
    requires { WholePixels s.old channels × Tabled 256 share_of shares.now }
    ensures { PixelsStraightened s.old channels multiplied white s.new }
{
    let last = channels - 1;
    let mut at: usize = 0;
    for p in 0..s.len() / channels {
        let share = shares[s[at + last] as usize];
        straighten_pixel(s, at, last, multiplied, white, share);
        at += channels;
    }
}

// The same, with the numbers of channels that pictures have said outright, so that the compiler makes a loop of each: with the arms within the
// loop rows of two channels took 1.7 times as long.
#[inline(always)]
fn straighten_known(
    s: &mut [u8],
    channels: usize,
    multiplied: bool,
    white: bool,
    shares: &[u32; 256],
)
    requires { WholePixels s.old channels × Tabled 256 share_of shares.now }
    ensures { PixelsStraightened s.old channels multiplied white s.new }
{
    match channels {
        2 => straighten_pixels(s, 2, multiplied, white, shares),
        4 => straighten_pixels(s, 4, multiplied, white, shares),
        _ => straighten_pixels(s, channels, multiplied, white, shares),
    }
}

// The same by the table, which one computed test shows to be right. Taken in wherever it is called: left a call, it asked for both flags at every
// colour, and rows beside alpha took 3 to 5 times as long.
#[inline(always)]
fn straighten_whole(s: &mut [u8], channels: usize, multiplied: bool, white: bool)
    requires { WholePixels s.old channels }
    ensures { PixelsStraightened s.old channels multiplied white s.new }
{
    straighten_known(s, channels, multiplied, white, &SHARES);
}

// Colours beside alpha, in place: divided by it if they were multiplied, inverted where white is 0. Each pixel's last byte is its alpha. It stays a
// call: its callers' other loops need the registers.
#[inline(never)]
pub fn straighten_row(
    s: &mut [u8],
    channels: usize,
    multiplied: bool,
    white: bool,
) -> Result<(), Refusal>
    ensures { Straightened s.old channels multiplied white result s.new }
{
    if channels == 0 {
        return Err(Refusal::Unsupported);
    }
    if s.len() % channels != 0 {
        return Err(Refusal::Invalid);
    }
    if multiplied {
        // two calls, each of which is taken in with its flags known
        if white {
            straighten_whole(s, channels, true, true);
        } else {
            straighten_whole(s, channels, true, false);
        }
    } else {
        straighten_whole(s, channels, false, white);
    }
    Ok(())
}
