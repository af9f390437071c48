// Sections 2 and 3 of docs/RULES.md, read slowly: each sample is summed along its chain from its row's start, each byte worked out by itself.
use crate::outcome::Fault;
use crate::strip::Strip;
use crate::whole::{byte_at, digit, divided, power, quotient};

pub(crate) fn served(width: usize) -> bool {
    matches!(width, 1 | 2 | 3 | 4 | 8)
}

// A strip's first fault.
pub(crate) fn check(p: &Strip) -> Result<(), Fault> {
    let unserved = !served(p.width) || p.channels == 0 || p.channels > 64 || p.row == 0;
    Fault::Unsupported.when(unserved)?;
    let pixel = p.channels.saturating_mul(p.width);
    Fault::Invalid.when(!p.row.is_multiple_of(pixel) || !p.length.is_multiple_of(p.row))
}

// The place of digit i among the bytes of a word, and the digit at a place.
fn digit_place(i: usize, width: usize, le: bool) -> usize {
    if le {
        i
    } else {
        width.saturating_sub(i).saturating_sub(1)
    }
}

// The word of `width` bytes at a place: 256 times the value of the digits above, plus the digit, from the highest on.
pub(crate) fn word(bytes: &[u8], from: usize, width: usize, le: bool) -> usize {
    (0..width).rev().fold(0, |above: usize, i| {
        let place = from.saturating_add(digit_place(i, width, le));
        above
            .saturating_mul(256)
            .saturating_add(usize::from(byte_at(bytes, place)))
    })
}

// v modulo 256^width.
fn modulo(v: usize, width: usize) -> usize {
    match width {
        8 => v,
        _ => divided(v, power(256, width)).1,
    }
}

// Sample n's own word.
pub(crate) fn own(bytes: &[u8], p: &Strip, n: usize) -> usize {
    word(bytes, n.saturating_mul(p.width), p.width, p.le)
}

// How many samples of its row sample n is the sum of, besides its own word.
fn steps(p: &Strip, n: usize) -> usize {
    if !p.predict {
        return 0;
    }
    let (_, column) = divided(n, quotient(p.row, p.width));
    quotient(column, p.channels)
}

// Sample n: the sum of the words of its chain.
pub(crate) fn sample(bytes: &[u8], p: &Strip, n: usize) -> usize {
    let sum = (0..=steps(p, n))
        .map(|i| own(bytes, p, n.saturating_sub(i.saturating_mul(p.channels))))
        .fold(0, |sum: usize, word| sum.wrapping_add(word));
    modulo(sum, p.width)
}

// Word n of forward prediction: the word less the one `channels` before it in the same row.
pub(crate) fn forward_word(bytes: &[u8], p: &Strip, n: usize) -> usize {
    let before = match steps(p, n) {
        0 => 0,
        _ => own(bytes, p, n.saturating_sub(p.channels)),
    };
    modulo(own(bytes, p, n).wrapping_sub(before), p.width)
}

// Byte k of samples or words written in the asked byte order, where v is the one that it belongs to.
pub(crate) fn byte_of(v: usize, p: &Strip, k: usize) -> u8 {
    let (_, i) = divided(k, p.width);
    (digit(v, 256, digit_place(i, p.width, p.out_le)) % 256) as u8
}

// Byte k of each group of `width` bytes written backwards.
pub(crate) fn swapped_byte(bytes: &[u8], width: usize, k: usize) -> u8 {
    let (group, i) = divided(k, width);
    let place = group.saturating_mul(width);
    byte_at(bytes, place.saturating_add(digit_place(i, width, false)))
}
