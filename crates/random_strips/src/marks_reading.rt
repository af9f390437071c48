// Damage marks, found by trying another value of each damaged byte.
use crate::case::LONGEST;
use crate::strip::Strip;
use crate::strip_reading::sample;
use crate::whole::quotient;

// Whether another value of byte k changes sample n of a strip of these bytes.
fn changes(p: &Strip, n: usize, k: usize) -> bool {
    let mut bytes = [7u8; LONGEST];
    let before = sample(&bytes, p, n);
    if let Some(byte) = bytes.get_mut(k) {
        *byte = 8;
    }
    sample(&bytes, p, n) != before
}

// Whether a damaged byte can change sample n. Every byte adds its own value times a power of 256 to a sample, or nothing, whatever the
// others are: so one value tried for one byte at a time shows each byte that can change it.
pub(crate) fn mark(damage: &[u8], p: &Strip, n: usize) -> bool {
    damage
        .iter()
        .enumerate()
        .any(|(k, byte)| *byte != 0 && changes(p, n, k))
}

// How many samples are marked.
pub(crate) fn count(damage: &[u8], p: &Strip) -> usize {
    (0..quotient(damage.len(), p.width))
        .filter(|n| mark(damage, p, *n))
        .count()
}
