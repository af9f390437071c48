// Whole numbers and bytes for any arguments, so that nothing built on them has a premise.

// How often b goes into a, and what is left over; 0 and 0 where b is 0.
pub(crate) fn divided(a: usize, b: usize) -> (usize, usize) {
    if b == 0 { (0, 0) } else { (a / b, a % b) }
}

pub(crate) fn quotient(a: usize, b: usize) -> usize {
    a.checked_div(b).unwrap_or(0)
}

// base to this power; the largest number where it is beyond that.
pub(crate) fn power(base: usize, exponent: usize) -> usize {
    base.saturating_pow(u32::try_from(exponent).unwrap_or(u32::MAX))
}

// The digit of v at this place in this base: v / base^place mod base.
pub(crate) fn digit(v: usize, base: usize, place: usize) -> usize {
    divided(quotient(v, power(base, place)), base).1
}

// Byte i; 0 past the end.
pub(crate) fn byte_at(bytes: &[u8], i: usize) -> u8 {
    bytes.get(i).copied().unwrap_or(0)
}
