// Bits of one byte, each a byte of a bilevel picture, in both directions.
ghost use Rattle.std.specs.Prelude.{◌≡◌, ◌+◌, ◌≤◌, ◌<◌, length};
ghost use Rattle.pixels.specs.Planes.{bilevel_bit};
ghost use Rattle.slots.specs.Rows.{byte_from, Spread};

// The first n bits, the highest first.
pub(crate) fn spread(t: u8, n: usize, out: &mut [u8], at: usize)
    requires { (n ≤ 8) × (at + n ≤ length out.old) }
    ensures { Spread t n out.old at out.new }
{
    for p in 0..n {
        out[at + p] = 255 * ((t >> (7 - p)) % 2);
    }
}

fn bit(white: bool, v: u8) -> u8
    ensures { (result ≡ bilevel_bit white v) × (result < 2) }
{
    u8::from((v == 0) == white)
}

// The byte of up to eight columns' bits, the highest first, 0 past the last.
pub(crate) fn byte(columns: &[u8], white: bool) -> u8
    requires { (0 < length columns.now) × (length columns.now ≤ 8) }
    ensures { result ≡ byte_from white columns.now 0 }
{
    let mut byte: u8 = 0;
    for v in columns {
        byte = 2 * byte + bit(white, *v);
    }
    byte << (8 - columns.len())
}
