// Marks carried onward along a row: a mark is also that of the sample `channels` before it, which is read back.
ghost use Rattle.std.specs.Prelude.{◌≡◌, ◌<◌};
ghost use Rattle.damage.specs.Passes.{larger as largerOf, Bits, OnwardInto};

pub(crate) fn larger(a: u8, b: u8) -> u8
    ensures { result ≡ largerOf a b }
{
    if a < b { b } else { a }
}

pub(crate) fn onward(channels: usize, marks: &mut [u8])
    requires { Bits marks.old × (0 < channels) }
    ensures { OnwardInto channels marks.old marks.new }
{
    for n in channels..marks.len() {
        marks[n] = larger(marks[n], marks[n - channels]);
    }
}
