// Where the damage of a row begins.
ghost use Rattle.std.specs.Prelude.{◌≡◌, true, ◌/◌, ◌≤◌, ◌<◌, length};
ghost use Rattle.damage.specs.Passes.{SoundTo, FirstDamaged};

use crate::{blocks, onward};
use answer::{ByteAt, SampleAt};

// Whether every byte of a block is sound: the largest is 0.
fn sound(block: &[u8]) -> bool
    ensures { result ≡ true → SoundTo block.now (length block.now) }
{
    let mut most: u8 = 0;
    for byte in block {
        most = onward::larger(most, *byte);
    }
    most == 0
}

// A place up to which all is sound, found by whole blocks.
fn sound_blocks(damage: &[u8]) -> usize
    ensures { SoundTo damage.now result × (result ≤ length damage.now) }
{
    let mut at: usize = 0;
    // By hand: the last block is shorter, and the place where one begins is the answer.
    while at < damage.len() {
        let end = blocks::block_end(at, damage.len(), 512);
        if !sound(&damage[at..end]) {
            return at;
        }
        at = end;
    }
    at
}

// The first damaged byte, or the row's end.
pub(crate) fn first_damaged(damage: &[u8]) -> ByteAt
    ensures { FirstDamaged damage.now result.0 }
{
    for at in sound_blocks(damage)..damage.len() {
        if damage[at] != 0 {
            return ByteAt(at);
        }
    }
    ByteAt(damage.len())
}

// The sample that a byte is one of.
pub(crate) fn sample_of(at: ByteAt, width: usize) -> SampleAt
    requires { 0 < width }
    ensures { result.0 ≡ at.0 / width }
{
    let at = at.0;
    SampleAt(at / width)
}
