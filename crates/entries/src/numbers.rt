// Numbers of a file: SHORTs of two bytes and LONGs of four.
ghost use Rattle.std.specs.Prelude.{◌≡◌, ◌+◌, ◌≤◌, length, ltb};
ghost use Rattle.entries.specs.Entries.{short as short_of, long as longOf, bytes_of};

use crate::SHORT;

// The SHORT at a place.
pub(crate) fn short(file: &[u8], le: bool, at: usize) -> u16
    requires { at + 2 ≤ length file.now }
    ensures { result ≡ short_of file.now le at }
{
    if le {
        words::join2(file[at + 0], file[at + 1])
    } else {
        words::join2(file[at + 1], file[at + 0])
    }
}

// The LONG at a place.
pub(crate) fn long(file: &[u8], le: bool, at: usize) -> u32
    requires { at + 4 ≤ length file.now }
    ensures { result ≡ longOf file.now le at }
{
    if le {
        words::join4(file[at + 0], file[at + 1], file[at + 2], file[at + 3])
    } else {
        words::join4(file[at + 3], file[at + 2], file[at + 1], file[at + 0])
    }
}

// The bytes of so many numbers of a type.
pub(crate) fn bytes(kind: u16, count: u32) -> usize
    ensures { result ≡ bytes_of kind count }
{
    let size = if kind == SHORT { 2 } else { 4 };
    size * (count as usize)
}

// Whether so many bytes at a place reach past a size.
pub(crate) fn past(size: usize, at: usize, bytes: usize) -> bool
    ensures { result ≡ ltb size (at + bytes) }
{
    size < at || size - at < bytes
}
