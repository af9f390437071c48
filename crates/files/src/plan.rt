// Where the parts of a file stand.
ghost use Rattle.std.specs.Prelude.{◌≡◌, ◌*◌, ◌≤◌};
ghost use Rattle.files.specs.File.{outside as outsideOf, entry_count as entryCount};
ghost use Rattle.files.specs.Parts.{plan_of, Asked};

use layout::{Fields, RasterLayout};

// Rows of the picture and of a strip, bytes of a row, how many strips and entries there are, how many of their numbers stand outside the entries,
// where the parts stand, and the bytes of all.
#[derive(Clone, Copy)]
pub(crate) struct Plan {
    pub rows: usize,
    pub each: usize,
    pub row: usize,
    pub strips: usize,
    pub entries: usize,
    pub bits_outside: usize,
    pub strips_outside: usize,
    pub bits: usize,
    pub offsets: usize,
    pub counts: usize,
    pub resolutions: usize,
    pub planes: usize,
    pub length: usize,
}

// How many of n values of a width stand outside their entry.
#[tactic(auto, unfolding(crate::specs::File::outside))]
fn outside(width: usize, n: usize) -> usize
    requires { width * n ≤ 4294967296 }
    ensures { result ≡ outsideOf width n }
{
    if width * n <= 4 { 0 } else { n }
}

// How many entries there are: with alpha one more.
#[tactic(auto, unfolding(crate::specs::File::entry_count))]
fn entry_count(f: Fields) -> usize
    ensures { result ≡ entryCount f }
{
    if f.alpha == 0 { 14 } else { 15 }
}

pub(crate) fn plan_of(l: RasterLayout, each: usize) -> Plan
    requires { Asked l each }
    ensures { result ≡ plan_of l.fields each }
{
    let f = l.fields;
    let strips = (f.h + (each - 1)) / each * l.planes;
    let entries = entry_count(f);
    let bits_outside = outside(2, f.ch);
    let strips_outside = outside(4, strips);
    let bits = 14 + 12 * entries;
    let offsets = bits + 2 * bits_outside;
    let counts = offsets + 4 * strips_outside;
    let resolutions = counts + 4 * strips_outside;
    let planes = resolutions + 16;
    Plan {
        rows: f.h,
        each,
        row: l.encoded_width * l.plane_channels,
        strips,
        entries,
        bits_outside,
        strips_outside,
        bits,
        offsets,
        counts,
        resolutions,
        planes,
        length: planes + l.scratch_len,
    }
}
