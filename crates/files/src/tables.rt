// The values that stand outside their entries: bits of samples, places and lengths of strips, resolutions. The layout `f` of a plan is handed on for the
// contracts, which speak of it.
ghost use Rattle.std.specs.Prelude.{◌≡◌, ◌*◌, ◌≤◌};
ghost use Rattle.answer.specs.Outcome.{pick};
ghost use Rattle.layout.specs.Layout.{byte_limit};
ghost use Rattle.directory.specs.Page.{smaller};
ghost use Rattle.files.specs.File.{bits_of, front};
ghost use Rattle.files.specs.Parts.{Planned, left_after, is_places, Wrote};

use crate::numbers::{put_long, put_short};
use crate::plan::Plan;
use layout::Fields;

// The bytes of a strip that finds so many rows left of its plane.
pub(crate) fn strip_bytes(p: Plan, left: usize) -> usize
    requires { p.each * p.row ≤ byte_limit }
    ensures { result ≡ smaller p.each left * p.row }
{
    left.min(p.each) * p.row
}

// The rows that the next strip finds left, where this one finds so many: those past it, or all of the next plane.
fn left_after(p: Plan, left: usize) -> usize
    ensures { result ≡ left_after p left }
{
    if p.each < left { left - p.each } else { p.rows }
}

// The bits of each sample.
pub(crate) fn put_bits(out: &mut [u8], f: Fields, p: Plan, depth: usize)
    requires { (depth ≡ bits_of f) × Planned f p out.old }
    ensures { Wrote (front f p.each) p.bits (2 * p.bits_outside) out.old out.new }
{
    for j in 0..p.bits_outside {
        put_short(out, p.bits + 2 * j, depth);
    }
}

// The two tables of the strips: where each stands, and its length.
#[derive(Clone, Copy)]
pub(crate) enum Table {
    Places,
    Lengths,
}

impl Table {
    // Where it stands.
    fn begin(self, p: Plan) -> usize
        ensures { result ≡ pick (is_places self) p.offsets p.counts }
    {
        match self {
            Table::Places => p.offsets,
            Table::Lengths => p.counts,
        }
    }

    // What it has of a strip.
    fn number(self, place: usize, bytes: usize) -> usize
        ensures { result ≡ pick (is_places self) place bytes }
    {
        match self {
            Table::Places => place,
            Table::Lengths => bytes,
        }
    }
}

// A LONG for each strip.
pub(crate) fn put_strips(out: &mut [u8], f: Fields, p: Plan, table: Table)
    requires { Planned f p out.old }
    ensures { Wrote (front f p.each) (pick (is_places table) p.offsets p.counts) (4 * p.strips_outside) out.old out.new }
{
    let at = table.begin(p);
    let mut place = p.planes;
    let mut left = p.rows;
    for k in 0..p.strips_outside {
        let bytes = strip_bytes(p, left);
        put_long(out, at + 4 * k, table.number(place, bytes));
        place += bytes;
        left = left_after(p, left);
    }
}

// 1 / 1, twice.
pub(crate) fn put_resolutions(out: &mut [u8], f: Fields, p: Plan)
    requires { Planned f p out.old }
    ensures { Wrote (front f p.each) p.resolutions 16 out.old out.new }
{
    let at = p.resolutions;
    put_long(out, at, 1);
    put_long(out, at + 4, 1);
    put_long(out, at + 8, 1);
    put_long(out, at + 12, 1);
}
