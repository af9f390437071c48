// A file up to its planes: the header, the directory, and the values outside its entries.
ghost use Rattle.std.specs.Prelude.{◌≡◌, ◌+◌, ◌-◌, ◌*◌, ◌≤◌};
ghost use Rattle.answer.specs.Outcome.{pick};
ghost use Rattle.files.specs.File.{bits_of, bits_last, photometric as photometricOf, planar as planarOf, in_entry, front};
ghost use Rattle.files.specs.Parts.{Fit, plan_of, Planned, Wrote};

use crate::numbers::{Kind, put_entry, put_long, put_short};
use crate::plan::Plan;
use crate::tables::{Table, put_bits, put_resolutions, put_strips, strip_bytes};
use layout::Fields;

// The first two bytes, read as a SHORT.
const II: usize = 18761;

// The bits of a sample.
#[tactic(auto, unfolding(crate::specs::File::bits_of))]
fn depth_of(f: Fields) -> usize
    requires { f.bytes ≤ 8 }
    ensures { result ≡ bits_of f }
{
    if f.slots == 8 { 1 } else { 8 * f.bytes }
}

#[tactic(auto, unfolding(crate::specs::File::photometric))]
fn photometric(f: Fields) -> usize
    ensures { result ≡ photometricOf f }
{
    if 3 <= f.ch {
        2
    } else if f.white {
        0
    } else {
        1
    }
}

#[tactic(auto, unfolding(crate::specs::File::planar))]
fn planar(f: Fields) -> usize
    ensures { result ≡ planarOf f }
{
    if f.separate { 2 } else { 1 }
}

// The last four bytes of 258's entry: the bits of one sample, of two, or where all stand.
fn bits_last(f: Fields, p: Plan) -> usize
    requires { Fit f p.each × (p ≡ plan_of f p.each) }
    ensures { result ≡ bits_last f }
{
    let depth = depth_of(f);
    if 2 < f.ch {
        p.bits
    } else if f.ch == 2 {
        depth + 65536 * depth
    } else {
        depth
    }
}

// Those of 273's and 279's: what the one strip has, or where all strips' stand.
fn strips_last(p: Plan, one: usize, place: usize) -> usize
    ensures { result ≡ pick (in_entry 4 p.strips) one place }
{
    if p.strips <= 1 { one } else { place }
}

// The header, and how many entries there are.
fn put_header(out: &mut [u8], f: Fields, p: Plan)
    requires { Planned f p out.old }
    ensures { Wrote (front f p.each) 0 10 out.old out.new }
{
    put_short(out, 0, II);
    put_short(out, 2, 42);
    put_long(out, 4, 8);
    put_short(out, 8, p.entries);
}

// Tags 256 to 262.
fn put_shape(out: &mut [u8], f: Fields, p: Plan)
    requires { Planned f p out.old }
    ensures { Wrote (front f p.each) 10 60 out.old out.new }
{
    put_entry(out, 10, 256, Kind::Short, 1, f.w);
    put_entry(out, 22, 257, Kind::Short, 1, f.h);
    put_entry(out, 34, 258, Kind::Short, f.ch, bits_last(f, p));
    put_entry(out, 46, 259, Kind::Short, 1, 1);
    put_entry(out, 58, 262, Kind::Short, 1, photometric(f));
}

// Tags 273 to 279.
fn put_split(out: &mut [u8], f: Fields, p: Plan)
    requires { Planned f p out.old }
    ensures { Wrote (front f p.each) 70 48 out.old out.new }
{
    let offsets = strips_last(p, p.planes, p.offsets);
    let counts = strips_last(p, strip_bytes(p, p.rows), p.counts);
    put_entry(out, 70, 273, Kind::Long, p.strips, offsets);
    put_entry(out, 82, 277, Kind::Short, 1, f.ch);
    put_entry(out, 94, 278, Kind::Long, 1, p.each);
    put_entry(out, 106, 279, Kind::Long, p.strips, counts);
}

// Tags 282 to 317.
fn put_rest(out: &mut [u8], f: Fields, p: Plan)
    requires { Planned f p out.old }
    ensures { Wrote (front f p.each) 118 60 out.old out.new }
{
    put_entry(out, 118, 282, Kind::Rational, 1, p.resolutions);
    put_entry(out, 130, 283, Kind::Rational, 1, p.resolutions + 8);
    put_entry(out, 142, 284, Kind::Short, 1, planar(f));
    put_entry(out, 154, 296, Kind::Short, 1, 1);
    put_entry(out, 166, 317, Kind::Short, 1, 1);
}

// With alpha tag 338, and that there is no next directory.
fn put_end(out: &mut [u8], f: Fields, p: Plan)
    requires { Planned f p out.old }
    ensures { Wrote (front f p.each) 178 (p.bits - 178) out.old out.new }
{
    if p.entries == 15 {
        put_entry(out, 178, 338, Kind::Short, 1, 2);
        put_long(out, 190, 0)
    } else {
        put_long(out, 178, 0)
    }
}

// The directory.
fn put_directory(out: &mut [u8], f: Fields, p: Plan)
    requires { Planned f p out.old }
    ensures { Wrote (front f p.each) 0 p.bits out.old out.new }
{
    put_header(out, f, p);
    put_shape(out, f, p);
    put_split(out, f, p);
    put_rest(out, f, p);
    put_end(out, f, p);
}

// All of it.
pub(crate) fn put_front(f: Fields, p: Plan, out: &mut [u8])
    requires { Planned f p out.old }
    ensures { Wrote (front f p.each) 0 p.planes out.old out.new }
{
    put_directory(out, f, p);
    put_bits(out, f, p, depth_of(f));
    put_strips(out, f, p, Table::Places);
    put_strips(out, f, p, Table::Lengths);
    put_resolutions(out, f, p);
}
