// A page's strips: where they stand, and what is wrong with one.
ghost use Rattle.std.specs.Prelude.{◌≡◌, ◌+◌, ◌-◌, ◌*◌, ◌%◌, ◌≤◌, ◌<◌, [], length, eqb};
ghost use Rattle.answer.specs.Outcome.{pick, Step};
ghost use Rattle.answer.specs.Table.{filled};
ghost use Rattle.packbits.specs.Rows.{rows_faults};
ghost use Rattle.tags.specs.Tags.{strips_per_plane};
ghost use Rattle.directory.specs.Page.{smaller, strip_place, strip_length, strip_faults, strips_faults, part_number};

use answer::{Refusal, fault};
use entries::{Field, value};
use packbits::check_rows;
use tags::strips_per_plane;

// What strips are found by: their places and lengths, the rows of the page and of a strip, the bytes of a row, and whether rows are packed.
#[derive(Clone, Copy)]
pub(crate) struct Strips {
    pub le: bool,
    pub offsets: Field,
    pub counts: Field,
    pub rows: u32,
    pub each: u32,
    pub row: u32,
    pub packbits: bool,
}

// The rows of a strip, which is the turn-th of its plane.
fn rows_at(rows: u32, each: u32, turn: u32) -> u32
    ensures { result ≡ smaller each (rows - turn * each) }
{
    let before = (turn as usize) * (each as usize);
    let left = (rows as usize).saturating_sub(before);
    left.min(each as usize) as u32
}

fn times(a: u32, b: u32) -> usize
    ensures { result ≡ a * b }
{
    (a as usize) * (b as usize)
}

// Where a strip begins.
pub(crate) fn place_of(file: &[u8], s: Strips, k: u32) -> u32
    ensures { result ≡ strip_place file.now s k }
{
    value(file, s.le, s.offsets, k)
}

pub(crate) fn length_of(file: &[u8], s: Strips, k: u32) -> u32
    ensures { result ≡ strip_length file.now s k }
{
    value(file, s.le, s.counts, k)
}

// The rows of a strip, which are read if they are packed.
fn check_packed(packed: bool, strip: &[u8], rows: u32, row: u32) -> Result<(), Refusal>
    ensures { Step (pick packed (rows_faults strip.now rows row) []) result }
{
    if packed {
        check_rows(strip, rows as usize, row as usize)
    } else {
        Ok(())
    }
}

// Strip k, which is the turn-th of its plane.
fn check_turn(file: &[u8], s: Strips, k: u32, turn: u32) -> Result<(), Refusal>
    requires { turn ≡ k % strips_per_plane s.rows s.each }
    ensures { Step (strip_faults file.now s k) result }
{
    let at = place_of(file, s, k) as usize;
    let bytes = length_of(file, s, k) as usize;
    let rows = rows_at(s.rows, s.each, turn);
    let right = times(rows, s.row);
    fault(!s.packbits & (bytes != right), Refusal::Invalid)?;
    fault(file.len() < at + bytes, Refusal::Truncated)?;
    let end = at + bytes;
    check_packed(s.packbits, &file[at..end], rows, s.row)
}

fn rest(k: u32, per: u32) -> u32
    ensures { result ≡ k % per }
{
    if per == 0 { k } else { k % per }
}

pub(crate) fn check_strip(file: &[u8], s: Strips, k: u32) -> Result<(), Refusal>
    ensures { Step (strip_faults file.now s k) result }
{
    let turn = rest(k, strips_per_plane(s.rows, s.each));
    check_turn(file, s, k, turn)
}

// The next strip's turn: the plane's next, or the next plane's first.
fn next_turn(turn: u32, per: u32) -> u32
    requires { turn < 4294967295 }
    ensures { result ≡ pick (eqb (turn + 1) per) 0 (turn + 1) }
{
    let next = turn + 1;
    if next == per { 0 } else { next }
}

pub(crate) fn check_strips(file: &[u8], s: Strips) -> Result<(), Refusal>
    ensures { Step (strips_faults file.now s) result }
{
    let per = strips_per_plane(s.rows, s.each);
    let mut turn: u32 = 0;
    for k in 0..s.offsets.count {
        check_turn(file, s, k, turn)?;
        turn = next_turn(turn, per);
    }
    Ok(())
}

// Every strip's place and length, by turns.
pub(crate) fn fill_parts(file: &[u8], s: Strips, parts: &mut [usize])
    requires { 2 * s.offsets.count ≤ length parts.old }
    ensures { parts.new ≡ filled (2 * s.offsets.count) (part_number file.now s) parts.old }
{
    for k in 0..s.offsets.count {
        let at = 2 * (k as usize);
        parts[at + 0] = place_of(file, s, k) as usize;
        parts[at + 1] = length_of(file, s, k) as usize;
    }
}
