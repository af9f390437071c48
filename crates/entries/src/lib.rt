// A TIFF file's header, its directories and their entries: the field of a tag, its values, and the faults that any field can have.
#![tactic(auto)]

use answer::{Refusal, fault};

mod numbers;
mod walk;

ghost use Rattle.std.specs.Prelude.{◌≡◌, ◌+◌, ◌≤◌, length, not, ◌&&◌, ◌||◌, eqb};
ghost use Rattle.answer.specs.Outcome.{Step};
ghost use Rattle.entries.specs.Entries.{tag_at, entry_from, is_there, values_at, number_at, bytes_of, SHORT, LONG, field_at, missing as missingOf, field_from, value_of, field_faults, DirectoryOpened};
ghost use Rattle.entries.specs.Parts.{Room, Entry, is_required, takes_longs, is_several};

use numbers::{bytes, long, past, short};

// A directory: its byte order, its place, and how many entries it has.
#[derive(Clone, Copy)]
pub struct Directory {
    pub le: bool,
    pub at: u32,
    pub n: u16,
}

// A field: the entry at which its tag stands or would stand, whether it is there, its type, how many values it has and where they stand, and
// the number in the entry, which is the value where there is one. A missing field has all of these too (`missing`), so that it is read as any other: it is
// no Option.
#[derive(Clone, Copy)]
pub struct Field {
    pub entry: usize,
    pub there: bool,
    pub kind: u16,
    pub count: u32,
    pub place: usize,
    pub value: u32,
}

// What is asked of a field: that it is there, or it has a default; numbers of two bytes, or of four too; one value, or some.
#[derive(Clone, Copy)]
pub enum Need {
    Required,
    Defaulted,
}

#[derive(Clone, Copy)]
pub enum Kinds {
    Shorts,
    LongsToo,
}

#[derive(Clone, Copy)]
pub enum Amount {
    One,
    Several,
}

// The types of fields that are read: numbers, since a file can have any of 65536, and `field_faults` speaks of them so.
const SHORT: u16 = 3;

const LONG: u16 = 4;

// The directory of a page.
pub fn open_directory(file: &[u8], page: usize) -> Result<Directory, Refusal>
    ensures { DirectoryOpened file.now page result }
{
    walk::check_header(file, page)?;
    walk::walk(file, short(file, true, 0) == walk::II, page)
}

fn tag_at(file: &[u8], d: Directory, i: usize) -> u16
    requires { Entry file.now d i }
    ensures { result ≡ tag_at file.now d i }
{
    short(file, d.le, d.at as usize + (2 + 12 * i))
}

// The first entry whose tag is not lower, looked for from an entry on.
fn seek(file: &[u8], d: Directory, from: usize, tag: u16) -> usize
    requires { Room file.now d }
    ensures { result ≡ entry_from file.now d from tag }
{
    let n = d.n as usize;
    for i in from..n {
        if tag <= tag_at(file, d, i) {
            return i;
        }
    }
    from.max(n)
}

fn is_there(file: &[u8], d: Directory, tag: u16, i: usize) -> bool
    requires { Room file.now d }
    ensures { result ≡ is_there file.now d tag i }
{
    i < d.n as usize && tag_at(file, d, i) == tag
}

// Where so many bytes of values stand: in the entry, or where it says.
fn values_at(file: &[u8], le: bool, inside: usize, bytes: usize) -> usize
    requires { inside + 4 ≤ length file.now }
    ensures { result ≡ values_at file.now le inside bytes }
{
    if bytes <= 4 {
        inside
    } else {
        long(file, le, inside) as usize
    }
}

// The number of a type at a place.
fn number_at(file: &[u8], le: bool, kind: u16, at: usize) -> u32
    requires { at + bytes_of kind 1 ≤ length file.now }
    ensures { result ≡ number_at file.now le kind at }
{
    if kind == SHORT {
        short(file, le, at) as u32
    } else {
        long(file, le, at)
    }
}

fn field_at(file: &[u8], d: Directory, i: usize) -> Field
    requires { Entry file.now d i }
    ensures { result ≡ field_at file.now d i }
{
    let e = d.at as usize + (2 + 12 * i);
    let kind = short(file, d.le, e + 2);
    let count = long(file, d.le, e + 4);
    let place = values_at(file, d.le, e + 8, bytes(kind, count));
    let value = number_at(file, d.le, kind, e + 8);
    Field {
        entry: i,
        there: true,
        kind,
        count,
        place,
        value,
    }
}

// The field of a tag, looked for from an entry on, or its default.
pub fn field_from(file: &[u8], d: Directory, from: usize, tag: u16, default: u32) -> Field
    ensures { result ≡ field_from file.now d from tag default }
{
    if file.len() < d.at as usize + (6 + 12 * (d.n as usize)) {
        return missing(from, default);
    }
    let i = seek(file, d, from, tag);
    if is_there(file, d, tag, i) {
        field_at(file, d, i)
    } else {
        missing(i, default)
    }
}

fn missing(entry: usize, default: u32) -> Field
    ensures { result ≡ missingOf entry default }
{
    Field {
        entry,
        there: false,
        kind: SHORT,
        count: 1,
        place: 0,
        value: default,
    }
}

// Value j of a field, 0 where it is not all in the file. Type by type: with the bytes of a type as a number, which is multiplied, places of strips were read
// at 0.86 of this speed.
#[tactic(auto, unfolding(crate::specs::Entries::value_of))]
pub fn value(file: &[u8], le: bool, f: Field, j: u32) -> u32
    ensures { result ≡ value_of file.now le f j }
{
    let i = j as usize;
    if f.kind == SHORT {
        if past(file.len(), f.place, 2 * i + 2) {
            return 0;
        }
        short(file, le, f.place + 2 * i) as u32
    } else {
        if past(file.len(), f.place, 4 * i + 4) {
            return 0;
        }
        long(file, le, f.place + 4 * i)
    }
}

impl Field {
    // Whether it is missing, though it must be there.
    fn lacks(self, need: Need) -> bool
        ensures { result ≡ (is_required need && not self.there) }
    {
        match need {
            Need::Required => !self.there,
            Need::Defaulted => false,
        }
    }

    // Whether its type is one that is read.
    fn is_of(self, kinds: Kinds) -> bool
        ensures { result ≡ (eqb self.kind SHORT || takes_longs kinds && eqb self.kind LONG) }
    {
        match kinds {
            Kinds::Shorts => self.kind == SHORT,
            Kinds::LongsToo => (self.kind == SHORT) | (self.kind == LONG),
        }
    }

    // Whether it has another count of values than asked.
    fn miscounts(self, amount: Amount) -> bool
        ensures { result ≡ (is_several amount && eqb self.count 0 || not (is_several amount) && not (eqb self.count 1)) }
    {
        match amount {
            Amount::One => self.count != 1,
            Amount::Several => self.count == 0,
        }
    }
}

// The faults of any field in a file of a size.
#[tactic(auto, using(answer::proofs::Chains::unless_next), unfolding(crate::specs::Entries::field_faults))]
pub fn check_field(
    size: usize,
    need: Need,
    kinds: Kinds,
    amount: Amount,
    f: Field,
) -> Result<(), Refusal>
    ensures { Step (field_faults size (is_required need) (takes_longs kinds) (is_several amount) f) result }
{
    fault(f.lacks(need), Refusal::Invalid)?;
    fault(!f.is_of(kinds), Refusal::Invalid)?;
    fault(f.miscounts(amount), Refusal::Invalid)?;
    fault(
        past(size, f.place, bytes(f.kind, f.count)),
        Refusal::Truncated,
    )
}
