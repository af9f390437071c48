// From the header to a page's directory.
ghost use Rattle.std.specs.Prelude.{◌≡◌, ◌+◌, ◌≤◌, length};
ghost use Rattle.answer.specs.Outcome.{unless, Step, outcome};
ghost use Rattle.laws.specs.Turns.{faults_below};
ghost use Rattle.entries.specs.Entries.{next_place, ascending as ascendingOf, header_faults, on_the_way, directory_at, place};
ghost use Rattle.entries.specs.Parts.{Room, OpenedAt};

use crate::numbers::{long, short};
use crate::{Directory, tag_at};
use answer::{Refusal, fault};

// The highest number of a page.
const LAST_PAGE: usize = 15;

// The most entries of a directory.
const MOST_ENTRIES: u16 = 64;

// The first two bytes, read as a SHORT.
pub(crate) const II: u16 = 18761;

const MM: u16 = 19789;

pub(crate) fn check_header(file: &[u8], page: usize) -> Result<(), Refusal>
    ensures { Step (header_faults file.now page) result }
{
    if LAST_PAGE < page {
        return Err(Refusal::Limit);
    }
    if file.len() < 8 {
        return Err(Refusal::Truncated);
    }
    let mark = short(file, true, 0);
    let version = short(file, mark == II, 2);
    fault(!((mark == II) | (mark == MM)), Refusal::Invalid)?;
    fault(version != 42, Refusal::Invalid)
}

// Where the next directory stands.
fn next_place(file: &[u8], d: Directory) -> u32
    requires { Room file.now d }
    ensures { result ≡ next_place file.now d }
{
    long(file, d.le, d.at as usize + (2 + 12 * (d.n as usize)))
}

// Whether each tag is below the next.
fn ascending(file: &[u8], d: Directory) -> bool
    requires { Room file.now d }
    ensures { result ≡ ascendingOf file.now d }
{
    for i in 1..d.n as usize {
        if tag_at(file, d, i) <= tag_at(file, d, i - 1) {
            return false;
        }
    }
    true
}

// The directory at a place.
fn open_at(file: &[u8], le: bool, at: u32) -> Result<Directory, Refusal>
    ensures { OpenedAt file.now le at result }
{
    if at == 0 {
        return Err(Refusal::Invalid);
    }
    if file.len() < at as usize + 2 {
        return Err(Refusal::Truncated);
    }
    let n = short(file, le, at as usize);
    if MOST_ENTRIES < n {
        return Err(Refusal::Limit);
    }
    if file.len() < at as usize + (6 + 12 * (n as usize)) {
        return Err(Refusal::Truncated);
    }
    let d = Directory { le, at, n };
    if !ascending(file, d) {
        return Err(Refusal::Invalid);
    }
    Ok(d)
}

// The directory of a page, from that of page 0 on.
pub(crate) fn walk(file: &[u8], le: bool, page: usize) -> Result<Directory, Refusal>
    requires { 8 ≤ length file.now }
    ensures { outcome result ≡ unless (faults_below (page + 1) (on_the_way file.now le)) (directory_at file.now le (place file.now le page)) }
{
    let mut at = long(file, le, 4);
    for _p in 0..page {
        let d = open_at(file, le, at)?;
        at = next_place(file, d);
    }
    open_at(file, le, at)
}
