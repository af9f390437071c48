// The marks of samples from their own bytes. The bytes of a sample are read in a straight line, byte p at `at + p`, as a word's definition has
// them, and joined to a word, which is 0 exactly if they all are. A function for each width, as in `words`: those need a premise, and so are private there.
ghost use Rattle.std.specs.Prelude.{◌≡◌, true, ◌+◌, ◌≤◌, length};
ghost use Rattle.words.specs.Promises.{served};
ghost use Rattle.words.specs.Word.{word_at};
ghost use Rattle.damage.specs.Marks.{mark_byte, struck_at};
ghost use Rattle.damage.specs.Passes.{OneEach, OwnInto};

fn word2(damage: &[u8], at: usize) -> u16
    requires { at + 2 ≤ length damage.now }
    ensures { result ≡ word_at damage.now at 2 true }
{
    words::join2(damage[at + 0], damage[at + 1])
}

fn word3(damage: &[u8], at: usize) -> u32
    requires { at + 3 ≤ length damage.now }
    ensures { result ≡ word_at damage.now at 3 true }
{
    words::join3(damage[at + 0], damage[at + 1], damage[at + 2])
}

fn word4(damage: &[u8], at: usize) -> u32
    requires { at + 4 ≤ length damage.now }
    ensures { result ≡ word_at damage.now at 4 true }
{
    words::join4(
        damage[at + 0],
        damage[at + 1],
        damage[at + 2],
        damage[at + 3],
    )
}

// Whether a byte of the sample at a place is damaged. Of eight bytes each half is joined: the compiler compares four bytes, many times at
// once, faster than eight.
fn struck(damage: &[u8], at: usize, width: usize) -> bool
    requires { (served width ≡ true) × (at + width ≤ length damage.now) }
    ensures { result ≡ struck_at width damage.now at }
{
    if width == 1 {
        damage[at] != 0
    } else if width == 2 {
        word2(damage, at) != 0
    } else if width == 3 {
        word3(damage, at) != 0
    } else if width == 4 {
        word4(damage, at) != 0
    } else {
        (word4(damage, at) != 0) | (word4(damage, at + 4) != 0)
    }
}

// The mark of the sample at a place.
pub(crate) fn mark_at(damage: &[u8], at: usize, width: usize) -> u8
    requires { (served width ≡ true) × (at + width ≤ length damage.now) }
    ensures { result ≡ mark_byte (struck_at width damage.now at) }
{
    if struck(damage, at, width) { 1 } else { 0 }
}

// By hand: with a place worked out from the mark's number it runs at 0.6 to 0.8 in strips of up to 64 KiB.
fn own_of(damage: &[u8], width: usize, marks: &mut [u8])
    requires { (served width ≡ true) × OneEach damage.now width marks.old }
    ensures { OwnInto damage.now width marks.old marks.new }
{
    let mut at: usize = 0;
    let mut n: usize = 0;
    while n < marks.len() {
        marks[n] = mark_at(damage, at, width);
        at += width;
        n += 1;
    }
}

// Each arm knows its width, so that the compiler makes a loop of each.
pub(crate) fn own(damage: &[u8], width: usize, marks: &mut [u8])
    requires { (served width ≡ true) × OneEach damage.now width marks.old }
    ensures { OwnInto damage.now width marks.old marks.new }
{
    if width == 1 {
        own_of(damage, width, marks)
    } else if width == 2 {
        own_of(damage, width, marks)
    } else if width == 3 {
        own_of(damage, width, marks)
    } else if width == 4 {
        own_of(damage, width, marks)
    } else if width == 8 {
        own_of(damage, width, marks)
    } else {
        own_of(damage, width, marks)
    }
}
