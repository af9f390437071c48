// How many marks there are. A block's count fits a byte, so that the compiler adds many marks at once.
ghost use Rattle.std.specs.Prelude.{◌≡◌, ◌≤◌, length};
ghost use Rattle.damage.specs.Marks.{damaged, counted};
ghost use Rattle.damage.specs.Passes.{Bits};

use crate::blocks;

fn few(marks: &[u8]) -> u8
    requires { Bits marks.now × (length marks.now ≤ 255) }
    ensures { result ≡ counted (length marks.now) (damaged marks.now) }
{
    let mut sum: u8 = 0;
    for mark in marks {
        sum += *mark;
    }
    sum
}

pub(crate) fn total(marks: &[u8]) -> usize
    requires { Bits marks.now }
    ensures { result ≡ counted (length marks.now) (damaged marks.now) }
{
    let mut sum: usize = 0;
    let mut n: usize = 0;
    // By hand: the last block is shorter, and a turn needs its end either way.
    while n < marks.len() {
        let end = blocks::block_end(n, marks.len(), 224);
        let more = few(&marks[n..end]) as usize;
        sum += more;
        n = end;
    }
    sum
}
