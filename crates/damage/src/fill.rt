// Marks written without looking at the damage.
ghost use Rattle.std.specs.Prelude.{◌≡◌, ◌≤◌, length};
ghost use Rattle.answer.specs.Table.{table};
ghost use Rattle.damage.specs.Passes.{MarkedFrom};

use answer::SampleAt;

fn fill(mark: u8, marks: &mut [u8])
    ensures { marks.new ≡ table (length marks.old) (λ n. mark) }
{
    for each in marks.iter_mut() {
        *each = mark;
    }
}

// 0 up to a sample and 1 from it on; answers how many are 1.
pub(crate) fn mark_from(from: SampleAt, marks: &mut [u8]) -> usize
    requires { from.0 ≤ length marks.old }
    ensures { MarkedFrom from.0 marks.old result marks.new }
{
    let from = from.0;
    let all = marks.len();
    fill(0, &mut marks[0..from]);
    fill(1, &mut marks[from..all]);
    all - from
}
