// Damage marks: which samples of a strip the damaged bytes can change, with prediction or without it.
#![tactic(auto)]

mod blocks;
mod count;
mod fill;
mod first;
mod onward;
mod own;
mod pixel;

ghost use Rattle.std.specs.Prelude.{true};
ghost use Rattle.damage.specs.Passes.{MarksFit, RowMarked, StripMarksFit, MarkedInto};
ghost use Rattle.damage.specs.Promises.{Marked};

use answer::Refusal;
use samples::Strip;

// A predicted row. Where its damage begins with a hit in every channel, the marks are 0 up to there and 1 from there on.
fn mark_row(damage: &[u8], channels: usize, width: usize, marks: &mut [u8]) -> usize
    requires { MarksFit damage.now channels width marks.old }
    ensures { RowMarked damage.now channels width marks.old result marks.new }
{
    let at = first::first_damaged(damage);
    if pixel::pixel_struck(damage, at, channels, width) {
        fill::mark_from(first::sample_of(at, width), marks)
    } else {
        own::own(damage, width, marks);
        onward::onward(channels, marks);
        count::total(marks)
    }
}

fn mark_rows(damage: &[u8], strip: Strip, marks: &mut [u8]) -> usize
    requires { StripMarksFit damage.now strip marks.old }
    ensures { MarkedInto damage.now strip true marks.old result marks.new }
{
    let row_marks = strip.row / strip.width;
    let mut count: usize = 0;
    // By hand: over a count of rows the compiler asks once for all of them whether a row's marks may be carried onward in vectors, and of rows of
    // two pixels too they may not; those of many channels took up to twice as long.
    let mut at: usize = 0;
    let mut n: usize = 0;
    while at < damage.len() {
        let end = at + strip.row;
        let last = n + row_marks;
        count += mark_row(
            &damage[at..end],
            strip.channels,
            strip.width,
            &mut marks[n..last],
        );
        at = end;
        n = last;
    }
    count
}

fn mark_strip(damage: &[u8], strip: Strip, predict: bool, marks: &mut [u8]) -> usize
    requires { StripMarksFit damage.now strip marks.old }
    ensures { MarkedInto damage.now strip predict marks.old result marks.new }
{
    if predict {
        mark_rows(damage, strip, marks)
    } else {
        own::own(damage, strip.width, marks);
        count::total(marks)
    }
}

// Which samples the damaged bytes can change, a byte for each: 1 if they can, 0 if not.
pub fn marks(damage: &[u8], strip: Strip, predict: bool, marks: &mut [u8]) -> Result<usize, Refusal>
    ensures { Marked damage.now strip predict marks.old result marks.new }
{
    samples::check_strip(damage.len(), strip)?;
    let samples = damage.len() / strip.width;
    if marks.len() < samples {
        return Err(Refusal::OutputTooSmall);
    }
    let count = mark_strip(damage, strip, predict, &mut marks[0..samples]);
    Ok(count)
}
