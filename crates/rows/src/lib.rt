// A strip's rows, predicted or with prediction undone: each kind of row in a loop of its own, for every width and both byte orders.
#![tactic(auto)]

mod arms;
mod differences;
mod few;
mod form;
mod held;
mod resume;
mod steps;
mod trails;
mod word;

ghost use Rattle.std.specs.Prelude.{true, ◌*◌};
ghost use Rattle.samples.specs.Sample.{strip};
ghost use Rattle.rows.specs.Resume.{RowResumed};
ghost use Rattle.rows.specs.Row.{RowServed, StripServed, RoomChecked, LeadFits, LedInto, one_row, TransformedInto, Transformed, RowTransformed};

use crate::form::Form;
use answer::Refusal;
use samples::Strip;

// The first words of a row, which stand for themselves. With a `Form`, forward rows of 16 pixels of 5 and 8 bytes ran at 0.88.
fn lead(raw: &[u8], channels: usize, width: usize, le: bool, out_le: bool, out: &mut [u8])
    requires { LeadFits raw.now (channels * width) width out.old }
    ensures { LedInto raw.now (channels * width) width le out_le out.old out.new }
{
    let mut at: usize = 0;
    for n in 0..channels {
        word::put(out, at, width, out_le, word::get(raw, at, width, le));
        at += width;
    }
}

// One row past every refusal.
fn transform_words(raw: &[u8], form: Form, predict: bool, forward: bool, out: &mut [u8])
    requires { RowServed raw.now form.channels form.width out.old }
    ensures { TransformedInto raw.now (one_row raw.now form.channels form.width) predict form.le form.out_le forward out.old out.new }
{
    if predict {
        if forward | (4 < form.channels) {
            lead(raw, form.channels, form.width, form.le, form.out_le, out);
            steps::steps(raw, form, forward, out)
        } else {
            let none = [0u64; 4];
            few::rows(raw, raw.len(), form, &none, out)
        }
    } else {
        // past every refusal, so it has none
        let _ = samples::reorder(raw, form.width, form.le, form.out_le, out);
    }
}

// Every row, with prediction: it begins anew in each.
fn predicted_rows(raw: &[u8], row_bytes: usize, form: Form, forward: bool, out: &mut [u8])
    requires { StripServed raw.now (strip row_bytes form.channels form.width) out.old }
    ensures { TransformedInto raw.now (strip row_bytes form.channels form.width) true form.le form.out_le forward out.old out.new }
{
    let mut at: usize = 0;
    for n in 0..raw.len() / row_bytes {
        let end = at + row_bytes;
        let row = &raw[at..end];
        let to = &mut out[at..end];
        transform_words(row, form, true, forward, to);
        at = end;
    }
}

// Those of at most four channels, with prediction undone, in the loop over their own.
fn every_row(raw: &[u8], row_bytes: usize, form: Form, forward: bool, out: &mut [u8])
    requires { StripServed raw.now (strip row_bytes form.channels form.width) out.old }
    ensures { TransformedInto raw.now (strip row_bytes form.channels form.width) true form.le form.out_le forward out.old out.new }
{
    if forward | (4 < form.channels) {
        return predicted_rows(raw, row_bytes, form, forward, out);
    }
    let none = [0u64; 4];
    few::rows(raw, row_bytes, form, &none, out)
}

// The strip check, then the room.
fn checked(raw_len: usize, strip: Strip, out_len: usize) -> Result<(), Refusal>
    ensures { RoomChecked raw_len strip out_len result }
{
    samples::check_strip(raw_len, strip)?;
    if out_len < raw_len {
        return Err(Refusal::OutputTooSmall);
    }
    Ok(())
}

// A strip: its samples, or with `forward` the strip predicted. Without prediction its words go over all at once.
pub fn transform_rows(
    raw: &[u8],
    strip: Strip,
    le: bool,
    predict: bool,
    out_le: bool,
    forward: bool,
    out: &mut [u8],
) -> Result<(), Refusal>
    ensures { Transformed raw.now strip predict le out_le forward out.old result out.new }
{
    checked(raw.len(), strip, out.len())?;
    if predict {
        let form = Form {
            channels: strip.channels,
            width: strip.width,
            le,
            out_le,
        };
        every_row(raw, strip.row, form, forward, out);
    } else {
        // past every refusal, so it has none
        let _ = samples::reorder(raw, strip.width, le, out_le, out);
    }
    Ok(())
}

// One row: its samples, or with `forward` the row predicted.
pub fn transform_row(
    raw: &[u8],
    channels: usize,
    width: usize,
    le: bool,
    predict: bool,
    out_le: bool,
    forward: bool,
    out: &mut [u8],
) -> Result<(), Refusal>
    ensures { RowTransformed raw.now channels width predict le out_le forward out.old result out.new }
{
    let strip = Strip {
        row: raw.len(),
        channels,
        width,
    };
    checked(raw.len(), strip, out.len())?;
    let form = Form {
        channels,
        width,
        le,
        out_le,
    };
    transform_words(raw, form, predict, forward, out);
    Ok(())
}

// Words of a row that is taken up in its middle, at a channel, from the sums so far of its channels; they become those after the words.
pub fn resume_row(
    raw: &[u8],
    first: usize,
    channels: usize,
    width: usize,
    le: bool,
    out_le: bool,
    sums: &mut [u64],
    out: &mut [u8],
) -> Result<(), Refusal>
    ensures { RowResumed raw.now first channels width le out_le sums.old out.old result sums.new out.new }
{
    if !words::width_served(width) {
        return Err(Refusal::Unsupported);
    }
    if 64 < channels {
        return Err(Refusal::Unsupported);
    }
    if channels <= first {
        return Err(Refusal::Invalid);
    }
    if sums.len() < 64 {
        return Err(Refusal::Invalid);
    }
    if word::past(raw.len(), width) != 0 {
        return Err(Refusal::Invalid);
    }
    if out.len() < raw.len() {
        return Err(Refusal::OutputTooSmall);
    }
    if raw.len() == 0 {
        return Ok(());
    }
    let start: usize = 0;
    let end = raw.len();
    resume::run(
        raw,
        first,
        Form {
            channels,
            width,
            le,
            out_le,
        },
        sums,
        &mut out[start..end],
    );
    Ok(())
}
