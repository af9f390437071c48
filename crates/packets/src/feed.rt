// The bytes of a piece: the word that was cut is finished, then the row, then come whole rows, a begun row and a begun word.
ghost use Rattle.std.specs.Prelude.{◌≡◌, true, ◌/◌, ◌%◌, ◌≤◌};
ghost use Rattle.words.specs.Promises.{served};
ghost use Rattle.packets.specs.Steps.{Cleared, HoldFits, Held, RowWords, RowsWords, Across, Predicted, OneWord, WordsFeed, WordsFed, FromWord, missing, Finishes, BytesFeed, BytesFed};

use crate::Plan;
use samples::Strip;

// The words of so many bytes, and the bytes past them. Neither divides by a variable: a width that is not 3 is a power of two.
pub(crate) fn whole(n: usize, width: usize) -> usize
    requires { served width ≡ true }
    ensures { result ≡ n / width }
{
    if 3 < width {
        if width == 4 { n / 4 } else { n / 8 }
    } else if width == 1 {
        n
    } else if width == 2 {
        n / 2
    } else {
        n / 3
    }
}

pub(crate) fn past(n: usize, width: usize) -> usize
    requires { served width ≡ true }
    ensures { result ≡ n % width }
{
    if width == 3 { n % 3 } else { n & (width - 1) }
}

fn clear(sums: &mut [u64])
    ensures { Cleared sums.old sums.new }
{
    for sum in sums.iter_mut() {
        *sum = 0;
    }
}

// Bytes that are put behind those of the unfinished word.
fn hold(bytes: &[u8], fill: usize, tail: &mut [u8])
    requires { HoldFits bytes.now fill tail.old }
    ensures { Held bytes.now fill tail.old tail.new }
{
    for (i, byte) in bytes.iter().enumerate() {
        tail[fill + i] = *byte;
    }
}

// Words of one row from a place in it on; at its end the sums begin anew.
fn in_row(plan: Plan, received: usize, place: usize, raw: &[u8], sums: &mut [u64], out: &mut [u8])
    requires { RowWords plan received place raw.now sums.old out.old }
    ensures { WordsFed plan received raw.now sums.old out.old sums.new out.new }
{
    let first = whole(place, plan.width) % plan.channels;
    // past every refusal, so it has none
    let _ = rows::resume_row(
        raw,
        first,
        plan.channels,
        plan.width,
        plan.le,
        plan.out_le,
        sums,
        out,
    );
    if place + raw.len() == plan.row_bytes {
        clear(sums)
    }
}

// Words from a row's start on: whole rows, and those of a begun row.
fn from_row(plan: Plan, received: usize, raw: &[u8], sums: &mut [u64], out: &mut [u8])
    requires { RowsWords plan received raw.now sums.old out.old }
    ensures { WordsFed plan received raw.now sums.old out.old sums.new out.new }
{
    let start: usize = 0;
    let rows = raw.len() - raw.len() % plan.row_bytes;
    let strip = Strip {
        row: plan.row_bytes,
        channels: plan.channels,
        width: plan.width,
    };
    // past every refusal, so it has none
    let _ = strips::convert(
        &raw[start..rows],
        strip,
        plan.le,
        plan.predict,
        plan.out_le,
        &mut out[start..rows],
    );
    in_row(
        plan,
        received + rows,
        0,
        &raw[rows..],
        sums,
        &mut out[rows..],
    )
}

// Words that reach the row's end: it is finished first.
fn across(plan: Plan, received: usize, raw: &[u8], sums: &mut [u64], out: &mut [u8])
    requires { Across plan received raw.now sums.old out.old }
    ensures { WordsFed plan received raw.now sums.old out.old sums.new out.new }
{
    let place = received % plan.row_bytes;
    if place == 0 {
        return from_row(plan, received, raw, sums, out);
    }
    let start: usize = 0;
    let left = plan.row_bytes - place;
    in_row(
        plan,
        received,
        place,
        &raw[start..left],
        sums,
        &mut out[start..left],
    );
    from_row(plan, received + left, &raw[left..], sums, &mut out[left..])
}

// Words with prediction.
fn predicted(plan: Plan, received: usize, raw: &[u8], sums: &mut [u64], out: &mut [u8])
    requires { Predicted plan received raw.now sums.old out.old }
    ensures { WordsFed plan received raw.now sums.old out.old sums.new out.new }
{
    let place = received % plan.row_bytes;
    if raw.len() < plan.row_bytes - place {
        return in_row(plan, received, place, raw, sums, out);
    }
    across(plan, received, raw, sums, out)
}

// Words: without prediction they need no row.
fn words(plan: Plan, received: usize, raw: &[u8], sums: &mut [u64], out: &mut [u8])
    requires { WordsFeed plan received raw.now sums.old out.old }
    ensures { WordsFed plan received raw.now sums.old out.old sums.new out.new }
{
    if plan.predict {
        return predicted(plan, received, raw, sums, out);
    }
    // past every refusal, so it has none
    let _ = samples::reorder(raw, plan.width, plan.le, plan.out_le, out);
}

// Bytes from a word's start on.
fn from_word(
    plan: Plan,
    received: usize,
    bytes: &[u8],
    tail: &mut [u8],
    sums: &mut [u64],
    out: &mut [u8],
)
    requires { FromWord plan received bytes.now tail.old sums.old out.old }
    ensures { BytesFed plan received bytes.now tail.old sums.old out.old tail.new sums.new out.new }
{
    let start: usize = 0;
    let end = bytes.len() - past(bytes.len(), plan.width);
    words(
        plan,
        received,
        &bytes[start..end],
        sums,
        &mut out[start..end],
    );
    hold(&bytes[end..], 0, tail)
}

// One word, which lies in one row. Apart from `words`, so that the compiler has one place for those.
fn word(plan: Plan, received: usize, raw: &[u8], sums: &mut [u64], out: &mut [u8])
    requires { OneWord plan received raw.now sums.old out.old }
    ensures { WordsFed plan received raw.now sums.old out.old sums.new out.new }
{
    if plan.predict {
        let place = received % plan.row_bytes;
        return in_row(plan, received, place, raw, sums, out);
    }
    // past every refusal, so it has none
    let _ = samples::reorder(raw, plan.width, plan.le, plan.out_le, out);
}

// The word that was cut, if one was.
fn finish(
    plan: Plan,
    received: usize,
    fill: usize,
    bytes: &[u8],
    tail: &mut [u8],
    sums: &mut [u64],
    out: &mut [u8],
)
    requires { Finishes plan received fill bytes.now tail.old sums.old out.old }
    ensures { BytesFed plan received bytes.now tail.old sums.old out.old tail.new sums.new out.new }
{
    if fill == 0 {
        return;
    }
    let start: usize = 0;
    let width = plan.width;
    let none = [0u8; 8];
    hold(bytes, fill, tail);
    word(plan, received - fill, &tail[start..width], sums, out);
    hold(&none, 0, tail)
}

// The bytes that finish a word of which some have come.
fn missing(fill: usize, width: usize) -> usize
    requires { fill ≤ width }
    ensures { result ≡ missing fill width }
{
    if fill == 0 { 0 } else { width - fill }
}

pub(crate) fn feed(
    plan: Plan,
    received: usize,
    bytes: &[u8],
    tail: &mut [u8],
    sums: &mut [u64],
    out: &mut [u8],
)
    requires { BytesFeed plan received bytes.now tail.old sums.old out.old }
    ensures { BytesFed plan received bytes.now tail.old sums.old out.old tail.new sums.new out.new }
{
    let fill = past(received, plan.width);
    let head = missing(fill, plan.width);
    if bytes.len() < head {
        return hold(bytes, fill, tail);
    }
    let start: usize = 0;
    let done = fill + head;
    finish(
        plan,
        received,
        fill,
        &bytes[start..head],
        tail,
        sums,
        &mut out[start..done],
    );
    from_word(
        plan,
        received + head,
        &bytes[head..],
        tail,
        sums,
        &mut out[done..],
    )
}
