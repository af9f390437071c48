// PackBits rows: unpacked, measured without a buffer, and packed by a plan or as literals.
#![tactic(auto)]

use answer::{Refusal, fault};

mod moving;
mod plans;
mod reading;
mod writing;

ghost use Rattle.std.specs.Prelude.{◌≡◌, ◌+◌, eqb};
ghost use Rattle.answer.specs.Outcome.{pick};
ghost use Rattle.packbits.specs.Rows.{RowMeasured, RowUnpacked, RowsChecked};
ghost use Rattle.packbits.specs.Plans.{literals_of, PlanWritten, RowPacked};

use plans::{check_plan, plan_length};
use reading::{Header, check_packet, does_nothing, fill_row, whole_literal};
use writing::{put_literals, put_plan};

// What a row of so many bytes takes of an input that it begins.
pub fn row_used(packed: &[u8], row_bytes: usize) -> Result<usize, Refusal>
    ensures { RowMeasured packed.now row_bytes result }
{
    // Packet by packet, each as long as it says: no index is counted.
    let mut at: usize = 0;
    let mut left = row_bytes;
    while 0 < left {
        if whole_literal(packed, at, left) {
            left -= 128;
            at += 129;
        } else if does_nothing(packed, at) {
            at += 1;
        } else {
            check_packet(packed, at, left)?;

            let header = Header::from(packed[at]);
            left -= header.fills();
            at += header.takes();
        }
    }
    Ok(at)
}

// Rows of no bytes take nothing, however many.
fn turns(rows: usize, row_bytes: usize) -> usize
    ensures { result ≡ pick (eqb row_bytes 0) 0 rows }
{
    if row_bytes == 0 { 0 } else { rows }
}

// Rows that follow each other to the input's end.
pub fn check_rows(packed: &[u8], rows: usize, row_bytes: usize) -> Result<(), Refusal>
    ensures { RowsChecked packed.now rows row_bytes result }
{
    let mut at: usize = 0;
    for _k in 0..turns(rows, row_bytes) {
        let n = row_used(&packed[at..], row_bytes)?;
        at += n;
    }
    fault(at != packed.len(), Refusal::Invalid)
}

// A row of the lent buffer's length. Every packet is looked at before the first byte is written.
pub fn unpack_row(packed: &[u8], row: &mut [u8]) -> Result<usize, Refusal>
    ensures { RowUnpacked packed.now row.old result row.new }
{
    let n = row_used(packed, row.len())?;
    fill_row(packed, row);
    Ok(n)
}

// A row as its plan has it: packet k is a literal (kind 0) or a repeat (1) of the row's next so many bytes. Two lists of bytes, as
// `hamrisk_write_plan_lists` is lent them.
pub fn write_plan(
    row: &[u8],
    kinds: &[u8],
    lengths: &[u8],
    out: &mut [u8],
) -> Result<usize, Refusal>
    ensures { PlanWritten row.now kinds.now lengths.now out.old result out.new }
{
    if kinds.len() != lengths.len() {
        return Err(Refusal::Invalid);
    }
    if !check_plan(row, kinds, lengths) {
        return Err(Refusal::Invalid);
    }
    let n = plan_length(kinds, lengths, out.len())?;
    put_plan(row, kinds, lengths, &mut out[0..n]);
    Ok(n)
}

fn literals_of(n: usize) -> usize
    ensures { result ≡ literals_of n }
{
    n.div_ceil(128)
}

// A row as literals of 128 bytes and a shorter last one.
pub fn pack_row(row: &[u8], out: &mut [u8]) -> Result<usize, Refusal>
    ensures { RowPacked row.now out.old result out.new }
{
    let n = row.len();
    let packets = literals_of(n);
    if out.len() < n {
        return Err(Refusal::OutputTooSmall);
    }
    if out.len() - n < packets {
        return Err(Refusal::OutputTooSmall);
    }
    let all = n + packets;
    put_literals(row, &mut out[0..all]);
    Ok(all)
}
