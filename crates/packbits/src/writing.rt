// Packets that are written: one literal, one packet of a plan, a plan's, and a row's without a plan.
ghost use Rattle.std.specs.Prelude.{◌≡◌, ltb};
ghost use Rattle.answer.specs.Outcome.{pick};
ghost use Rattle.packbits.specs.Parts.{Literal, PlannedFits, PlannedPut, PlanFits, PlanPut, LiteralsFit, LiteralsPut};

use crate::moving::copy_bytes;
use crate::plans::packet_length;

// The row's next n bytes, from a place of the output on.
fn put_literal(row: &[u8], at: usize, n: usize, out: &mut [u8], to: usize)
    requires { PlannedFits row.now at (Literal n) out.old to }
    ensures { PlannedPut row.now at (Literal n) out.old to out.new }
{
    out[to] = (n - 1) as u8;
    copy_bytes(row, at, n, out, to + 1);
}

fn put_planned(row: &[u8], at: usize, kind: u8, bytes: u8, out: &mut [u8], to: usize)
    requires { PlannedFits row.now at (record { kind = kind; bytes = bytes }) out.old to }
    ensures { PlannedPut row.now at (record { kind = kind; bytes = bytes }) out.old to out.new }
{
    let n = bytes as usize;
    if kind == 0 {
        put_literal(row, at, n, out, to);
    } else {
        out[to] = (257 - n) as u8;
        out[to + 1] = row[at];
    }
}

pub(crate) fn put_plan(row: &[u8], kinds: &[u8], lengths: &[u8], out: &mut [u8])
    requires { PlanFits row.now kinds.now lengths.now out.old }
    ensures { PlanPut row.now kinds.now lengths.now out.new }
{
    let mut at: usize = 0;
    let mut to: usize = 0;
    for (k, kind) in kinds.iter().enumerate() {
        // Read once: read again behind the write, plans of short packets ran at 0.91.
        let kind = *kind;
        let bytes = lengths[k];
        put_planned(row, at, kind, bytes, out, to);
        at += bytes as usize;
        to += packet_length(kind, bytes);
    }
}

fn next_literal(left: usize) -> usize
    ensures { result ≡ pick (ltb 128 left) 128 left }
{
    left.min(128)
}

pub(crate) fn put_literals(row: &[u8], out: &mut [u8])
    requires { LiteralsFit row.now out.old }
    ensures { LiteralsPut row.now out.new }
{
    // Two places that go on together, of the row and of the output, a literal at a time.
    let mut at: usize = 0;
    let mut to: usize = 0;
    while at < row.len() {
        let n = next_literal(row.len() - at);
        put_literal(row, at, n, out, to);
        at += n;
        to += n + 1;
    }
}
