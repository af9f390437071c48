// A plan of packets: whether it keeps the rules, and the bytes that it takes.
ghost use Rattle.std.specs.Prelude.{◌≡◌, ◌≤◌, length, drop};
ghost use Rattle.answer.specs.Outcome.{unless, outcome};
ghost use Rattle.packbits.specs.Plans.{plan_of, alike, kept, keeps};
ghost use Rattle.packbits.specs.Parts.{packet_length, plan_length, room_faults};

use answer::Refusal;

// Whether all bytes are the first.
fn alike(part: &[u8]) -> bool
    ensures { result ≡ alike (length part.now) part.now }
{
    let mut same = true;
    for b in part {
        same = same & (*b == part[0]);
    }
    same
}

// Whether a packet of the row's next bytes keeps the rules.
fn kept(row: &[u8], at: usize, kind: u8, bytes: u8) -> bool
    requires { at ≤ length row.now }
    ensures { result ≡ kept (drop at row.now) (record { kind = kind; bytes = bytes }) }
{
    let n = bytes as usize;
    if row.len() - at < n {
        return false;
    }
    if kind == 0 {
        return (1 <= n) & (n <= 128);
    }
    let end = at + n;
    (kind == 1) & ((2 <= n) & (n <= 128) & alike(&row[at..end]))
}

// Whether a plan keeps the rules and adds up to the row.
pub(crate) fn check_plan(row: &[u8], kinds: &[u8], lengths: &[u8]) -> bool
    requires { length kinds.now ≡ length lengths.now }
    ensures { result ≡ keeps row.now (plan_of kinds.now lengths.now) }
{
    let mut at: usize = 0;
    for (k, kind) in kinds.iter().enumerate() {
        let bytes = lengths[k];
        if !kept(row, at, *kind, bytes) {
            return false;
        }
        at += bytes as usize;
    }
    at == row.len()
}

pub(crate) fn packet_length(kind: u8, bytes: u8) -> usize
    ensures { result ≡ packet_length (record { kind = kind; bytes = bytes }) }
{
    if kind == 0 {
        return bytes as usize + 1;
    }
    2
}

// The bytes of a plan's packets, if there is room for them.
pub(crate) fn plan_length(kinds: &[u8], lengths: &[u8], room: usize) -> Result<usize, Refusal>
    requires { length kinds.now ≡ length lengths.now }
    ensures { outcome result ≡ unless (room_faults room (plan_of kinds.now lengths.now)) (plan_length (plan_of kinds.now lengths.now)) }
{
    let mut n: usize = 0;
    for (k, kind) in kinds.iter().enumerate() {
        let more = packet_length(*kind, lengths[k]);
        if room - n < more {
            return Err(Refusal::OutputTooSmall);
        }
        n += more;
    }
    Ok(n)
}
