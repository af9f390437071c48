// A state of packets as 80 numbers: those of its plan, the bytes received, the bytes of the unfinished word as one number, the sums, and
// eight that are not used.
#![tactic(auto)]

ghost use Rattle.std.specs.Prelude.{◌≡◌, length, get_or};
ghost use Rattle.words.specs.Digits.{value};
ghost use Rattle.words.specs.Word.{Bytes};
ghost use Rattle.packet_numbers.specs.Numbers.{tail_of, sums_in, plan_in, state_of, all_unused, strays as straysOf, with_sums, Stands, PieceOn, CloseOn};

use answer::Refusal;
use packets::{Packets, Plan};

// The eight bytes of a number, the least significant first.
fn tail_of(v: u64) -> [u8; 8]
    ensures { result ≡ tail_of v }
{
    [
        (v / 1 % 256) as u8,
        (v / 256 % 256) as u8,
        (v / 65536 % 256) as u8,
        (v / 16777216 % 256) as u8,
        (v / 4294967296 % 256) as u8,
        (v / 1099511627776 % 256) as u8,
        (v / 281474976710656 % 256) as u8,
        (v / 72057594037927936 % 256) as u8,
    ]
}

fn sums_of(s: &[u64]) -> [u64; 64]
    requires { length s.now ≡ 80 }
    ensures { result ≡ sums_in s.now }
{
    let mut sums = [0u64; 64];
    sums.copy_from_slice(&s[8..72]);
    sums
}

fn plan_of(s: &[u64]) -> Plan
    requires { length s.now ≡ 80 }
    ensures { result ≡ plan_in s.now }
{
    Plan {
        row_bytes: s[0] as usize,
        channels: s[1] as usize,
        width: s[2] as usize,
        le: s[3] != 0,
        predict: s[4] != 0,
        out_le: s[5] != 0,
    }
}

fn state_of(s: &[u64]) -> Packets
    requires { length s.now ≡ 80 }
    ensures { result ≡ state_of s.now }
{
    let plan = plan_of(s);
    let tail = tail_of(s[7]);
    let sums = sums_of(s);
    Packets {
        plan: plan,
        received: s[6] as usize,
        tail: tail,
        sums: sums,
    }
}

fn all_unused(s: &[u64]) -> bool
    requires { length s.now ≡ 80 }
    ensures { result ≡ all_unused s.now }
{
    let mut none = true;
    for i in 0..8 {
        none = none & (s[72 + i] == 0);
    }
    none
}

// Whether there are not 80 of them, a flag is neither 0 nor 1, or a number that is not used is not 0.
fn strays(s: &[u64]) -> bool
    ensures { result ≡ straysOf s.now }
{
    if s.len() != 80 {
        return true;
    }
    let none = all_unused(s);
    (1 < s[3]) | (1 < s[4]) | (1 < s[5]) | !none
}

// The number whose eight bytes these are.
fn word_of(s: &[u8]) -> u64
    requires { length s.now ≡ 8 }
    ensures { (result ≡ value 256 8 (λ p. get_or s.now p 0)) × Bytes s.now }
{
    words::join8(s[0], s[1], s[2], s[3], s[4], s[5], s[6], s[7])
}

// The numbers of which all but the sums are 0.
fn with_sums(sums: [u64; 64]) -> [u64; 80]
    ensures { result ≡ with_sums sums }
{
    let mut s = [0u64; 80];
    for (i, sum) in sums.iter().enumerate() {
        s[8 + i] = *sum;
    }
    s
}

// The numbers that stand for a state.
pub fn numbers_of(state: Packets) -> [u64; 80]
    ensures { Stands state result }
{
    let plan = state.plan;
    let tail = state.tail;
    let sums = state.sums;
    let mut s = with_sums(sums);
    s[0] = plan.row_bytes as u64;
    s[1] = plan.channels as u64;
    s[2] = plan.width as u64;
    s[3] = u64::from(plan.le);
    s[4] = u64::from(plan.predict);
    s[5] = u64::from(plan.out_le);
    s[6] = state.received as u64;
    s[7] = word_of(&tail);
    s
}

// The next bytes of the strip: the numbers are altered where they stand, and the samples that the bytes complete are written.
pub fn piece(s: &mut [u64], bytes: &[u8], out: &mut [u8]) -> Result<usize, Refusal>
    ensures { PieceOn s.old bytes.now out.old result s.new out.new }
{
    if strays(s) {
        return Err(Refusal::Invalid);
    }
    let plan = plan_of(s);
    let received = s[6] as usize;
    let mut tail = tail_of(s[7]);
    let first: usize = 8;
    let end: usize = 72;
    let n = packets::lent_piece(plan, received, bytes, &mut tail, &mut s[first..end], out)?;
    s[6] = (received + bytes.len()) as u64;
    s[7] = word_of(&tail);
    Ok(n)
}

// Whether whole rows have come.
pub fn close(s: &[u64]) -> Result<(), Refusal>
    ensures { CloseOn s.now result }
{
    if strays(s) {
        return Err(Refusal::Invalid);
    }
    let state = state_of(s);
    state.close()
}
