// Bytes moved and never read as numbers: a copy, and the bits of every byte reversed.
#![tactic(auto)]

mod reversed;

ghost use Rattle.std.specs.Prelude.{◌≡◌, ◌≤◌, length};
ghost use Rattle.laws.specs.Tabled.{Tabled};
ghost use Rattle.transport.specs.Moved.{Committed, CopiedInto, reversed, Reversed};

use crate::reversed::REVERSED;
use answer::Refusal;

// A loop, and no call of `memmove`, which std's `copy_from_slice` is: the archive asks C for `memcpy` and `memset` alone.
fn copy(source: &[u8], out: &mut [u8])
    requires { length source.now ≤ length out.old }
    ensures { CopiedInto source.now out.old out.new }
{
    for (i, byte) in source.iter().enumerate() {
        out[i] = *byte;
    }
}

// A copy of the source at the front of the output.
pub fn commit_uninit(source: &[u8], out: &mut [u8]) -> Result<(), Refusal>
    ensures { Committed source.now out.old result out.new }
{
    if out.len() < source.len() {
        return Err(Refusal::OutputTooSmall);
    }
    copy(source, out);
    Ok(())
}

fn reversed_byte(b: u8) -> u8
    ensures { result ≡ reversed b }
{
    b / 128 % 2
        + 2 * (b / 64 % 2)
        + 4 * (b / 32 % 2)
        + 8 * (b / 16 % 2)
        + 16 * (b / 8 % 2)
        + 32 * (b / 4 % 2)
        + 64 * (b / 2 % 2)
        + 128 * (b % 2)
}

// Worked out bit by bit: a loop of which the compiler makes vectors.
fn reverse_by_bits(s: &mut [u8])
    ensures { Reversed s.old s.new }
{
    for byte in s.iter_mut() {
        *byte = reversed_byte(*byte);
    }
}

// Looked up in a table.
fn reverse_by_table(s: &mut [u8], table: &[u8; 256])
    requires { Tabled 256 reversed table.now }
    ensures { Reversed s.old s.new }
{
    for byte in s.iter_mut() {
        *byte = table[*byte as usize];
    }
}

// The bytes behind the last block. The table is stored anew wherever it is named, here once a call, so that five bytes and fewer are worked out sooner.
fn reverse_rest(s: &mut [u8])
    ensures { Reversed s.old s.new }
{
    if s.len() < 6 {
        reverse_by_bits(s);
    } else {
        let table = REVERSED;
        reverse_by_table(s, &table);
    }
}

// Every byte with its bits in the other order, in place: whole blocks of 8 bytes, and the rest.
pub fn reverse_bits(s: &mut [u8])
    ensures { Reversed s.old s.new }
{
    let all = s.len();
    let whole = all - all % 8;
    reverse_by_bits(&mut s[0..whole]);
    reverse_rest(&mut s[whole..all]);
}
