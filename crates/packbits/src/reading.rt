// Packets that are read: what a first byte says, what is wrong with a packet, and the row that packets fill.
ghost use Rattle.std.specs.Prelude.{◌≡◌, ◌+◌, ◌≤◌, length};
ghost use Rattle.answer.specs.Outcome.{Step};
ghost use Rattle.packbits.specs.Rows.{packet_faults};
ghost use Rattle.packbits.specs.Parts.{begun, header_of, header_fills, header_takes, whole_literal, does_nothing, RowFits, RowFilled};

use crate::moving::{copy_bytes, repeat_byte};
use answer::{Refusal, fault, first_of};

// A packet's first byte: so many bytes follow as they stand, nothing follows, or the byte behind it stands so many times.
#[derive(Clone, Copy)]
pub(crate) enum Header {
    Copies(u8),
    Rests,
    Repeats(u8),
}

impl From<u8> for Header {
    ghost from_gives = { λ byte header. header ≡ header_of byte };

    fn from(byte: u8) -> Header {
        if byte < 128 {
            Header::Copies(byte + 1)
        } else if byte == 128 {
            Header::Rests
        } else {
            Header::Repeats(255 - byte + 2)
        }
    }
}

impl Header {
    // The bytes of the row that the packet fills.
    pub(crate) fn fills(self) -> usize
        ensures { result ≡ header_fills self }
    {
        match self {
            Header::Copies(n) => n as usize,
            Header::Rests => 0,
            Header::Repeats(n) => n as usize,
        }
    }

    // The bytes of the input that it takes.
    pub(crate) fn takes(self) -> usize
        ensures { result ≡ header_takes self }
    {
        match self {
            Header::Copies(n) => n as usize + 1,
            Header::Rests => 1,
            Header::Repeats(_) => 2,
        }
    }
}

// The packet at a place of the input, which finds so much of the row left.
pub(crate) fn check_packet(packed: &[u8], at: usize, left: usize) -> Result<(), Refusal>
    requires { at ≤ length packed.now }
    ensures { Step (packet_faults (begun packed.now at left)) result }
{
    let there = packed.len() - at;
    if there == 0 {
        return Err(Refusal::Truncated);
    }
    let header = Header::from(packed[at]);
    // Both at once: a step of `?` between them, which is a branch, ran at 0.62 of this.
    first_of(
        fault(left < header.fills(), Refusal::Invalid),
        fault(there < header.takes(), Refusal::Truncated),
    )
}

// Whether a literal of 128 bytes begins here, all there and within the row.
pub(crate) fn whole_literal(packed: &[u8], at: usize, left: usize) -> bool
    requires { at ≤ length packed.now }
    ensures { result ≡ whole_literal packed.now at left }
{
    if packed.len() - at < 129 {
        return false;
    }
    if left < 128 {
        return false;
    }
    packed[at] == 127
}

// Whether a packet that does nothing stands here.
pub(crate) fn does_nothing(packed: &[u8], at: usize) -> bool
    ensures { result ≡ does_nothing packed.now at }
{
    if packed.len() <= at {
        return false;
    }
    packed[at] == 128
}

// All of a row whose packets are sound.
pub(crate) fn fill_row(packed: &[u8], row: &mut [u8])
    requires { RowFits packed.now row.old }
    ensures { RowFilled packed.now row.old row.new }
{
    // Packet by packet, each as long as it says: no index is counted.
    let mut at: usize = 0;
    let mut from: usize = 0;
    while from < row.len() {
        let header = Header::from(packed[at]);
        match header {
            Header::Copies(n) => copy_bytes(packed, at + 1, n as usize, row, from),
            Header::Rests => (),
            Header::Repeats(n) => repeat_byte(packed[at + 1], n as usize, row, from),
        }
        from += header.fills();
        at += header.takes();
    }
}
