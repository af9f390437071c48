// The calls on packets. A state is 80 numbers.
ghost use Rattle.answer.specs.Outcome.{outcome};
ghost use Rattle.packets.specs.Promises.{plan as plan_of};
ghost use Rattle.packet_numbers.specs.Numbers.{PieceOn, CloseOn};
ghost use Rattle.capi.specs.Told.{Told, Lent, StartTold};

use crate::{lend, status};
use packets::{Packets, Plan};

// A conversion of which no byte has come.
#[unsafe(no_mangle)]
pub extern "C" fn hamrisk_packets_start(
    row_bytes: usize,
    channels: usize,
    width: usize,
    le: bool,
    predict: bool,
    out_le: bool,
    state: &mut [u64; 80],
) -> u32
    ensures { StartTold (plan_of row_bytes channels width le predict out_le) result state.new }
{
    let started = Packets::start(Plan {
        row_bytes,
        channels,
        width,
        le,
        predict,
        out_le,
    });
    *state = packet_numbers::numbers_of(started.state);
    status(started.answer)
}

// The next bytes of the strip: the samples that they complete are written.
#[unsafe(no_mangle)]
pub extern "C" fn hamrisk_packets_piece(
    state: &mut [u64; 80],
    piece: &[u8],
    out: &mut [u8],
    written: &mut usize,
) -> u32
    ensures { Lent outcome (λ a. PieceOn state.old piece.now out.old a state.new out.new) result written.old written.new }
{
    lend(packet_numbers::piece(state, piece, out), written)
}

// Whether whole rows have come.
#[unsafe(no_mangle)]
pub extern "C" fn hamrisk_packets_close(state: &[u64; 80]) -> u32
    ensures { Told outcome (CloseOn state.now) result }
{
    status(packet_numbers::close(state))
}
