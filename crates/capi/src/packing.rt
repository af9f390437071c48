// The calls on PackBits rows.
ghost use Rattle.answer.specs.Outcome.{outcome};
ghost use Rattle.packbits.specs.Rows.{RowUnpacked};
ghost use Rattle.packbits.specs.Plans.{PlanWritten, RowPacked};
ghost use Rattle.capi.specs.Told.{Lent};

use crate::lend;

// A row of the lent buffer's length.
#[unsafe(no_mangle)]
pub extern "C" fn hamrisk_unpack_row(packed: &[u8], row: &mut [u8], used: &mut usize) -> u32
    ensures { Lent outcome (λ a. RowUnpacked packed.now row.old a row.new) result used.old used.new }
{
    lend(packbits::unpack_row(packed, row), used)
}

// A row as its plan has it; a length for each of the two lists.
#[unsafe(no_mangle)]
pub extern "C" fn hamrisk_write_plan_lists(
    row: &[u8],
    kinds: &[u8],
    lengths: &[u8],
    out: &mut [u8],
    length: &mut usize,
) -> u32
    ensures { Lent outcome (λ a. PlanWritten row.now kinds.now lengths.now out.old a out.new) result length.old length.new }
{
    lend(packbits::write_plan(row, kinds, lengths, out), length)
}

// A row as literals.
#[unsafe(no_mangle)]
pub extern "C" fn hamrisk_pack_row(row: &[u8], out: &mut [u8], length: &mut usize) -> u32
    ensures { Lent outcome (λ a. RowPacked row.now out.old a out.new) result length.old length.new }
{
    lend(packbits::pack_row(row, out), length)
}
