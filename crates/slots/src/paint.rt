// Palette rows: one loop for every number of indices in a byte.
ghost use Rattle.std.specs.Prelude.{◌≡◌, true, ◌+◌, ◌*◌, ◌/◌, ◌≤◌, ◌<◌, length};
ghost use Rattle.layout.specs.Layout.{one_two_eight};
ghost use Rattle.slots.specs.Rows.{IndexAt, Painted, PaintFits, PaintedInto};

use layout::colours;

// A pixel's red, green and blue, each a third of the map further on.
fn paint(file: &[u8], place: usize, step: usize, out: &mut [u8], at: usize)
    requires { (place + 2 * step < length file.now) × (at + 3 ≤ length out.old) }
    ensures { Painted file.now place step out.old at out.new }
{
    let green = place + step;
    let blue = green + step;
    out[at] = file[place];
    out[at + 1] = file[green];
    out[at + 2] = file[blue];
}

// The index of a column: a byte, a nibble or a bit, the first the highest.
fn index<const SLOTS: usize>(raw: &[u8], x: usize) -> usize
    requires { (one_two_eight SLOTS ≡ true) × (x / SLOTS < length raw.now) }
    ensures { IndexAt SLOTS raw.now x result }
{
    (raw[x / SLOTS] as usize >> ((SLOTS - 1 - x % SLOTS) * (8 / SLOTS))) % colours(SLOTS)
}

fn paint_of<const SLOTS: usize>(file: &[u8], first: usize, raw: &[u8], out: &mut [u8])
    requires { PaintFits file.now first SLOTS raw.now out.old }
    ensures { PaintedInto file.now first SLOTS raw.now out.old out.new }
{
    let step = 2 * colours(SLOTS);
    for x in 0..out.len() / 3 {
        paint(file, first + 2 * index::<SLOTS>(raw, x), step, out, 3 * x);
    }
}

// A row, by a loop for each number of slots.
pub(crate) fn paint_row(file: &[u8], first: usize, slots: usize, raw: &[u8], out: &mut [u8])
    requires { PaintFits file.now first slots raw.now out.old }
    ensures { PaintedInto file.now first slots raw.now out.old out.new }
{
    match slots {
        1 => paint_of::<1>(file, first, raw, out),
        2 => paint_of::<2>(file, first, raw, out),
        _ => paint_of::<8>(file, first, raw, out),
    }
}
