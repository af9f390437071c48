// Groups of bytes, each written backwards: what a change of byte order is.
#![tactic(auto)]

mod back;

ghost use Rattle.std.specs.Prelude.{◌≤◌, ◌<◌};
ghost use Rattle.swaps.specs.Swapped.{Room, Backwards, Swapped, SwapFits, SwappedInto};

use answer::Refusal;

// One group: its last bytes first, then those before them.
fn swap_group(raw: &[u8], at: usize, width: usize, out: &mut [u8])
    requires { (0 < width) × (width ≤ 8) × Room raw.now at width out.old at }
    ensures { Backwards raw.now at width out.old at out.new }
{
    match width {
        1 => back::back1(raw, at, out, at),
        2 => back::back2(raw, at, out, at),
        3 => {
            back::back1(raw, at + 2, out, at);
            back::back2(raw, at, out, at + 1)
        }
        4 => back::back4(raw, at, out, at),
        5 => {
            back::back1(raw, at + 4, out, at);
            back::back4(raw, at, out, at + 1)
        }
        6 => {
            back::back2(raw, at + 4, out, at);
            back::back4(raw, at, out, at + 2)
        }
        7 => {
            back::back1(raw, at + 6, out, at);
            back::back2(raw, at + 4, out, at + 1);
            back::back4(raw, at, out, at + 3)
        }
        _ => back::back8(raw, at, out, at),
    }
}

// Every group. The compiler makes a loop for each width of this one.
fn swap_groups(raw: &[u8], width: usize, out: &mut [u8])
    requires { SwapFits raw.now width out.old }
    ensures { SwappedInto raw.now width out.old out.new }
{
    let mut at: usize = 0;
    for n in 0..raw.len() / width {
        swap_group(raw, at, width, out);
        at += width;
    }
}

// Each group of `width` bytes, written backwards.
pub fn swap_components(raw: &[u8], width: usize, out: &mut [u8]) -> Result<(), Refusal>
    ensures { Swapped raw.now width out.old result out.new }
{
    if width == 0 {
        return Err(Refusal::Unsupported);
    }
    if 8 < width {
        return Err(Refusal::Unsupported);
    }
    if raw.len() % width != 0 {
        return Err(Refusal::Invalid);
    }
    if out.len() < raw.len() {
        return Err(Refusal::OutputTooSmall);
    }
    swap_groups(raw, width, out);
    Ok(())
}
