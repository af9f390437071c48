// Whether the damage that begins at a byte hits a sample of each channel, one after the other, or all that are left in the row: then every
// sample after them is marked too.
ghost use Rattle.std.specs.Prelude.{◌≡◌, true, ◌/◌};
ghost use Rattle.damage.specs.Passes.{Words, PixelStruck};

use crate::own;
use answer::ByteAt;

pub(crate) fn pixel_struck(damage: &[u8], first: ByteAt, channels: usize, width: usize) -> bool
    requires { Words damage.now width }
    ensures { result ≡ true → PixelStruck damage.now channels width (first.0 / width) }
{
    let first = first.0;
    let mut at = first - first % width;
    for _looked in 0..channels {
        if damage.len() <= at {
            return true;
        }
        if own::mark_at(damage, at, width) == 0 {
            return false;
        }
        at += width;
    }
    true
}
