// A row past its first words, from the words `channels` before: predicted with `forward`, else prediction undone.
ghost use Rattle.std.specs.Prelude.{◌≡◌, true};
ghost use Rattle.words.specs.Promises.{served};
ghost use Rattle.rows.specs.Row.{meant_at, one_row, Led, TransformedInto};

use crate::form::Form;
use crate::{arms, differences, trails};

// A call, so that its loops have the registers: taken in, they ran at 0.56 to 0.9 where words have four bytes.
#[inline(never)]
pub(crate) fn steps(raw: &[u8], form: Form, forward: bool, out: &mut [u8])
    requires { (served form.width ≡ true) × Led (meant_at raw.now form.channels form.width form.le form.out_le forward) raw.now form.channels form.width out.old }
    ensures { TransformedInto raw.now (one_row raw.now form.channels form.width) true form.le form.out_le forward out.old out.new }
{
    if forward {
        if form.out_le == form.le {
            arms::known(
                form.width,
                form.le,
                &mut |width, le| {
                    differences::differences(raw, form.channels, width, le, le, out)
                },
            )
        } else {
            arms::known(
                form.width,
                form.le,
                &mut |width, le| {
                    differences::differences(raw, form.channels, width, le, !le, out)
                },
            )
        }
    } else {
        if form.out_le == form.le {
            arms::known(
                form.width,
                form.le,
                &mut |width, le| { trails::trails(raw, form.channels, width, le, le, out) },
            )
        } else {
            arms::known(
                form.width,
                form.le,
                &mut |width, le| { trails::trails(raw, form.channels, width, le, !le, out) },
            )
        }
    }
}
