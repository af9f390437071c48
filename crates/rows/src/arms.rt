// A loop over words, with their width and the byte order that they are read in known to the compiler.

// Every arm is the same call: each knows its width and byte order, and the compiler makes a loop of each, wherever this is called from, as no arm
// is rarer than one in 32: so widths are told apart in two halves (docs/DECISIONS.md). The last of each half serves any other width.
pub(crate) fn known<F: FnMut(usize, bool)>(width: usize, le: bool, f: &mut F)
    requires { F.pre f.old width le }
    ensures { F.step f.old width le tt f.new }
{
    if 3 < width {
        if width == 8 {
            match le {
                true => f(width, le),
                false => f(width, le),
            }
        } else if width == 4 {
            match le {
                true => f(width, le),
                false => f(width, le),
            }
        } else {
            f(width, le)
        }
    } else if width == 3 {
        match le {
            true => f(width, le),
            false => f(width, le),
        }
    } else if width == 2 {
        match le {
            true => f(width, le),
            false => f(width, le),
        }
    } else if width == 1 {
        match le {
            true => f(width, le),
            false => f(width, le),
        }
    } else {
        f(width, le)
    }
}
