// Blocks of a list of bytes: a loop over one has no way out before its end, so that the compiler takes many bytes at once.
ghost use Rattle.std.specs.Prelude.{◌<◌};
ghost use Rattle.damage.specs.Passes.{BlockEnd};

// Where the block that begins at a place ends.
pub(crate) fn block_end(at: usize, all: usize, most: usize) -> usize
    requires { (at < all) × (0 < most) }
    ensures { BlockEnd at all most result }
{
    if all - at < most { all } else { at + most }
}
