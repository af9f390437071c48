// Bilevel pictures.
ghost use Rattle.std.specs.Prelude.{◌≡◌, length};
ghost use Rattle.answer.specs.Outcome.{Step};
ghost use Rattle.pixels.specs.Planes.{two_levels};
ghost use Rattle.writing.specs.Parts.{LevelsAsked, level_faults};

use answer::{Refusal, fault};
use layout::RasterLayout;

// Whether all of these bytes are 0 or 255: in order, to the first byte that is neither.
fn two_levels(bytes: &[u8]) -> bool
    ensures { result ≡ two_levels (length bytes.now) bytes.now }
{
    bytes.iter().all(|v| matches!(*v, 0 | 255))
}

// The last refusal: a bilevel picture's bytes are 0 and 255.
pub(crate) fn check_levels(l: RasterLayout, picture: &[u8]) -> Result<(), Refusal>
    requires { LevelsAsked l picture.now }
    ensures { Step (level_faults l picture.now) result }
{
    if l.fields.slots != 8 {
        return Ok(());
    }
    fault(!two_levels(&picture[..l.output_len]), Refusal::Invalid)
}
