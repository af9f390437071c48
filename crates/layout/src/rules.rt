// The three steps of a layout's check, each a list of faults in its order.
ghost use Rattle.std.specs.Prelude.{◌≡◌};
ghost use Rattle.answer.specs.Outcome.{Sound, Step};
ghost use Rattle.layout.specs.Layout.{eight_rule, alpha_rule, palette_rule, slots_rule, served_faults, agreed_faults, size_faults};

use crate::Fields;
use answer::{Refusal, fault};

// The largest width and height.
const SIDE_LIMIT: usize = 16384;

// The most bytes that a picture may have.
const BYTE_LIMIT: usize = 1073741824;

// Step 1: what is not served.
pub(crate) fn check_served(f: Fields) -> Result<(), Refusal>
    ensures { Step (served_faults f) result }
{
    fault(!matches!(f.bytes, 1 | 2 | 8), Refusal::Unsupported)?;
    fault(f.ch == 0, Refusal::Unsupported)?;
    fault(4 < f.ch, Refusal::Unsupported)?;
    fault(!matches!(f.slots, 1 | 2 | 8), Refusal::Unsupported)?;
    fault(2 < f.alpha, Refusal::Unsupported)
}

// Eight-byte samples are plain: one or three channels.
#[tactic(auto, unfolding(crate::specs::Layout::eight_rule))]
fn eight_rule(f: Fields) -> bool
    ensures { result ≡ eight_rule f }
{
    f.bytes != 8
        || (!f.white && !f.palette && f.alpha == 0 && f.slots == 1 && matches!(f.ch, 1 | 3))
}

// Alpha stands beside one or three channels of one byte.
#[tactic(auto, unfolding(crate::specs::Layout::alpha_rule))]
fn alpha_rule(f: Fields) -> bool
    ensures { result ≡ alpha_rule f }
{
    f.alpha == 0 || (f.bytes == 1 && matches!(f.ch, 2 | 4) && !f.palette)
}

// A palette gives three channels of one byte, interleaved.
#[tactic(auto, unfolding(crate::specs::Layout::palette_rule))]
fn palette_rule(f: Fields) -> bool
    ensures { result ≡ palette_rule f }
{
    !f.palette
        || (f.ch == 3
            && f.bytes == 1
            && matches!(f.slots, 1 | 2 | 8)
            && !f.separate
            && f.alpha == 0)
}

// Without a palette several samples share a byte in bilevel pictures alone.
#[tactic(auto, unfolding(crate::specs::Layout::slots_rule))]
fn slots_rule(f: Fields) -> bool
    ensures { result ≡ slots_rule f }
{
    f.palette || f.slots == 1 || (f.slots == 8 && f.ch == 1 && f.bytes == 1 && f.alpha == 0)
}

// Step 2: what contradicts itself.
pub(crate) fn check_agreed(f: Fields) -> Result<(), Refusal>
    ensures { Step (agreed_faults f) result }
{
    fault(f.w == 0, Refusal::Invalid)?;
    fault(f.h == 0, Refusal::Invalid)?;
    fault(!eight_rule(f), Refusal::Invalid)?;
    fault(!alpha_rule(f), Refusal::Invalid)?;
    fault(!palette_rule(f), Refusal::Invalid)?;
    fault(!slots_rule(f), Refusal::Invalid)
}

// Step 3: what is too large. Within the first limit the product cannot wrap.
#[tactic(auto, unfolding(crate::specs::Layout::output_length))]
pub(crate) fn check_size(f: Fields) -> Result<(), Refusal>
    requires { Sound (served_faults f) }
    ensures { Step (size_faults f) result }
{
    fault(SIDE_LIMIT < f.w, Refusal::Limit)?;
    fault(SIDE_LIMIT < f.h, Refusal::Limit)?;
    fault(BYTE_LIMIT < f.w * f.h * f.ch * f.bytes, Refusal::Limit)
}
