// What every call answers with: a value or one of five refusals; the two kinds of position; and how a check looks for faults in order.
#![tactic(auto)]

ghost use Rattle.std.specs.Prelude.{◌≡◌, [], ◌∷◌};
ghost use Rattle.answer.specs.Outcome.{number, fault_of, Step, InOrder};

// The five kinds of refusal, in the order of rule 1.1's numbers.
#[derive(Clone, Copy, Debug, PartialEq, Eq)]
pub enum Refusal {
    Unsupported,
    Invalid,
    Truncated,
    OutputTooSmall,
    Limit,
}

// A position counted in samples.
#[derive(Clone, Copy)]
pub struct SampleAt(pub usize);

// A position counted in bytes.
#[derive(Clone, Copy)]
pub struct ByteAt(pub usize);

// Rule 1.1's number of a kind.
impl From<Refusal> for u32 {
    ghost from_gives = { λ kind n. n ≡ number kind };

    fn from(kind: Refusal) -> u32 {
        match kind {
            Refusal::Unsupported => 1,
            Refusal::Invalid => 2,
            Refusal::Truncated => 3,
            Refusal::OutputTooSmall => 4,
            Refusal::Limit => 5,
        }
    }
}

// One fault: its refusal if it is found.
pub fn fault(found: bool, kind: Refusal) -> Result<(), Refusal>
    ensures { Step (fault_of found kind ∷ []) result }
{
    if found { Err(kind) } else { Ok(()) }
}

// One step after another: of two answers the first refusal.
pub fn first_of(one: Result<(), Refusal>, later: Result<(), Refusal>) -> Result<(), Refusal>
    ensures { InOrder one later result }
{
    one.and(later)
}
