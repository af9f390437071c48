// A strip that comes in pieces, converted as it comes: a state is all that the bytes so far leave to be known, and each piece writes the
// samples that it completes.
#![tactic(auto)]

mod check;
mod feed;

ghost use Rattle.std.specs.Prelude.{◌≡◌};
ghost use Rattle.packets.specs.Promises.{nowhere, state, Begun, Took, TookLent, Closed};

use answer::Refusal;
use samples::Strip;

// What a start fixes.
#[derive(Clone, Copy)]
pub struct Plan {
    pub row_bytes: usize,
    pub channels: usize,
    pub width: usize,
    pub le: bool,
    pub predict: bool,
    pub out_le: bool,
}

// The state of a conversion: the bytes that have come, those of the unfinished word, and the sum so far of each channel of the unfinished row.
#[derive(Clone, Copy)]
pub struct Packets {
    pub plan: Plan,
    pub received: usize,
    pub tail: [u8; 8],
    pub sums: [u64; 64],
}

// What `start` hands back. No Result: a refusal hands back a state too, to which nothing leads (`Begun`).
#[derive(Clone, Copy)]
pub struct Started {
    pub state: Packets,
    pub answer: Result<(), Refusal>,
}

// What `piece` hands back. No Result: a refusal hands back the state that came in (`Took`).
#[derive(Clone, Copy)]
pub struct Stepped {
    pub state: Packets,
    pub answer: Result<usize, Refusal>,
}

fn nothing() -> Packets
    ensures { result ≡ nowhere }
{
    let tail = [0u8; 8];
    let sums = [0u64; 64];
    let plan = Plan {
        row_bytes: 0,
        channels: 0,
        width: 0,
        le: false,
        predict: false,
        out_le: false,
    };
    Packets {
        plan: plan,
        received: 0,
        tail: tail,
        sums: sums,
    }
}

// The next bytes of a strip, as `Packets::piece` takes them, on a state whose parts are lent: the bytes of the unfinished word and the sums are
// altered where they stand.
pub fn lent_piece(
    plan: Plan,
    received: usize,
    bytes: &[u8],
    tail: &mut [u8],
    sums: &mut [u64],
    out: &mut [u8],
) -> Result<usize, Refusal>
    ensures { TookLent (state plan received tail.old sums.old) bytes.now out.old result tail.new sums.new out.new }
{
    if tail.len() != 8 {
        return Err(Refusal::Invalid);
    }
    if sums.len() != 64 {
        return Err(Refusal::Invalid);
    }
    if !check::passes(
        plan.row_bytes,
        plan.channels,
        plan.width,
        plan.predict,
        received,
        tail,
        sums,
    ) {
        return Err(Refusal::Invalid);
    }
    if 1073741824 - received < bytes.len() {
        return Err(Refusal::Limit);
    }
    let begun = feed::past(received, plan.width) + bytes.len();
    let completes = begun - feed::past(begun, plan.width);
    if out.len() < completes {
        return Err(Refusal::OutputTooSmall);
    }
    feed::feed(plan, received, bytes, tail, sums, out);
    Ok(completes)
}

impl Packets {
    // A conversion of which no byte has come.
    pub fn start(plan: Plan) -> Started
        ensures { Begun plan result }
    {
        let state = nothing();
        let strip = Strip {
            row: plan.row_bytes,
            channels: plan.channels,
            width: plan.width,
        };
        match samples::check_strip(0, strip) {
            Err(kind) => Started {
                state,
                answer: Err(kind),
            },
            Ok(()) => Started {
                state: Packets { plan, ..state },
                answer: Ok(()),
            },
        }
    }

    // The next bytes of the strip: the samples that they complete are written.
    pub fn piece(self, bytes: &[u8], out: &mut [u8]) -> Stepped
        ensures { Took self bytes.now out.old result out.new }
    {
        let plan = self.plan;
        let mut tail = self.tail;
        let mut sums = self.sums;
        let answer = lent_piece(plan, self.received, bytes, &mut tail, &mut sums, out);
        match answer {
            Err(kind) => Stepped {
                state: self,
                answer: Err(kind),
            },
            Ok(n) => {
                let state = Packets {
                    plan: plan,
                    received: self.received + bytes.len(),
                    tail: tail,
                    sums: sums,
                };
                Stepped {
                    state: state,
                    answer: Ok(n),
                }
            }
        }
    }

    // Whether whole rows have come.
    pub fn close(self) -> Result<(), Refusal>
        ensures { Closed self result }
    {
        let plan = self.plan;
        let tail = self.tail;
        let sums = self.sums;
        if !check::passes(
            plan.row_bytes,
            plan.channels,
            plan.width,
            plan.predict,
            self.received,
            &tail,
            &sums,
        ) {
            return Err(Refusal::Invalid);
        }
        if self.received % plan.row_bytes != 0 {
            return Err(Refusal::Invalid);
        }
        Ok(())
    }
}
