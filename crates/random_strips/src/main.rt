// A second reading of docs/RULES.md, slow and plain, compared with the library on random strips, damage maps, layouts and pictures.
#![tactic(auto)]

mod calls;
mod case;
mod inputs;
mod layout_reading;
mod library;
mod marks_reading;
mod outcome;
mod picture;
mod picture_inputs;
mod picture_reading;
mod reading;
mod strip;
mod strip_inputs;
mod strip_reading;
mod trial;
mod whole;

use calls::CALLS;
use case::{Bytes, Case, Given};
use outcome::Outcome;
use std::io;
use trial::{SEED, Trial};

const TRIALS: usize = 320000;

// What a call was given that differs.
fn say_case(rt: &impl Print, t: usize, case: &Case) -> io::Result<()> {
    match &case.given {
        Given::Strip(call, p) => print!(rt; "{call:<16} differs in trial {t}\n{p}")?,
        Given::Picture(call, p) => print!(rt; "{call:<16} differs in trial {t}\n{p}")?,
    }
    println!(rt; "input{}", Bytes(&case.input))?;
    println!(rt; "file part{}", Bytes(&case.file))
}

fn say(
    rt: &impl Print,
    t: usize,
    case: &Case,
    expected: &Outcome,
    got: &Outcome,
) -> io::Result<()> {
    say_case(rt, t, case)?;
    println!(rt; "expected: {expected}")?;
    println!(rt; "got: {got}")
}

// The library and the reading on random cases; the first difference is printed. Answers how many there are.
fn run(rt: &(impl Print + AllocGlobal)) -> io::Result<usize> {
    let mut differ: usize = 0;
    for t in 0..TRIALS {
        let case = inputs::case(rt.alloc(), Trial(t))?;
        let expected = reading::outcome(rt.alloc(), &case)?;
        let got = library::outcome(rt.alloc(), &case)?;
        if expected != got {
            if differ == 0 {
                say(rt, t, &case, &expected, &got)?;
            }
            differ = differ.saturating_add(1);
        }
    }
    Ok(differ)
}

fn main(rt: HostRuntime) -> io::Result<()> {
    let differ = run(&rt)?;
    let calls = CALLS.len();
    println!(rt; "seed {SEED}: {calls} calls, {TRIALS} comparisons, {differ} differ")
}
