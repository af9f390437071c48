// Runs rule 11.2's cases, the lines of `stdin`, over the library; prints those that differ, and then one line of counts.
#![tactic(auto)]

mod case;
mod damage_cases;
mod layout_cases;
mod picture_cases;
mod sample_cases;
mod tally;
mod transport_cases;
mod word_cases;

use case::Case;
use layout_cases::{checked, record};
use std::alloc::AllocError;
use std::io;
use std::io::Read;
use tally::Tally;

// Whether the case holds; one that names no call does not.
fn holds(case: &mut Case) -> Result<bool, AllocError> {
    let Ok(call) = std::str::from_utf8(case.word()) else {
        return Ok(false);
    };
    match call {
        "read_word" => word_cases::read_word(case),
        "load" => word_cases::load(case),
        "byte_place" => Ok(word_cases::byte_place(case)),
        "swap_components" => transport_cases::swap_components(case),
        "reverse_bits" => transport_cases::reverse_bits(case),
        "commit_uninit" => transport_cases::commit_uninit(case),
        "check_strip" => Ok(sample_cases::check_strip(case)),
        "convert" => sample_cases::convert(case),
        "forward" => sample_cases::forward(case),
        "reorder" => sample_cases::reorder(case),
        "marks" => damage_cases::marks(case),
        _ => picture_holds(call, case),
    }
}

// The same of a call on a layout or a picture. Most take a layout as it is checked, and `.._record` a record by hand.
fn picture_holds(call: &str, case: &mut Case) -> Result<bool, AllocError> {
    match call {
        "check_layout" => Ok(layout_cases::check_layout(case)),
        "check_record" => Ok(layout_cases::check_record(case)),
        "index" => Ok(layout_cases::index(checked(case), case)),
        "index_record" => Ok(layout_cases::index(record(case), case)),
        "render" => picture_cases::render(checked(case), case),
        "render_record" => picture_cases::render(record(case), case),
        "write_planes" => picture_cases::write_planes(checked(case), case),
        "write_record" => picture_cases::write_planes(record(case), case),
        _ => Ok(false),
    }
}

// An empty line, and one that begins with '#', is no case.
fn is_case(line: &[u8]) -> bool {
    line.first().is_some_and(|first| *first != b'#')
}

fn say_differs(rt: &impl Print, line: &[u8]) -> io::Result<()> {
    rt.write_all(b"differs: ")?;
    rt.write_all(line)?;
    rt.write_all(b"\n")
}

fn run_all(rt: &(impl Print + AllocGlobal), text: &[u8]) -> io::Result<Tally> {
    let mut tally = Tally::default();
    for line in text.split(|byte| *byte == b'\n') {
        if is_case(line) {
            let held = holds(&mut Case::new(rt.alloc(), line))?;
            tally.count(held);
            if !held {
                say_differs(rt, line)?;
            }
        }
    }
    Ok(tally)
}

fn main(rt: HostRuntime) -> io::Result<()> {
    let mut text = Vec::new(rt.alloc());
    rt.reader().read_to_end(&mut text)?;
    let tally = run_all(&rt, text.as_slice())?;
    println!(rt; "{tally}")
}
