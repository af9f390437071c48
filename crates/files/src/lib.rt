// A TIFF file of one page, written from planes: what it is served for, how long it is, and the file itself, which `directory` reads back.
#![tactic(auto)]

use answer::{Refusal, fault};
use layout::{Fields, RasterLayout};

mod front;
mod numbers;
mod plan;
mod tables;

ghost use Rattle.std.specs.Prelude.{◌≡◌};
ghost use Rattle.answer.specs.Outcome.{Step};
ghost use Rattle.files.specs.File.{served as servedOf, asked_faults, Measured, FileWritten};
ghost use Rattle.files.specs.Parts.{Ready, FilePut};

use plan::{Plan, plan_of};

// Whether files of a layout are written.
#[tactic(auto, unfolding(crate::specs::File::served))]
fn served(f: Fields) -> bool
    ensures { result ≡ servedOf f }
{
    let narrow = (f.bytes == 1) | (f.bytes == 2);
    let colour = (f.ch == 3) & !f.white;
    let covered = (f.alpha == 2) & ((f.ch == 2) | ((f.ch == 4) & !f.white));
    f.le & !f.palette & narrow & ((f.ch == 1) | colour | covered)
}

// All faults but those of the buffers.
#[tactic(auto, using(answer::proofs::Chains::unless_next))]
fn check_asked(l: RasterLayout, rows_per_strip: usize) -> Result<(), Refusal>
    ensures { Step (asked_faults l rows_per_strip) result }
{
    let f = l.fields;
    layout::check_record(l)?;
    fault(!served(f), Refusal::Unsupported)?;
    fault(
        (rows_per_strip == 0) | (f.h < rows_per_strip),
        Refusal::Invalid,
    )
}

// The bytes of the file that `write_file` writes.
pub fn file_length(l: RasterLayout, rows_per_strip: usize) -> Result<usize, Refusal>
    ensures { Measured l rows_per_strip result }
{
    check_asked(l, rows_per_strip)?;
    let p = plan_of(l, rows_per_strip);
    Ok(p.length)
}

// The front of the file, and behind it the planes as they are.
fn put_file(l: RasterLayout, p: Plan, planes: &[u8], out: &mut [u8])
    requires { Ready l p planes.now out.old }
    ensures { FilePut l p planes.now out.old out.new }
{
    let f = l.fields;
    let n = l.scratch_len;
    let at = p.planes;
    let end = p.length;
    front::put_front(f, p, out);
    // past every refusal, so it has none
    let _ = transport::commit_uninit(&planes[0..n], &mut out[at..end]);
}

// A file of one page whose strips are the planes, each of so many rows and the last of a plane of what is left.
pub fn write_file(
    l: RasterLayout,
    rows_per_strip: usize,
    planes: &[u8],
    out: &mut [u8],
) -> Result<usize, Refusal>
    ensures { FileWritten l rows_per_strip planes.now out.old result out.new }
{
    check_asked(l, rows_per_strip)?;
    if planes.len() < l.scratch_len {
        return Err(Refusal::Truncated);
    }
    let p = plan_of(l, rows_per_strip);
    if out.len() < p.length {
        return Err(Refusal::OutputTooSmall);
    }
    put_file(l, p, planes, out);
    Ok(p.length)
}
