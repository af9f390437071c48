use crate::case::Case;
use answer::Refusal;
use samples::Strip;
use std::alloc::AllocError;

// A strip's geometry: ROW CHANNELS WIDTH.
pub(crate) fn strip(case: &mut Case) -> Strip {
    let row = case.size();
    let channels = case.size();
    let width = case.size();
    Strip {
        row,
        channels,
        width,
    }
}

// check_strip BYTES ROW CHANNELS WIDTH = NUMBER
pub(crate) fn check_strip(case: &mut Case) -> bool {
    let bytes = case.size();
    let strip = strip(case);
    let done = samples::check_strip(bytes, strip);
    case.answers(&done)
}

// CALL BYTES ROW CHANNELS WIDTH le|be predicted|plain le|be ROOM = NUMBER WRITTEN
fn transform<F>(case: &mut Case, call: F) -> Result<bool, AllocError>
where
    F: FnOnce(&[u8], Strip, bool, bool, bool, &mut [u8]) -> Result<(), Refusal>,
    requires { F.IsAlwaysCallable call }
{
    let raw = case.bytes()?;
    let strip = strip(case);
    let le = case.is(b"le");
    let predict = case.is(b"predicted");
    let out_le = case.is(b"le");
    let mut out = case.buffer()?;
    let done = call(&raw, strip, le, predict, out_le, &mut out);
    Ok(case.answers(&done) && case.holds(out)?)
}

pub(crate) fn convert(case: &mut Case) -> Result<bool, AllocError> {
    transform(case, strips::convert)
}

pub(crate) fn forward(case: &mut Case) -> Result<bool, AllocError> {
    transform(case, strips::forward)
}

// reorder BYTES WIDTH le|be le|be ROOM = NUMBER WRITTEN
pub(crate) fn reorder(case: &mut Case) -> Result<bool, AllocError> {
    let raw = case.bytes()?;
    let width = case.size();
    let le = case.is(b"le");
    let out_le = case.is(b"le");
    let mut out = case.buffer()?;
    let done = samples::reorder(&raw, width, le, out_le, &mut out);
    Ok(case.answers(&done) && case.holds(out)?)
}
