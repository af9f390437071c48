use crate::case::Case;
use std::alloc::AllocError;

// swap_components BYTES WIDTH ROOM = NUMBER WRITTEN
pub(crate) fn swap_components(case: &mut Case) -> Result<bool, AllocError> {
    let bytes = case.bytes()?;
    let width = case.size();
    let mut out = case.buffer()?;
    let done = swaps::swap_components(&bytes, width, &mut out);
    Ok(case.answers(&done) && case.holds(out)?)
}

// reverse_bits BYTES ROOM = WRITTEN
pub(crate) fn reverse_bits(case: &mut Case) -> Result<bool, AllocError> {
    let mut bytes = case.whole_buffer()?;
    let room = case.size().min(bytes.len());
    transport::reverse_bits(&mut bytes[..room]);
    case.word();
    case.holds(bytes)
}

// commit_uninit BYTES ROOM = NUMBER WRITTEN
pub(crate) fn commit_uninit(case: &mut Case) -> Result<bool, AllocError> {
    let source = case.bytes()?;
    let mut out = case.buffer()?;
    let done = transport::commit_uninit(&source, &mut out);
    Ok(case.answers(&done) && case.holds(out)?)
}
