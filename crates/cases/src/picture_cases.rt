// Pictures and planes. RECORD is a layout, or a layout and the seven words of a record by hand.
use crate::case::Case;
use layout::RasterLayout;
use std::alloc::AllocError;

// How many bytes the file part has at most: room for the 1536 of a map of 256 colours.
const FILE: usize = 1600;

// render RECORD FILE RAW ROOM = NUMBER WRITTEN
pub(crate) fn render(record: RasterLayout, case: &mut Case) -> Result<bool, AllocError> {
    let file = case.bytes_up_to(FILE)?;
    let raw = case.bytes()?;
    let mut out = case.buffer()?;
    let done = rendering::render(record, &file, &raw, &mut out);
    Ok(case.answers(&done) && case.holds(out)?)
}

// write_planes RECORD PICTURE ROOM = NUMBER WRITTEN
pub(crate) fn write_planes(record: RasterLayout, case: &mut Case) -> Result<bool, AllocError> {
    let picture = case.bytes()?;
    let mut planes = case.buffer()?;
    let done = writing::write_planes(record, &picture, &mut planes);
    Ok(case.answers(&done) && case.holds(planes)?)
}
