use crate::case::Case;
use answer::{ByteAt, SampleAt};
use std::alloc::AllocError;

// read_word BYTES PLACE WIDTH le|be = NUMBER VALUE
pub(crate) fn read_word(case: &mut Case) -> Result<bool, AllocError> {
    let space = case.bytes()?;
    let at = ByteAt(case.size());
    let width = case.size();
    let le = case.is(b"le");
    let word = words::read_word(&space, at, width, le);
    Ok(case.says(word))
}

// load BYTES SAMPLE narrow|wide le|be = NUMBER VALUE
pub(crate) fn load(case: &mut Case) -> Result<bool, AllocError> {
    let space = case.bytes()?;
    let i = SampleAt(case.size());
    let wide = case.is(b"wide");
    let le = case.is(b"le");
    let word = words::load(&space, i, wide, le);
    Ok(case.says(word.map(u64::from)))
}

// byte_place SAMPLE WIDTH LENGTH bytes = NUMBER PLACE
pub(crate) fn byte_place(case: &mut Case) -> bool {
    let i = SampleAt(case.size());
    let width = case.size();
    let length = case.size();
    case.word();
    let place = words::byte_place(i, width, length);
    case.says(place.map(|at| at.0 as u64))
}
