use crate::case::Case;
use crate::sample_cases::strip;
use std::alloc::AllocError;

// marks DAMAGE ROW CHANNELS WIDTH predicted|plain ROOM = NUMBER COUNT WRITTEN, where the count of a refusal is 0
pub(crate) fn marks(case: &mut Case) -> Result<bool, AllocError> {
    let damage = case.bytes()?;
    let strip = strip(case);
    let predict = case.is(b"predicted");
    let mut out = case.buffer()?;
    let counted = damage::marks(&damage, strip, predict, &mut out);
    let same = case.answers(&counted) && case.size() == counted.unwrap_or(0);
    Ok(same && case.holds(out)?)
}
