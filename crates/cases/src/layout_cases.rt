// Layouts. Eight words say one, LAYOUT in the cases: W H CH BYTES SLOTS FLAGS ALPHA MAP, where FLAGS has the letters of those that are on.
use crate::case::Case;
use answer::ByteAt;
use layout::{Fields, RasterLayout};

fn fields(case: &mut Case) -> Fields {
    let (w, h, ch) = (case.size(), case.size(), case.size());
    let (bytes, slots) = (case.size(), case.size());
    let flags = case.word();
    Fields {
        w,
        h,
        ch,
        bytes,
        slots,
        palette: flags.contains(&b'p'),
        separate: flags.contains(&b's'),
        le: flags.contains(&b'l'),
        white: flags.contains(&b'w'),
        alpha: case.size(),
        map: case.size(),
    }
}

// What follows from these fields in a record by hand, DERIVED in the cases: seven words more.
fn derived(fields: Fields, case: &mut Case) -> RasterLayout {
    RasterLayout {
        fields,
        encoded_width: case.size(),
        plane_channels: case.size(),
        planes: case.size(),
        plane_len: case.size(),
        scratch_len: case.size(),
        output_len: case.size(),
        colors: case.size(),
    }
}

// A record by hand: LAYOUT DERIVED.
pub(crate) fn record(case: &mut Case) -> RasterLayout {
    derived(fields(case), case)
}

// The record that the check answers. A layout that it refuses goes on with any numbers, for the call itself to refuse.
pub(crate) fn checked(case: &mut Case) -> RasterLayout {
    let fields = fields(case);
    let mut ahead = *case;
    layout::check_layout(fields).unwrap_or_else(|_| derived(fields, &mut ahead))
}

// check_layout LAYOUT = NUMBER DERIVED
pub(crate) fn check_layout(case: &mut Case) -> bool {
    let fields = fields(case);
    let layout = layout::check_layout(fields);
    case.answers(&layout) && layout.map_or(true, |l| l == derived(fields, case))
}

// check_record LAYOUT DERIVED = NUMBER
pub(crate) fn check_record(case: &mut Case) -> bool {
    let done = layout::check_record(record(case));
    case.answers(&done)
}

// index RECORD K = NUMBER PLACE
pub(crate) fn index(record: RasterLayout, case: &mut Case) -> bool {
    let k = ByteAt(case.size());
    let place = layout::index(record, k);
    case.says(place.map(|at| at.0 as u64))
}
