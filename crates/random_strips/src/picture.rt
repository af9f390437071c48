use crate::case::write_numbers;
use std::fmt;

// The numbers of a call on a layout or a picture: those of its record, the lengths of its file part, its input and the buffer for its
// output, and a place asked for.
#[derive(Clone, Copy, Default)]
pub struct Picture {
    pub palette: bool,
    pub separate: bool,
    pub le: bool,
    pub white: bool,
    pub bytes: usize,
    pub slots: usize,
    pub alpha: usize,
    pub ch: usize,
    pub w: usize,
    pub h: usize,
    pub map: usize,

    // Each of these follows from those before it.
    pub encoded_width: usize,
    pub plane_channels: usize,
    pub planes: usize,
    pub plane_len: usize,
    pub scratch_len: usize,
    pub output_len: usize,
    pub colors: usize,

    pub file: usize,
    pub length: usize,
    pub room: usize,
    pub place: usize,
}

// How many fields a record has.
pub const FIELDS: usize = 18;

impl fmt::Display for Picture {
    fn fmt<W: fmt::Write>(&self, f: &mut fmt::Formatter<W>) -> fmt::Result {
        let numbers = [
            ("palette", usize::from(self.palette)),
            ("separate", usize::from(self.separate)),
            ("le", usize::from(self.le)),
            ("white", usize::from(self.white)),
            ("bytes", self.bytes),
            ("slots", self.slots),
            ("alpha", self.alpha),
            ("ch", self.ch),
            ("w", self.w),
            ("h", self.h),
            ("map", self.map),
            ("encoded_width", self.encoded_width),
            ("plane_channels", self.plane_channels),
            ("planes", self.planes),
            ("plane_len", self.plane_len),
            ("scratch_len", self.scratch_len),
            ("output_len", self.output_len),
            ("colors", self.colors),
            ("file part", self.file),
            ("input length", self.length),
            ("output room", self.room),
            ("place", self.place),
        ];
        write_numbers(f, &numbers)
    }
}
