use crate::case::write_numbers;
use std::fmt;

// The numbers of a call on a strip or words: with them how long a file part is, at which none looks, the input and the buffer for the
// output, and a place asked for.
#[derive(Clone, Copy)]
pub struct Strip {
    pub le: bool,
    pub predict: bool,
    pub out_le: bool,
    pub wide: bool,
    pub width: usize,
    pub channels: usize,
    pub row: usize,
    pub file: usize,
    pub length: usize,
    pub room: usize,
    pub place: usize,
}

impl fmt::Display for Strip {
    fn fmt<W: fmt::Write>(&self, f: &mut fmt::Formatter<W>) -> fmt::Result {
        let numbers = [
            ("le", usize::from(self.le)),
            ("predicted", usize::from(self.predict)),
            ("out le", usize::from(self.out_le)),
            ("wide", usize::from(self.wide)),
            ("width", self.width),
            ("channels", self.channels),
            ("row bytes", self.row),
            ("file part", self.file),
            ("input length", self.length),
            ("output room", self.room),
            ("place", self.place),
        ];
        write_numbers(f, &numbers)
    }
}
