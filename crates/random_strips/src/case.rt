// What a call is given: its numbers, its input, and the file part that has a palette's colours.
use crate::calls::{PictureCall, StripCall};
use crate::picture::Picture;
use crate::strip::Strip;
use std::fmt;

// How long most calls' buffers are, any buffer, and the file part, at most.
pub const MOST: usize = 160;

pub const LONGEST: usize = 1200;

pub const MOST_FILE: usize = 1600;

// What a buffer holds before a call.
pub const BEFORE: u8 = 170;

#[derive(Clone, Copy)]
pub enum Given {
    Strip(StripCall, Strip),
    Picture(PictureCall, Picture),
}

impl Given {
    // How many bytes there is room for in the buffer that the call is lent.
    pub(crate) fn room(&self) -> usize {
        match self {
            Given::Strip(_, p) => p.room,
            Given::Picture(_, p) => p.room,
        }
    }
}

#[derive(Drop)]
pub struct Case {
    pub given: Given,
    pub input: Vec<u8>,
    pub file: Vec<u8>,
}

// Numbers of a call, each after its name on a line of its own.
pub(crate) fn write_numbers<W: fmt::Write>(
    f: &mut fmt::Formatter<W>,
    numbers: &[(&str, usize)],
) -> fmt::Result {
    for (name, number) in numbers {
        writeln!(f, "{name:<16} {number}")?;
    }
    Ok(())
}

// Bytes as decimal numbers, with a space before each.
#[derive(Clone, Copy)]
pub struct Bytes<'a>(pub &'a [u8]);

impl fmt::Display for Bytes<'_> {
    fn fmt<W: fmt::Write>(&self, f: &mut fmt::Formatter<W>) -> fmt::Result {
        for byte in self.0 {
            write!(f, " {byte}")?;
        }
        Ok(())
    }
}
