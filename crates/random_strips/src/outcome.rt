use crate::case::Bytes;
use std::fmt;

// The faults of rule 1.1, whose numbers are 1 to 5.
#[derive(Clone, Copy)]
pub enum Fault {
    Unsupported = 1,
    Invalid,
    Truncated,
    OutputTooSmall,
    Limit,
}

impl Fault {
    // This fault where it is found.
    pub(crate) fn when(self, found: bool) -> Result<(), Fault> {
        if found { Err(self) } else { Ok(()) }
    }
}

impl From<Fault> for u32 {
    fn from(fault: Fault) -> u32 {
        fault as u32
    }
}

// What comes of a call: the word, place or count that it answers, 0 where it answers none, or the number of its fault; and what its buffer
// holds then.
#[derive(PartialEq, Drop)]
pub struct Outcome {
    pub answer: Result<usize, u32>,
    pub buffer: Vec<u8>,
}

impl fmt::Display for Outcome {
    fn fmt<W: fmt::Write>(&self, f: &mut fmt::Formatter<W>) -> fmt::Result {
        match self.answer {
            Ok(value) => write!(f, "number 0, value {value}")?,
            Err(number) => write!(f, "number {number}, value 0")?,
        }
        write!(f, ", bytes{}", Bytes(&self.buffer))
    }
}
