// A line of `stdin`: words with spaces between them, which are taken one by one. Past the last each word is empty.
ghost use Rattle.std.specs.Prelude.{◌≤◌};

use answer::Refusal;
use std::alloc::{AllocError, Global};

// How many bytes a buffer has that is lent to a call, at most, and what it holds before.
const SPACE: usize = 64;

const BEFORE: u8 = 170;

// A decimal digit's value; any other byte counts as 0.
fn digit(byte: u8) -> u64 {
    char::from(byte).to_digit(10).map_or(0, u64::from)
}

// A decimal number below 2^64. A digit that takes it beyond that is left out, or only its carry: no case has such a number.
fn number(word: &[u8]) -> u64 {
    word.iter().fold(0, |v: u64, byte| {
        v.checked_mul(10)
            .map_or(v, |tens| tens.wrapping_add(digit(*byte)))
    })
}

// A hexadecimal digit's value; any other byte counts as 0, and, unlike for `to_digit`, so does a capital letter.
fn nibble(byte: u8) -> u8
    ensures { result ≤ 15 }
{
    match byte {
        b'0'..=b'9' => byte - b'0',
        b'a'..=b'f' => byte - b'a' + 10,
        _ => 0,
    }
}

// What is left of a case's line, and where the bytes that it writes out are kept.
#[derive(Clone, Copy)]
pub struct Case<'a> {
    rest: &'a [u8],
    alloc: Global,
}

impl<'a> Case<'a> {
    pub(crate) fn new(alloc: Global, line: &'a [u8]) -> Self {
        Case { rest: line, alloc }
    }

    pub(crate) fn word(&mut self) -> &'a [u8] {
        let line = self.rest;
        let start = line.iter().position(|byte| *byte != b' ');
        let (_, from) = line.split_at(start.unwrap_or(line.len()));
        let end = from.iter().position(|byte| *byte == b' ');
        let (word, rest) = from.split_at(end.unwrap_or(from.len()));
        self.rest = rest;
        word
    }

    pub(crate) fn number(&mut self) -> u64 {
        number(self.word())
    }

    pub(crate) fn size(&mut self) -> usize {
        self.number() as usize
    }

    // Whether the next word is this one.
    pub(crate) fn is(&mut self, word: &[u8]) -> bool {
        self.word() == word
    }

    // Bytes that are written as pairs of hexadecimal digits, so many at most.
    pub(crate) fn bytes_up_to(&mut self, most: usize) -> Result<Vec<u8>, AllocError> {
        let (pairs, _) = self.word().as_chunks::<2>();
        pairs
            .iter()
            .take(most)
            .map(|[high, low]| 16 * nibble(*high) + nibble(*low))
            .collect(self.alloc)
    }

    pub(crate) fn bytes(&mut self) -> Result<Vec<u8>, AllocError> {
        self.bytes_up_to(SPACE)
    }

    // A whole buffer that begins with such bytes.
    pub(crate) fn whole_buffer(&mut self) -> Result<Vec<u8>, AllocError> {
        let mut buffer = self.bytes()?;
        buffer.resize(SPACE, BEFORE)?;
        Ok(buffer)
    }

    // A buffer to be lent, as long as the next word says.
    pub(crate) fn buffer(&mut self) -> Result<Vec<u8>, AllocError> {
        let room = self.size().min(SPACE);
        Ok(vec![in self.alloc; BEFORE; room]?)
    }

    // Whether "=" and the number of this answer come next: rule 1.1's, 0 for done.
    pub(crate) fn answers<T>(&mut self, answer: &Result<T, Refusal>) -> bool {
        self.word();
        let expected = self.number();
        match answer {
            Ok(_) => expected == 0,
            Err(kind) => expected == u64::from(u32::from(*kind)),
        }
    }

    // Whether the same comes next, and after done this value.
    pub(crate) fn says(&mut self, answer: Result<u64, Refusal>) -> bool {
        let same = self.answers(&answer);
        let expected = self.number();
        same && answer.map_or(true, |value| value == expected)
    }

    // Whether a buffer begins with the bytes that come next, where all after those and after its own are as before.
    pub(crate) fn holds(&mut self, mut buffer: Vec<u8>) -> Result<bool, AllocError> {
        buffer.resize(SPACE, BEFORE)?;
        Ok(buffer == self.whole_buffer()?)
    }
}
