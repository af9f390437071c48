// What each call should answer and write.
use crate::calls::{PictureCall, StripCall};
use crate::case::{BEFORE, Case, Given, LONGEST};
use crate::outcome::{Fault, Outcome};
use crate::picture::{FIELDS, Picture};
use crate::strip::Strip;
use crate::whole::{byte_at, quotient};
use crate::{layout_reading, marks_reading, picture_reading, strip_reading};
use std::alloc::{AllocError, Global};

// The fault where the output is too short for n bytes.
fn check_room(p: &Strip, n: usize) -> Result<(), Fault> {
    Fault::OutputTooSmall.when(p.room < n)
}

// The first fault in moving words of a width that is served or not.
fn check_move(p: &Strip, served: bool) -> Result<(), Fault> {
    Fault::Unsupported.when(!served)?;
    Fault::Invalid.when(!p.length.is_multiple_of(p.width))?;
    check_room(p, p.length)
}

// The first fault in reading a word at a place.
fn check_word(p: &Strip) -> Result<(), Fault> {
    Fault::Unsupported.when(!strip_reading::served(p.width))?;
    Fault::Truncated.when(p.length < p.place.saturating_add(p.width))
}

// The first fault in finding a sample of this width.
fn check_place(p: &Strip, width: usize) -> Result<(), Fault> {
    Fault::Unsupported.when(width == 0)?;
    let end = p.place.saturating_add(1).saturating_mul(width);
    Fault::Truncated.when(p.length < end)
}

fn load_width(p: &Strip) -> usize {
    if p.wide { 2 } else { 1 }
}

// The first fault of a call on a strip.
fn check_strip(call: StripCall, p: &Strip) -> Result<(), Fault> {
    match call {
        StripCall::Convert | StripCall::Forward => {
            strip_reading::check(p)?;
            check_room(p, p.length)
        }
        StripCall::Marks => {
            strip_reading::check(p)?;
            check_room(p, quotient(p.length, p.width))
        }
        StripCall::CheckStrip => strip_reading::check(p),
        StripCall::Reorder => check_move(p, strip_reading::served(p.width)),
        StripCall::SwapComponents => check_move(p, matches!(p.width, 1..=8)),
        StripCall::ReadWord => check_word(p),
        StripCall::Load => check_place(p, load_width(p)),
        StripCall::BytePlace => check_place(p, p.width),
        StripCall::CommitUninit | StripCall::ReverseBits => check_room(p, p.length),
    }
}

// How many bytes a call on a strip writes.
fn strip_written(call: StripCall, p: &Strip) -> usize {
    match call {
        StripCall::Convert
        | StripCall::Forward
        | StripCall::Reorder
        | StripCall::SwapComponents
        | StripCall::CommitUninit
        | StripCall::ReverseBits => p.length,
        StripCall::Marks => quotient(p.length, p.width),
        _ => 0,
    }
}

// Byte k of what a call on a strip writes.
fn strip_byte(call: StripCall, p: &Strip, input: &[u8], k: usize) -> u8 {
    let n = quotient(k, p.width);
    match call {
        StripCall::Convert => strip_reading::byte_of(strip_reading::sample(input, p, n), p, k),
        StripCall::Forward => {
            strip_reading::byte_of(strip_reading::forward_word(input, p, n), p, k)
        }
        StripCall::Reorder => strip_reading::byte_of(strip_reading::own(input, p, n), p, k),
        StripCall::SwapComponents => strip_reading::swapped_byte(input, p.width, k),
        StripCall::ReverseBits => byte_at(input, k).reverse_bits(),
        StripCall::Marks => u8::from(marks_reading::mark(input, p, k)),
        _ => byte_at(input, k),
    }
}

// The word, place or count that a call on a strip answers.
fn strip_value(call: StripCall, p: &Strip, input: &[u8]) -> usize {
    match call {
        StripCall::ReadWord => strip_reading::word(input, p.place, p.width, p.le),
        StripCall::Load => {
            let width = load_width(p);
            strip_reading::word(input, p.place.saturating_mul(width), width, p.le)
        }
        StripCall::BytePlace => p.place.saturating_mul(p.width),
        StripCall::Marks => marks_reading::count(input, p),
        _ => 0,
    }
}

fn answer_strip(call: StripCall, p: &Strip, input: &[u8], out: &mut [u8]) -> Result<usize, Fault> {
    check_strip(call, p)?;
    let written = strip_written(call, p);
    for (k, byte) in out.iter_mut().enumerate().take(written) {
        *byte = strip_byte(call, p, input, k);
    }
    Ok(strip_value(call, p, input))
}

// What `render` puts into the buffer.
fn render(p: &Picture, file: &[u8], raw: &[u8], out: &mut [u8]) {
    for (k, byte) in out.iter_mut().enumerate().take(p.output_len) {
        *byte = picture_reading::rendered(p, file, raw, k);
    }
}

fn write_planes(p: &Picture, picture: &[u8], out: &mut [u8]) {
    for (b, byte) in out.iter_mut().enumerate().take(p.scratch_len) {
        *byte = picture_reading::plane_byte(p, picture, b);
    }
}

// The answer to `check_layout` is how many fields its record has.
fn answer_picture(
    call: PictureCall,
    p: &Picture,
    input: &[u8],
    file: &[u8],
    out: &mut [u8],
) -> Result<usize, Fault> {
    match call {
        PictureCall::CheckLayout => {
            layout_reading::check_layout(p)?;
            return Ok(FIELDS);
        }
        PictureCall::CheckRecord => layout_reading::check_record(p)?,
        PictureCall::Index => {
            layout_reading::check_record(p)?;
            Fault::Invalid.when(p.output_len <= p.place)?;
            return Ok(layout_reading::source(p, p.place));
        }
        PictureCall::Render => {
            picture_reading::check_render(p)?;
            render(p, file, input, out);
        }
        PictureCall::WritePlanes => {
            picture_reading::check_write(p, input)?;
            write_planes(p, input, out);
        }
    }
    Ok(0)
}

pub(crate) fn outcome(alloc: Global, case: &Case) -> Result<Outcome, AllocError> {
    let mut buffer = vec![in alloc; BEFORE; LONGEST]?;
    let (input, file) = (case.input.as_slice(), case.file.as_slice());
    let answer = match &case.given {
        Given::Strip(call, p) => answer_strip(*call, p, input, &mut buffer),
        Given::Picture(call, p) => answer_picture(*call, p, input, file, &mut buffer),
    };
    Ok(Outcome {
        answer: answer.map_err(u32::from),
        buffer,
    })
}
