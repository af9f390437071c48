// The library's calls on the same numbers and bytes.
use crate::calls::{PictureCall, StripCall};
use crate::case::{BEFORE, Case, Given, LONGEST};
use crate::outcome::Outcome;
use crate::picture::Picture;
use crate::strip::Strip;
use answer::{ByteAt, Refusal, SampleAt};
use layout::{Fields, RasterLayout};
use std::alloc::{AllocError, Global};

// What a picture's numbers say, and the library's record of them.
fn fields(p: &Picture) -> Fields {
    Fields {
        w: p.w,
        h: p.h,
        ch: p.ch,
        bytes: p.bytes,
        slots: p.slots,
        palette: p.palette,
        separate: p.separate,
        le: p.le,
        white: p.white,
        alpha: p.alpha,
        map: p.map,
    }
}

fn record(p: &Picture) -> RasterLayout {
    RasterLayout {
        fields: fields(p),
        encoded_width: p.encoded_width,
        plane_channels: p.plane_channels,
        planes: p.planes,
        plane_len: p.plane_len,
        scratch_len: p.scratch_len,
        output_len: p.output_len,
        colors: p.colors,
    }
}

// How many fields of a record are as they should be.
fn right_fields(l: RasterLayout, p: &Picture) -> usize {
    let f = l.fields;
    let same = [
        f.palette == p.palette,
        f.separate == p.separate,
        f.le == p.le,
        f.white == p.white,
        f.bytes == p.bytes,
        f.slots == p.slots,
        f.alpha == p.alpha,
        f.ch == p.ch,
        f.w == p.w,
        f.h == p.h,
        f.map == p.map,
        l.encoded_width == p.encoded_width,
        l.plane_channels == p.plane_channels,
        l.planes == p.planes,
        l.plane_len == p.plane_len,
        l.scratch_len == p.scratch_len,
        l.output_len == p.output_len,
        l.colors == p.colors,
    ];
    same.iter().filter(|same| **same).count()
}

// Bits are reversed in place: in a copy of the input.
fn reverse(input: &[u8], out: &mut [u8]) -> Result<(), Refusal> {
    transport::commit_uninit(input, out)?;
    let n = input.len().min(out.len());
    transport::reverse_bits(&mut out[..n]);
    Ok(())
}

// The word, place or count that a call on a strip answers, 0 where it answers none.
fn answer_strip(
    call: StripCall,
    p: &Strip,
    input: &[u8],
    out: &mut [u8],
) -> Result<usize, Refusal> {
    let width = p.width;
    let strip = samples::Strip {
        row: p.row,
        channels: p.channels,
        width,
    };
    let (le, predict, out_le) = (p.le, p.predict, p.out_le);
    match call {
        StripCall::Convert => { strips::convert(input, strip, le, predict, out_le, out)? }
        StripCall::Forward => { strips::forward(input, strip, le, predict, out_le, out)? }
        StripCall::Reorder => samples::reorder(input, width, le, out_le, out)?,
        StripCall::SwapComponents => swaps::swap_components(input, width, out)?,
        StripCall::CommitUninit => transport::commit_uninit(input, out)?,
        StripCall::ReverseBits => reverse(input, out)?,
        StripCall::CheckStrip => samples::check_strip(input.len(), strip)?,
        StripCall::Marks => return damage::marks(input, strip, predict, out),
        StripCall::ReadWord => {
            let word = words::read_word(input, ByteAt(p.place), width, le)?;
            return Ok(word as usize);
        }
        StripCall::Load => {
            let word = words::load(input, SampleAt(p.place), p.wide, le)?;
            return Ok(word as usize);
        }
        StripCall::BytePlace => {
            return words::byte_place(SampleAt(p.place), width, input.len()).map(|at| at.0);
        }
    }
    Ok(0)
}

// The same of a call on a layout or a picture; of `check_layout`, how many fields of its record are right.
fn answer_picture(
    call: PictureCall,
    p: &Picture,
    input: &[u8],
    file: &[u8],
    out: &mut [u8],
) -> Result<usize, Refusal> {
    match call {
        PictureCall::CheckLayout => {
            return layout::check_layout(fields(p)).map(|l| right_fields(l, p));
        }
        PictureCall::Index => return layout::index(record(p), ByteAt(p.place)).map(|at| at.0),
        PictureCall::CheckRecord => layout::check_record(record(p))?,
        PictureCall::Render => rendering::render(record(p), file, input, out)?,
        PictureCall::WritePlanes => writing::write_planes(record(p), input, out)?,
    }
    Ok(0)
}

// The buffer is lent as far as a call has room in it.
pub(crate) fn outcome(alloc: Global, case: &Case) -> Result<Outcome, AllocError> {
    let mut buffer = vec![in alloc; BEFORE; LONGEST]?;
    let (input, file) = (case.input.as_slice(), case.file.as_slice());
    let out = &mut buffer[..case.given.room().min(LONGEST)];
    let answer = match &case.given {
        Given::Strip(call, p) => answer_strip(*call, p, input, out),
        Given::Picture(call, p) => answer_picture(*call, p, input, file, out),
    };
    Ok(Outcome {
        answer: answer.map_err(u32::from),
        buffer,
    })
}
