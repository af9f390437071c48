// Random calls on strips and words.
use crate::calls::StripCall;
use crate::case::{LONGEST, MOST, MOST_FILE};
use crate::strip::Strip;
use crate::trial::Trial;
use crate::whole::{power, quotient};
use std::alloc::{AllocError, Global};

// 1, 2, 3, 4 or 8; where others are served, 1 to 8.
fn some_width(call: StripCall, t: Trial) -> usize {
    match call {
        StripCall::SwapComponents | StripCall::BytePlace => 1 + t.pick(100, 8),
        _ => match t.pick(100, 5) {
            0 => 1,
            1 => 2,
            2 => 3,
            3 => 4,
            _ => 8,
        },
    }
}

// One to four channels in most trials, else up to 64.
fn some_channels(t: Trial) -> usize {
    match t.pick(110, 12) {
        0 => 64,
        1 => 1 + t.pick(111, 64),
        2..=4 => 1,
        _ => 1 + t.pick(111, 4),
    }
}

// Whether marks are asked of a long strip.
fn is_long(t: Trial) -> bool {
    t.once_in(121, 400)
}

// How long strips are at most: where every damaged byte is tried, small but for rows of many channels, and now and then long.
fn most(call: StripCall, t: Trial, channels: usize) -> usize {
    if call != StripCall::Marks {
        MOST
    } else if is_long(t) {
        LONGEST
    } else if channels > 4 {
        192
    } else {
        32
    }
}

// One to nine pixels, of a long strip any number, as many as there is room for.
fn some_row(call: StripCall, t: Trial, channels: usize, width: usize) -> usize {
    let pixel = channels.saturating_mul(width);
    let room = quotient(most(call, t, channels), pixel);
    let pixels = if is_long(t) { room } else { room.min(9) };
    pixel.saturating_mul(t.pick(120, pixels).saturating_add(1))
}

// Up to four rows of a strip, or some words.
fn some_length(call: StripCall, t: Trial, p: &Strip) -> usize {
    let (part, parts) = match call {
        StripCall::Convert | StripCall::Forward | StripCall::Marks | StripCall::CheckStrip => {
            (p.row, quotient(most(call, t, p.channels), p.row).min(4))
        }
        _ => (p.width, quotient(64, p.width)),
    };
    part.saturating_mul(t.pick(130, parts.saturating_add(1)))
}

// About as many bytes as a call writes.
fn some_room(call: StripCall, t: Trial, p: &Strip) -> usize {
    let need = match call {
        StripCall::Marks => quotient(p.length, p.width),
        _ => p.length,
    };
    t.room(140, need)
}

// The place of a byte or of a sample: within the bytes, at their end, or near a number at which a sum or a product wraps.
fn some_place(call: StripCall, t: Trial, p: &Strip) -> usize {
    let count = match call {
        StripCall::ReadWord => p.length,
        StripCall::Load => p.length / 2,
        _ => quotient(p.length, p.width),
    };
    let place = t.pick(150, count.saturating_add(2));
    match t.pick(151, 8) {
        0 => t.edge(152, place),
        1 => usize::MAX - place,
        2 => power(2, 61 + t.pick(154, 3)).saturating_add(place),
        _ => place,
    }
}

// Flag i of such a call, or once in 30 times whether a likely fault of its number, 0 or 1, is 1.
fn flag(t: Trial, i: usize, good: bool) -> bool {
    t.spoilt(i, usize::from(good)) == 1
}

// The numbers of such a call, each from those before it.
pub(crate) fn numbers(call: StripCall, t: Trial) -> Strip {
    let width = t.spoilt(15, some_width(call, t));
    let channels = t.spoilt(16, some_channels(t));
    let mut p = Strip {
        le: flag(t, 11, t.pick(11, 2) == 1),
        predict: flag(t, 12, !t.once_in(12, 4)),
        out_le: flag(t, 13, t.pick(13, 2) == 1),
        wide: flag(t, 14, t.pick(14, 2) == 1),
        width,
        channels,
        row: t.spoilt(17, some_row(call, t, channels, width)),
        file: t.spoilt(18, 0).min(MOST_FILE),
        length: 0,
        room: 0,
        place: 0,
    };
    p.length = t.spoilt(19, some_length(call, t, &p)).min(LONGEST);
    p.room = t.spoilt(20, some_room(call, t, &p)).min(LONGEST);
    p.place = t.spoilt(21, some_place(call, t, &p));
    p
}

// The bytes that such a call is given: any, but damage is rare.
pub(crate) fn input(
    alloc: Global,
    call: StripCall,
    t: Trial,
    p: &Strip,
) -> Result<Vec<u8>, AllocError> {
    if call == StripCall::Marks {
        let turns = if is_long(t) { 20 } else { 1 };
        t.bytes(alloc, p.length, 1000, turns * (1 + t.pick(800, 30)), 0)
    } else {
        t.bytes(alloc, p.length, 1000, 1, 255)
    }
}
