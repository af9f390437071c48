// Section 5 of docs/RULES.md and upstream's `valid`, on layouts, read slowly: a picture byte is found from its row, column and channel.
use crate::outcome::Fault;
use crate::picture::Picture;
use crate::whole::{divided, quotient};

// What the derived fields are, each from the fields before it.
pub(crate) fn encoded_width(p: &Picture) -> usize {
    quotient(p.w.saturating_sub(1), p.slots).saturating_add(1)
}

pub(crate) fn plane_channels(p: &Picture) -> usize {
    let channels = if p.separate { 1 } else { p.ch };
    if p.palette {
        1
    } else {
        channels.saturating_mul(p.bytes)
    }
}

pub(crate) fn planes(p: &Picture) -> usize {
    if p.separate { p.ch } else { 1 }
}

pub(crate) fn plane_len(p: &Picture) -> usize {
    p.encoded_width
        .saturating_mul(p.h)
        .saturating_mul(p.plane_channels)
}

pub(crate) fn scratch_len(p: &Picture) -> usize {
    p.plane_len.saturating_mul(p.planes)
}

pub(crate) fn output_len(p: &Picture) -> usize {
    p.w.saturating_mul(p.h)
        .saturating_mul(p.ch)
        .saturating_mul(p.bytes)
}

pub(crate) fn colors(p: &Picture) -> usize {
    match p.slots {
        8 => 2,
        2 => 16,
        _ => 256,
    }
}

// Whether every derived field is as it should be.
fn agrees(p: &Picture) -> bool {
    p.encoded_width == encoded_width(p)
        && p.plane_channels == plane_channels(p)
        && p.planes == planes(p)
        && p.plane_len == plane_len(p)
        && p.scratch_len == scratch_len(p)
        && p.output_len == output_len(p)
        && p.colors == colors(p)
}

fn unsupported(p: &Picture) -> bool {
    !matches!(p.bytes, 1 | 2 | 8)
        || !matches!(p.slots, 1 | 2 | 8)
        || !matches!(p.ch, 1..=4)
        || p.alpha > 2
}

// The 8-byte rule: neither white nor palette nor alpha, slots 1, 1 or 3 channels.
fn eight_rule(p: &Picture) -> bool {
    let plain = !p.white && !p.palette && p.alpha == 0;
    p.bytes != 8 || plain && p.slots == 1 && matches!(p.ch, 1 | 3)
}

// The alpha rule: 1 byte, 2 or 4 channels, no palette.
fn alpha_rule(p: &Picture) -> bool {
    p.alpha == 0 || p.bytes == 1 && !p.palette && matches!(p.ch, 2 | 4)
}

// The palette and slots rules: a palette has 3 channels, 1 byte, one plane and no alpha; without one slots are 1, or 8 for bilevel.
fn slots_rule(p: &Picture) -> bool {
    let lone = p.bytes == 1 && p.alpha == 0;
    if p.palette {
        lone && p.ch == 3 && !p.separate
    } else {
        p.slots == 1 || p.slots == 8 && p.ch == 1 && lone
    }
}

fn invalid(p: &Picture) -> bool {
    p.w == 0 || p.h == 0 || !eight_rule(p) || !alpha_rule(p) || !slots_rule(p)
}

fn beyond(p: &Picture) -> bool {
    p.w > 16384 || p.h > 16384 || output_len(p) > 1073741824
}

// A layout's first fault.
pub(crate) fn check_layout(p: &Picture) -> Result<(), Fault> {
    Fault::Unsupported.when(unsupported(p))?;
    Fault::Invalid.when(invalid(p))?;
    Fault::Limit.when(beyond(p))
}

// A record's first fault.
pub(crate) fn check_record(p: &Picture) -> Result<(), Fault> {
    check_layout(p)?;
    Fault::Invalid.when(!agrees(p))
}

// Where byte k of a picture is: its row, column and channel, and which byte of its sample it is.
#[derive(Clone, Copy)]
pub struct Position {
    pub row: usize,
    pub column: usize,
    pub channel: usize,
    pub byte: usize,
}

pub(crate) fn position_of(p: &Picture, k: usize) -> Position {
    let (sample, byte) = divided(k, p.bytes);
    let (pixel, channel) = divided(sample, p.ch);
    let (row, column) = divided(pixel, p.w);
    Position {
        row,
        column,
        channel,
        byte,
    }
}

// Whether rows hold several samples to a byte, or places of a palette.
pub(crate) fn packed(p: &Picture) -> bool {
    p.palette || p.slots == 8
}

// The place in the planes of a byte whose sample fills bytes. Two-byte samples come out most significant byte first.
fn whole_source(p: &Picture, at: Position) -> usize {
    let stored = if p.bytes == 2 && p.le {
        1usize.saturating_sub(at.byte)
    } else {
        at.byte
    };
    let pixel = at.row.saturating_mul(p.w).saturating_add(at.column);
    let sample = if p.separate {
        let plane = at.channel.saturating_mul(p.plane_len);
        plane.saturating_add(pixel.saturating_mul(p.bytes))
    } else {
        let before = pixel.saturating_mul(p.ch).saturating_add(at.channel);
        before.saturating_mul(p.bytes)
    };
    sample.saturating_add(stored)
}

// The place in the planes of byte k of the picture.
pub(crate) fn source(p: &Picture, k: usize) -> usize {
    let at = position_of(p, k);
    if packed(p) {
        let row = at.row.saturating_mul(p.encoded_width);
        row.saturating_add(quotient(at.column, p.slots))
    } else {
        whole_source(p, at)
    }
}
