// Random calls on layouts and pictures.
use crate::calls::PictureCall;
use crate::case::{LONGEST, MOST_FILE};
use crate::layout_reading::{
    colors, encoded_width, output_len, plane_channels, plane_len, planes, scratch_len,
};
use crate::picture::Picture;
use crate::trial::Trial;
use crate::whole::{power, quotient};
use std::alloc::{AllocError, Global};

// What sort of picture a trial has; plain ones have one or two bytes.
#[derive(Clone, Copy, PartialEq, Eq)]
enum Sort {
    Indexed,
    Bilevel,
    BesideAlpha,
    Eight,
    Plain,
}

fn some_sort(t: Trial) -> Sort {
    match t.pick(300, 16) {
        0..=3 => Sort::Indexed,
        4..=7 => Sort::Bilevel,
        8..=11 => Sort::BesideAlpha,
        12 => Sort::Eight,
        _ => Sort::Plain,
    }
}

fn some_channels(t: Trial, sort: Sort) -> usize {
    let two = t.pick(310, 2);
    match sort {
        Sort::Indexed => 3,
        Sort::Bilevel => 1,
        Sort::BesideAlpha => 2 + 2 * two,
        Sort::Eight => 1 + 2 * two,
        Sort::Plain => 1 + t.pick(311, 4),
    }
}

fn some_bytes(t: Trial, sort: Sort) -> usize {
    match sort {
        Sort::Eight => 8,
        Sort::Indexed | Sort::Bilevel | Sort::BesideAlpha => 1,
        Sort::Plain => 1 + t.pick(320, 2),
    }
}

fn some_slots(t: Trial, sort: Sort) -> usize {
    match (sort, t.pick(330, 5)) {
        (Sort::Indexed, 0) => 1,
        (Sort::Indexed, 1 | 2) => 2,
        (Sort::Indexed, _) | (Sort::Bilevel, _) => 8,
        _ => 1,
    }
}

// Flag i of such a call, or once in 30 times either of both.
fn flag(t: Trial, i: usize, good: bool) -> bool {
    if t.once_in(i.saturating_add(700), 30) {
        t.pick(730, 2) == 1
    } else {
        good
    }
}

// A flag by chance.
fn some_flag(t: Trial, i: usize) -> bool {
    t.pick(i.saturating_add(340), 2) == 1
}

// A side near the limit, or any within it.
fn large_side(t: Trial, item: usize) -> usize {
    let v = t.pick(item.saturating_add(1), 16384);
    match t.pick(item, 4) {
        0 => 16384,
        1 => 16386 - v % 4,
        2 => power(2, v % 15),
        _ => 1 + v,
    }
}

// A side of a picture with `most` pixels left: in half of the trials of calls that take no picture a large one.
fn some_side(call: PictureCall, t: Trial, item: usize, most: usize) -> usize {
    let takes_picture = matches!(call, PictureCall::Render | PictureCall::WritePlanes);
    if !takes_picture && t.once_in(item, 2) {
        large_side(t, item.saturating_add(1))
    } else {
        t.pick(item.saturating_add(3), most.min(19))
            .saturating_add(1)
    }
}

// What a caller says of a picture, each number from those before it.
fn fields(call: PictureCall, t: Trial) -> Picture {
    let sort = some_sort(t);
    let bytes = t.spoilt(4, some_bytes(t, sort));
    let ch = t.spoilt(7, some_channels(t, sort));
    let alpha = match sort {
        Sort::BesideAlpha => 1 + t.pick(370, 2),
        _ => 0,
    };
    // How many pixels the longest picture has.
    let pixels = quotient(144, ch.saturating_mul(bytes));
    let w = t.spoilt(8, some_side(call, t, 380, pixels));
    Picture {
        palette: flag(t, 0, sort == Sort::Indexed),
        separate: flag(t, 1, sort != Sort::Indexed && some_flag(t, 1)),
        le: flag(t, 2, some_flag(t, 2)),
        white: flag(t, 3, sort != Sort::Eight && some_flag(t, 3)),
        bytes,
        slots: t.spoilt(5, some_slots(t, sort)),
        alpha: t.spoilt(6, alpha),
        ch,
        w,
        h: t.spoilt(9, some_side(call, t, 390, quotient(pixels, w).min(5))),
        map: t.spoilt(10, t.pick(400, 40)),
        ..Picture::default()
    }
}

// Number i of such a call, of those that `check_layout` is not given: of that call none is spoilt.
fn number(call: PictureCall, t: Trial, i: usize, good: usize) -> usize {
    match call {
        PictureCall::CheckLayout => good,
        _ => t.spoilt(i, good),
    }
}

// The derived fields.
fn derive(call: PictureCall, t: Trial, p: &mut Picture) {
    p.encoded_width = number(call, t, 11, encoded_width(p));
    p.plane_channels = number(call, t, 12, plane_channels(p));
    p.planes = number(call, t, 13, planes(p));
    p.plane_len = number(call, t, 14, plane_len(p));
    p.scratch_len = number(call, t, 15, scratch_len(p));
    p.output_len = number(call, t, 16, output_len(p));
    p.colors = number(call, t, 17, colors(p));
}

// A place in the picture, or about its end.
fn some_place(t: Trial, length: usize) -> usize {
    if t.once_in(360, 3) {
        t.room(361, length)
    } else {
        t.pick(363, length)
    }
}

// The lengths and the place.
fn lend(call: PictureCall, t: Trial, p: &mut Picture) {
    let (input, output) = match call {
        PictureCall::Render => (p.scratch_len, p.output_len),
        _ => (p.output_len, p.scratch_len),
    };
    let map_end = p.map.saturating_add(p.colors.saturating_mul(6));
    p.file = number(call, t, 18, t.room(410, map_end)).min(MOST_FILE);
    p.length = number(call, t, 19, t.room(420, input)).min(LONGEST);
    p.room = number(call, t, 20, t.room(430, output)).min(LONGEST);
    p.place = number(call, t, 21, some_place(t, p.output_len));
}

// One derived field made wrong by hand, now and then, when all that rests on it is chosen.
fn spoil_derived(call: PictureCall, t: Trial, p: &mut Picture) {
    if call == PictureCall::CheckLayout || !t.once_in(761, 6) {
        return;
    }
    let field = match t.pick(760, 7) {
        0 => &mut p.encoded_width,
        1 => &mut p.plane_channels,
        2 => &mut p.planes,
        3 => &mut p.plane_len,
        4 => &mut p.scratch_len,
        5 => &mut p.output_len,
        _ => &mut p.colors,
    };
    *field = t.edge(762, *field);
}

pub(crate) fn numbers(call: PictureCall, t: Trial) -> Picture {
    let mut p = fields(call, t);
    derive(call, t, &mut p);
    lend(call, t, &mut p);
    spoil_derived(call, t, &mut p);
    p
}

// The bytes that such a call is given: any, but most bilevel pictures have 0 and 255 alone.
pub(crate) fn input(
    alloc: Global,
    call: PictureCall,
    t: Trial,
    p: &Picture,
) -> Result<Vec<u8>, AllocError> {
    let rare = if call != PictureCall::WritePlanes || p.slots != 8 {
        1
    } else if t.once_in(801, 4) {
        1 + t.pick(800, 30)
    } else {
        usize::MAX
    };
    t.bytes(alloc, p.length, 1000, rare, 255)
}

// The file part with a palette's colours; other pictures look at none.
pub(crate) fn file(alloc: Global, t: Trial, p: &Picture) -> Result<Vec<u8>, AllocError> {
    if p.palette {
        t.bytes(alloc, p.file, 2000, 1, 0)
    } else {
        Ok(vec![in alloc; 0; p.file]?)
    }
}
