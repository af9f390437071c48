// One plane, row by row.
ghost use Rattle.pixels.specs.Finish.{WholePixels};
ghost use Rattle.writing.specs.Parts.{RowFlipped, PlainFits, PlainRowWritten, RowGiven, RowWritten, Together, WrittenInto};

use layout::RasterLayout;

// White flips every byte but alpha's. Whole pixels are not refused.
fn flip_row(l: RasterLayout, s: &mut [u8])
    requires { WholePixels s.old l.fields.ch }
    ensures { RowFlipped l s.old s.new }
{
    if l.fields.white {
        if l.fields.alpha == 0 {
            pixels::invert(s);
        } else {
            let _ = pixels::straighten_row(s, l.fields.ch, false, true);
        }
    }
}

// A row whose samples are bytes or words: its words in the planes' byte order, for which there is room.
fn plain_row(l: RasterLayout, row: &[u8], out: &mut [u8])
    requires { PlainFits l row.now out.old }
    ensures { PlainRowWritten l row.now out.old out.new }
{
    let _ = samples::reorder(row, l.fields.bytes, false, l.fields.le, out);
    flip_row(l, out);
}

// A row of the picture, for which there is room.
fn write_row(l: RasterLayout, row: &[u8], out: &mut [u8])
    requires { RowGiven l row.now out.old }
    ensures { RowWritten l row.now out.old out.new }
{
    if l.fields.slots == 8 {
        let _ = slots::bit_row(row, l.fields.white, out);
    } else {
        plain_row(l, row, out);
    }
}

// Every row.
pub(crate) fn write_rows(l: RasterLayout, picture: &[u8], planes: &mut [u8])
    requires { Together l picture.now planes.old }
    ensures { WrittenInto l picture.now planes.old planes.new }
{
    let read = l.fields.w * (l.fields.ch * l.fields.bytes);
    let wrote = l.encoded_width * l.plane_channels;
    let mut from: usize = 0;
    let mut at: usize = 0;
    for y in 0..l.fields.h {
        let end = from + read;
        let stop = at + wrote;
        write_row(l, &picture[from..end], &mut planes[at..stop]);
        from = end;
        at = stop;
    }
}
