// A page of a TIFF file: its layout, its predictor, its compression, and where its strips stand.
#![tactic(auto)]

use answer::{ByteAt, Refusal};
use layout::RasterLayout;

mod pages;
mod strips;

ghost use Rattle.std.specs.Prelude.{◌≡◌};
ghost use Rattle.answer.specs.Outcome.{unless, outcome};
ghost use Rattle.directory.specs.Page.{strips_faults, DirectoryRead, StripPlaced, StripCut, StripsPlaced};
ghost use Rattle.directory.specs.Parts.{page_by, OnePlaced, PartsPlaced};

use pages::{Whole, open_page};
use strips::{Strips, check_strip, check_strips, fill_parts, length_of, place_of};

// A page: its layout, how its rows were predicted (1: not; 2: by the sample before), how many strips it has, and how they are
// compressed (1: not; 32773: PackBits). Both are the file's numbers, which C is handed.
#[derive(Clone, Copy)]
pub struct Page {
    pub layout: RasterLayout,
    pub predictor: usize,
    pub strips: usize,
    pub compression: usize,
}

fn count_of(s: Strips) -> usize
    ensures { result ≡ s.offsets.count }
{
    s.offsets.count as usize
}

fn page_by(w: Whole) -> Page
    ensures { result ≡ page_by w }
{
    Page {
        layout: w.layout,
        predictor: w.predictor,
        strips: count_of(w.strips),
        compression: w.compression,
    }
}

fn read_strips(file: &[u8], w: Whole) -> Result<Page, Refusal>
    ensures { outcome result ≡ unless (strips_faults file.now w.strips) (page_by w) }
{
    check_strips(file, w.strips)?;
    Ok(page_by(w))
}

// A page of a file, if it and every strip of it is sound.
pub fn read_directory(file: &[u8], page: usize) -> Result<Page, Refusal>
    ensures { DirectoryRead file.now page result }
{
    let w = open_page(file, page)?;
    read_strips(file, w)
}

fn one_strip(file: &[u8], s: Strips, k: usize) -> Result<(ByteAt, usize), Refusal>
    ensures { OnePlaced file.now s k result }
{
    if count_of(s) <= k {
        return Err(Refusal::Invalid);
    }
    let j = k as u32;
    check_strip(file, s, j)?;
    let at = place_of(file, s, j) as usize;
    let bytes = length_of(file, s, j) as usize;
    Ok((ByteAt(at), bytes))
}

// Where strip k of a page stands in the file.
pub fn strip_place(file: &[u8], page: usize, k: usize) -> Result<(ByteAt, usize), Refusal>
    ensures { StripPlaced file.now page k result }
{
    let w = open_page(file, page)?;
    one_strip(file, w.strips, k)
}

// Strip k of a page: a part of the file, empty on refusal.
pub fn strip(file: &[u8], page: usize, k: usize) -> &[u8]
    ensures { StripCut file.now page k result.now }
{
    match strip_place(file, page, k) {
        Ok((at, bytes)) => {
            let from = at.0;
            let to = from + bytes;
            &file[from..to]
        }
        Err(_) => &file[0..0],
    }
}

fn place_strips(file: &[u8], s: Strips, parts: &mut [usize]) -> Result<(), Refusal>
    ensures { PartsPlaced file.now s parts.old result parts.new }
{
    check_strips(file, s)?;
    if parts.len() < 2 * count_of(s) {
        return Err(Refusal::OutputTooSmall);
    }
    fill_parts(file, s, parts);
    Ok(())
}

// Where every strip of a page stands, if it and every strip of it is sound: its place and its length, strip by strip.
pub fn strip_places(file: &[u8], page: usize, parts: &mut [usize]) -> Result<(), Refusal>
    ensures { StripsPlaced file.now page parts.old result parts.new }
{
    let w = open_page(file, page)?;
    place_strips(file, w.strips, parts)
}
