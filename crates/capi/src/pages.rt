// The calls that read a file's directories. A page comes back as the numbers of include/hamrisk.h's hamrisk_page, in its order.
ghost use Rattle.std.specs.Prelude.{◌≡◌};
ghost use Rattle.answer.specs.Outcome.{outcome};
ghost use Rattle.directory.specs.Page.{DirectoryRead, StripPlaced, StripsPlaced};
ghost use Rattle.capi.specs.Told.{Told, Lent};
ghost use Rattle.capi.specs.OnPages.{numbers_of, found_numbers, place_numbers};

use crate::status;
use directory::Page;

// A page's layout, what follows from it, its predictor, its number of strips, and its compression.
fn numbers_of(p: Page) -> [usize; 21]
    ensures { result ≡ numbers_of p }
{
    let l = p.layout;
    let f = l.fields;
    let palette = usize::from(f.palette);
    let separate = usize::from(f.separate);
    let le = usize::from(f.le);
    let white = usize::from(f.white);
    [
        f.w,
        f.h,
        f.ch,
        f.bytes,
        f.slots,
        palette,
        separate,
        le,
        white,
        f.alpha,
        f.map,
        l.encoded_width,
        l.plane_channels,
        l.planes,
        l.plane_len,
        l.scratch_len,
        l.output_len,
        l.colors,
        p.predictor,
        p.strips,
        p.compression,
    ]
}

// A page of a file, if it and every strip of it is sound.
#[unsafe(no_mangle)]
pub extern "C" fn hamrisk_directory(file: &[u8], page: usize, found: &mut [usize; 21]) -> u32
    ensures { Lent found_numbers (DirectoryRead file.now page) result found.old found.new }
{
    match directory::read_directory(file, page) {
        Err(kind) => u32::from(kind),
        Ok(p) => {
            *found = numbers_of(p);
            0
        }
    }
}

// Where strip k of a page stands in the file, and its length.
#[unsafe(no_mangle)]
pub extern "C" fn hamrisk_strip(
    file: &[u8],
    page: usize,
    k: usize,
    place: &mut usize,
    length: &mut usize,
) -> u32
    ensures { Lent place_numbers (StripPlaced file.now page k) result (place.old, length.old) (place.new, length.new) }
{
    match directory::strip_place(file, page, k) {
        Err(kind) => u32::from(kind),
        Ok((at, bytes)) => {
            *place = at.0;
            *length = bytes;
            0
        }
    }
}

// Where every strip of a page stands: its place and its length, strip by strip.
#[unsafe(no_mangle)]
pub extern "C" fn hamrisk_strips(file: &[u8], page: usize, parts: &mut [usize]) -> u32
    ensures { Told outcome (λ d. StripsPlaced file.now page parts.old d parts.new) result }
{
    status(directory::strip_places(file, page, parts))
}
