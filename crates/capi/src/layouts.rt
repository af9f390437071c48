// The calls that take a layout, which comes in as the numbers of include/hamrisk.h's hamrisk_layout, in its order.
ghost use Rattle.std.specs.Prelude.{◌≡◌, List, ℕ};
ghost use Rattle.answer.specs.Outcome.{outcome, place_outcome};
ghost use Rattle.layout.specs.Layout.{completed, LayoutChecked, Indexed};
ghost use Rattle.pixels.specs.Render.{Rendered};
ghost use Rattle.pixels.specs.Planes.{Written as PlanesWritten};
ghost use Rattle.files.specs.File.{Measured, FileWritten};
ghost use Rattle.capi.specs.Told.{Told, Lent, derived_of, derived_outcome};
ghost use Rattle.capi.specs.OnLayouts.{fields_of, flagged as flaggedOf, OnLayout, Asked, RefusedUnserved};

use crate::{lend, status};
use answer::{ByteAt, Refusal};
use layout::{Fields, RasterLayout};

type Layout = [usize; 11];

// The fields, where a flag that is not 0 counts as set.
fn fields_of(s: &Layout) -> Fields
    ensures { result ≡ fields_of s.now }
{
    Fields {
        w: s[0],
        h: s[1],
        ch: s[2],
        bytes: s[3],
        slots: s[4],
        palette: s[5] != 0,
        separate: s[6] != 0,
        le: s[7] != 0,
        white: s[8] != 0,
        alpha: s[9],
        map: s[10],
    }
}

// Whether a flag is neither 0 nor 1.
fn flagged(s: &Layout) -> bool
    ensures { result ≡ flaggedOf s.now }
{
    if 1 < s[5] {
        return true;
    }
    if 1 < s[6] {
        return true;
    }
    if 1 < s[7] {
        return true;
    }
    1 < s[8]
}

// The record that is asked for.
fn asked(s: &Layout) -> Result<RasterLayout, Refusal>
    ensures { Asked s.now result }
{
    if flagged(s) {
        return Err(Refusal::Unsupported);
    }
    layout::check_layout(fields_of(s))
}

// The record's derived fields, in its order.
fn derived_of(l: RasterLayout) -> [usize; 7]
    ensures { result ≡ derived_of l }
{
    [
        l.encoded_width,
        l.plane_channels,
        l.planes,
        l.plane_len,
        l.scratch_len,
        l.output_len,
        l.colors,
    ]
}

// What follows from a layout: the record's derived fields, in its order.
#[unsafe(no_mangle)]
pub extern "C" fn hamrisk_check_layout(layout: &Layout, derived: &mut [usize; 7]) -> u32
    ensures { OnLayout layout.now (λ f. Lent derived_outcome (LayoutChecked f) result derived.old derived.new) (RefusedUnserved result derived.old derived.new) }
{
    match asked(layout) {
        Err(kind) => u32::from(kind),
        Ok(l) => {
            *derived = derived_of(l);
            0
        }
    }
}

// The place, of a record.
fn place_of(l: RasterLayout, k: usize, place: &mut usize) -> u32
    ensures { Lent place_outcome (Indexed l k) result place.old place.new }
{
    match layout::index(l, ByteAt(k)) {
        Err(kind) => u32::from(kind),
        Ok(p) => {
            *place = p.0;
            0
        }
    }
}

// The place in the planes of byte k of the picture.
#[unsafe(no_mangle)]
pub extern "C" fn hamrisk_index(layout: &Layout, k: usize, place: &mut usize) -> u32
    ensures { OnLayout layout.now (λ f. Lent place_outcome (Indexed (completed f) k) result place.old place.new) (RefusedUnserved result place.old place.new) }
{
    match asked(layout) {
        Err(kind) => u32::from(kind),
        Ok(l) => place_of(l, k, place),
    }
}

// The picture that planes of this layout hold; `file` has the colours of a palette.
#[unsafe(no_mangle)]
pub extern "C" fn hamrisk_render(layout: &Layout, file: &[u8], raw: &[u8], out: &mut [u8]) -> u32
    ensures { OnLayout layout.now (λ f. Told outcome (λ d. Rendered (completed f) file.now raw.now out.old d out.new) result) (RefusedUnserved result out.old out.new) }
{
    match asked(layout) {
        Err(kind) => u32::from(kind),
        Ok(l) => status(rendering::render(l, file, raw, out)),
    }
}

// The planes whose rendering is a picture.
#[unsafe(no_mangle)]
pub extern "C" fn hamrisk_write_planes(layout: &Layout, picture: &[u8], planes: &mut [u8]) -> u32
    ensures { OnLayout layout.now (λ f. Told outcome (λ d. PlanesWritten (completed f) picture.now planes.old d planes.new) result) (RefusedUnserved result planes.old planes.new) }
{
    match asked(layout) {
        Err(kind) => u32::from(kind),
        Ok(l) => status(writing::write_planes(l, picture, planes)),
    }
}

// The bytes of the file that planes of this layout make.
#[unsafe(no_mangle)]
pub extern "C" fn hamrisk_file_length(
    layout: &Layout,
    rows_per_strip: usize,
    length: &mut usize,
) -> u32
    ensures { OnLayout layout.now (λ f. Lent outcome (Measured (completed f) rows_per_strip) result length.old length.new) (RefusedUnserved result length.old length.new) }
{
    match asked(layout) {
        Err(kind) => u32::from(kind),
        Ok(l) => lend(files::file_length(l, rows_per_strip), length),
    }
}

// The file.
#[unsafe(no_mangle)]
pub extern "C" fn hamrisk_write_file(
    layout: &Layout,
    rows_per_strip: usize,
    planes: &[u8],
    out: &mut [u8],
    length: &mut usize,
) -> u32
    ensures { OnLayout layout.now (λ f. Lent outcome (λ a. FileWritten (completed f) rows_per_strip planes.now out.old a out.new) result length.old length.new) (RefusedUnserved {A = ℕ × List ℕ} result (length.old, out.old) (length.new, out.new)) }
{
    match asked(layout) {
        Err(kind) => u32::from(kind),
        Ok(l) => lend(files::write_file(l, rows_per_strip, planes, out), length),
    }
}
