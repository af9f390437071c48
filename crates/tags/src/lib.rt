// The used tags of a page of a TIFF file: what they say of its layout, its predictor and its strips, and what is wrong with them.
#![tactic(auto)]

use answer::Refusal;
use entries::{Directory, Field};
use layout::Fields;

mod extras;
mod shape;
mod split;

ghost use Rattle.std.specs.Prelude.{◌≡◌};
ghost use Rattle.answer.specs.Outcome.{pick};
ghost use Rattle.entries.specs.Parts.{Room};
ghost use Rattle.tags.specs.Tags.{strips_per_plane, is_palette, sample_bytes, samples_in_byte, fields_by, tags_by, TagsRead};
ghost use Rattle.tags.specs.Parts.{Shaped, LaterRead, UsedRead};

use extras::{Extras, is_palette};
use shape::Shape;
use split::Split;

// The values of tags stay the file's numbers, of which it can have any: definitions such as `is_palette` and `served_compression` speak of them so.

// What a page's tags say: its layout, its predictor, its compression, its rows and those of a strip, and where its strips' places and lengths stand.
#[derive(Clone, Copy)]
pub struct Tags {
    pub fields: Fields,
    pub predictor: usize,
    pub compression: usize,
    pub rows: u32,
    pub each: u32,
    pub offsets: Field,
    pub counts: Field,
}

// Strips of a plane of so many rows, if each has so many: the last may have fewer.
#[tactic(auto, using(crate::proofs::Sizes::rounded_up), unfolding(crate::specs::Tags::strips_per_plane))]
pub fn strips_per_plane(rows: u32, each: u32) -> u32
    ensures { result ≡ strips_per_plane rows each }
{
    if each == 0 {
        return 0;
    }
    rows.div_ceil(each)
}

fn sample_bytes(depth: u32) -> usize
    ensures { result ≡ sample_bytes depth }
{
    if depth == 16 { 2 } else { 1 }
}

fn samples_in_byte(depth: u32) -> usize
    ensures { result ≡ samples_in_byte depth }
{
    match depth {
        1 => 8,
        4 => 2,
        _ => 1,
    }
}

// The channels of a picture, of which a palette makes three, and where its map stands.
fn channels(s: Shape, t: Split) -> usize
    ensures { result ≡ pick (is_palette s) 3 t.samples.value }
{
    if is_palette(s) {
        3
    } else {
        t.samples.value as usize
    }
}

fn map_place(s: Shape, x: Extras) -> usize
    ensures { result ≡ pick (is_palette s) x.map.place 0 }
{
    if is_palette(s) { x.map.place } else { 0 }
}

// What the tags say of the layout.
#[tactic(auto, unfolding(crate::specs::Tags::fields_by))]
fn fields_of(le: bool, s: Shape, t: Split, depth: u32, x: Extras) -> Fields
    ensures { result ≡ fields_by le s t depth x }
{
    Fields {
        w: s.width.value as usize,
        h: s.height.value as usize,
        ch: channels(s, t),
        bytes: sample_bytes(depth),
        slots: samples_in_byte(depth),
        palette: is_palette(s),
        separate: t.planar.value == 2,
        le,
        white: s.photometric.value == 0,
        alpha: x.extra.value as usize,
        map: map_place(s, x),
    }
}

#[tactic(auto, unfolding(crate::specs::Tags::tags_by))]
fn tags_of(le: bool, s: Shape, t: Split, depth: u32, x: Extras) -> Tags
    ensures { result ≡ tags_by le s t depth x }
{
    Tags {
        fields: fields_of(le, s, t, depth, x),
        predictor: x.predictor.value as usize,
        compression: s.compression.value as usize,
        rows: s.height.value,
        each: t.rows.value,
        offsets: t.offsets,
        counts: t.counts,
    }
}

// The tags past 262.
fn read_later(file: &[u8], d: Directory, s: Shape) -> Result<Tags, Refusal>
    requires { Shaped file.now d s }
    ensures { LaterRead file.now d result }
{
    let t = split::read_split(file, d, s.photometric.entry);
    let x = extras::read_extras(file, d, t.planar.entry);
    let depth = shape::depth_of(file, d.le, s.bits);
    split::check_split(file.len(), s, t)?;
    extras::check_extras(file.len(), s, t, depth, x)?;
    Ok(tags_of(d.le, s, t, depth, x))
}

// The tags of a directory.
fn read_used(file: &[u8], d: Directory) -> Result<Tags, Refusal>
    requires { Room file.now d }
    ensures { UsedRead file.now d result }
{
    let s = shape::read_shape(file, d);
    shape::check_shape(file, d.le, s)?;
    read_later(file, d, s)
}

// The used tags of a page.
pub fn read_tags(file: &[u8], page: usize) -> Result<Tags, Refusal>
    ensures { TagsRead file.now page result }
{
    let d = entries::open_directory(file, page)?;
    read_used(file, d)
}
