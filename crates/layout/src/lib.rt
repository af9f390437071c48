// Layouts of pictures: what a caller says of one, what follows from it, whether it can be, and where a byte of the picture comes from.
#![tactic(auto)]

use answer::{ByteAt, Refusal, fault};

mod derived;
mod rules;
mod source;

ghost use Rattle.std.specs.Prelude.{◌≡◌};
ghost use Rattle.answer.specs.Outcome.{Step};
ghost use Rattle.layout.specs.Layout.{colours_of, layout_faults, LayoutChecked, RecordChecked, Indexed};

use rules::{check_agreed, check_served, check_size};

// What a caller says of a picture: all of a record that is not worked out. Kinds are numbers, since the check answers for those that are none.
#[derive(Clone, Copy, PartialEq, Eq)]
pub struct Fields {
    pub w: usize,
    pub h: usize,
    pub ch: usize,
    pub bytes: usize,
    pub slots: usize,
    pub palette: bool,
    pub separate: bool,
    pub le: bool,
    pub white: bool,
    pub alpha: usize,
    pub map: usize,
}

// A picture's layout: what a caller says, and what follows from it.
#[derive(Clone, Copy, PartialEq, Eq)]
pub struct RasterLayout {
    pub fields: Fields,
    pub encoded_width: usize,
    pub plane_channels: usize,
    pub planes: usize,
    pub plane_len: usize,
    pub scratch_len: usize,
    pub output_len: usize,
    pub colors: usize,
}

// Colours of a palette whose indices stand so many in a byte.
pub fn colours(slots: usize) -> usize
    ensures { result ≡ colours_of slots }
{
    match slots {
        8 => 2,
        2 => 16,
        _ => 256,
    }
}

// The three steps, in rule 5.3's order. The third multiplies, so it waits for what the first shows.
fn check_fields(f: Fields) -> Result<(), Refusal>
    ensures { Step (layout_faults f) result }
{
    check_served(f)?;
    check_agreed(f)?;
    check_size(f)
}

// The full record of a picture, if there is one.
pub fn check_layout(f: Fields) -> Result<RasterLayout, Refusal>
    ensures { LayoutChecked f result }
{
    check_fields(f)?;
    Ok(derived::complete(f))
}

// Whether a record, by hand or not, is the one that the check answers.
pub fn check_record(l: RasterLayout) -> Result<(), Refusal>
    ensures { RecordChecked l result }
{
    let f = l.fields;
    check_fields(f)?;
    fault(l != derived::complete(f), Refusal::Invalid)
}

// Where byte k of the picture comes from.
pub fn index(l: RasterLayout, k: ByteAt) -> Result<ByteAt, Refusal>
    ensures { Indexed l k.0 result }
{
    check_record(l)?;
    let k = k.0;
    if l.output_len <= k {
        return Err(Refusal::Invalid);
    }
    Ok(ByteAt(source::source_index(l, k)))
}
