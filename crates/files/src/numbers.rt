// Numbers of a file, the least significant byte first, and entries of them.
ghost use Rattle.std.specs.Prelude.{◌≡◌, true, ◌+◌, ◌≤◌, length};
ghost use Rattle.words.specs.Word.{Put};
ghost use Rattle.files.specs.Parts.{type_of, EntryPut};

// The types of fields that are written.
#[derive(Clone, Copy)]
pub(crate) enum Kind {
    Short,
    Long,
    Rational,
}

impl From<Kind> for usize {
    ghost from_gives = { λ kind n. n ≡ type_of kind };

    fn from(kind: Kind) -> usize {
        match kind {
            Kind::Short => 3,
            Kind::Long => 4,
            Kind::Rational => 5,
        }
    }
}

// The low bytes of any number.
fn put<const BYTES: usize>(out: &mut [u8], at: usize, v: usize)
    requires { at + BYTES ≤ length out.old }
    ensures { Put out.old at BYTES true v out.new }
{
    let mut rest = v;
    for p in 0..BYTES {
        out[at + p] = (rest % 256) as u8;
        rest /= 256;
    }
}

// The low two.
pub(crate) fn put_short(out: &mut [u8], at: usize, v: usize)
    requires { at + 2 ≤ length out.old }
    ensures { Put out.old at 2 true v out.new }
{
    put::<2>(out, at, v)
}

// The low four.
pub(crate) fn put_long(out: &mut [u8], at: usize, v: usize)
    requires { at + 4 ≤ length out.old }
    ensures { Put out.old at 4 true v out.new }
{
    put::<4>(out, at, v)
}

// An entry: its tag, its type, how many values it has, and its last four bytes.
pub(crate) fn put_entry(
    out: &mut [u8],
    at: usize,
    tag: usize,
    kind: Kind,
    count: usize,
    last: usize,
)
    requires { at + 12 ≤ length out.old }
    ensures { EntryPut (record { tag = tag; kind = type_of kind; count = count; last = last }) at out.old out.new }
{
    put_short(out, at, tag);
    put_short(out, at + 2, usize::from(kind));
    put_long(out, at + 4, count);
    put_long(out, at + 8, last);
}
