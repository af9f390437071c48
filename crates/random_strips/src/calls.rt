// The calls that are compared.
use std::fmt;

#[derive(Clone, Copy, PartialEq, Eq)]
pub enum StripCall {
    Convert,
    Forward,
    Reorder,
    SwapComponents,
    CommitUninit,
    ReverseBits,
    Marks,
    CheckStrip,
    ReadWord,
    Load,
    BytePlace,
}

#[derive(Clone, Copy, PartialEq, Eq)]
pub enum PictureCall {
    CheckLayout,
    CheckRecord,
    Index,
    Render,
    WritePlanes,
}

#[derive(Clone, Copy)]
pub enum Call {
    Strip(StripCall),
    Picture(PictureCall),
}

// In the order in which they take turns.
pub const CALLS: [Call; 16] = [
    Call::Strip(StripCall::Convert),
    Call::Strip(StripCall::Forward),
    Call::Strip(StripCall::Reorder),
    Call::Strip(StripCall::SwapComponents),
    Call::Strip(StripCall::CommitUninit),
    Call::Strip(StripCall::ReverseBits),
    Call::Strip(StripCall::Marks),
    Call::Strip(StripCall::CheckStrip),
    Call::Strip(StripCall::ReadWord),
    Call::Strip(StripCall::Load),
    Call::Strip(StripCall::BytePlace),
    Call::Picture(PictureCall::CheckLayout),
    Call::Picture(PictureCall::CheckRecord),
    Call::Picture(PictureCall::Index),
    Call::Picture(PictureCall::Render),
    Call::Picture(PictureCall::WritePlanes),
];

impl fmt::Display for StripCall {
    fn fmt<W: fmt::Write>(&self, f: &mut fmt::Formatter<W>) -> fmt::Result {
        f.pad(match self {
            StripCall::Convert => "convert",
            StripCall::Forward => "forward",
            StripCall::Reorder => "reorder",
            StripCall::SwapComponents => "swap_components",
            StripCall::CommitUninit => "commit_uninit",
            StripCall::ReverseBits => "reverse_bits",
            StripCall::Marks => "marks",
            StripCall::CheckStrip => "check_strip",
            StripCall::ReadWord => "read_word",
            StripCall::Load => "load",
            StripCall::BytePlace => "byte_place",
        })
    }
}

impl fmt::Display for PictureCall {
    fn fmt<W: fmt::Write>(&self, f: &mut fmt::Formatter<W>) -> fmt::Result {
        f.pad(match self {
            PictureCall::CheckLayout => "check_layout",
            PictureCall::CheckRecord => "check_record",
            PictureCall::Index => "index",
            PictureCall::Render => "render",
            PictureCall::WritePlanes => "write_planes",
        })
    }
}
