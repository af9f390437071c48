// How a row's words stand: its channels, their width, and the byte orders that they are read and stored in.
#[derive(Clone, Copy)]
pub(crate) struct Form {
    pub channels: usize,
    pub width: usize,
    pub le: bool,
    pub out_le: bool,
}
