/// A place in a text: its line and its column in bytes, both counted from 1. Lines are ended by
/// byte 10.
#[derive(Clone, Copy, Debug, PartialEq, Eq)]
pub struct Place {
    pub line: u32,
    pub column: u32,
}
