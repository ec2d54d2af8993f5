/// How the next byte of a nested text is laid.
#[derive(Clone, Copy)]
pub enum Mode {
    /// It and the bytes after it, so many in all, are the rest of a part that stands on one line.
    Kept(usize),
    /// It belongs to a part that takes more than a line.
    Broken,
    /// It is the blank behind a comma of such a part, where the next line begins.
    Between,
}
