/// A standard function, which stands in the outermost scope (Appel, appendix A.4).
#[derive(Clone, Copy, Debug, PartialEq, Eq)]
pub enum Standard {
    Print,
    Flush,
    Getchar,
    Ord,
    Chr,
    Size,
    Substring,
    Concat,
    Not,
    Exit,
}
