/// A lexical rule that a text breaks.
#[derive(Clone, Copy, Debug, PartialEq, Eq)]
pub enum LexRule {
    /// A byte outside strings and comments that begins no token, blank or comment.
    L1,
    /// A comment that isn't closed.
    L2,
    /// A string, or an escape in it, that the end or a newline cuts off.
    L3,
    /// An escape that there isn't.
    L4,
    /// An int above 2147483647.
    L5,
    /// A control byte in a string.
    L6,
    /// More than 262144 bytes.
    L7,
}
