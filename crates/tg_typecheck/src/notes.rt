use tg_semantics::Standard;

/// What a part of a program means.
#[derive(Clone, Copy, Debug, PartialEq, Eq)]
pub enum Means {
    /// At a use: the variable or parameter whose declaring identifier begins at this byte.
    Variable(u32),
    /// At a call: the function whose declaring identifier begins at this byte.
    Function(u32),
    /// At a call: a standard function.
    Standard(Standard),
    /// At the selection of a field: its place in the record, from 0.
    Field(u32),
    /// At a comparing operator: strings are compared, by their content.
    Content,
    /// At a comparing operator: anything else is compared.
    Number,
}

/// What the part means that begins at a byte.
#[derive(Clone, Copy, Debug, PartialEq, Eq)]
pub struct Note {
    pub at: u32,
    pub means: Means,
}
