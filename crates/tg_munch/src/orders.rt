use tg_isa::Bits;

/// A comparison by order: with or without sign, and whether the branch is taken where the left side
/// is less, or where it isn't.
#[derive(Clone, Copy)]
pub(crate) struct Order {
    pub(crate) signed: bool,
    pub(crate) holds: bool,
}

/// How a comparison with a constant on its right is made without an operand for it: against
/// `$zero`, or with the constant in a field.
#[derive(Clone, Copy)]
pub(crate) enum Short {
    Zero,
    Field(Order, Bits<16>),
}
