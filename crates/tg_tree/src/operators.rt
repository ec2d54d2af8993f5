ghost use Rattle.std.specs.Prelude.{◌≡◌};
ghost use Rattle.tg_tree.specs.Operators as operators;

/// An operator on two words. A shift uses the low five bits of its right operand.
#[derive(Clone, Copy, Debug, PartialEq, Eq)]
pub enum Bin {
    /// The wrapping sum, difference and product.
    Add,
    Sub,
    Mul,
    /// The signed quotient toward zero.
    Div,
    And,
    Or,
    Xor,
    ShiftLeft,
    /// To the right, with zeros, and with the sign.
    ShiftRight,
    ShiftSigned,
    /// The signed sum and difference, which end the run by overflow where they are out of 32 bits.
    AddTrap,
    SubTrap,
    /// The upper word of the signed product of 64 bits.
    MulHigh,
}

/// A comparison of two words: signed, but for the last two, which are without sign.
#[derive(Clone, Copy, Debug, PartialEq, Eq)]
pub enum Rel {
    Equal,
    NotEqual,
    Less,
    LessEqual,
    Greater,
    GreaterEqual,
    Below,
    NotBelow,
}

/// What holds where a comparison doesn't.
pub fn opposite(rel: Rel) -> Rel
    ensures { result ≡ operators.opposite rel }
{
    match rel {
        Rel::Equal => Rel::NotEqual,
        Rel::NotEqual => Rel::Equal,
        Rel::Less => Rel::GreaterEqual,
        Rel::LessEqual => Rel::Greater,
        Rel::Greater => Rel::LessEqual,
        Rel::GreaterEqual => Rel::Less,
        Rel::Below => Rel::NotBelow,
        Rel::NotBelow => Rel::Below,
    }
}
