use crate::types::Ty;
use tg_base::Span;
use tg_syntax::{Ident, Param};

/// What a type's name means.
#[derive(Clone, Copy)]
pub enum Meaning {
    /// The same as another name.
    Alias(Ident),
    Known(Ty),
}

/// What a place asks of the type that stands there.
#[derive(Clone, Copy)]
pub enum Demand {
    /// A value of a type that fits.
    Fits(Ty),
    /// No value.
    Valueless,
    /// An int or a string.
    Ordered,
    /// A value of any type.
    Valued,
    /// A value that is compared with one of this type.
    Like(Ty),
    /// The other way of a choice whose first way has this type.
    Joins(Ty),
    /// Not nil, where the other side of the comparison has this type.
    BesideNil(Ty),
    /// A value whose type becomes that of a variable.
    Own(Ident),
    /// A record that has fields.
    Fielded,
    /// A record that is made.
    Made,
    /// An array.
    Indexed,
    /// A record with this field.
    Has(Ident),
}

/// A fact of a program.
#[derive(Clone, Copy)]
pub enum Fact {
    /// A variable of a type, which is seen in a span.
    Variable(Ident, Ty, Span),
    /// A function with the type of its result, which is seen in a span.
    Function(Ident, Ty, Span),
    /// The type of a function's parameter, by its place among the parameters, where it is seen.
    Param(Ident, usize, Ty, Span),
    /// A type's name, which is seen in a span.
    TypeName(Ident, Meaning, Span),
    /// A field of the record that is declared at a byte.
    Field(u32, Param),
    /// The name of the elements' type of the array that is declared at a byte.
    Element(u32, Ident),
    /// A field that is given a value where a record is made at a byte.
    Given(u32, Ident),
    /// A loop that begins at a byte, with the span of its body.
    Loop(u32, Span),
    /// The span of a function's body.
    Body(Ident, Span),
    /// What is asked at the byte that is asked about, and the type that stands there.
    Judged(Demand, Ty),
}
