ghost use Rattle.std.specs.Prelude.{◌≡◌};
ghost use Rattle.tg_explain_typing.specs.Types as types;

/// A type: a record's or an array's is told by the byte of its declaring name.
#[derive(Clone, Copy)]
pub enum Ty {
    Int,
    Text,
    Nil,
    /// No value.
    Nothing,
    Record(u32),
    Array(u32),
}

/// Whether two types are the same one.
pub fn is_same(one: Ty, other: Ty) -> bool
    ensures { result ≡ types.same one other }
{
    match (one, other) {
        (Ty::Int, Ty::Int) => true,
        (Ty::Text, Ty::Text) => true,
        (Ty::Nil, Ty::Nil) => true,
        (Ty::Nothing, Ty::Nothing) => true,
        (Ty::Record(a), Ty::Record(b)) => a == b,
        (Ty::Array(a), Ty::Array(b)) => a == b,
        _ => false,
    }
}

/// Whether one type is nil and the other a record's.
pub(crate) fn is_nil_for(one: Ty, other: Ty) -> bool
    ensures { result ≡ types.is_nil_for one other }
{
    matches!((one, other), (Ty::Nil, Ty::Record(_)))
}

/// Whether a value of one type may stand where the other is wanted.
pub fn fits(got: Ty, wanted: Ty) -> bool
    ensures { result ≡ types.fits got wanted }
{
    is_same(got, wanted) || is_nil_for(got, wanted)
}

/// Whether values of two types may be compared.
pub fn are_alike(one: Ty, other: Ty) -> bool
    ensures { result ≡ types.alike one other }
{
    is_same(one, other) || is_nil_for(one, other) || is_nil_for(other, one)
}

/// Of two types that are alike, the record's where one is nil.
pub(crate) fn joined(one: Ty, other: Ty) -> Ty
    ensures { result ≡ types.joined one other }
{
    match (one, other) {
        (Ty::Nil, Ty::Record(at)) => Ty::Record(at),
        _ => one,
    }
}

/// Whether values of a type have an order.
pub fn has_order(one: Ty) -> bool
    ensures { result ≡ types.has_order one }
{
    matches!(one, Ty::Int | Ty::Text)
}
