ghost use Rattle.std.specs.Prelude.{◌≡◌, Option};
ghost use Rattle.tg_typecheck.specs.Types as types;
ghost use Rattle.tg_typecheck.specs.glue.Kinds.{record_byte, array_byte};

use std::marker::Model;

/// What a type is.
#[derive(Clone, Copy)]
pub(crate) enum Kind {
    Int,
    Text,
    Nil,
    Nothing,
    Record(u32),
    Array(u32),
}

/// A type, which contracts see as the definition's.
#[derive(Clone, Copy)]
pub(crate) struct Ty {
    kind: Kind,
}

impl Model for Ty {
    ghost use Rattle.tg_typecheck.specs.Types.{Ty as PlainTy};

    ghost Value = { PlainTy };

    ghost use Rattle.tg_typecheck.specs.glue.Kinds.{type_of, kind_of, kind_of_type};

    ghost view = { λ t. type_of t.kind };

    ghost inverse = { λ t. record { kind = kind_of t } };

    ghost inverse_ok = { λ a h. kind_of_type a };
}

impl Ty {
    pub(crate) fn int() -> Ty
        ensures { result ≡ types.int_type }
    {
        Ty { kind: Kind::Int }
    }

    pub(crate) fn text() -> Ty
        ensures { result ≡ types.string_type }
    {
        Ty { kind: Kind::Text }
    }

    pub(crate) fn nil() -> Ty
        ensures { result ≡ types.nil_type }
    {
        Ty { kind: Kind::Nil }
    }

    /// The type of what has no value.
    pub(crate) fn nothing() -> Ty
        ensures { result ≡ types.none_type }
    {
        Ty {
            kind: Kind::Nothing,
        }
    }

    /// The record type that is declared at a byte.
    pub(crate) fn record_at(at: u32) -> Ty
        ensures { result ≡ types.record_type at }
    {
        Ty {
            kind: Kind::Record(at),
        }
    }

    /// The array type that is declared at a byte.
    pub(crate) fn array_at(at: u32) -> Ty
        ensures { result ≡ types.array_type at }
    {
        Ty {
            kind: Kind::Array(at),
        }
    }

    pub(crate) fn record_byte(self) -> Option<u32>
        ensures { result ≡ record_byte self }
    {
        match self.kind {
            Kind::Record(at) => Some(at),
            _ => None,
        }
    }

    pub(crate) fn array_byte(self) -> Option<u32>
        ensures { result ≡ array_byte self }
    {
        match self.kind {
            Kind::Array(at) => Some(at),
            _ => None,
        }
    }

    pub(crate) fn same(self, other: Ty) -> bool
        ensures { result ≡ types.same self other }
    {
        match (self.kind, other.kind) {
            (Kind::Int, Kind::Int) => true,
            (Kind::Text, Kind::Text) => true,
            (Kind::Nil, Kind::Nil) => true,
            (Kind::Nothing, Kind::Nothing) => true,
            (Kind::Record(a), Kind::Record(b)) => a == b,
            (Kind::Array(a), Kind::Array(b)) => a == b,
            _ => false,
        }
    }

    fn is_nil_for(self, other: Ty) -> bool
        ensures { result ≡ types.is_nil_for self other }
    {
        match (self.kind, other.kind) {
            (Kind::Nil, Kind::Record(_)) => true,
            _ => false,
        }
    }

    /// Whether a value of the type may stand where the other is wanted.
    pub(crate) fn fits(self, other: Ty) -> bool
        ensures { result ≡ types.fits self other }
    {
        self.same(other) || self.is_nil_for(other)
    }

    pub(crate) fn alike(self, other: Ty) -> bool
        ensures { result ≡ types.alike self other }
    {
        self.same(other) || self.is_nil_for(other) || other.is_nil_for(self)
    }

    /// Of two that are alike, the record where one is nil.
    pub(crate) fn joined(self, other: Ty) -> Ty
        ensures { result ≡ types.joined_type self other }
    {
        if self.is_nil_for(other) { other } else { self }
    }

    pub(crate) fn are_nil(self, other: Ty) -> bool
        ensures { result ≡ types.are_nil self other }
    {
        match (self.kind, other.kind) {
            (Kind::Nil, Kind::Nil) => true,
            _ => false,
        }
    }

    pub(crate) fn has_order(self) -> bool
        ensures { result ≡ types.has_order self }
    {
        match self.kind {
            Kind::Int | Kind::Text => true,
            _ => false,
        }
    }
}
