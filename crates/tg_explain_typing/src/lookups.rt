ghost use Rattle.std.specs.Prelude.{◌≡◌, length, drop};
ghost use Rattle.tg_explain_typing.specs.Lookups as lookups;

use crate::facts::{Fact, Meaning};
use crate::standards::{outermost_type, standard_param, standard_result};
use crate::types::Ty;
use tg_base::Span;
use tg_syntax::Ident;

/// The bytes of a text in a span.
pub fn spelled(text: &[u8], span: Span) -> &[u8]
    ensures { result.now ≡ lookups.spelled text.now span }
{
    let rest = rest_from(text, span.from as usize);
    let length = span.to.saturating_sub(span.from) as usize;
    if length <= rest.len() {
        &rest[..length]
    } else {
        rest
    }
}

fn rest_from(text: &[u8], at: usize) -> &[u8]
    ensures { result.now ≡ drop at text.now }
{
    if at <= text.len() { &text[at..] } else { &[] }
}

/// Whether a byte lies in a span.
pub fn covers(span: Span, at: u32) -> bool
    ensures { result ≡ lookups.covers span at }
{
    span.from <= at && at < span.to
}

fn sees(declared: Ident, seen: Span, used: Ident) -> bool
    ensures { result ≡ lookups.sees declared seen used }
{
    declared.name.0 == used.name.0 && covers(seen, used.span.from)
}

/// The type of the innermost variable of a name.
pub(crate) fn variable_type(facts: &[Fact], x: Ident) -> Ty
    ensures { result ≡ lookups.variable_type x facts.now Ty.Nothing }
{
    let mut found = Ty::Nothing;
    for fact in facts {
        if let Fact::Variable(declared, ty, seen) = *fact {
            if sees(declared, seen, x) {
                found = ty;
            }
        }
    }
    found
}

/// The type of what a call gives.
pub(crate) fn result_type(text: &[u8], facts: &[Fact], f: Ident) -> Ty
    ensures { result ≡ lookups.result_type text.now facts.now f }
{
    let mut found = standard_result(spelled(text, f.span));
    for fact in facts {
        if let Fact::Function(declared, ty, seen) = *fact {
            if sees(declared, seen, f) {
                found = ty;
            }
        }
    }
    found
}

/// The type of a function's parameter, by its place.
pub(crate) fn param_type(text: &[u8], facts: &[Fact], f: Ident, index: usize) -> Ty
    ensures { result ≡ lookups.param_type text.now facts.now f index }
{
    let mut found = standard_param(spelled(text, f.span), index);
    for fact in facts {
        if let Fact::Param(declared, place, ty, seen) = *fact {
            if place == index && sees(declared, seen, f) {
                found = ty;
            }
        }
    }
    found
}

/// What a type's name means.
fn meaning_of(facts: &[Fact], x: Ident, outer: Ty) -> Meaning
    ensures { result ≡ lookups.meaning_of x facts.now (Meaning.Known outer) }
{
    let mut found = Meaning::Known(outer);
    for fact in facts {
        if let Fact::TypeName(declared, meaning, seen) = *fact {
            if sees(declared, seen, x) {
                found = meaning;
            }
        }
    }
    found
}

/// The type that a name means.
pub fn named_type(text: &[u8], facts: &[Fact], x: Ident) -> Ty
    ensures { result ≡ lookups.named_type text.now facts.now x }
{
    let mut most = facts.len();
    let mut name = x;
    while most > 0 {
        most -= 1;
        let outer = outermost_type(spelled(text, name.span));
        match meaning_of(facts, name, outer) {
            Meaning::Alias(next) => name = next,
            Meaning::Known(ty) => return ty,
        }
    }
    outermost_type(spelled(text, name.span))
}

/// The type that a name means, or none where there is no name.
pub(crate) fn kind_type(text: &[u8], facts: &[Fact], kind: Option<Ident>) -> Ty
    ensures { result ≡ lookups.kind_type text.now facts.now kind }
{
    match kind {
        None => Ty::Nothing,
        Some(x) => named_type(text, facts, x),
    }
}

fn field_kind(facts: &[Fact], owner: u32, f: Ident) -> Option<Ident>
    ensures { result ≡ lookups.field_kind owner f facts.now }
{
    for fact in facts {
        if let Fact::Field(at, field) = *fact {
            if at == owner && field.name.name.0 == f.name.0 {
                return Some(field.kind);
            }
        }
    }
    None
}

/// The type of a field of a record.
pub(crate) fn field_type(text: &[u8], facts: &[Fact], of: Ty, f: Ident) -> Ty
    ensures { result ≡ lookups.field_type text.now facts.now of f }
{
    match of {
        Ty::Record(at) => kind_type(text, facts, field_kind(facts, at, f)),
        _ => Ty::Nothing,
    }
}

fn element_kind(facts: &[Fact], owner: u32) -> Option<Ident>
    ensures { result ≡ lookups.element_kind owner facts.now }
{
    for fact in facts {
        if let Fact::Element(at, kind) = *fact {
            if at == owner {
                return Some(kind);
            }
        }
    }
    None
}

/// The type of an array's elements.
pub(crate) fn element_type(text: &[u8], facts: &[Fact], of: Ty) -> Ty
    ensures { result ≡ lookups.element_type text.now facts.now of }
{
    match of {
        Ty::Array(at) => kind_type(text, facts, element_kind(facts, at)),
        _ => Ty::Nothing,
    }
}
