ghost use Rattle.std.specs.Prelude.{◌≡◌, [], IfOk};
ghost use Rattle.tg_explain_typing.specs.Finding as finding;

use crate::facts::{Demand, Fact};
use crate::lookups::covers;
use crate::types::{Ty, are_alike, fits, has_order, is_same};
use std::alloc::Global;
use tg_base::{Memory, Span};
use tg_syntax::Ident;

/// How what is asked of a type is broken.
#[derive(Clone, Copy)]
pub enum Breach {
    Mismatch,
    NoRecord,
    NoArray,
    NoValue,
    BareNil,
}

/// What is asked of a place, and the type that stands there.
#[derive(Clone, Copy)]
pub struct Judgement {
    pub demand: Demand,
    pub got: Ty,
}

/// A name that is declared, and where it is seen.
#[derive(Clone, Copy)]
pub struct Declared {
    pub ident: Ident,
    pub seen: Span,
}

/// The first place where two lists of names differ.
#[derive(Clone, Copy)]
pub struct Difference {
    pub wanted: Option<Ident>,
    pub given: Option<Ident>,
}

fn is_record(ty: Ty) -> bool
    ensures { result ≡ finding.is_record ty }
{
    matches!(ty, Ty::Record(_))
}

fn is_array(ty: Ty) -> bool
    ensures { result ≡ finding.is_array ty }
{
    matches!(ty, Ty::Array(_))
}

/// Whether a type breaks so what is asked of it.
pub fn breaks(breach: Breach, demand: Demand, got: Ty) -> bool
    ensures { result ≡ finding.breaks breach demand got }
{
    match (breach, demand) {
        (Breach::Mismatch, Demand::Fits(wanted)) => !fits(got, wanted),
        (Breach::Mismatch, Demand::Valueless) => !is_same(got, Ty::Nothing),
        (Breach::Mismatch, Demand::Ordered) => !has_order(got),
        (Breach::Mismatch, Demand::Like(other)) => !are_alike(other, got),
        (Breach::Mismatch, Demand::Joins(other)) => !are_alike(other, got),
        (Breach::NoRecord, Demand::Fielded) => !is_record(got),
        (Breach::NoRecord, Demand::Made) => !is_record(got),
        (Breach::NoArray, Demand::Indexed) => !is_array(got),
        (Breach::NoValue, Demand::Fits(_)) => is_same(got, Ty::Nothing),
        (Breach::NoValue, Demand::Ordered) => is_same(got, Ty::Nothing),
        (Breach::NoValue, Demand::Valued) => is_same(got, Ty::Nothing),
        (Breach::NoValue, Demand::Like(_)) => is_same(got, Ty::Nothing),
        (Breach::NoValue, Demand::Own(_)) => is_same(got, Ty::Nothing),
        (Breach::BareNil, Demand::Own(_)) => is_same(got, Ty::Nil),
        (Breach::BareNil, Demand::BesideNil(other)) => {
            is_same(other, Ty::Nil) && is_same(got, Ty::Nil)
        }
        _ => false,
    }
}

/// The first judgement that is broken so.
pub fn first_broken(facts: &[Fact], breach: Breach) -> Option<Judgement>
    ensures { result ≡ finding.first_broken breach facts.now }
{
    for fact in facts {
        if let Fact::Judged(demand, got) = *fact {
            if breaks(breach, demand, got) {
                return Some(Judgement { demand, got });
            }
        }
    }
    None
}

/// The type of the record that is made, or of which a field is read, at the byte that was asked
/// about.
pub fn judged_record(facts: &[Fact]) -> Option<Ty>
    ensures { result ≡ finding.judged_record facts.now }
{
    for fact in facts {
        if let Fact::Judged(demand, got) = *fact {
            if matches!(demand, Demand::Made | Demand::Has(_)) {
                return Some(got);
            }
        }
    }
    None
}

/// The names of the fields of the record that is declared at a byte. The only error is out of
/// memory.
pub fn field_names(alloc: Global, facts: &[Fact], owner: u32) -> Result<Vec<Ident>, Memory>
    ensures { IfOk result (λ all. all.items ≡ finding.field_names owner facts.now []) }
{
    let mut all = Vec::new(alloc);
    for fact in facts {
        if let Fact::Field(at, field) = *fact {
            if at == owner {
                all.push(field.name)?;
            }
        }
    }
    Ok(all)
}

/// The names of the fields that are given where a record is made at a byte. The only error is out
/// of memory.
pub fn given_names(alloc: Global, facts: &[Fact], at: u32) -> Result<Vec<Ident>, Memory>
    ensures { IfOk result (λ all. all.items ≡ finding.given_names at facts.now []) }
{
    let mut all = Vec::new(alloc);
    for fact in facts {
        if let Fact::Given(start, field) = *fact {
            if start == at {
                all.push(field)?;
            }
        }
    }
    Ok(all)
}

/// The first place where two lists of names differ.
pub fn first_difference(wanted: &[Ident], given: &[Ident]) -> Difference
    ensures { result ≡ finding.first_difference wanted.now given.now }
{
    match (wanted, given) {
        ([], []) => Difference {
            wanted: None,
            given: None,
        },
        ([], [more, ..]) => Difference {
            wanted: None,
            given: Some(*more),
        },
        ([missing, ..], []) => Difference {
            wanted: Some(*missing),
            given: None,
        },
        ([one, wanted @ ..], [other, given @ ..]) => {
            if one.name.0 == other.name.0 {
                first_difference(wanted, given)
            } else {
                Difference {
                    wanted: Some(*one),
                    given: Some(*other),
                }
            }
        }
    }
}

/// The innermost function whose body covers a byte.
pub fn function_around(facts: &[Fact], at: u32) -> Option<Ident>
    ensures { result ≡ finding.function_around at facts.now None }
{
    let mut found = None;
    for fact in facts {
        if let Fact::Body(f, body) = *fact {
            if covers(body, at) {
                found = Some(f);
            }
        }
    }
    found
}

/// Where the innermost loop begins whose body covers a byte.
pub fn loop_around(facts: &[Fact], at: u32) -> Option<u32>
    ensures { result ≡ finding.loop_around at facts.now None }
{
    let mut found = None;
    for fact in facts {
        if let Fact::Loop(from, body) = *fact {
            if covers(body, at) {
                found = Some(from);
            }
        }
    }
    found
}

fn declared_by(fact: Fact) -> Option<Declared>
    ensures { result ≡ finding.declared_by fact }
{
    match fact {
        Fact::Variable(ident, _, seen) => Some(Declared { ident, seen }),
        Fact::Function(ident, _, seen) => Some(Declared { ident, seen }),
        Fact::TypeName(ident, _, seen) => Some(Declared { ident, seen }),
        Fact::Field(owner, field) => Some(Declared {
            ident: field.name,
            seen: Span {
                from: owner,
                to: owner,
            },
        }),
        _ => None,
    }
}

fn declared_at(facts: &[Fact], at: u32) -> Option<Declared>
    ensures { result ≡ finding.declared_at at facts.now }
{
    for fact in facts {
        if let Some(declared) = declared_by(*fact) {
            if declared.ident.span.from == at {
                return Some(declared);
            }
        }
    }
    None
}

fn are_together(one: Declared, other: Declared) -> bool
    ensures { result ≡ finding.together one other }
{
    one.ident.name.0 == other.ident.name.0
        && one.seen.from == other.seen.from
        && one.seen.to == other.seen.to
}

fn first_together(facts: &[Fact], with: Declared) -> Option<Ident>
    ensures { result ≡ finding.first_together with facts.now }
{
    for fact in facts {
        if let Some(declared) = declared_by(*fact) {
            if are_together(declared, with) {
                return Some(declared.ident);
            }
        }
    }
    None
}

/// The first declaration of the name that is declared at a byte, in the same group or list.
pub fn first_declared(facts: &[Fact], at: u32) -> Option<Ident>
    ensures { result ≡ finding.first_declared at facts.now }
{
    match declared_at(facts, at) {
        None => None,
        Some(declared) => first_together(facts, declared),
    }
}
