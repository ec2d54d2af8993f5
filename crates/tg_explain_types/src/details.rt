ghost use Rattle.std.specs.Prelude.{◌≡◌, ◌≤◌, IfOk, find, length};
ghost use Rattle.tg_syntax.specs.glue.Plain.{plain};
ghost use Rattle.std.specs.Str.{bytes_eq};
ghost use Rattle.tg_explain_types.specs.declared.names.Wanted.TheVariants.{Function};
ghost use Rattle.tg_explain_types.specs.Details as details;
ghost use Rattle.tg_explain_types.specs.Names as names;

use crate::declarations::{Declaration, Part, Sort};
use crate::names::{FUNCTIONS, Near, Wanted, hides, name_length, near_text, nearest};
use crate::parts::parts_of;
use crate::scopes::seen_at;
use crate::spelling::rest_from;
use crate::telling::tell;
use std::alloc::Global;
use tg_base::{ListOf, Memory};
use tg_explain_typing::{Difference, Judgement, facts_of};
use tg_semantics::Standard;
use tg_syntax::{Ident, Program};
use tg_typecheck::TypeRule;

/// A limit of size or depth.
#[derive(Clone, Copy)]
pub enum Limit {
    Levels,
    FunctionNodes,
    ProgramNodes,
}

/// What a fault of types is about.
#[derive(Drop)]
pub enum TypeDetail {
    /// No name of this kind can be seen; those spelled most nearly, the nearest first.
    Unknown(Wanted, ListOf<Near>),
    /// The name is declared as this.
    Otherwise(Declaration),
    /// So many arguments for so many parameters of a function.
    Counts(usize, usize, Near),
    /// What was asked of a place, and the type that stands there.
    Judged(Judgement),
    /// The record that is declared at a byte has these fields.
    Fields(u32, ListOf<Ident>),
    /// The field that a record wants, and the one that is given in its place.
    Differs(Difference),
    /// The first declaration of a name that is declared again.
    Before(Ident),
    /// The function that a `break` stands in, and where the loop outside of it begins.
    Outside(Option<Ident>, Option<u32>),
    Limit(Limit),
    Nothing,
}

/// What the fault of a rule at a byte of a program is about: of an unknown name those spelled
/// nearly so, of a name of another kind or one that is declared again its declaration, of wrong
/// arguments both counts, of a wrong type what was asked for and what stands there, of wrong fields
/// those that are wanted, of a `break` what stands around it. A cycle of types has nothing. The
/// only error is out of memory.
pub fn explain_types(
    alloc: Global,
    text: &[u8],
    program: &Program,
    rule: TypeRule,
    at: u32,
) -> Result<TypeDetail, Memory>
    requires { length text.now ≤ 262144 }
    ensures { IfOk result (λ d. d ≡ details.explained text.now (plain program.now.body) rule at) }
{
    match rule {
        TypeRule::T1
        | TypeRule::T2
        | TypeRule::T3
        | TypeRule::T4
        | TypeRule::T5
        | TypeRule::T10
        | TypeRule::T15 => explain_name(alloc, text, program, rule, at),
        TypeRule::T20 => Ok(TypeDetail::Limit(Limit::Levels)),
        TypeRule::T21 => Ok(TypeDetail::Limit(Limit::FunctionNodes)),
        TypeRule::T22 => Ok(TypeDetail::Limit(Limit::ProgramNodes)),
        _ => {
            let facts = facts_of(alloc, text, program, at)?;
            tell(alloc, &facts, rule, at)
        }
    }
}

fn explain_name(
    alloc: Global,
    text: &[u8],
    program: &Program,
    rule: TypeRule,
    at: u32,
) -> Result<TypeDetail, Memory>
    requires { length text.now ≤ 262144 }
    ensures { IfOk result
        (λ d. d ≡ details.named text.now (plain program.now.body) rule at) }
{
    let parts = parts_of(alloc, program)?;
    let seen = seen_at(alloc, &parts, at)?;
    let word = word_at(text, at);
    let given = arguments_at(&parts, at);
    explained_by(alloc, text, word, given, &seen, rule)
}

/// The name that begins at a byte.
pub(crate) fn word_at(text: &[u8], at: u32) -> &[u8]
    requires { length text.now ≤ 262144 }
    ensures { result.now ≡ names.spelled text.now (names.name_at text.now at) }
{
    let rest = rest_from(text, at as usize);
    &rest[..name_length(rest)]
}

fn explained_by(
    alloc: Global,
    text: &[u8],
    word: &[u8],
    given: usize,
    seen: &[Declaration],
    rule: TypeRule,
) -> Result<TypeDetail, Memory>
    ensures { IfOk result (λ d. d ≡ details.explained_by text.now word.now given seen.now rule) }
{
    match rule {
        TypeRule::T1 => unknown(alloc, text, word, Wanted::Variable, seen),
        TypeRule::T2 => unknown(alloc, text, word, Wanted::Function, seen),
        TypeRule::T3 => unknown(alloc, text, word, Wanted::TypeName, seen),
        TypeRule::T4 | TypeRule::T5 | TypeRule::T15 => {
            match declaration_of(text, word, Wanted::Variable, seen) {
                Some(declaration) => Ok(TypeDetail::Otherwise(declaration)),
                None => Ok(TypeDetail::Nothing),
            }
        }
        TypeRule::T10 => {
            let callee = declaration_of(text, word, Wanted::Function, seen);
            Ok(declared_counts(text, word, given, callee))
        }
        _ => Ok(TypeDetail::Nothing),
    }
}

fn unknown(
    alloc: Global,
    text: &[u8],
    word: &[u8],
    wanted: Wanted,
    seen: &[Declaration],
) -> Result<TypeDetail, Memory>
    ensures { IfOk result (λ d. d ≡ details.unknown text.now word.now wanted seen.now) }
{
    let near = nearest(alloc, text, word, wanted, seen)?;
    Ok(TypeDetail::Unknown(wanted, ListOf::from_vec(near)))
}

/// The innermost declaration of a word.
fn declaration_of(
    text: &[u8],
    word: &[u8],
    wanted: Wanted,
    seen: &[Declaration],
) -> Option<Declaration>
    ensures { result ≡ details.declaration_of text.now word.now wanted seen.now }
{
    seen.iter().copied().find(|d| hides(text, wanted, *d, word))
}

/// The arguments of the call by a name that begins at a byte.
fn arguments_at(parts: &[Part], at: u32) -> usize
    ensures { result ≡ details.arguments_at at parts.now }
{
    for part in parts {
        if let Part::Called(name, count) = *part {
            if name.span.from == at {
                return count;
            }
        }
    }
    0
}

fn declared_counts(
    text: &[u8],
    word: &[u8],
    given: usize,
    callee: Option<Declaration>,
) -> TypeDetail
    ensures { result ≡ details.declared_counts text.now word.now given callee }
{
    match callee {
        None => standard_counts(given, standard_of(text, word)),
        Some(declaration) => match declaration.sort {
            Sort::Function(count) => {
                TypeDetail::Counts(given, count, Near::Declared(declaration.ident))
            }
            _ => TypeDetail::Nothing,
        },
    }
}

/// The standard function of a word.
fn standard_of(text: &[u8], word: &[u8]) -> Option<Near>
    ensures { result ≡ find (λ f. bytes_eq (names.near_text text.now f) word.now)
        (names.outermost Function) }
{
    FUNCTIONS
        .iter()
        .copied()
        .find(|near| near_text(text, *near) == word)
}

fn standard_counts(given: usize, near: Option<Near>) -> TypeDetail
    ensures { result ≡ details.standard_counts given near }
{
    match near {
        Some(Near::Standard(function)) => TypeDetail::Counts(
            given,
            standard_count(function),
            Near::Standard(function),
        ),
        _ => TypeDetail::Nothing,
    }
}

/// How many parameters a standard function has.
fn standard_count(function: Standard) -> usize
    ensures { result ≡ details.standard_count function }
{
    match function {
        Standard::Flush | Standard::Getchar => 0,
        Standard::Substring => 3,
        Standard::Concat => 2,
        _ => 1,
    }
}
