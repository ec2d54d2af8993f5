ghost use Rattle.std.specs.Prelude.{◌≡◌, ◌≤◌, ◌++◌, ◌&&◌, IfOk, OnOk, filter, length};
ghost use Rattle.std.specs.List.{list_any, prefix_len};
ghost use Rattle.std.specs.Str.{bytes_eq};
ghost use Rattle.tg_syntax.specs.Spellings.{is_name_byte as is_plain_name_byte};
ghost use Rattle.tg_semantics.specs.Environments.{standard_text as plain_standard_text};
ghost use Rattle.tg_explain_types.specs.declared.names.Near.TheVariants.{Declared};
ghost use Rattle.tg_explain_types.specs.Names as names;

use crate::declarations::{Declaration, Sort};
use crate::spelling::{is_one_edit, is_two_edits, rest_from};
use std::alloc::Global;
use tg_base::{Memory, Span};
use tg_semantics::Standard;
use tg_syntax::Ident;

/// What a name is looked for as.
#[derive(Clone, Copy)]
pub enum Wanted {
    Variable,
    Function,
    TypeName,
}

/// A name that can be seen.
#[derive(Clone, Copy)]
pub enum Near {
    Declared(Ident),
    Standard(Standard),
    IntType,
    StringType,
}

/// The standard functions.
pub(crate) static FUNCTIONS: [Near; 10] = [
    Near::Standard(Standard::Print),
    Near::Standard(Standard::Flush),
    Near::Standard(Standard::Getchar),
    Near::Standard(Standard::Ord),
    Near::Standard(Standard::Chr),
    Near::Standard(Standard::Size),
    Near::Standard(Standard::Substring),
    Near::Standard(Standard::Concat),
    Near::Standard(Standard::Not),
    Near::Standard(Standard::Exit),
];

/// The types that are there from the start.
static TYPES: [Near; 2] = [Near::IntType, Near::StringType];

/// The three names at most of the kind that is looked for that are spelled most nearly as a word,
/// by two edits at most, the nearest first. The only error is out of memory.
pub fn nearest(
    alloc: Global,
    text: &[u8],
    word: &[u8],
    wanted: Wanted,
    seen: &[Declaration],
) -> Result<Vec<Near>, Memory>
    ensures { IfOk result (λ near. near.items ≡ names.nearest text.now word.now
        (names.candidates text.now wanted seen.now)) }
{
    let all = candidates(alloc, text, wanted, seen)?;
    let mut near = Vec::new(alloc);
    put_at_one_edit(&mut near, text, word, &all)?;
    put_at_two_edits(&mut near, text, word, &all)?;
    near.truncate(3);
    Ok(near)
}

fn put_at_one_edit(
    near: &mut Vec<Near>,
    text: &[u8],
    word: &[u8],
    all: &[Near],
) -> Result<(), Memory>
    ensures { OnOk result (near.new.items ≡ near.old.items
        ++ filter (λ n. names.at_one_edit text.now word.now n) all.now) }
{
    for one in all {
        if is_one_edit(word, near_text(text, *one)) {
            near.push(*one)?;
        }
    }
    Ok(())
}

fn put_at_two_edits(
    near: &mut Vec<Near>,
    text: &[u8],
    word: &[u8],
    all: &[Near],
) -> Result<(), Memory>
    ensures { OnOk result (near.new.items ≡ near.old.items
        ++ filter (λ n. names.at_two_edits text.now word.now n) all.now) }
{
    for one in all {
        if is_at_two_edits(text, word, *one) {
            near.push(*one)?;
        }
    }
    Ok(())
}

fn is_at_two_edits(text: &[u8], word: &[u8], one: Near) -> bool
    ensures { result ≡ names.at_two_edits text.now word.now one }
{
    let other = near_text(text, one);
    is_two_edits(word, other) && !is_one_edit(word, other)
}

/// All names of the kind that is looked for, the innermost first.
fn candidates(
    alloc: Global,
    text: &[u8],
    wanted: Wanted,
    seen: &[Declaration],
) -> Result<Vec<Near>, Memory>
    ensures { IfOk result (λ all. all.items ≡ names.candidates text.now wanted seen.now) }
{
    let mut all = Vec::new(alloc);
    for declaration in seen {
        if is_wanted(wanted, declaration.sort) {
            all.push(Near::Declared(declaration.ident))?;
        }
    }
    put_outermost(&mut all, text, wanted, seen)?;
    Ok(all)
}

fn put_outermost(
    all: &mut Vec<Near>,
    text: &[u8],
    wanted: Wanted,
    seen: &[Declaration],
) -> Result<(), Memory>
    ensures { OnOk result (all.new.items ≡ all.old.items
        ++ filter (λ near. names.is_bare text.now wanted seen.now near) (names.outermost wanted)) }
{
    for near in outermost(wanted) {
        if is_bare(text, wanted, seen, *near) {
            all.push(*near)?;
        }
    }
    Ok(())
}

fn outermost(wanted: Wanted) -> &'static [Near]
    ensures { result.now ≡ names.outermost wanted }
{
    match wanted {
        Wanted::Variable => &[],
        Wanted::Function => &FUNCTIONS,
        Wanted::TypeName => &TYPES,
    }
}

fn is_bare(text: &[u8], wanted: Wanted, seen: &[Declaration], near: Near) -> bool
    ensures { result ≡ names.is_bare text.now wanted seen.now near }
{
    let word = near_text(text, near);
    !is_hidden(text, wanted, seen, word)
}

fn is_hidden(text: &[u8], wanted: Wanted, seen: &[Declaration], word: &[u8]) -> bool
    ensures { result ≡ list_any (λ d. names.is_in_space wanted d.sort
        && bytes_eq (names.spelled text.now d.ident.span) word.now) seen.now }
{
    seen.iter().any(|d| hides(text, wanted, *d, word))
}

pub(crate) fn hides(text: &[u8], wanted: Wanted, declaration: Declaration, word: &[u8]) -> bool
    ensures { result ≡ names.is_in_space wanted declaration.sort
        && bytes_eq (names.spelled text.now declaration.ident.span) word.now }
{
    is_in_space(wanted, declaration.sort) && spelled(text, declaration.ident.span) == word
}

fn is_wanted(wanted: Wanted, sort: Sort) -> bool
    ensures { result ≡ names.is_wanted wanted sort }
{
    match (wanted, sort) {
        (Wanted::Variable, Sort::Variable | Sort::LoopVariable) => true,
        (Wanted::Function, Sort::Function(_)) => true,
        (Wanted::TypeName, Sort::TypeName) => true,
        _ => false,
    }
}

fn is_in_space(wanted: Wanted, sort: Sort) -> bool
    ensures { result ≡ names.is_in_space wanted sort }
{
    match wanted {
        Wanted::TypeName => matches!(sort, Sort::TypeName),
        _ => !matches!(sort, Sort::TypeName),
    }
}

/// How a name is written.
pub fn near_text<'a>(text: &'a [u8], near: Near) -> &'a [u8]
    ensures { result.now ≡ names.near_text text.now near }
{
    match near {
        Near::Declared(ident) => spelled(text, ident.span),
        Near::Standard(function) => standard_text(function),
        Near::IntType => b"int",
        Near::StringType => b"string",
    }
}

fn standard_text(function: Standard) -> &'static [u8]
    ensures { result.now ≡ plain_standard_text function }
{
    match function {
        Standard::Print => b"print",
        Standard::Flush => b"flush",
        Standard::Getchar => b"getchar",
        Standard::Ord => b"ord",
        Standard::Chr => b"chr",
        Standard::Size => b"size",
        Standard::Substring => b"substring",
        Standard::Concat => b"concat",
        Standard::Not => b"not",
        Standard::Exit => b"exit",
    }
}

/// The bytes of a text in a span.
pub fn spelled(text: &[u8], span: Span) -> &[u8]
    ensures { result.now ≡ names.spelled text.now span }
{
    let rest = rest_from(text, span.from as usize);
    let length = span.to.saturating_sub(span.from) as usize;
    if length <= rest.len() {
        &rest[..length]
    } else {
        rest
    }
}

/// How many bytes of a name a text begins with.
pub(crate) fn name_length(text: &[u8]) -> usize
    ensures within { result ≤ length text.now }
    ensures value { result ≡ prefix_len is_plain_name_byte text.now }
{
    for (length, byte) in text.iter().enumerate() {
        if !is_name_byte(*byte) {
            return length;
        }
    }
    text.len()
}

fn is_name_byte(byte: u8) -> bool
    ensures { result ≡ is_plain_name_byte byte }
{
    byte >= 65 && byte <= 90 || byte >= 97 && byte <= 122 || byte >= 48 && byte <= 57 || byte == 95
}
