ghost use Rattle.std.specs.Prelude.{◌≡◌, ◌≤◌, ◌++◌, IfOk, OnOk, length};
ghost use Rattle.tg_explain_types.specs.Lines as lines;
ghost use Rattle.tg_explain_types.specs.NameTexts as name_texts;

use crate::declarations::{Declaration, Sort};
use crate::details::{TypeDetail, word_at};
use crate::names::{Near, Wanted, near_text, spelled};
use crate::type_texts::{
    put_before, put_difference, put_fields, put_judged, put_limit, put_outside,
};
use std::alloc::Global;
use tg_base::Memory;
use tg_explain::{place_in, put, put_count, put_line, put_place, put_quoted};

/// The lines that explain a fault of types at a byte of a text, or none where there is nothing to
/// tell. The only error is out of memory.
pub fn type_lines(
    alloc: Global,
    text: &[u8],
    at: u32,
    detail: &TypeDetail,
) -> Result<Vec<u8>, Memory>
    requires { length text.now ≤ 262144 }
    ensures { IfOk result (λ all. all.items ≡ lines.type_lines text.now at detail.now) }
{
    let mut all = Vec::new(alloc);
    let mut line = Vec::new(alloc);
    match detail {
        TypeDetail::Unknown(wanted, near) => {
            put_unknown(&mut line, text, word_at(text, at), *wanted, near.as_slice())?;
        }
        TypeDetail::Otherwise(declaration) => put_otherwise(&mut line, text, *declaration)?,
        TypeDetail::Counts(given, wanted, near) => {
            put_counts(&mut line, text, *given, *wanted, *near)?;
        }
        TypeDetail::Judged(judgement) => put_judged(&mut line, text, *judgement)?,
        TypeDetail::Fields(owner, fields) => {
            put_fields(&mut line, text, *owner, fields.as_slice())?;
        }
        TypeDetail::Differs(difference) => put_difference(&mut line, text, *difference)?,
        TypeDetail::Before(ident) => put_before(&mut line, text, *ident)?,
        TypeDetail::Outside(function, open) => put_outside(&mut line, text, *function, *open)?,
        TypeDetail::Limit(limit) => put_limit(&mut line, *limit)?,
        TypeDetail::Nothing => return Ok(all),
    }
    put_line(&mut all, &line)?;
    Ok(all)
}

fn put_unknown(
    line: &mut Vec<u8>,
    text: &[u8],
    word: &[u8],
    wanted: Wanted,
    near: &[Near],
) -> Result<(), Memory>
    requires { length text.now ≤ 262144 }
    ensures { OnOk result (line.new.items
        ≡ line.old.items ++ lines.unknown_text text.now word.now wanted near.now) }
{
    put(line, b"no ")?;
    put(line, wanted_text(wanted))?;
    put(line, b" ")?;
    put_quoted(line, word)?;
    put_near_names(line, text, near)
}

fn put_near_names(line: &mut Vec<u8>, text: &[u8], near: &[Near]) -> Result<(), Memory>
    requires { length text.now ≤ 262144 }
    ensures { OnOk result (line.new.items ≡ line.old.items ++ lines.near_names text.now near.now) }
{
    match near {
        [] => Ok(()),
        [first, rest @ ..] => {
            put(line, b"; near: ")?;
            put_name(line, text, *first)?;
            put_more_names(line, text, rest)
        }
    }
}

fn put_more_names(line: &mut Vec<u8>, text: &[u8], near: &[Near]) -> Result<(), Memory>
    requires { length text.now ≤ 262144 }
    ensures { OnOk result (line.new.items ≡ line.old.items ++ lines.more_names text.now near.now) }
{
    for one in near {
        put(line, b", ")?;
        put_name(line, text, *one)?;
    }
    Ok(())
}

/// Puts a name at the end, with its place where it is declared in the text.
pub(crate) fn put_name(line: &mut Vec<u8>, text: &[u8], near: Near) -> Result<(), Memory>
    requires { length text.now ≤ 262144 }
    ensures { OnOk result (line.new.items ≡ line.old.items ++ name_texts.name_text text.now near) }
{
    match near {
        Near::Declared(ident) => {
            put_quoted(line, spelled(text, ident.span))?;
            put(line, b" of ")?;
            put_place(line, place_in(text, ident.span.from))
        }
        _ => put_quoted(line, near_text(text, near)),
    }
}

fn put_otherwise(line: &mut Vec<u8>, text: &[u8], declaration: Declaration) -> Result<(), Memory>
    requires { length text.now ≤ 262144 }
    ensures { OnOk result (line.new.items
        ≡ line.old.items ++ lines.otherwise_text text.now declaration) }
{
    put_name(line, text, Near::Declared(declaration.ident))?;
    put(line, b" is ")?;
    put(line, sort_text(declaration.sort))
}

fn put_counts(
    line: &mut Vec<u8>,
    text: &[u8],
    given: usize,
    wanted: usize,
    near: Near,
) -> Result<(), Memory>
    requires { length text.now ≤ 262144 }
    ensures { OnOk result (line.new.items
        ≡ line.old.items ++ lines.counts_text text.now given wanted near) }
{
    put_counted(line, given, b"argument")?;
    put(line, b" for ")?;
    put_counted(line, wanted, b"parameter")?;
    put(line, b" of ")?;
    put_name(line, text, near)
}

fn put_counted(line: &mut Vec<u8>, count: usize, thing: &[u8]) -> Result<(), Memory>
    ensures { OnOk result (line.new.items ≡ line.old.items ++ lines.counted count thing.now) }
{
    put_count(line, count)?;
    put(line, b" ")?;
    put(line, thing)?;
    put(line, plural(count))
}

/// What a thing's name ends by where there are so many.
fn plural(count: usize) -> &'static [u8]
    ensures { result.now ≡ lines.plural count }
{
    if count == 1 { &[] } else { b"s" }
}

fn wanted_text(wanted: Wanted) -> &'static [u8]
    ensures { result.now ≡ lines.wanted_text wanted }
{
    match wanted {
        Wanted::Variable => b"variable",
        Wanted::Function => b"function",
        Wanted::TypeName => b"type",
    }
}

fn sort_text(sort: Sort) -> &'static [u8]
    ensures { result.now ≡ lines.sort_text sort }
{
    match sort {
        Sort::Variable => b"a variable",
        Sort::LoopVariable => b"a loop variable",
        Sort::Function(_) => b"a function",
        Sort::TypeName => b"a type",
    }
}
