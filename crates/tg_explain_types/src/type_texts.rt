ghost use Rattle.std.specs.Prelude.{◌≡◌, ◌≤◌, ◌++◌, OnOk, length};
ghost use Rattle.tg_explain_types.specs.TypeTexts as texts;

use crate::details::{Limit, word_at};
use crate::lines::put_name;
use crate::names::{Near, spelled};
use tg_base::Memory;
use tg_explain::{place_in, put, put_place, put_quoted};
use tg_explain_typing::{Demand, Difference, Judgement, Ty};
use tg_syntax::Ident;

/// Puts the name that a type is declared by, with its place.
fn put_declared(line: &mut Vec<u8>, text: &[u8], at: u32) -> Result<(), Memory>
    requires { length text.now ≤ 262144 }
    ensures { OnOk result (line.new.items
        ≡ line.old.items ++ texts.declared_text text.now at) }
{
    put(line, word_at(text, at))?;
    put(line, b" of ")?;
    put_place(line, place_in(text, at))
}

fn put_ty(line: &mut Vec<u8>, text: &[u8], ty: Ty) -> Result<(), Memory>
    requires { length text.now ≤ 262144 }
    ensures { OnOk result (line.new.items
        ≡ line.old.items ++ texts.ty_text text.now ty) }
{
    match ty {
        Ty::Int => put(line, b"int"),
        Ty::Text => put(line, b"string"),
        Ty::Nil => put(line, b"nil"),
        Ty::Nothing => put(line, b"no value"),
        Ty::Record(at) | Ty::Array(at) => put_declared(line, text, at),
    }
}

fn put_demand(line: &mut Vec<u8>, text: &[u8], demand: Demand) -> Result<(), Memory>
    requires { length text.now ≤ 262144 }
    ensures { OnOk result (line.new.items
        ≡ line.old.items ++ texts.demand_text text.now demand) }
{
    match demand {
        Demand::Fits(ty) | Demand::Like(ty) | Demand::Joins(ty) => put_ty(line, text, ty),
        Demand::Valueless => put(line, b"no value"),
        Demand::Ordered => put(line, b"int or string"),
        Demand::Valued => put(line, b"a value"),
        Demand::Own(ident) => {
            put(line, b"a type for ")?;
            put_name(line, text, Near::Declared(ident))
        }
        Demand::BesideNil(_) | Demand::Fielded | Demand::Made => put(line, b"a record"),
        Demand::Indexed => put(line, b"an array"),
        Demand::Has(field) => {
            put(line, b"a field ")?;
            put_quoted(line, spelled(text, field.span))
        }
    }
}

/// Puts what was asked for, and the type that stands there.
pub(crate) fn put_judged(
    line: &mut Vec<u8>,
    text: &[u8],
    judgement: Judgement,
) -> Result<(), Memory>
    requires { length text.now ≤ 262144 }
    ensures { OnOk result (line.new.items
        ≡ line.old.items ++ texts.judged_text text.now judgement) }
{
    put(line, b"expected ")?;
    put_demand(line, text, judgement.demand)?;
    put(line, b", found ")?;
    put_ty(line, text, judgement.got)
}

fn put_more_fields(line: &mut Vec<u8>, text: &[u8], fields: &[Ident]) -> Result<(), Memory>
    requires { length text.now ≤ 262144 }
    ensures { OnOk result (line.new.items
        ≡ line.old.items ++ texts.more_fields text.now fields.now) }
{
    for field in fields {
        put(line, b", ")?;
        put_quoted(line, spelled(text, field.span))?;
    }
    Ok(())
}

fn put_field_list(line: &mut Vec<u8>, text: &[u8], fields: &[Ident]) -> Result<(), Memory>
    requires { length text.now ≤ 262144 }
    ensures { OnOk result (line.new.items
        ≡ line.old.items ++ texts.field_list text.now fields.now) }
{
    match fields {
        [] => put(line, b" none"),
        [first, rest @ ..] => {
            put(line, b" ")?;
            put_quoted(line, spelled(text, first.span))?;
            put_more_fields(line, text, rest)
        }
    }
}

/// Puts the fields of the record that is declared at a byte.
pub(crate) fn put_fields(
    line: &mut Vec<u8>,
    text: &[u8],
    owner: u32,
    fields: &[Ident],
) -> Result<(), Memory>
    requires { length text.now ≤ 262144 }
    ensures { OnOk result (line.new.items
        ≡ line.old.items ++ texts.fields_text text.now owner fields.now) }
{
    put(line, b"fields of ")?;
    put_declared(line, text, owner)?;
    put(line, b":")?;
    put_field_list(line, text, fields)
}

fn put_field(line: &mut Vec<u8>, text: &[u8], field: Option<Ident>) -> Result<(), Memory>
    requires { length text.now ≤ 262144 }
    ensures { OnOk result (line.new.items
        ≡ line.old.items ++ texts.field_text text.now field) }
{
    match field {
        None => put(line, b"no field"),
        Some(field) => {
            put(line, b"field ")?;
            put_quoted(line, spelled(text, field.span))
        }
    }
}

/// Puts the field that is wanted, and the one that is given in its place.
pub(crate) fn put_difference(
    line: &mut Vec<u8>,
    text: &[u8],
    difference: Difference,
) -> Result<(), Memory>
    requires { length text.now ≤ 262144 }
    ensures { OnOk result (line.new.items
        ≡ line.old.items ++ texts.difference_text text.now difference) }
{
    put(line, b"expected ")?;
    put_field(line, text, difference.wanted)?;
    put(line, b", found ")?;
    put_field(line, text, difference.given)
}

/// Puts the first declaration of a name.
pub(crate) fn put_before(line: &mut Vec<u8>, text: &[u8], ident: Ident) -> Result<(), Memory>
    requires { length text.now ≤ 262144 }
    ensures { OnOk result (line.new.items
        ≡ line.old.items ++ texts.before_text text.now ident) }
{
    put_name(line, text, Near::Declared(ident))?;
    put(line, b" is declared before")
}

fn put_outer_loop(line: &mut Vec<u8>, text: &[u8], at: u32) -> Result<(), Memory>
    requires { length text.now ≤ 262144 }
    ensures { OnOk result (line.new.items
        ≡ line.old.items ++ texts.outer_loop_text text.now at) }
{
    put(line, b"the loop of ")?;
    put_place(line, place_in(text, at))?;
    put(line, b" is not open")
}

fn put_loop(line: &mut Vec<u8>, text: &[u8], around: Option<u32>) -> Result<(), Memory>
    requires { length text.now ≤ 262144 }
    ensures { OnOk result (line.new.items
        ≡ line.old.items ++ texts.loop_text text.now around) }
{
    match around {
        None => put(line, b"no loop is open"),
        Some(at) => put_outer_loop(line, text, at),
    }
}

fn put_function(line: &mut Vec<u8>, text: &[u8], function: Option<Ident>) -> Result<(), Memory>
    requires { length text.now ≤ 262144 }
    ensures { OnOk result (line.new.items
        ≡ line.old.items ++ texts.function_text text.now function) }
{
    match function {
        None => Ok(()),
        Some(ident) => {
            put(line, b" in ")?;
            put_name(line, text, Near::Declared(ident))
        }
    }
}

/// Puts what stands around a `break`.
pub(crate) fn put_outside(
    line: &mut Vec<u8>,
    text: &[u8],
    function: Option<Ident>,
    around: Option<u32>,
) -> Result<(), Memory>
    requires { length text.now ≤ 262144 }
    ensures { OnOk result (line.new.items
        ≡ line.old.items ++ texts.outside_text text.now function around) }
{
    put_loop(line, text, around)?;
    put_function(line, text, function)
}

/// Puts a limit.
pub(crate) fn put_limit(line: &mut Vec<u8>, limit: Limit) -> Result<(), Memory>
    ensures { OnOk result (line.new.items
        ≡ line.old.items ++ texts.limit_text limit) }
{
    match limit {
        Limit::Levels => put(line, b"functions are nested 32 levels deep at most"),
        Limit::FunctionNodes => put(line, b"a function has 4096 nodes at most"),
        Limit::ProgramNodes => put(line, b"a program has 32768 nodes at most"),
    }
}
