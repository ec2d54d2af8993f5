ghost use Rattle.std.specs.Prelude.{◌≡◌, ◌++◌, map, OnOk};
ghost use Rattle.tg_syntax.specs.glue.Plain.{plain, plain_functions, plain_type};
ghost use Rattle.tg_explain_typing.specs.Facts as facts;
ghost use Rattle.tg_explain_typing.specs.glue.Bodies.{first_start, header_of, fields_of};

use crate::asking::weigh;
use crate::facts::{Demand, Fact, Meaning};
use crate::lookups::{kind_type, named_type};
use crate::synthesis::exp_type;
use crate::types::Ty;
use tg_base::{Memory, Span};
use tg_syntax::{Exp, Form, FunDec, FunDecs, Ident, Param, Params, TypeDec, TypeDecs};

/// Puts a variable, behind its value.
#[tactic(auto, unfolding(crate::specs::Facts::declared))]
pub(crate) fn declare(
    all: &mut Vec<Fact>,
    text: &[u8],
    at: u32,
    x: Ident,
    kind: Option<Ident>,
    e: &Exp,
    end: u32,
) -> Result<(), Memory>
    ensures { OnOk result
        (all.new.items ≡ facts.declared text.now at x kind (plain e.now) end all.old.items) }
{
    let from = e.span.to;
    let seen = Span { from, to: end };
    match kind {
        None => {
            let ty = exp_type(text, all, e);
            weigh(all, text, at, e, Demand::Own(x))?;
            all.push(Fact::Variable(x, ty, seen))?;
        }
        Some(kind) => {
            let ty = named_type(text, all, kind);
            weigh(all, text, at, e, Demand::Fits(ty))?;
            all.push(Fact::Variable(x, ty, seen))?;
        }
    }
    Ok(())
}

/// Puts a group of types.
pub(crate) fn put_types(all: &mut Vec<Fact>, types: &TypeDecs, end: u32) -> Result<(), Memory>
    ensures { OnOk result (let ds = map plain_type types.now in all.new.items
        ≡ facts.types_facts ds (facts.between (facts.types_start ds) end) all.old.items) }
{
    let from = types_start(types);
    for dec in types.as_slice() {
        put_type(all, dec, Span { from, to: end })?;
    }
    Ok(())
}

/// Where the first name of a group of types begins.
fn types_start(types: &TypeDecs) -> u32
    ensures { result ≡ facts.types_start (map plain_type types.now) }
{
    match types.as_slice() {
        [] => 0,
        [first, ..] => first.name.span.from,
    }
}

#[tactic(auto, unfolding(crate::specs::Facts::type_facts))]
fn put_type(all: &mut Vec<Fact>, dec: &TypeDec, seen: Span) -> Result<(), Memory>
    ensures { OnOk result
        (all.new.items ≡ facts.type_facts (plain_type dec.now) seen all.old.items) }
{
    let at = dec.name.span.from;
    match &dec.form {
        Form::Alias(x) => all.push(Fact::TypeName(dec.name, Meaning::Alias(*x), seen))?,
        Form::Fields(fields) => {
            let meaning = Meaning::Known(Ty::Record(at));
            all.push(Fact::TypeName(dec.name, meaning, seen))?;
            put_fields(all, at, fields.as_slice())?;
        }
        Form::Array(x) => {
            let meaning = Meaning::Known(Ty::Array(at));
            all.push(Fact::TypeName(dec.name, meaning, seen))?;
            all.push(Fact::Element(at, *x))?;
        }
    }
    Ok(())
}

fn put_fields(all: &mut Vec<Fact>, owner: u32, fields: &[Param]) -> Result<(), Memory>
    ensures { OnOk result (all.new.items ≡ all.old.items ++ fields_of owner fields.now) }
{
    for field in fields {
        all.push(Fact::Field(owner, *field))?;
    }
    Ok(())
}

/// Puts the names of a group of functions, with their types.
pub(crate) fn put_headers(
    all: &mut Vec<Fact>,
    text: &[u8],
    group: &FunDecs,
    end: u32,
) -> Result<(), Memory>
    ensures { OnOk result (let fs = plain_functions group.now in all.new.items
        ≡ facts.headers_facts text.now fs (facts.between (facts.functions_start fs) end)
        all.old.items) }
{
    let from = functions_start(group);
    for function in &group.items {
        put_header(all, text, function, Span { from, to: end })?;
    }
    Ok(())
}

/// Where the first name of a group of functions begins.
fn functions_start(group: &FunDecs) -> u32
    ensures { result ≡ facts.functions_start (plain_functions group.now) }
{
    start_of(&group.items)
}

fn start_of(functions: &[FunDec]) -> u32
    ensures { result ≡ first_start functions.now }
{
    match functions {
        [] => 0,
        [first, ..] => first.name.span.from,
    }
}

#[tactic(auto, unfolding(crate::specs::Facts::header_facts))]
fn put_header(all: &mut Vec<Fact>, text: &[u8], function: &FunDec, seen: Span) -> Result<(), Memory>
    ensures { OnOk result (all.new.items ≡ header_of text.now function.now seen all.old.items) }
{
    let ty = kind_type(text, all, function.result);
    all.push(Fact::Function(function.name, ty, seen))?;
    put_params(all, text, function.name, function.params.as_slice(), seen)
}

fn put_params(
    all: &mut Vec<Fact>,
    text: &[u8],
    f: Ident,
    params: &[Param],
    seen: Span,
) -> Result<(), Memory>
    ensures { OnOk result
        (all.new.items ≡ facts.params_facts text.now f 0 params.now seen all.old.items) }
{
    let mut place = 0;
    for param in params {
        let ty = named_type(text, all, param.kind);
        all.push(Fact::Param(f, place, ty, seen))?;
        place += 1;
    }
    Ok(())
}

/// Puts the parameters of a function, which its body sees.
#[tactic(auto, unfolding(crate::specs::Facts::opened_facts))]
pub(crate) fn open(
    all: &mut Vec<Fact>,
    text: &[u8],
    f: Ident,
    params: &Params,
    seen: Span,
) -> Result<(), Memory>
    ensures { OnOk result
        (all.new.items ≡ facts.opened_facts text.now f params.now seen all.old.items) }
{
    all.push(Fact::Body(f, seen))?;
    put_variables(all, text, params.as_slice(), seen)
}

fn put_variables(
    all: &mut Vec<Fact>,
    text: &[u8],
    params: &[Param],
    seen: Span,
) -> Result<(), Memory>
    ensures { OnOk result
        (all.new.items ≡ facts.variables_facts text.now params.now seen all.old.items) }
{
    for param in params {
        let ty = named_type(text, all, param.kind);
        all.push(Fact::Variable(param.name, ty, seen))?;
    }
    Ok(())
}
