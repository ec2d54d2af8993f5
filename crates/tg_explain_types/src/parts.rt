ghost use Rattle.std.specs.Prelude.{◌≡◌, ◌∷◌, [], ◌++◌, length, map, OnOk, IfOk};
ghost use Rattle.tg_syntax.specs.Tree.{no_decs};
ghost use Rattle.tg_syntax.specs.glue.Plain.{
  plain,
  plain_lvalue,
  plain_exps,
  plain_inits,
  plain_dec,
  plain_functions,
  plain_type,
};
ghost use Rattle.tg_syntax.specs.glue.Lists.{decs_of};
ghost use Rattle.tg_explain_types.specs.declared.declarations.Sort.TheVariants.{Function};
ghost use Rattle.tg_explain_types.specs.Parts as parts;
ghost use Rattle.tg_explain_types.specs.glue.Starts as starts;

use crate::declarations::{Declaration, Part, Sort};
use std::alloc::Global;
use tg_base::{Memory, Span};
use tg_syntax::{
    Dec, Decs, Exp, Exps, FunDec, FunDecs, Ident, Inits, Kind, Params, Program, TypeDecs, Var,
};

/// The declarations and the calls of a program, in the order of its text; those of a group come
/// before its bodies. The only error is out of memory.
pub fn parts_of(alloc: Global, program: &Program) -> Result<Vec<Part>, Memory>
    ensures { IfOk result (λ all. all.items ≡ parts.exp_parts (plain program.now.body) []) }
{
    let mut all = Vec::new(alloc);
    put_exp(&mut all, &program.body)?;
    Ok(all)
}

fn declared(ident: Ident, sort: Sort, seen: Span) -> Part
    ensures { result ≡ parts.declared ident sort seen }
{
    Part::Declared(Declaration { ident, sort, seen })
}

#[cycle(parts)]
fn put_exp(all: &mut Vec<Part>, e: &Exp) -> Result<(), Memory>
    ensures { OnOk result (all.new.items ≡ parts.exp_parts (plain e.now) all.old.items) }
{
    match &e.kind {
        Kind::Nil | Kind::Break | Kind::Int(_) | Kind::Text(_) => Ok(()),
        Kind::Read(place) => put_place(all, place),
        Kind::Call(name, arguments) => {
            all.push(Part::Called(*name, count_of(arguments)))?;
            put_list(all, arguments)
        }
        Kind::Neg(a) => put_exp(all, a),
        Kind::Binary(_, _, a, b) | Kind::Fill(_, a, b) | Kind::While(a, b) => {
            put_exp(all, a)?;
            put_exp(all, b)
        }
        Kind::Make(_, inits) => put_inits(all, inits),
        Kind::Assign(place, a) => {
            put_place(all, place)?;
            put_exp(all, a)
        }
        Kind::If(test, this, None) => {
            put_exp(all, test)?;
            put_exp(all, this)
        }
        Kind::If(test, this, Some(other)) => {
            put_exp(all, test)?;
            put_exp(all, this)?;
            put_exp(all, other)
        }
        Kind::For(name, low, high, body) => {
            put_exp(all, low)?;
            put_exp(all, high)?;
            all.push(declared(*name, Sort::LoopVariable, body.span))?;
            put_exp(all, body)
        }
        Kind::Let(decs, body) => {
            put_decs(all, decs, e.span.to)?;
            put_list(all, body)
        }
        Kind::Seq(items) => put_list(all, items),
    }
}

#[cycle(parts)]
fn put_place(all: &mut Vec<Part>, place: &Var) -> Result<(), Memory>
    ensures { OnOk result
        (all.new.items ≡ parts.place_parts (plain_lvalue place.now) all.old.items) }
{
    match place {
        Var::Simple(_) => Ok(()),
        Var::Field(of, _) => put_place(all, of),
        Var::Index(of, index) => {
            put_place(all, of)?;
            put_exp(all, index)
        }
    }
}

#[cycle(parts)]
fn put_list(all: &mut Vec<Part>, exps: &Exps) -> Result<(), Memory>
    ensures { OnOk result
        (all.new.items ≡ parts.exps_parts (plain_exps exps.now) all.old.items) }
{
    for e in &exps.items {
        put_exp(all, e)?;
    }
    Ok(())
}

#[cycle(parts)]
fn put_inits(all: &mut Vec<Part>, inits: &Inits) -> Result<(), Memory>
    ensures { OnOk result
        (all.new.items ≡ parts.inits_parts (plain_inits inits.now) all.old.items) }
{
    for init in &inits.items {
        put_exp(all, &init.value)?;
    }
    Ok(())
}

#[cycle(parts)]
fn put_decs(all: &mut Vec<Part>, decs: &Decs, end: u32) -> Result<(), Memory>
    ensures { OnOk result
        (all.new.items ≡ parts.decs_parts (decs_of decs.now.items.items) end all.old.items) }
{
    for dec in &decs.items {
        put_dec(all, dec, end)?;
    }
    Ok(())
}

#[cycle(parts)]
fn put_dec(all: &mut Vec<Part>, dec: &Dec, end: u32) -> Result<(), Memory>
    ensures { OnOk result
        (all.new.items ≡ parts.decs_parts (plain_dec dec.now no_decs) end all.old.items) }
{
    match dec {
        Dec::Types(types) => put_types(all, types, end),
        Dec::Variable(name, _, value) => {
            put_exp(all, value)?;
            let from = value.span.to;
            all.push(declared(*name, Sort::Variable, Span { from, to: end }))?;
            Ok(())
        }
        Dec::Functions(group) => {
            put_names(all, group, end)?;
            put_bodies(all, group)
        }
    }
}

#[cycle(parts)]
fn put_bodies(all: &mut Vec<Part>, group: &FunDecs) -> Result<(), Memory>
    ensures { OnOk result
        (all.new.items ≡ parts.bodies_parts (plain_functions group.now) all.old.items) }
{
    for function in &group.items {
        put_params(all, &function.params, function.body.span)?;
        put_exp(all, &function.body)?;
    }
    Ok(())
}

fn put_types(all: &mut Vec<Part>, types: &TypeDecs, end: u32) -> Result<(), Memory>
    ensures { OnOk result (let ds = map plain_type types.now in all.new.items
        ≡ all.old.items ++ parts.type_parts ds (parts.between (parts.types_start ds) end)) }
{
    let from = types_start(types);
    for dec in types.as_slice() {
        all.push(declared(dec.name, Sort::TypeName, Span { from, to: end }))?;
    }
    Ok(())
}

/// Where the first name of a group of types begins.
fn types_start(types: &TypeDecs) -> u32
    ensures { result ≡ parts.types_start (map plain_type types.now) }
{
    match types.as_slice() {
        [] => 0,
        [first, ..] => first.name.span.from,
    }
}

fn put_params(all: &mut Vec<Part>, params: &Params, seen: Span) -> Result<(), Memory>
    ensures { OnOk result (all.new.items ≡ all.old.items ++ parts.param_parts params.now seen) }
{
    for param in params.as_slice() {
        all.push(declared(param.name, Sort::Variable, seen))?;
    }
    Ok(())
}

fn put_names(all: &mut Vec<Part>, group: &FunDecs, end: u32) -> Result<(), Memory>
    ensures { OnOk result (let fs = plain_functions group.now in all.new.items
        ≡ parts.named_parts fs (parts.between (parts.functions_start fs) end) all.old.items) }
{
    let from = functions_start(group);
    for function in &group.items {
        put_name(all, function, Span { from, to: end })?;
    }
    Ok(())
}

fn put_name(all: &mut Vec<Part>, function: &FunDec, seen: Span) -> Result<(), Memory>
    ensures { OnOk result (all.new.items ≡ all.old.items
        ++ parts.declared function.now.name (Function (length function.now.params)) seen
        ∷ []) }
{
    let count = function.params.as_slice().len();
    all.push(declared(function.name, Sort::Function(count), seen))?;
    Ok(())
}

/// Where the first name of a group of functions begins.
fn functions_start(group: &FunDecs) -> u32
    ensures { result ≡ parts.functions_start (plain_functions group.now) }
{
    first_start(&group.items)
}

fn first_start(functions: &[FunDec]) -> u32
    ensures { result ≡ starts.first_start functions.now }
{
    match functions {
        [] => 0,
        [first, ..] => first.name.span.from,
    }
}

fn count_of(exps: &Exps) -> usize
    ensures { result ≡ parts.expression_count (plain_exps exps.now) }
{
    length_of(&exps.items)
}

fn length_of(exps: &[Exp]) -> usize
    ensures { result ≡ length exps.now }
{
    exps.len()
}
