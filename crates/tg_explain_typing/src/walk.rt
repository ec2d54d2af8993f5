ghost use Rattle.std.specs.Prelude.{◌≡◌, [], OnOk, IfOk};
ghost use Rattle.tg_syntax.specs.Tree.{no_decs};
ghost use Rattle.tg_syntax.specs.glue.Plain.{
  plain,
  plain_lvalue,
  plain_exps,
  plain_inits,
  plain_dec,
  plain_functions,
};
ghost use Rattle.tg_syntax.specs.glue.Lists.{decs_of};
ghost use Rattle.tg_explain_typing.specs.Facts as facts;
ghost use Rattle.tg_explain_typing.specs.glue.Bodies.{body_facts};

use crate::asking::{
    assign, choose, compare, end, fill, give, index, left_demand, make, pass, repeat, select, weigh,
};
use crate::declaring::{declare, open, put_headers, put_types};
use crate::facts::{Demand, Fact};
use crate::types::Ty;
use std::alloc::Global;
use tg_base::Memory;
use tg_syntax::{Dec, Decs, Exp, Exps, FunDec, FunDecs, Ident, Inits, Kind, Program, Var};

/// The facts of a program, in the order in which it is checked, and what is asked where a part
/// begins at a byte. Each name is looked for among all facts before it. The only error is out of
/// memory.
pub fn facts_of(alloc: Global, text: &[u8], program: &Program, at: u32) -> Result<Vec<Fact>, Memory>
    ensures { IfOk result (λ all. all.items
        ≡ facts.exp_facts text.now at (plain program.now.body) []) }
{
    let mut all = Vec::new(alloc);
    put_exp(&mut all, text, at, &program.body)?;
    Ok(all)
}

#[cycle(walk)]
#[inline(never)]
fn put_exp(all: &mut Vec<Fact>, text: &[u8], at: u32, e: &Exp) -> Result<(), Memory>
    ensures { OnOk result
        (all.new.items ≡ facts.exp_facts text.now at (plain e.now) all.old.items) }
{
    let from = e.span.from;
    match &e.kind {
        Kind::Nil | Kind::Break | Kind::Int(_) | Kind::Text(_) => Ok(()),
        Kind::Read(place) => put_place(all, text, at, place),
        Kind::Call(f, arguments) => put_arguments(all, text, at, *f, arguments),
        Kind::Neg(a) => put_value(all, text, at, a, Demand::Fits(Ty::Int)),
        Kind::Binary(op, _, a, b) => {
            put_value(all, text, at, a, left_demand(*op))?;
            put_exp(all, text, at, b)?;
            compare(all, text, at, from, *op, a, b)
        }
        Kind::Make(x, inits) => {
            make(all, text, at, *x)?;
            put_inits(all, text, at, *x, inits)
        }
        Kind::Fill(x, size, value) => {
            fill(all, text, at, *x)?;
            put_value(all, text, at, size, Demand::Fits(Ty::Int))?;
            put_exp(all, text, at, value)?;
            repeat(all, text, at, *x, value)
        }
        Kind::Assign(place, value) => {
            put_place(all, text, at, place)?;
            put_exp(all, text, at, value)?;
            assign(all, text, at, place, value)
        }
        Kind::If(test, this, None) => {
            put_value(all, text, at, test, Demand::Fits(Ty::Int))?;
            put_value(all, text, at, this, Demand::Valueless)
        }
        Kind::If(test, this, Some(other)) => {
            put_value(all, text, at, test, Demand::Fits(Ty::Int))?;
            put_exp(all, text, at, this)?;
            put_exp(all, text, at, other)?;
            choose(all, text, at, this, other)
        }
        Kind::While(test, body) => {
            put_value(all, text, at, test, Demand::Fits(Ty::Int))?;
            all.push(Fact::Loop(from, body.span))?;
            put_value(all, text, at, body, Demand::Valueless)
        }
        Kind::For(x, low, high, body) => {
            put_value(all, text, at, low, Demand::Fits(Ty::Int))?;
            put_value(all, text, at, high, Demand::Fits(Ty::Int))?;
            all.push(Fact::Variable(*x, Ty::Int, body.span))?;
            all.push(Fact::Loop(from, body.span))?;
            put_value(all, text, at, body, Demand::Valueless)
        }
        Kind::Let(decs, body) => {
            put_decs(all, text, at, decs, e.span.to)?;
            put_list(all, text, at, body)
        }
        Kind::Seq(items) => put_list(all, text, at, items),
    }
}

/// A part of which something is asked.
#[cycle(walk)]
#[inline(never)]
fn put_value(
    all: &mut Vec<Fact>,
    text: &[u8],
    at: u32,
    e: &Exp,
    demand: Demand,
) -> Result<(), Memory>
    ensures { OnOk result (all.new.items ≡ facts.weighed text.now at (plain e.now) demand
        (facts.exp_facts text.now at (plain e.now) all.old.items)) }
{
    put_exp(all, text, at, e)?;
    weigh(all, text, at, e, demand)
}

#[cycle(walk)]
fn put_place(all: &mut Vec<Fact>, text: &[u8], at: u32, place: &Var) -> Result<(), Memory>
    ensures { OnOk result
        (all.new.items ≡ facts.place_facts text.now at (plain_lvalue place.now) all.old.items) }
{
    match place {
        Var::Simple(_) => Ok(()),
        Var::Field(of, field) => {
            put_place(all, text, at, of)?;
            select(all, text, at, of, *field)
        }
        Var::Index(of, e) => {
            put_place(all, text, at, of)?;
            index(all, text, at, of)?;
            put_value(all, text, at, e, Demand::Fits(Ty::Int))
        }
    }
}

#[cycle(walk)]
fn put_list(all: &mut Vec<Fact>, text: &[u8], at: u32, exps: &Exps) -> Result<(), Memory>
    ensures { OnOk result
        (all.new.items ≡ facts.exps_facts text.now at (plain_exps exps.now) all.old.items) }
{
    for e in &exps.items {
        put_exp(all, text, at, e)?;
    }
    Ok(())
}

#[cycle(walk)]
fn put_arguments(
    all: &mut Vec<Fact>,
    text: &[u8],
    at: u32,
    f: Ident,
    arguments: &Exps,
) -> Result<(), Memory>
    ensures { OnOk result (all.new.items
        ≡ facts.args_facts text.now at f 0 (plain_exps arguments.now) all.old.items) }
{
    let mut place = 0;
    for e in &arguments.items {
        put_exp(all, text, at, e)?;
        pass(all, text, at, f, place, e)?;
        place += 1;
    }
    Ok(())
}

#[cycle(walk)]
fn put_inits(
    all: &mut Vec<Fact>,
    text: &[u8],
    at: u32,
    x: Ident,
    inits: &Inits,
) -> Result<(), Memory>
    ensures { OnOk result (all.new.items
        ≡ facts.inits_facts text.now at x (plain_inits inits.now) all.old.items) }
{
    for init in &inits.items {
        all.push(Fact::Given(x.span.from, init.field))?;
        put_exp(all, text, at, &init.value)?;
        give(all, text, at, x, init.field, &init.value)?;
    }
    Ok(())
}

#[cycle(walk)]
fn put_decs(all: &mut Vec<Fact>, text: &[u8], at: u32, decs: &Decs, end: u32) -> Result<(), Memory>
    ensures { OnOk result (all.new.items
        ≡ facts.decs_facts text.now at (decs_of decs.now.items.items) end all.old.items) }
{
    for dec in &decs.items {
        put_dec(all, text, at, dec, end)?;
    }
    Ok(())
}

#[cycle(walk)]
fn put_dec(all: &mut Vec<Fact>, text: &[u8], at: u32, dec: &Dec, end: u32) -> Result<(), Memory>
    ensures { OnOk result (all.new.items
        ≡ facts.decs_facts text.now at (plain_dec dec.now no_decs) end all.old.items) }
{
    match dec {
        Dec::Types(types) => put_types(all, types, end),
        Dec::Variable(x, kind, value) => {
            put_exp(all, text, at, value)?;
            declare(all, text, at, *x, *kind, value, end)
        }
        Dec::Functions(group) => {
            put_headers(all, text, group, end)?;
            put_bodies(all, text, at, group)
        }
    }
}

#[cycle(walk)]
fn put_bodies(all: &mut Vec<Fact>, text: &[u8], at: u32, group: &FunDecs) -> Result<(), Memory>
    ensures { OnOk result (all.new.items
        ≡ facts.bodies_facts text.now at (plain_functions group.now) all.old.items) }
{
    for function in &group.items {
        put_body(all, text, at, function)?;
    }
    Ok(())
}

#[cycle(walk)]
fn put_body(all: &mut Vec<Fact>, text: &[u8], at: u32, function: &FunDec) -> Result<(), Memory>
    ensures { OnOk result (all.new.items ≡ body_facts text.now at function.now all.old.items) }
{
    let body = &function.body;
    open(all, text, function.name, &function.params, body.span)?;
    put_exp(all, text, at, body)?;
    end(all, text, at, function.result, body)
}
