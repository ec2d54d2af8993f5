ghost use Rattle.std.specs.Prelude.{◌≡◌, ◌+◌, ◌++◌, ◌∷◌, [], IfOk, OnOk};
ghost use Rattle.tg_syntax.specs.Tree.{no_decs};
ghost use Rattle.tg_syntax.specs.glue.Lists.{decs_of};
ghost use Rattle.tg_syntax.specs.glue.Plain.{
  plain,
  plain_dec,
  plain_exps,
  plain_functions,
  plain_inits,
  plain_lvalue,
};
ghost use Rattle.tg_variables.specs.Functions as spec;
ghost use Rattle.tg_variables.specs.Parts as own;

use crate::parts::{Part, parts_of};
use std::alloc::Global;
use tg_base::{ListOf, Memory};
use tg_syntax::{Dec, Decs, Exp, Exps, FunDec, FunDecs, Ident, Inits, Kind, Param, Var};

/// The program's body, or a function that the source declares: its identifier, which the body has
/// none of, its level, that of the body being 0, its parameters, and the parts of its text outside
/// the functions that it declares.
#[derive(Drop)]
pub struct OwnText {
    pub function: Option<Ident>,
    pub level: u32,
    pub parameters: ListOf<Param>,
    pub parts: ListOf<Part>,
}

/// A program's body, and then the functions that it declares, at any depth, in the order of the
/// text.
pub fn program_texts(alloc: Global, body: &Exp) -> Result<Vec<OwnText>, Memory>
    ensures { IfOk result (λ all. all.items ≡ spec.program_texts (plain body.now)) }
{
    let mut found = Vec::new(alloc);
    put_body(alloc, &mut found, body)?;
    put_texts(alloc, &mut found, 0, body)?;
    Ok(found)
}

fn put_body(alloc: Global, found: &mut Vec<OwnText>, body: &Exp) -> Result<(), Memory>
    ensures { OnOk result (found.new.items
        ≡ found.old.items ++ spec.body_text (plain body.now) ∷ []) }
{
    let parts = parts_of(alloc, body)?;
    found.push(OwnText {
        function: None,
        level: 0,
        parameters: ListOf::from_vec(Vec::new(alloc)),
        parts,
    })?;
    Ok(())
}

#[cycle(texts)]
fn put_texts(alloc: Global, found: &mut Vec<OwnText>, level: u32, e: &Exp) -> Result<(), Memory>
    ensures { OnOk result (found.new.items ≡ found.old.items ++ spec.texts level (plain e.now)) }
{
    match &e.kind {
        Kind::Nil | Kind::Break | Kind::Int(_) | Kind::Text(_) => Ok(()),
        Kind::Read(place) => put_of_place(alloc, found, level, place),
        Kind::Call(_, arguments) => put_of_exps(alloc, found, level, arguments),
        Kind::Seq(items) => put_of_exps(alloc, found, level, items),
        Kind::Neg(a) => put_texts(alloc, found, level, a),
        Kind::Binary(_, _, a, b) | Kind::Fill(_, a, b) | Kind::While(a, b) => {
            put_texts(alloc, found, level, a)?;
            put_texts(alloc, found, level, b)
        }
        Kind::Make(_, inits) => put_of_inits(alloc, found, level, inits),
        Kind::Assign(place, a) => {
            put_of_place(alloc, found, level, place)?;
            put_texts(alloc, found, level, a)
        }
        Kind::If(c, a, other) => {
            put_texts(alloc, found, level, c)?;
            put_texts(alloc, found, level, a)?;
            match other {
                Some(b) => put_texts(alloc, found, level, b),
                None => Ok(()),
            }
        }
        Kind::For(_, low, high, a) => {
            put_texts(alloc, found, level, low)?;
            put_texts(alloc, found, level, high)?;
            put_texts(alloc, found, level, a)
        }
        Kind::Let(decs, body) => {
            put_of_decs(alloc, found, level, decs)?;
            put_of_exps(alloc, found, level, body)
        }
    }
}

#[cycle(texts)]
fn put_of_place(
    alloc: Global,
    found: &mut Vec<OwnText>,
    level: u32,
    place: &Var,
) -> Result<(), Memory>
    ensures { OnOk result (found.new.items
        ≡ found.old.items ++ spec.place_texts level (plain_lvalue place.now)) }
{
    match place {
        Var::Simple(_) => Ok(()),
        Var::Field(of, _) => put_of_place(alloc, found, level, of),
        Var::Index(of, index) => {
            put_of_place(alloc, found, level, of)?;
            put_texts(alloc, found, level, index)
        }
    }
}

#[cycle(texts)]
fn put_of_exps(
    alloc: Global,
    found: &mut Vec<OwnText>,
    level: u32,
    exps: &Exps,
) -> Result<(), Memory>
    ensures { OnOk result (found.new.items
        ≡ found.old.items ++ spec.exps_texts level (plain_exps exps.now)) }
{
    for e in &exps.items {
        put_texts(alloc, found, level, e)?;
    }
    Ok(())
}

#[cycle(texts)]
fn put_of_inits(
    alloc: Global,
    found: &mut Vec<OwnText>,
    level: u32,
    inits: &Inits,
) -> Result<(), Memory>
    ensures { OnOk result (found.new.items
        ≡ found.old.items ++ spec.inits_texts level (plain_inits inits.now)) }
{
    for init in &inits.items {
        put_texts(alloc, found, level, &init.value)?;
    }
    Ok(())
}

#[cycle(texts)]
fn put_of_decs(
    alloc: Global,
    found: &mut Vec<OwnText>,
    level: u32,
    decs: &Decs,
) -> Result<(), Memory>
    ensures { OnOk result (found.new.items
        ≡ found.old.items ++ spec.decs_texts level (decs_of decs.now.items.items)) }
{
    for dec in &decs.items {
        put_of_dec(alloc, found, level, dec)?;
    }
    Ok(())
}

#[cycle(texts)]
fn put_of_dec(alloc: Global, found: &mut Vec<OwnText>, level: u32, dec: &Dec) -> Result<(), Memory>
    ensures { OnOk result (found.new.items
        ≡ found.old.items ++ spec.decs_texts level (plain_dec dec.now no_decs)) }
{
    match dec {
        Dec::Types(_) => Ok(()),
        Dec::Variable(_, _, value) => put_texts(alloc, found, level, value),
        Dec::Functions(group) => put_of_functions(alloc, found, level, group),
    }
}

#[cycle(texts)]
fn put_of_functions(
    alloc: Global,
    found: &mut Vec<OwnText>,
    level: u32,
    group: &FunDecs,
) -> Result<(), Memory>
    ensures { OnOk result (found.new.items
        ≡ found.old.items ++ spec.functions_texts level (plain_functions group.now)) }
{
    let inner = level.checked_add(1).ok_or(Memory)?;
    for function in &group.items {
        put_own(alloc, found, inner, function)?;
        put_texts(alloc, found, inner, &function.body)?;
    }
    Ok(())
}

/// Puts a function of this level at the end.
fn put_own(alloc: Global, found: &mut Vec<OwnText>, level: u32, f: &FunDec) -> Result<(), Memory>
    ensures { OnOk result (found.new.items ≡ found.old.items
        ++ spec.own_text level f.now.name f.now.params (plain f.now.body) ∷ []) }
{
    let parameters = Vec::from_slice(alloc, f.params.as_slice())?;
    let parts = parts_of(alloc, &f.body)?;
    found.push(OwnText {
        function: Some(f.name),
        level,
        parameters: ListOf::from_vec(parameters),
        parts,
    })?;
    Ok(())
}
