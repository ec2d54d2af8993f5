ghost use Rattle.std.specs.Prelude.{◌≡◌, ◌++◌, IfOk, OnOk};
ghost use Rattle.tg_syntax.specs.Tree.{no_decs};
ghost use Rattle.tg_syntax.specs.glue.Lists.{decs_of};
ghost use Rattle.tg_syntax.specs.glue.Plain.{
  plain,
  plain_dec,
  plain_exps,
  plain_inits,
  plain_lvalue,
};
ghost use Rattle.tg_variables.specs.Parts as own;

use std::alloc::Global;
use tg_base::{ListOf, Memory};
use tg_syntax::{Dec, Decs, Exp, Exps, Ident, Inits, Kind, Var};

/// A part of a function's text: a variable is declared, with its type where the source writes one,
/// or one is used.
#[derive(Clone, Copy)]
pub enum Part {
    Declares(Ident, Option<Ident>),
    Uses(Ident),
}

/// The parts of a text, outside the functions that it declares, in the order of the text.
pub fn parts_of(alloc: Global, e: &Exp) -> Result<ListOf<Part>, Memory>
    ensures { IfOk result (λ found. found ≡ own.parts (plain e.now)) }
{
    let mut found = Vec::new(alloc);
    put_parts(&mut found, e)?;
    Ok(ListOf::from_vec(found))
}

#[cycle(parts)]
fn put_parts(found: &mut Vec<Part>, e: &Exp) -> Result<(), Memory>
    ensures { OnOk result (found.new.items ≡ found.old.items ++ own.parts (plain e.now)) }
{
    match &e.kind {
        Kind::Nil | Kind::Break | Kind::Int(_) | Kind::Text(_) => Ok(()),
        Kind::Read(place) => put_of_place(found, place),
        Kind::Call(_, arguments) => put_of_exps(found, arguments),
        Kind::Seq(items) => put_of_exps(found, items),
        Kind::Neg(a) => put_parts(found, a),
        Kind::Binary(_, _, a, b) | Kind::Fill(_, a, b) | Kind::While(a, b) => {
            put_parts(found, a)?;
            put_parts(found, b)
        }
        Kind::Make(_, inits) => put_of_inits(found, inits),
        Kind::Assign(place, a) => {
            put_of_place(found, place)?;
            put_parts(found, a)
        }
        Kind::If(c, a, other) => {
            put_parts(found, c)?;
            put_parts(found, a)?;
            match other {
                Some(b) => put_parts(found, b),
                None => Ok(()),
            }
        }
        Kind::For(x, low, high, a) => {
            found.push(Part::Declares(*x, None))?;
            put_parts(found, low)?;
            put_parts(found, high)?;
            put_parts(found, a)
        }
        Kind::Let(decs, body) => {
            put_of_decs(found, decs)?;
            put_of_exps(found, body)
        }
    }
}

#[cycle(parts)]
fn put_of_place(found: &mut Vec<Part>, place: &Var) -> Result<(), Memory>
    ensures { OnOk result (found.new.items
        ≡ found.old.items ++ own.place_parts (plain_lvalue place.now)) }
{
    match place {
        Var::Simple(x) => {
            found.push(Part::Uses(*x))?;
            Ok(())
        }
        Var::Field(of, _) => put_of_place(found, of),
        Var::Index(of, index) => {
            put_of_place(found, of)?;
            put_parts(found, index)
        }
    }
}

#[cycle(parts)]
fn put_of_exps(found: &mut Vec<Part>, exps: &Exps) -> Result<(), Memory>
    ensures { OnOk result (found.new.items
        ≡ found.old.items ++ own.exps_parts (plain_exps exps.now)) }
{
    for e in &exps.items {
        put_parts(found, e)?;
    }
    Ok(())
}

#[cycle(parts)]
fn put_of_inits(found: &mut Vec<Part>, inits: &Inits) -> Result<(), Memory>
    ensures { OnOk result (found.new.items
        ≡ found.old.items ++ own.inits_parts (plain_inits inits.now)) }
{
    for init in &inits.items {
        put_parts(found, &init.value)?;
    }
    Ok(())
}

#[cycle(parts)]
fn put_of_decs(found: &mut Vec<Part>, decs: &Decs) -> Result<(), Memory>
    ensures { OnOk result (found.new.items
        ≡ found.old.items ++ own.decs_parts (decs_of decs.now.items.items)) }
{
    for dec in &decs.items {
        put_of_dec(found, dec)?;
    }
    Ok(())
}

#[cycle(parts)]
fn put_of_dec(found: &mut Vec<Part>, dec: &Dec) -> Result<(), Memory>
    ensures { OnOk result (found.new.items
        ≡ found.old.items ++ own.decs_parts (plain_dec dec.now no_decs)) }
{
    match dec {
        Dec::Types(_) | Dec::Functions(_) => Ok(()),
        Dec::Variable(x, of_type, value) => {
            found.push(Part::Declares(*x, *of_type))?;
            put_parts(found, value)
        }
    }
}
