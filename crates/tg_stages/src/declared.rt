ghost use Rattle.std.specs.Prelude.{◌≡◌, ◌++◌, OnOk};
ghost use Rattle.tg_syntax.specs.Tree.{no_decs};
ghost use Rattle.tg_syntax.specs.glue.Lists.{decs_of};
ghost use Rattle.tg_syntax.specs.glue.Plain.{
  plain,
  plain_dec,
  plain_exps,
  plain_functions,
  plain_inits,
  plain_lvalue,
};
ghost use Rattle.tg_stages.specs.DeclaredFunctions as functions;

use tg_base::Memory;
use tg_syntax::{Dec, Decs, Exp, Exps, FunDecs, Ident, Inits, Kind, Var};

/// Puts the functions at the end that a text declares, at any depth, in the order of the text.
#[cycle(declared)]
pub fn put_declared(found: &mut Vec<Ident>, e: &Exp) -> Result<(), Memory>
    ensures { OnOk result (found.new.items
        ≡ found.old.items ++ functions.declared (plain e.now)) }
{
    match &e.kind {
        Kind::Nil | Kind::Break | Kind::Int(_) | Kind::Text(_) => Ok(()),
        Kind::Read(place) => put_of_place(found, place),
        Kind::Call(_, arguments) => put_of_exps(found, arguments),
        Kind::Seq(items) => put_of_exps(found, items),
        Kind::Neg(a) => put_declared(found, a),
        Kind::Binary(_, _, a, b) | Kind::Fill(_, a, b) | Kind::While(a, b) => {
            put_declared(found, a)?;
            put_declared(found, b)
        }
        Kind::Make(_, inits) => put_of_inits(found, inits),
        Kind::Assign(place, a) => {
            put_of_place(found, place)?;
            put_declared(found, a)
        }
        Kind::If(c, a, other) => {
            put_declared(found, c)?;
            put_declared(found, a)?;
            match other {
                Some(b) => put_declared(found, b),
                None => Ok(()),
            }
        }
        Kind::For(_, low, high, a) => {
            put_declared(found, low)?;
            put_declared(found, high)?;
            put_declared(found, a)
        }
        Kind::Let(decs, body) => {
            put_of_decs(found, decs)?;
            put_of_exps(found, body)
        }
    }
}

#[cycle(declared)]
fn put_of_place(found: &mut Vec<Ident>, place: &Var) -> Result<(), Memory>
    ensures { OnOk result (found.new.items
        ≡ found.old.items ++ functions.declared_place (plain_lvalue place.now)) }
{
    match place {
        Var::Simple(_) => Ok(()),
        Var::Field(of, _) => put_of_place(found, of),
        Var::Index(of, index) => {
            put_of_place(found, of)?;
            put_declared(found, index)
        }
    }
}

#[cycle(declared)]
fn put_of_exps(found: &mut Vec<Ident>, exps: &Exps) -> Result<(), Memory>
    ensures { OnOk result (found.new.items
        ≡ found.old.items ++ functions.declared_exps (plain_exps exps.now)) }
{
    for e in &exps.items {
        put_declared(found, e)?;
    }
    Ok(())
}

#[cycle(declared)]
fn put_of_inits(found: &mut Vec<Ident>, inits: &Inits) -> Result<(), Memory>
    ensures { OnOk result (found.new.items
        ≡ found.old.items ++ functions.declared_inits (plain_inits inits.now)) }
{
    for init in &inits.items {
        put_declared(found, &init.value)?;
    }
    Ok(())
}

#[cycle(declared)]
fn put_of_decs(found: &mut Vec<Ident>, decs: &Decs) -> Result<(), Memory>
    ensures { OnOk result (found.new.items
        ≡ found.old.items ++ functions.declared_decs (decs_of decs.now.items.items)) }
{
    for dec in &decs.items {
        put_of_dec(found, dec)?;
    }
    Ok(())
}

#[cycle(declared)]
fn put_of_dec(found: &mut Vec<Ident>, dec: &Dec) -> Result<(), Memory>
    ensures { OnOk result (found.new.items
        ≡ found.old.items ++ functions.declared_decs (plain_dec dec.now no_decs)) }
{
    match dec {
        Dec::Types(_) => Ok(()),
        Dec::Variable(_, _, value) => put_declared(found, value),
        Dec::Functions(group) => put_of_functions(found, group),
    }
}

#[cycle(declared)]
fn put_of_functions(found: &mut Vec<Ident>, group: &FunDecs) -> Result<(), Memory>
    ensures { OnOk result (found.new.items
        ≡ found.old.items ++ functions.declared_functions (plain_functions group.now)) }
{
    for function in &group.items {
        found.push(function.name)?;
        put_declared(found, &function.body)?;
    }
    Ok(())
}
