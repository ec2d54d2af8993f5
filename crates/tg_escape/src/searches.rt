ghost use Rattle.std.specs.Prelude.{◌≡◌, length, OnOk, IfOk};
ghost use Rattle.std.specs.FinSet.{from_list};
ghost use Rattle.tg_syntax.specs.glue.Plain.{
  plain,
  plain_lvalue,
  plain_exps,
  plain_inits,
  plain_dec,
  plain_functions,
};
ghost use Rattle.tg_syntax.specs.glue.Lists.{decs_of};
ghost use Rattle.tg_syntax.specs.Tree.{no_decs};
ghost use Rattle.tg_symbols.specs.Tables.{looked_up};
ghost use Rattle.tg_escape.specs.Uses as uses;
ghost use Rattle.tg_escape.specs.Escaping.{escapes_of};
ghost use Rattle.tg_escape.specs.Links.{links_of};
ghost use Rattle.tg_escape.specs.glue.Searches.{FindsUses, FindsDeclared, Declares};

use crate::declarations::Declaration;
use crate::found::Found;
use std::alloc::Global;
use tg_base::Memory;
use tg_symbols::Table;
use tg_syntax::{Dec, Decs, Exp, Exps, FunDec, FunDecs, Ident, Inits, Kind, Param, Var};

/// What is declared at a place of the text, the functions that the place lies in, the outermost
/// first, each by its byte, and what the uses before it show.
#[derive(Drop)]
pub(crate) struct Search {
    pub(crate) table: Table<Declaration>,
    pub(crate) within: Vec<u32>,
    pub(crate) found: Found,
}

/// What the uses in a program's body show.
pub(crate) fn search_body(alloc: Global, body: &Exp) -> Result<Found, Memory>
    ensures escapes { IfOk result (λ f. f.escapes ≡ from_list (escapes_of (plain body.now))) }
    ensures links { IfOk result (λ f. f.links ≡ from_list (links_of (plain body.now))) }
{
    let mut search = Search {
        table: Table::new(alloc),
        within: Vec::new(alloc),
        found: Found::nothing(alloc),
    };
    in_exp(&mut search, body)?;
    Ok(search.found)
}

// The uses in a text.
#[cycle(uses)]
fn in_exp(search: &mut Search, e: &Exp) -> Result<(), Memory>
    ensures { OnOk result (FindsUses search.old search.new (uses.uses (plain e.now))) }
{
    match &e.kind {
        Kind::Nil | Kind::Break | Kind::Int(_) | Kind::Text(_) => Ok(()),
        Kind::Read(place) => in_place(search, place),
        Kind::Call(function, args) => {
            use_of(search, *function)?;
            in_exps(search, args)
        }
        Kind::Seq(items) => in_exps(search, items),
        Kind::Neg(a) => in_exp(search, a),
        Kind::Binary(_, _, a, b) | Kind::Fill(_, a, b) | Kind::If(a, b, None) | Kind::While(a, b) =>
            {
                in_exp(search, a)?;
                in_exp(search, b)
            }
        Kind::Make(_, inits) => in_inits(search, inits),
        Kind::Assign(place, a) => {
            in_place(search, place)?;
            in_exp(search, a)
        }
        Kind::If(c, a, Some(b)) => {
            in_exp(search, c)?;
            in_exp(search, a)?;
            in_exp(search, b)
        }
        Kind::For(x, low, high, a) => {
            in_exp(search, low)?;
            in_exp(search, high)?;
            in_turn(search, *x, a)
        }
        Kind::Let(decs, body) => {
            let open = search.table.len();
            in_decs(search, decs)?;
            in_exps(search, body)?;
            search.table.cut_to(open);
            Ok(())
        }
    }
}

// A loop's body, which sees the loop's variable.
#[cycle(uses)]
fn in_turn(search: &mut Search, x: Ident, body: &Exp) -> Result<(), Memory>
    ensures { OnOk result (FindsUses search.old search.new
        (λ within seen. uses.uses (plain body.now) within
        (uses.declare_variable (length within) x seen))) }
{
    let open = search.table.len();
    declare_variable(search, x)?;
    in_exp(search, body)?;
    search.table.cut_to(open);
    Ok(())
}

#[cycle(uses)]
fn in_place(search: &mut Search, place: &Var) -> Result<(), Memory>
    ensures { OnOk result
        (FindsUses search.old search.new (uses.place_uses (plain_lvalue place.now))) }
{
    match place {
        Var::Simple(x) => use_of(search, *x),
        Var::Field(of, _) => in_place(search, of),
        Var::Index(of, index) => {
            in_place(search, of)?;
            in_exp(search, index)
        }
    }
}

#[cycle(uses)]
fn in_exps(search: &mut Search, exps: &Exps) -> Result<(), Memory>
    ensures { OnOk result (FindsUses search.old search.new (uses.exps_uses (plain_exps exps.now))) }
{
    for e in &exps.items {
        in_exp(search, e)?;
    }
    Ok(())
}

#[cycle(uses)]
fn in_inits(search: &mut Search, inits: &Inits) -> Result<(), Memory>
    ensures { OnOk result
        (FindsUses search.old search.new (uses.inits_uses (plain_inits inits.now))) }
{
    for init in &inits.items {
        in_exp(search, &init.value)?;
    }
    Ok(())
}

// Declarations, which stay declared.
#[cycle(uses)]
fn in_decs(search: &mut Search, decs: &Decs) -> Result<(), Memory>
    ensures { OnOk result (FindsDeclared search.old search.new (decs_of decs.now.items.items)) }
{
    for dec in &decs.items {
        in_dec(search, dec)?;
    }
    Ok(())
}

#[cycle(uses)]
fn in_dec(search: &mut Search, dec: &Dec) -> Result<(), Memory>
    ensures { OnOk result (FindsDeclared search.old search.new (plain_dec dec.now no_decs)) }
{
    match dec {
        Dec::Types(_) => Ok(()),
        Dec::Variable(x, _, value) => {
            in_exp(search, value)?;
            declare_variable(search, *x)
        }
        Dec::Functions(group) => {
            declare_functions(search, group)?;
            in_functions(search, group)
        }
    }
}

// The bodies of functions that are declared.
#[cycle(uses)]
fn in_functions(search: &mut Search, group: &FunDecs) -> Result<(), Memory>
    ensures { OnOk result
        (FindsUses search.old search.new (uses.functions_uses (plain_functions group.now))) }
{
    for function in &group.items {
        in_function(search, function)?;
    }
    Ok(())
}

// A function's body, which lies in the function too.
#[cycle(uses)]
fn in_function(search: &mut Search, function: &FunDec) -> Result<(), Memory>
    ensures { OnOk result (FindsUses search.old search.new
        (uses.function_uses function.now.name function.now.params (plain function.now.body))) }
{
    let open = search.table.len();
    search.within.push(function.name.span.from)?;
    declare_params(search, function.params.as_slice())?;
    in_exp(search, &function.body)?;
    search.table.cut_to(open);
    search.within.pop();
    Ok(())
}

// A use of a name.
fn use_of(search: &mut Search, x: Ident) -> Result<(), Memory>
    ensures { OnOk result (FindsUses search.old search.new
        (λ within seen. uses.used within (looked_up x.name.0 seen))) }
{
    let Some(declaration) = search.table.get(x.name.0) else {
        return Ok(());
    };
    search.found.add(declaration, search.within.as_slice())
}

fn declare_variable(search: &mut Search, x: Ident) -> Result<(), Memory>
    ensures { OnOk result
        (Declares search.old search.new (λ level. uses.declare_variable level x)) }
{
    let variable = Declaration::variable(x.span.from, search.within.len());
    search.table.push(x.name.0, variable)
}

fn declare_params(search: &mut Search, params: &[Param]) -> Result<(), Memory>
    ensures { OnOk result
        (Declares search.old search.new (λ level. uses.declare_params level params.now)) }
{
    for param in params {
        declare_variable(search, param.name)?;
    }
    Ok(())
}

// Functions that may call each other.
fn declare_functions(search: &mut Search, group: &FunDecs) -> Result<(), Memory>
    ensures { OnOk result (Declares search.old search.new
        (λ level. uses.declare_functions level (plain_functions group.now))) }
{
    let level = search.within.len();
    for function in &group.items {
        search
            .table
            .push(function.name.name.0, Declaration::function(level))?;
    }
    Ok(())
}
