ghost use Rattle.std.specs.Prelude.{◌≡◌};
ghost use Rattle.tg_syntax.specs.Measures.{saturated};
ghost use Rattle.tg_syntax.specs.InnerMeasures.{
  inner,
  inner_place,
  inner_exps,
  inner_inits,
  inner_decs,
  inner_functions,
};
ghost use Rattle.tg_syntax.specs.Functions.{program_size};
ghost use Rattle.tg_syntax.specs.glue.Plain.{
  plain,
  plain_lvalue,
  plain_exps,
  plain_inits,
  plain_dec,
  plain_functions,
};
ghost use Rattle.tg_syntax.specs.Tree.{no_decs};

use crate::measures::nodes;
use crate::trees::{Dec, Exp, Exps, FunDecs, Inits, Kind, Program, Var};

/// The nodes of a program, which are those of all its bodies, or the greatest `u32` where there are
/// as many or more.
pub fn program_nodes(program: &Program) -> u32
    ensures { result ≡ saturated (program_size (plain program.now.body)) }
{
    nodes(&program.body).saturating_add(inner_nodes(&program.body))
}

// The nodes of the bodies that are declared in an expression.
#[cycle(inner)]
fn inner_nodes(e: &Exp) -> u32
    ensures { result ≡ saturated (inner (plain e.now)) }
{
    match &e.kind {
        Kind::Nil | Kind::Break | Kind::Int(_) | Kind::Text(_) => 0,
        Kind::Read(place) => place_inner(place),
        Kind::Call(_, arguments) => list_inner(arguments),
        Kind::Neg(a) => inner_nodes(a),
        Kind::Binary(_, _, a, b) | Kind::Fill(_, a, b) | Kind::While(a, b) => {
            inner_nodes(a).saturating_add(inner_nodes(b))
        }
        Kind::Make(_, inits) => init_inner(inits),
        Kind::Assign(place, a) => place_inner(place).saturating_add(inner_nodes(a)),
        Kind::If(c, a, None) => inner_nodes(c).saturating_add(inner_nodes(a)),
        Kind::If(c, a, Some(b)) => inner_nodes(c)
            .saturating_add(inner_nodes(a))
            .saturating_add(inner_nodes(b)),
        Kind::For(_, low, high, a) => inner_nodes(low)
            .saturating_add(inner_nodes(high))
            .saturating_add(inner_nodes(a)),
        Kind::Let(decs, body) => {
            let mut sum = list_inner(body);
            for dec in &decs.items {
                sum = sum.saturating_add(dec_inner(dec));
            }
            sum
        }
        Kind::Seq(items) => list_inner(items),
    }
}

#[cycle(inner)]
fn place_inner(place: &Var) -> u32
    ensures { result ≡ saturated (inner_place (plain_lvalue place.now)) }
{
    match place {
        Var::Simple(_) => 0,
        Var::Field(of, _) => place_inner(of),
        Var::Index(of, index) => place_inner(of).saturating_add(inner_nodes(index)),
    }
}

#[cycle(inner)]
fn list_inner(exps: &Exps) -> u32
    ensures { result ≡ saturated (inner_exps (plain_exps exps.now)) }
{
    let mut sum = 0u32;
    for e in &exps.items {
        sum = sum.saturating_add(inner_nodes(e));
    }
    sum
}

#[cycle(inner)]
fn init_inner(inits: &Inits) -> u32
    ensures { result ≡ saturated (inner_inits (plain_inits inits.now)) }
{
    let mut sum = 0u32;
    for init in &inits.items {
        sum = sum.saturating_add(inner_nodes(&init.value));
    }
    sum
}

#[cycle(inner)]
fn dec_inner(dec: &Dec) -> u32
    ensures { result ≡ saturated (inner_decs (plain_dec dec.now no_decs)) }
{
    match dec {
        Dec::Types(_) => 0,
        Dec::Variable(_, _, value) => inner_nodes(value),
        Dec::Functions(functions) => functions_inner(functions),
    }
}

#[cycle(inner)]
fn functions_inner(functions: &FunDecs) -> u32
    ensures { result ≡ saturated (inner_functions (plain_functions functions.now)) }
{
    let mut sum = 0u32;
    for function in &functions.items {
        sum = sum
            .saturating_add(nodes(&function.body))
            .saturating_add(inner_nodes(&function.body));
    }
    sum
}
