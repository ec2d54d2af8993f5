// The parser looks at each expression as it ends, if it has so many tokens that it may be too
// deep, so none that it holds or lets go should be deeper than 8,000 by more than the operators
// of one bracket; the contract says it of the answer alone.

ghost use Rattle.std.specs.Prelude.{◌≡◌, ◌≤◌, IsTrue, IfOk};
ghost use Rattle.tg_syntax.specs.Tree.{no_decs};
ghost use Rattle.tg_syntax.specs.glue.Plain.{
  plain,
  plain_lvalue,
  plain_exps,
  plain_inits,
  plain_dec,
  plain_functions,
};
ghost use Rattle.tg_parser.specs.Depth.{
  most_depth,
  depth,
  place_depth,
  exps_depth,
  inits_depth,
  decs_depth,
  functions_depth,
};

use tg_base::Memory;
use tg_syntax::{Dec, Exp, Exps, FunDecs, Inits, Kind, Program, Var};

/// The greatest depth of a tree that the parser gives, in nodes. What is deeper is refused as out of
/// memory, since passes walk trees by recursion: of the deepest sources that `bench/depth` has, up to
/// this depth, `check` and `format` take at most 2.6 MiB of the process's stack and `build` 4.7.
pub const MOST_DEPTH: u32 = 8000;

/// A program, if its tree is no deeper than `MOST_DEPTH`.
pub(crate) fn bounded_program(body: Exp) -> Result<Program, Memory>
    ensures same { IfOk result (λ p. p.body ≡ body) }
    ensures depth { IfOk result (λ p. depth (plain p.body) ≤ most_depth) }
{
    if is_within(&body, MOST_DEPTH) {
        return Ok(Program { body });
    }
    Err(Memory)
}

/// An expression of so many tokens, if it is no deeper than `MOST_DEPTH`. A tree is deeper than its
/// tokens are many by one node at most, so only long expressions are walked.
pub(crate) fn bounded(e: Exp, tokens: usize) -> Result<Exp, Memory>
    ensures { IfOk result (λ r. r ≡ e) }
{
    if tokens >= 8000 && !is_within(&e, MOST_DEPTH) {
        return Err(Memory);
    }
    Ok(e)
}

/// Whether a tree is at most so deep. It looks no deeper.
#[cycle(within)]
fn is_within(e: &Exp, most: u32) -> bool
    ensures { IsTrue result → depth (plain e.now) ≤ most }
{
    if most == 0 {
        return false;
    }
    let below = most - 1;
    match &e.kind {
        Kind::Nil | Kind::Break | Kind::Int(_) | Kind::Text(_) => true,
        Kind::Read(place) => is_place_within(place, below),
        Kind::Call(_, arguments) => are_within(arguments, below),
        Kind::Neg(a) => is_within(a, below),
        Kind::Binary(_, _, a, b) | Kind::Fill(_, a, b) | Kind::While(a, b) => {
            is_within(a, below) && is_within(b, below)
        }
        Kind::Make(_, inits) => are_inits_within(inits, below),
        Kind::Assign(place, a) => is_place_within(place, below) && is_within(a, below),
        Kind::If(c, a, None) => is_within(c, below) && is_within(a, below),
        Kind::If(c, a, Some(b)) => {
            is_within(c, below) && is_within(a, below) && is_within(b, below)
        }
        Kind::For(_, low, high, a) => {
            is_within(low, below) && is_within(high, below) && is_within(a, below)
        }
        Kind::Let(decs, body) => {
            for dec in &decs.items {
                if !is_dec_within(dec, below) {
                    return false;
                }
            }
            are_within(body, below)
        }
        Kind::Seq(items) => are_within(items, below),
    }
}

#[cycle(within)]
fn is_place_within(place: &Var, most: u32) -> bool
    ensures { IsTrue result → place_depth (plain_lvalue place.now) ≤ most }
{
    if most == 0 {
        return false;
    }
    match place {
        Var::Simple(_) => true,
        Var::Field(of, _) => is_place_within(of, most - 1),
        Var::Index(of, index) => { is_place_within(of, most - 1) && is_within(index, most - 1) }
    }
}

#[cycle(within)]
fn are_within(exps: &Exps, most: u32) -> bool
    ensures { IsTrue result → exps_depth (plain_exps exps.now) ≤ most }
{
    for e in &exps.items {
        if !is_within(e, most) {
            return false;
        }
    }
    true
}

#[cycle(within)]
fn are_inits_within(inits: &Inits, most: u32) -> bool
    ensures { IsTrue result → inits_depth (plain_inits inits.now) ≤ most }
{
    for init in &inits.items {
        if !is_within(&init.value, most) {
            return false;
        }
    }
    true
}

#[cycle(within)]
fn is_dec_within(dec: &Dec, most: u32) -> bool
    ensures { IsTrue result → decs_depth (plain_dec dec.now no_decs) ≤ most }
{
    match dec {
        Dec::Types(_) => true,
        Dec::Variable(_, _, value) => is_within(value, most),
        Dec::Functions(functions) => are_functions_within(functions, most),
    }
}

#[cycle(within)]
fn are_functions_within(functions: &FunDecs, most: u32) -> bool
    ensures { IsTrue result → functions_depth (plain_functions functions.now) ≤ most }
{
    for function in &functions.items {
        if !is_within(&function.body, most) {
            return false;
        }
    }
    true
}
