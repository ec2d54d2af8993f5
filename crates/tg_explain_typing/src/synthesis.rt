ghost use Rattle.std.specs.Prelude.{◌≡◌};
ghost use Rattle.tg_syntax.specs.glue.Plain.{plain, plain_lvalue, plain_exps};
ghost use Rattle.tg_explain_typing.specs.Synthesis as synthesis;

use crate::facts::Fact;
use crate::lookups::{element_type, field_type, named_type, result_type, variable_type};
use crate::types::{Ty, joined};
use tg_syntax::{Exp, Exps, Kind, Var};

/// The type of an expression among facts, where no rule before it is broken.
#[cycle(synthesis)]
pub fn exp_type(text: &[u8], facts: &[Fact], e: &Exp) -> Ty
    ensures { result ≡ synthesis.exp_type text.now facts.now (plain e.now) }
{
    match &e.kind {
        Kind::Nil => Ty::Nil,
        Kind::Int(_) | Kind::Neg(_) | Kind::Binary(_, _, _, _) => Ty::Int,
        Kind::Text(_) => Ty::Text,
        Kind::Read(place) => place_type(text, facts, place),
        Kind::Call(f, _) => result_type(text, facts, *f),
        Kind::Make(x, _) | Kind::Fill(x, _, _) => named_type(text, facts, *x),
        Kind::If(_, this, Some(other)) => joined(
            exp_type(text, facts, this),
            exp_type(text, facts, other),
        ),
        Kind::Let(_, items) | Kind::Seq(items) => last_type(text, facts, items),
        Kind::Break
        | Kind::Assign(_, _)
        | Kind::If(_, _, None)
        | Kind::While(_, _)
        | Kind::For(_, _, _, _) => Ty::Nothing,
    }
}

#[cycle(synthesis)]
fn last_type(text: &[u8], facts: &[Fact], exps: &Exps) -> Ty
    ensures { result ≡ synthesis.last_type text.now facts.now (plain_exps exps.now) }
{
    let mut left = exps.items.len();
    for e in &exps.items {
        if left == 1 {
            return exp_type(text, facts, e);
        }
        left = left.saturating_sub(1);
    }
    Ty::Nothing
}

/// The type of an l-value among facts.
pub(crate) fn place_type(text: &[u8], facts: &[Fact], place: &Var) -> Ty
    ensures { result ≡ synthesis.place_type text.now facts.now (plain_lvalue place.now) }
{
    match place {
        Var::Simple(x) => variable_type(facts, *x),
        Var::Field(of, field) => {
            let record = place_type(text, facts, of);
            field_type(text, facts, record, *field)
        }
        Var::Index(of, _) => {
            let array = place_type(text, facts, of);
            element_type(text, facts, array)
        }
    }
}
