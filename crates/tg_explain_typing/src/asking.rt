ghost use Rattle.std.specs.Prelude.{◌≡◌, OnOk};
ghost use Rattle.tg_syntax.specs.glue.Plain.{plain, plain_lvalue};
ghost use Rattle.tg_explain_typing.specs.Facts as facts;
ghost use Rattle.tg_explain_typing.specs.Facts.{outcome as outcome_of};

use crate::facts::{Demand, Fact};
use crate::lookups::{element_type, field_type, named_type, param_type};
use crate::synthesis::{exp_type, place_type};
use crate::types::Ty;
use tg_base::Memory;
use tg_syntax::{Exp, Ident, Op, Var};

/// Puts what is asked where a part of a type begins, if it is asked about.
fn judge(all: &mut Vec<Fact>, at: u32, start: u32, demand: Demand, got: Ty) -> Result<(), Memory>
    ensures { OnOk result (all.new.items ≡ facts.judged at start demand got all.old.items) }
{
    if start == at {
        all.push(Fact::Judged(demand, got))?;
    }
    Ok(())
}

/// Puts what is asked of an expression.
#[tactic(auto, unfolding(crate::specs::Facts::weighed))]
pub(crate) fn weigh(
    all: &mut Vec<Fact>,
    text: &[u8],
    at: u32,
    e: &Exp,
    demand: Demand,
) -> Result<(), Memory>
    ensures { OnOk result
        (all.new.items ≡ facts.weighed text.now at (plain e.now) demand all.old.items) }
{
    if e.span.from == at {
        let got = exp_type(text, all, e);
        all.push(Fact::Judged(demand, got))?;
    }
    Ok(())
}

/// What an operator asks of its left side.
pub(crate) fn left_demand(op: Op) -> Demand
    ensures { result ≡ facts.left_demand op }
{
    match op {
        Op::Less | Op::LessEqual | Op::Greater | Op::GreaterEqual => Demand::Ordered,
        Op::Equal | Op::NotEqual => Demand::Valued,
        _ => Demand::Fits(Ty::Int),
    }
}

fn right_demand(op: Op, left: Ty) -> Demand
    ensures { result ≡ facts.right_demand op left }
{
    match op {
        Op::Equal | Op::NotEqual => Demand::Like(left),
        Op::Less | Op::LessEqual | Op::Greater | Op::GreaterEqual => Demand::Fits(left),
        _ => Demand::Fits(Ty::Int),
    }
}

fn is_equality(op: Op) -> bool
    ensures { result ≡ facts.is_equality op }
{
    matches!(op, Op::Equal | Op::NotEqual)
}

/// Puts what is asked of the sides of an operator, behind its right one.
#[tactic(auto, unfolding(crate::specs::Facts::compared))]
pub(crate) fn compare(
    all: &mut Vec<Fact>,
    text: &[u8],
    at: u32,
    whole: u32,
    op: Op,
    a: &Exp,
    b: &Exp,
) -> Result<(), Memory>
    ensures { OnOk result (all.new.items
        ≡ facts.compared text.now at whole op (plain a.now) (plain b.now) all.old.items) }
{
    let left = exp_type(text, all, a);
    let right = exp_type(text, all, b);
    weigh(all, text, at, b, right_demand(op, left))?;
    if is_equality(op) {
        judge(all, at, whole, Demand::BesideNil(left), right)?;
    }
    Ok(())
}

/// Puts what is asked of the name of a record that is made.
#[tactic(auto, unfolding(crate::specs::Facts::made))]
pub(crate) fn make(all: &mut Vec<Fact>, text: &[u8], at: u32, x: Ident) -> Result<(), Memory>
    ensures { OnOk result (all.new.items ≡ facts.made text.now at x all.old.items) }
{
    let got = named_type(text, all, x);
    judge(all, at, x.span.from, Demand::Made, got)
}

/// Puts what is asked of the name of an array that is made.
#[tactic(auto, unfolding(crate::specs::Facts::filled))]
pub(crate) fn fill(all: &mut Vec<Fact>, text: &[u8], at: u32, x: Ident) -> Result<(), Memory>
    ensures { OnOk result (all.new.items ≡ facts.filled text.now at x all.old.items) }
{
    let got = named_type(text, all, x);
    judge(all, at, x.span.from, Demand::Indexed, got)
}

/// Puts what is asked of the value of each element.
#[tactic(auto, unfolding(crate::specs::Facts::repeated))]
pub(crate) fn repeat(
    all: &mut Vec<Fact>,
    text: &[u8],
    at: u32,
    x: Ident,
    e: &Exp,
) -> Result<(), Memory>
    ensures { OnOk result
        (all.new.items ≡ facts.repeated text.now at x (plain e.now) all.old.items) }
{
    let array = named_type(text, all, x);
    let wanted = element_type(text, all, array);
    weigh(all, text, at, e, Demand::Fits(wanted))
}

/// Puts what is asked of a value that is assigned.
#[tactic(auto, unfolding(crate::specs::Facts::assigned))]
pub(crate) fn assign(
    all: &mut Vec<Fact>,
    text: &[u8],
    at: u32,
    place: &Var,
    e: &Exp,
) -> Result<(), Memory>
    ensures { OnOk result (all.new.items
        ≡ facts.assigned text.now at (plain_lvalue place.now) (plain e.now) all.old.items) }
{
    let wanted = place_type(text, all, place);
    weigh(all, text, at, e, Demand::Fits(wanted))
}

/// Puts what is asked of the second way of a choice.
#[tactic(auto, unfolding(crate::specs::Facts::chosen))]
pub(crate) fn choose(
    all: &mut Vec<Fact>,
    text: &[u8],
    at: u32,
    this: &Exp,
    other: &Exp,
) -> Result<(), Memory>
    ensures { OnOk result (all.new.items
        ≡ facts.chosen text.now at (plain this.now) (plain other.now) all.old.items) }
{
    let first = exp_type(text, all, this);
    weigh(all, text, at, other, Demand::Joins(first))
}

/// The first byte of an l-value.
fn place_start(place: &Var) -> u32
    ensures { result ≡ facts.place_start (plain_lvalue place.now) }
{
    match place {
        Var::Simple(x) => x.span.from,
        Var::Field(of, _) | Var::Index(of, _) => place_start(of),
    }
}

/// Puts what is asked of an l-value of which a field is read.
#[tactic(auto, unfolding(crate::specs::Facts::selected))]
pub(crate) fn select(
    all: &mut Vec<Fact>,
    text: &[u8],
    at: u32,
    of: &Var,
    field: Ident,
) -> Result<(), Memory>
    ensures { OnOk result (all.new.items
        ≡ facts.selected text.now at (plain_lvalue of.now) field all.old.items) }
{
    let got = place_type(text, all, of);
    judge(all, at, place_start(of), Demand::Fielded, got)?;
    judge(all, at, field.span.from, Demand::Has(field), got)
}

/// Puts what is asked of an l-value of which an element is read.
#[tactic(auto, unfolding(crate::specs::Facts::indexed))]
pub(crate) fn index(all: &mut Vec<Fact>, text: &[u8], at: u32, of: &Var) -> Result<(), Memory>
    ensures { OnOk result
        (all.new.items ≡ facts.indexed text.now at (plain_lvalue of.now) all.old.items) }
{
    let got = place_type(text, all, of);
    judge(all, at, place_start(of), Demand::Indexed, got)
}

/// Puts what is asked of a function's argument.
#[tactic(auto, unfolding(crate::specs::Facts::passed))]
pub(crate) fn pass(
    all: &mut Vec<Fact>,
    text: &[u8],
    at: u32,
    f: Ident,
    place: usize,
    e: &Exp,
) -> Result<(), Memory>
    ensures { OnOk result
        (all.new.items ≡ facts.passed text.now at f place (plain e.now) all.old.items) }
{
    let wanted = param_type(text, all, f, place);
    weigh(all, text, at, e, Demand::Fits(wanted))
}

/// Puts what is asked of a field's value where a record is made.
#[tactic(auto, unfolding(crate::specs::Facts::given))]
pub(crate) fn give(
    all: &mut Vec<Fact>,
    text: &[u8],
    at: u32,
    x: Ident,
    field: Ident,
    e: &Exp,
) -> Result<(), Memory>
    ensures { OnOk result
        (all.new.items ≡ facts.given text.now at x field (plain e.now) all.old.items) }
{
    let record = named_type(text, all, x);
    let wanted = field_type(text, all, record, field);
    weigh(all, text, at, e, Demand::Fits(wanted))
}

#[tactic(auto, unfolding(crate::specs::Facts::outcome))]
fn outcome(text: &[u8], facts: &[Fact], kind: Option<Ident>) -> Demand
    ensures { result ≡ outcome_of text.now facts.now kind }
{
    match kind {
        None => Demand::Valueless,
        Some(x) => Demand::Fits(named_type(text, facts, x)),
    }
}

/// Puts what is asked of a function's body.
#[tactic(auto, unfolding(crate::specs::Facts::ended))]
pub(crate) fn end(
    all: &mut Vec<Fact>,
    text: &[u8],
    at: u32,
    kind: Option<Ident>,
    body: &Exp,
) -> Result<(), Memory>
    ensures { OnOk result
        (all.new.items ≡ facts.ended text.now at kind (plain body.now) all.old.items) }
{
    let demand = outcome(text, all, kind);
    weigh(all, text, at, body, demand)
}
