ghost use Rattle.std.specs.Prelude.{◌≡◌, IfOk};
ghost use Rattle.tg_syntax.specs.glue.Plain.{plain, plain_lvalue};
ghost use Rattle.tg_syntax.specs.Spans.{joined as joined_span, span_of as plain_span_of};
ghost use Rattle.tg_syntax.specs.glue.Lists.{exps_of, inits_of, decs_of};
ghost use Rattle.tg_syntax.specs.Tree.{
  Call as PlainCall,
  Make as PlainMake,
  Seq as PlainSeq,
  Let as PlainLet,
  Fill as PlainFill,
  Assign as PlainAssign,
  If as PlainIf,
  When as PlainWhen,
  While as PlainWhile,
  For as PlainFor,
  Neg as PlainNeg,
  Index as PlainIndex,
};
ghost use Rattle.tg_syntax_laws.specs.mirror.Reading.{binary as plain_binary};

use std::alloc::Global;
use tg_base::{Memory, Span};
use tg_syntax::{
    Dec, Exp, Ident, Init, Kind, Op, Var, assign, call, let_in, make, negate, sequence,
};

/// From one's first byte to another's last.
pub(crate) fn join(first: Span, last: Span) -> Span
    ensures { result ≡ joined_span first last }
{
    Span {
        from: first.from,
        to: last.to,
    }
}

fn span_of(e: &Exp) -> Span
    ensures { result ≡ plain_span_of (plain e.now) }
{
    e.span
}

// From a first byte to an expression's last.
fn up_to(first: Span, last: &Exp) -> Span
    ensures { result ≡ joined_span first (plain_span_of (plain last.now)) }
{
    join(first, span_of(last))
}

/// An expression after a minus sign, which spans from the sign on, as the others here span from
/// their first token to the end of their last expression.
pub(crate) fn build_negation(alloc: Global, first: Span, a: Exp) -> Result<Exp, Memory>
    ensures { IfOk result
        (λ e. plain e ≡ PlainNeg (joined_span first (plain_span_of (plain a))) (plain a)) }
{
    let span = up_to(first, &a);
    negate(alloc, span, a)
}

/// Two operands and the operator between them, whose first byte is `at`.
#[inline(always)]
pub(crate) fn build_operation(op: Op, at: u32, left: Box<Exp>, right: Box<Exp>) -> Exp
    ensures { plain result ≡ plain_binary op at (plain left.value) (plain right.value) }
{
    Exp {
        span: up_to(span_of(&left), &right),
        kind: Kind::Binary(op, at, left, right),
    }
}

/// An assignment.
pub(crate) fn build_assignment(
    alloc: Global,
    first: Span,
    place: Var,
    value: Exp,
) -> Result<Exp, Memory>
    ensures { IfOk result (λ e. plain e
        ≡ PlainAssign (joined_span first (plain_span_of (plain value)))
        (plain_lvalue place) (plain value)) }
{
    let span = up_to(first, &value);
    assign(alloc, span, place, value)
}

/// An element of an array.
pub(crate) fn build_element(alloc: Global, of: Var, at: Box<Exp>) -> Result<Var, Memory>
    ensures { IfOk result (λ v. plain_lvalue v
        ≡ PlainIndex (plain_lvalue of) (plain at.value)) }
{
    let of = Box::new(alloc, of)?;
    Ok(Var::Index(of, at))
}

/// An array that is made.
pub(crate) fn build_array(name: Ident, size: Box<Exp>, value: Box<Exp>) -> Exp
    ensures { plain result
        ≡ PlainFill (joined_span name.span (plain_span_of (plain value.value)))
        name (plain size.value) (plain value.value) }
{
    Exp {
        span: up_to(name.span, &value),
        kind: Kind::Fill(name, size, value),
    }
}

/// An `if` without `else`.
pub(crate) fn build_choice(first: Span, test: Box<Exp>, this: Box<Exp>) -> Exp
    ensures { plain result
        ≡ PlainWhen (joined_span first (plain_span_of (plain this.value)))
        (plain test.value) (plain this.value) }
{
    Exp {
        span: up_to(first, &this),
        kind: Kind::If(test, this, None),
    }
}

/// An `if` with `else`.
pub(crate) fn build_choice_of_two(
    first: Span,
    test: Box<Exp>,
    this: Box<Exp>,
    other: Box<Exp>,
) -> Exp
    ensures { plain result
        ≡ PlainIf (joined_span first (plain_span_of (plain other.value)))
        (plain test.value) (plain this.value) (plain other.value) }
{
    Exp {
        span: up_to(first, &other),
        kind: Kind::If(test, this, Some(other)),
    }
}

/// A `while` loop.
pub(crate) fn build_while(first: Span, test: Box<Exp>, body: Box<Exp>) -> Exp
    ensures { plain result
        ≡ PlainWhile (joined_span first (plain_span_of (plain body.value)))
        (plain test.value) (plain body.value) }
{
    Exp {
        span: up_to(first, &body),
        kind: Kind::While(test, body),
    }
}

/// A `for` loop.
pub(crate) fn build_for(
    first: Span,
    variable: Ident,
    low: Box<Exp>,
    high: Box<Exp>,
    body: Box<Exp>,
) -> Exp
    ensures { plain result
        ≡ PlainFor (joined_span first (plain_span_of (plain body.value)))
        variable (plain low.value) (plain high.value) (plain body.value) }
{
    Exp {
        span: up_to(first, &body),
        kind: Kind::For(variable, low, high, body),
    }
}

/// A sequence, between the tokens that enclose it.
pub(crate) fn build_sequence(first: Span, items: Vec<Exp>, last: Span) -> Exp
    ensures { plain result ≡ PlainSeq (joined_span first last) (exps_of items.items) }
{
    sequence(join(first, last), items)
}

/// A call, up to the token that ends it.
pub(crate) fn build_call(name: Ident, arguments: Vec<Exp>, last: Span) -> Exp
    ensures { plain result ≡ PlainCall (joined_span name.span last) name (exps_of arguments.items) }
{
    call(join(name.span, last), name, arguments)
}

/// A record that is made, up to the token that ends it.
pub(crate) fn build_record(name: Ident, inits: Vec<Init>, last: Span) -> Exp
    ensures { plain result ≡ PlainMake (joined_span name.span last) name (inits_of inits.items) }
{
    make(join(name.span, last), name, inits)
}

/// Declarations and the expressions that see them, between the tokens that enclose them.
pub(crate) fn build_let(first: Span, decs: Vec<Dec>, body: Vec<Exp>, last: Span) -> Exp
    ensures { plain result
        ≡ PlainLet (joined_span first last) (decs_of decs.items) (exps_of body.items) }
{
    let_in(join(first, last), decs, body)
}
