ghost use Rattle.std.specs.Prelude.{◌≡◌, IfOk};
ghost use Rattle.tg_syntax.specs.glue.Plain.{plain, plain_lvalue};
ghost use Rattle.tg_syntax.specs.glue.Lists.{exps_of, inits_of, decs_of};
ghost use Rattle.tg_syntax.specs.Tree.{
  Nil as PlainNil,
  Break as PlainBreak,
  Int as PlainInt,
  Text as PlainText,
  Read as PlainRead,
  Make as PlainMake,
  Assign as PlainAssign,
  Let as PlainLet,
  Field as PlainField,
  Neg as PlainNeg,
  Seq as PlainSeq,
  Call as PlainCall,
  exp,
  no_exps,
};

use crate::tokens::Ident;
use crate::trees::{Dec, Decs, Exp, Exps, Init, Inits, Kind, Var};
use std::alloc::Global;
use tg_base::{Bytes, Memory, Span};

/// An int, at most 2147483647 in a text.
pub fn int(span: Span, value: u32) -> Exp
    ensures { plain result ≡ PlainInt span value }
{
    Exp {
        span,
        kind: Kind::Int(value),
    }
}

/// An expression after a minus sign.
pub fn negate(alloc: Global, span: Span, a: Exp) -> Result<Exp, Memory>
    ensures { IfOk result (λ e. plain e ≡ PlainNeg span (plain a)) }
{
    let a = Box::new(alloc, a)?;
    Ok(Exp {
        span,
        kind: Kind::Neg(a),
    })
}

/// A sequence in parentheses.
pub fn sequence(span: Span, items: Vec<Exp>) -> Exp
    ensures { plain result ≡ PlainSeq span (exps_of items.items) }
{
    Exp {
        span,
        kind: Kind::Seq(Exps { items }),
    }
}

/// A call of a function by its name.
pub fn call(span: Span, function: Ident, arguments: Vec<Exp>) -> Exp
    ensures { plain result ≡ PlainCall span function (exps_of arguments.items) }
{
    Exp {
        span,
        kind: Kind::Call(function, Exps { items: arguments }),
    }
}

/// An expression in parentheses.
pub fn sequence_of_one(alloc: Global, span: Span, item: Exp) -> Result<Exp, Memory>
    ensures { IfOk result (λ e. plain e ≡ PlainSeq span (exp (plain item) no_exps)) }
{
    let mut items = Vec::new(alloc);
    items.push(item)?;
    Ok(sequence(span, items))
}

/// A call with one argument.
pub fn call_of_one(alloc: Global, span: Span, function: Ident, argument: Exp) -> Result<Exp, Memory>
    ensures { IfOk result (λ e. plain e ≡ PlainCall span function (exp (plain argument) no_exps)) }
{
    let mut arguments = Vec::new(alloc);
    arguments.push(argument)?;
    Ok(call(span, function, arguments))
}

/// `nil`.
pub fn nil(span: Span) -> Exp
    ensures { plain result ≡ PlainNil span }
{
    Exp {
        span,
        kind: Kind::Nil,
    }
}

/// `break`.
pub fn break_out(span: Span) -> Exp
    ensures { plain result ≡ PlainBreak span }
{
    Exp {
        span,
        kind: Kind::Break,
    }
}

/// A string.
pub fn text(span: Span, bytes: Bytes) -> Exp
    ensures { plain result ≡ PlainText span bytes }
{
    Exp {
        span,
        kind: Kind::Text(bytes),
    }
}

/// What an l-value holds.
pub fn read(span: Span, place: Var) -> Exp
    ensures { plain result ≡ PlainRead span (plain_lvalue place) }
{
    Exp {
        span,
        kind: Kind::Read(place),
    }
}

/// A record that is made.
pub fn make(span: Span, name: Ident, inits: Vec<Init>) -> Exp
    ensures { plain result ≡ PlainMake span name (inits_of inits.items) }
{
    Exp {
        span,
        kind: Kind::Make(name, Inits { items: inits }),
    }
}

/// An assignment.
pub fn assign(alloc: Global, span: Span, place: Var, value: Exp) -> Result<Exp, Memory>
    ensures { IfOk result (λ e. plain e ≡ PlainAssign span (plain_lvalue place) (plain value)) }
{
    let value = Box::new(alloc, value)?;
    Ok(Exp {
        span,
        kind: Kind::Assign(place, value),
    })
}

/// Declarations and the expressions that see them.
pub fn let_in(span: Span, decs: Vec<Dec>, body: Vec<Exp>) -> Exp
    ensures { plain result ≡ PlainLet span (decs_of decs.items) (exps_of body.items) }
{
    Exp {
        span,
        kind: Kind::Let(Decs { items: decs }, Exps { items: body }),
    }
}

/// A field of a record.
pub fn field(alloc: Global, of: Var, name: Ident) -> Result<Var, Memory>
    ensures { IfOk result (λ v. plain_lvalue v ≡ PlainField (plain_lvalue of) name) }
{
    let of = Box::new(alloc, of)?;
    Ok(Var::Field(of, name))
}
