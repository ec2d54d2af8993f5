// An assignment whose value begins with a read of the place that it assigns finds that place
// once, as in `a[i] := a[i] + x` (`tg_translate/specs/mirror/Updates.antt`). What the address is
// made of is kept, and the read has no check of its own.

ghost use Rattle.std.specs.Prelude.{◌≡◌};
ghost use Rattle.tg_syntax.specs.glue.Plain.{plain, plain_lvalue as plain_var};
ghost use Rattle.tg_translate.specs.mirror.Scopes.{findings_of};
ghost use Rattle.tg_translate.specs.mirror.Updates as updates;

use crate::findings::Findings;
use crate::places::field_number;
use tg_syntax::{Exp, Kind, Op, Var};
use tg_typecheck::Means;

fn is_same_variable(one: Option<Means>, other: Option<Means>) -> bool
    ensures { result ≡ updates.is_same_variable one other }
{
    match (one, other) {
        (Some(Means::Variable(i)), Some(Means::Variable(j))) => i == j,
        _ => false,
    }
}

/// Whether two l-values are the same place, where nothing happens in between.
#[cycle(updates)]
fn is_same_place(findings: &Findings, one: &Var, other: &Var) -> bool
    ensures { result ≡ updates.is_same_place (findings_of findings.now).meaning
        (plain_var one.now) (plain_var other.now) }
{
    match one {
        Var::Simple(x) => match other {
            Var::Simple(y) => {
                is_same_variable(findings.meaning(x.span.from), findings.meaning(y.span.from))
            }
            _ => false,
        },
        Var::Field(v, f) => match other {
            Var::Field(w, g) => {
                let number = field_number(findings.meaning(f.span.from));
                number == field_number(findings.meaning(g.span.from))
                    && is_same_place(findings, v, w)
            }
            _ => false,
        },
        Var::Index(v, e) => match other {
            Var::Index(w, f) => is_same_place(findings, v, w) && is_same_index(findings, e, f),
            _ => false,
        },
    }
}

/// Whether two indices are the same number: ints, places, sums and differences of them alone.
#[cycle(updates)]
fn is_same_index(findings: &Findings, one: &Exp, other: &Exp) -> bool
    ensures { result ≡ updates.is_same_index (findings_of findings.now).meaning
        (plain one.now) (plain other.now) }
{
    match &one.kind {
        Kind::Int(number) => match &other.kind {
            Kind::Int(n) => *number == *n,
            _ => false,
        },
        Kind::Read(v) => match &other.kind {
            Kind::Read(w) => is_same_place(findings, v, w),
            _ => false,
        },
        Kind::Binary(op, _, a, b) => match &other.kind {
            Kind::Binary(o, _, c, d) => {
                is_sum_or_difference(*op, *o)
                    && (is_same_index(findings, a, c) && is_same_index(findings, b, d))
            }
            _ => false,
        },
        _ => false,
    }
}

fn is_sum_or_difference(one: Op, other: Op) -> bool
    ensures { result ≡ updates.is_sum_or_difference one other }
{
    match one {
        Op::Plus => matches!(other, Op::Plus),
        Op::Minus => matches!(other, Op::Minus),
        _ => false,
    }
}

/// Whether an expression begins with a read of a place.
pub(crate) fn begins_with(findings: &Findings, e: &Exp, place: &Var) -> bool
    ensures { result ≡ updates.begins_with (findings_of findings.now).meaning (plain e.now)
        (plain_var place.now) }
{
    match &e.kind {
        Kind::Read(read) => is_same_place(findings, place, read),
        Kind::Binary(_, _, a, _) => begins_with(findings, a, place),
        _ => false,
    }
}
