ghost use Rattle.std.specs.Prelude.{◌≡◌, IfOk};
ghost use Rattle.tg_explain_types.specs.Telling as telling;

use crate::details::TypeDetail;
use std::alloc::Global;
use tg_base::{ListOf, Memory};
use tg_explain_typing::{
    Breach, Fact, Judgement, Ty, field_names, first_broken, first_declared, first_difference,
    function_around, given_names, judged_record, loop_around,
};
use tg_syntax::Ident;
use tg_typecheck::TypeRule;

/// What the fault of a rule at a byte is about, by the facts of its program.
pub(crate) fn tell(
    alloc: Global,
    facts: &[Fact],
    rule: TypeRule,
    at: u32,
) -> Result<TypeDetail, Memory>
    ensures { IfOk result (λ d. d ≡ telling.told facts.now rule at) }
{
    match rule {
        TypeRule::T6 => Ok(judged(first_broken(facts, Breach::Mismatch))),
        TypeRule::T7 => Ok(judged(first_broken(facts, Breach::NoRecord))),
        TypeRule::T8 => fields(alloc, facts, judged_record(facts)),
        TypeRule::T9 => Ok(judged(first_broken(facts, Breach::NoArray))),
        TypeRule::T11 => differs(alloc, facts, at, judged_record(facts)),
        TypeRule::T12 => Ok(judged(first_broken(facts, Breach::NoValue))),
        TypeRule::T13 => Ok(judged(first_broken(facts, Breach::BareNil))),
        TypeRule::T14 => Ok(TypeDetail::Outside(
            function_around(facts, at),
            loop_around(facts, at),
        )),
        TypeRule::T16 | TypeRule::T17 | TypeRule::T18 => Ok(before(first_declared(facts, at))),
        _ => Ok(TypeDetail::Nothing),
    }
}

fn judged(judgement: Option<Judgement>) -> TypeDetail
    ensures { result ≡ telling.judged judgement }
{
    match judgement {
        None => TypeDetail::Nothing,
        Some(judgement) => TypeDetail::Judged(judgement),
    }
}

fn before(ident: Option<Ident>) -> TypeDetail
    ensures { result ≡ telling.before ident }
{
    match ident {
        None => TypeDetail::Nothing,
        Some(ident) => TypeDetail::Before(ident),
    }
}

/// The fields of a record's type.
fn fields(alloc: Global, facts: &[Fact], of: Option<Ty>) -> Result<TypeDetail, Memory>
    ensures { IfOk result (λ d. d ≡ telling.fields facts.now of) }
{
    match of {
        Some(Ty::Record(owner)) => {
            let names = field_names(alloc, facts, owner)?;
            Ok(TypeDetail::Fields(owner, ListOf::from_vec(names)))
        }
        _ => Ok(TypeDetail::Nothing),
    }
}

/// The first field that is given otherwise than a record's type wants it.
fn differs(alloc: Global, facts: &[Fact], at: u32, of: Option<Ty>) -> Result<TypeDetail, Memory>
    ensures { IfOk result (λ d. d ≡ telling.differs facts.now at of) }
{
    match of {
        Some(Ty::Record(owner)) => {
            let wanted = field_names(alloc, facts, owner)?;
            let given = given_names(alloc, facts, at)?;
            Ok(TypeDetail::Differs(first_difference(&wanted, &given)))
        }
        _ => Ok(TypeDetail::Nothing),
    }
}
