ghost use Rattle.tg_typecheck.specs.Checks.{Noted, keep};
ghost use Rattle.tg_typecheck.specs.Typing as typing;
ghost use Rattle.tg_typecheck.specs.glue.States.{AnswersCheck};

use crate::faults::{TypeFault, TypeRule};
use crate::kinds::Ty;
use tg_syntax::Ident;

/// A fault of a rule at a byte, where the rule isn't kept.
pub(crate) fn kept(rule: TypeRule, at: u32, is_kept: bool) -> Result<(), TypeFault>
    ensures { (n : Noted) → AnswersCheck result (λ _. tt) n (keep rule at is_kept n) }
{
    if is_kept {
        Ok(())
    } else {
        Err(TypeFault::Bad { rule, at })
    }
}

/// A value is needed.
pub(crate) fn value_needed(ty: Ty, at: u32) -> Result<(), TypeFault>
    ensures { (n : Noted) → AnswersCheck result (λ _. tt) n (typing.needs_value ty at n) }
{
    kept(TypeRule::T12, at, !ty.same(Ty::nothing()))
}

/// A value of a type that fits is needed.
pub(crate) fn expected(wanted: Ty, got: Ty, at: u32) -> Result<(), TypeFault>
    ensures { (n : Noted) → AnswersCheck result (λ _. tt) n (typing.expect wanted got at n) }
{
    value_needed(got, at)?;
    kept(TypeRule::T6, at, got.fits(wanted))
}

/// No value may stand here.
pub(crate) fn nothing_expected(got: Ty, at: u32) -> Result<(), TypeFault>
    ensures { (n : Noted) → AnswersCheck result (λ _. tt) n (typing.expect_none got at n) }
{
    kept(TypeRule::T6, at, got.same(Ty::nothing()))
}

/// The type of a variable that is declared without one.
pub(crate) fn own_type(ty: Ty, at: u32) -> Result<Ty, TypeFault>
    ensures { (n : Noted) → AnswersCheck result (λ t. t) n (typing.own_type ty at n) }
{
    value_needed(ty, at)?;
    kept(TypeRule::T13, at, !ty.same(Ty::nil()))?;
    Ok(ty)
}

/// A function's body has the type that its declaration names, or no value.
pub(crate) fn body_fits(kind: Option<Ident>, outcome: Ty, got: Ty, at: u32) -> Result<(), TypeFault>
    ensures { (n : Noted) → AnswersCheck result (λ _. tt) n
        (typing.body_fits kind outcome got at n) }
{
    match kind {
        Some(_) => expected(outcome, got, at),
        None => nothing_expected(got, at),
    }
}
