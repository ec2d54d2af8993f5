ghost use Rattle.std.specs.Prelude.{◌≡◌, ◌<◌, ◌++◌, length, Bool};
ghost use Rattle.tg_base.specs.declared.faulty.Faulty.TheVariants.{Bad};
ghost use Rattle.tg_symbols.specs.Tables.{looked_up};
ghost use Rattle.tg_typecheck.specs.Scopes.{Scope, bound, standard_types};
ghost use Rattle.tg_typecheck.specs.Groups as groups;
ghost use Rattle.tg_typecheck.specs.Typing as typing;
ghost use Rattle.tg_typecheck.specs.glue.States.{MovesOn, Judges, Keeps, scope_of};

use crate::bindings::Signature;
use crate::faults::{TypeFault, TypeRule};
use crate::kinds::Ty;
use crate::notes::Means;
use crate::standards::{signature_of, standard_of, standard_type};
use crate::states::CheckingState;
use tg_base::Names;
use tg_syntax::Ident;

/// The type that a name has at a place of the text.
pub(crate) fn type_of(names: &Names, state: &CheckingState, x: Ident) -> Option<Ty>
    requires { x.name.0 < length names.now }
    ensures { result ≡ looked_up x.name.0 (state.now.types ++ standard_types 0 names.now) }
{
    match state.types.get(x.name.0) {
        Some(ty) => Some(*ty),
        None => standard_type(names.text(x.name)),
    }
}

/// A type's name.
pub(crate) fn type_named(names: &Names, state: &CheckingState, x: Ident) -> Result<Ty, TypeFault>
    requires { x.name.0 < length names.now }
    ensures { Judges names.now state.now result (λ t. t) (groups.type_named x) }
{
    match type_of(names, state, x) {
        Some(ty) => Ok(ty),
        None => Err(bad(TypeRule::T3, x)),
    }
}

/// A variable that is used.
#[inline(never)]
pub(crate) fn variable(names: &Names, state: &mut CheckingState, x: Ident) -> Result<Ty, TypeFault>
    requires { x.name.0 < length names.now }
    ensures given { (in_loop : Bool) → MovesOn names.now state.old state.new in_loop result (λ t. t)
        (λ scope. typing.variable_of x (bound x scope)) }
    ensures kept { Keeps state.old state.new }
{
    match state.bindings.get(x.name.0) {
        Some(binding) => match binding.as_variable() {
            Some(found) => {
                state.note(x.span.from, Means::Variable(found.0))?;
                Ok(found.1)
            }
            None => Err(bad(TypeRule::T4, x)),
        },
        None => match standard_of(names.text(x.name)) {
            Some(_) => Err(bad(TypeRule::T4, x)),
            None => Err(bad(TypeRule::T1, x)),
        },
    }
}

/// A function that is called.
#[inline(never)]
pub(crate) fn function(
    names: &Names,
    state: &mut CheckingState,
    f: Ident,
) -> Result<Signature, TypeFault>
    requires { f.name.0 < length names.now }
    ensures given { (in_loop : Bool) → MovesOn names.now state.old state.new in_loop result (λ s. s)
        (λ scope. typing.function_of f (bound f scope)) }
    ensures kept { Keeps state.old state.new }
{
    match state.bindings.get(f.name.0) {
        Some(binding) => match binding.as_function() {
            Some((at, signature)) => {
                let signature = signature.copy()?;
                state.note(f.span.from, Means::Function(at))?;
                Ok(signature)
            }
            None => Err(bad(TypeRule::T5, f)),
        },
        None => match standard_of(names.text(f.name)) {
            Some(standard) => {
                state.note(f.span.from, Means::Standard(standard))?;
                Ok(signature_of(state.alloc, standard)?)
            }
            None => Err(bad(TypeRule::T2, f)),
        },
    }
}

/// Whether a name is a loop's variable.
pub(crate) fn is_loop_variable(names: &Names, state: &CheckingState, x: Ident) -> bool
    requires { x.name.0 < length names.now }
    ensures { (scope : Scope) (in_loop : Bool) → scope ≡ scope_of names.now state.now in_loop →
        result ≡ typing.is_loop_variable (bound x scope) }
{
    match state.bindings.get(x.name.0) {
        Some(binding) => binding.is_loop_variable(),
        None => false,
    }
}

fn bad(rule: TypeRule, x: Ident) -> TypeFault
    ensures { result ≡ Bad rule x.span.from }
{
    TypeFault::Bad {
        rule,
        at: x.span.from,
    }
}
