ghost use Rattle.std.specs.Prelude.{◌≡◌, [], length, List, ℕ, Bool, IfOk, OnOk};
ghost use Rattle.tg_syntax.specs.glue.Plain.{plain_functions};
ghost use Rattle.tg_typecheck.specs.declared.faults.TypeRule.TheVariants.{T17};
ghost use Rattle.tg_typecheck.specs.Checks.{Noted};
ghost use Rattle.tg_typecheck.specs.Scopes.{Scope};
ghost use Rattle.tg_typecheck.specs.Groups as groups;
ghost use Rattle.tg_typecheck.specs.glue.Selections.{function_count, header_of};
ghost use Rattle.tg_syntax.specs.NamesWithin.{FunctionsWithin, ParamsWithin, KindWithin};
ghost use Rattle.tg_typecheck.specs.glue.States.{AnswersCheck, Judges, Opens, scope_of, noted_of};

use crate::bindings::{Binding, Signature};
use crate::faults::{TypeFault, TypeRule};
use crate::groups::fresh;
use crate::kinds::Ty;
use crate::lookups::type_named;
use crate::states::CheckingState;
use std::collections::HashSet;
use tg_base::{Memory, Names};
use tg_syntax::{FunDec, FunDecs, Ident, Param};

/// The functions of a group have different names.
#[inline(never)]
pub(crate) fn all_fresh(state: &CheckingState, functions: &FunDecs) -> Result<(), TypeFault>
    ensures { (n : Noted) → AnswersCheck result (λ _. tt) n
        (groups.no_repeats T17 [] (groups.function_names (plain_functions functions.now)) n) }
{
    let mut earlier = HashSet::new(state.alloc);
    for function in &functions.items {
        fresh(&mut earlier, TypeRule::T17, function.name)?;
    }
    Ok(())
}

/// The signatures of a group of functions.
#[inline(never)]
pub(crate) fn headers(
    names: &Names,
    state: &CheckingState,
    functions: &FunDecs,
) -> Result<Vec<Signature>, TypeFault>
    requires { FunctionsWithin (length names.now) (plain_functions functions.now) }
    ensures given { Judges names.now state.now result (λ v. v.items)
        (groups.headers (plain_functions functions.now)) }
    ensures as_many { IfOk result (λ v.
        function_count (plain_functions functions.now) ≡ length v.items) }
{
    let mut signatures = Vec::new(state.alloc);
    for function in &functions.items {
        signatures.push(header(names, state, function)?)?;
    }
    Ok(signatures)
}

fn header(names: &Names, state: &CheckingState, function: &FunDec) -> Result<Signature, TypeFault>
    requires params { ParamsWithin (length names.now) function.now.params }
    requires kind { KindWithin (length names.now) function.now.result }
    ensures { Judges names.now state.now result (λ s. s)
        (header_of function.now.params function.now.result) }
{
    let params = param_types(names, state, function.params.as_slice())?;
    let outcome = result_type(names, state, function.result)?;
    Ok(Signature::new(params, outcome))
}

fn result_type(names: &Names, state: &CheckingState, kind: Option<Ident>) -> Result<Ty, TypeFault>
    requires { KindWithin (length names.now) kind }
    ensures { Judges names.now state.now result (λ t. t) (λ scope. groups.result_type scope kind) }
{
    match kind {
        Some(kind) => type_named(names, state, kind),
        None => Ok(Ty::nothing()),
    }
}

fn param_types(names: &Names, state: &CheckingState, params: &[Param]) -> Result<Vec<Ty>, TypeFault>
    requires { ParamsWithin (length names.now) params.now }
    ensures given { Judges names.now state.now result (λ v. v.items)
        (λ scope. groups.param_types scope [] params.now) }
{
    let mut earlier = HashSet::new(state.alloc);
    let mut types = Vec::new(state.alloc);
    for param in params {
        fresh(&mut earlier, TypeRule::T18, param.name)?;
        types.push(type_named(names, state, param.kind)?)?;
    }
    Ok(types)
}

/// Opens the functions of a group.
#[inline(never)]
pub(crate) fn open_functions(
    state: &mut CheckingState,
    functions: &FunDecs,
    signatures: &[Signature],
) -> Result<(), Memory>
    requires { function_count (plain_functions functions.now) ≡ length signatures.now }
    ensures given { (names : List (List ℕ)) (in_loop : Bool) (scope : Scope) →
        scope ≡ scope_of names state.old in_loop →
        OnOk result (groups.with_functions (plain_functions functions.now) signatures.now scope
        ≡ scope_of names state.new in_loop) }
    ensures opens { OnOk result (Opens state.old state.new) }
    ensures noted { noted_of state.new ≡ noted_of state.old }
    ensures types { state.new.types ≡ state.old.types }
{
    let mut at = 0;
    for function in &functions.items {
        let binding = Binding::function(function.name.span.from, signatures[at].copy()?);
        state.bindings.push(function.name.name.0, binding)?;
        at += 1;
    }
    Ok(())
}

/// Opens the parameters of a function.
pub(crate) fn open_params(
    state: &mut CheckingState,
    params: &[Param],
    types: &[Ty],
) -> Result<(), Memory>
    ensures given { (names : List (List ℕ)) (in_loop : Bool) (scope : Scope) →
        scope ≡ scope_of names state.old in_loop →
        OnOk result (groups.with_params params.now types.now scope
        ≡ scope_of names state.new in_loop) }
    ensures opens { OnOk result (Opens state.old state.new) }
    ensures noted { noted_of state.new ≡ noted_of state.old }
    ensures types { state.new.types ≡ state.old.types }
{
    let mut at = 0;
    for param in params {
        if at >= types.len() {
            return Ok(());
        }
        let binding = Binding::variable(param.name.span.from, types[at], false);
        state.bindings.push(param.name.name.0, binding)?;
        at += 1;
    }
    Ok(())
}
