ghost use Rattle.std.specs.Prelude.{◌≡◌, ℕ, [], ◌∷◌, List, length, map, Bool, not, All};
ghost use Rattle.std.specs.Prelude.{OnOk, IfOk};
ghost use Rattle.tg_syntax.specs.declared.tokens.Ident.{Ident as PlainIdent};
ghost use Rattle.tg_syntax.specs.glue.Plain.{plain_type, plain_form};
ghost use Rattle.tg_syntax.specs.Tree.{TypeDec as PlainTypeDec};
ghost use Rattle.tg_syntax.specs.NamesWithin.{TypesWithin, FormWithin, ParamsWithin, NameIsWithin};
ghost use Rattle.tg_typecheck.specs.declared.faults.TypeRule.TheVariants.{T16};
ghost use Rattle.tg_typecheck.specs.Checks.{Noted, keep, add_shape};
ghost use Rattle.tg_typecheck.specs.Scopes.{Scope};
ghost use Rattle.tg_typecheck.specs.Groups as groups;
ghost use Rattle.tg_typecheck.specs.glue.Declaring.{HasNames, HasPlaces, AreDifferent, chain_from};
ghost use Rattle.tg_typecheck.specs.glue.Declaring.{ChainWithin, named_types};
ghost use Rattle.tg_typecheck.specs.glue.States.{
  AnswersCheck,
  MovesOn,
  Keeps,
  Opens,
  scope_of,
  noted_of,
};

use crate::chains::{Chain, ends_of};
use crate::faults::{TypeFault, TypeRule};
use crate::kinds::Ty;
use crate::lookups::type_of;
use crate::rules::kept;
use crate::shapes::Shape;
use crate::states::CheckingState;
use std::alloc::Global;
use std::collections::{HashMap, HashSet};
use tg_base::{Memory, Names};
use tg_symbols::Table;
use tg_syntax::{Form, Ident, Param, TypeDec};

/// Consecutive types, whose names the rest of the scope sees.
#[inline(never)]
pub(crate) fn declare_types(
    names: &Names,
    state: &mut CheckingState,
    group: &[TypeDec],
) -> Result<(), TypeFault>
    requires { TypesWithin (length names.now) (map plain_type group.now) }
    ensures given { (in_loop : Bool) → MovesOn names.now state.old state.new in_loop result
        (λ _. scope_of names.now state.new in_loop)
        (groups.declare_types (map plain_type group.now)) }
    ensures opens { OnOk result (Opens state.old state.new) }
{
    let places = places_of(state.alloc, group)?;
    known_forms(names, state, &places, group)?;
    let ends = ends_of(state.alloc, &places, group)?;
    chains_end(&ends, group)?;
    let types = types_of(names, state, &ends, group)?;
    open_types(state, &types, group)?;
    add_forms(names, state, group)
}

// The places of the names of a group, which are all different.
fn places_of(alloc: Global, group: &[TypeDec]) -> Result<HashMap<u32, usize>, TypeFault>
    ensures given { (n : Noted) → AnswersCheck result (λ _. tt) n
        (groups.no_repeats T16 [] (groups.names_of (map plain_type group.now)) n) }
    ensures places { IfOk result (λ p. HasPlaces p (map plain_type group.now)) }
    ensures different { OnOk result (AreDifferent (map plain_type group.now)) }
{
    let mut places = HashMap::new(alloc);
    for (at, dec) in group.iter().enumerate() {
        let x = dec.name;
        if places.insert(x.name.0, at)?.is_some() {
            return Err(TypeFault::Bad {
                rule: TypeRule::T16,
                at: x.span.from,
            });
        }
    }
    Ok(places)
}

// A name of the group, or one that is known outside.
fn known(
    names: &Names,
    state: &CheckingState,
    places: &HashMap<u32, usize>,
    x: Ident,
) -> Result<(), TypeFault>
    requires { NameIsWithin (length names.now) x }
    ensures { (group : List PlainTypeDec) (scope : Scope) (in_loop : Bool) →
        HasPlaces places.now group →
        scope ≡ scope_of names.now state.now in_loop → (n : Noted) →
        AnswersCheck result (λ _. tt) n (groups.known_name group scope x n) }
{
    let is_known = places.contains_key(&x.name.0) || type_of(names, state, x).is_some();
    kept(TypeRule::T3, x.span.from, is_known)
}

fn known_forms(
    names: &Names,
    state: &CheckingState,
    places: &HashMap<u32, usize>,
    group: &[TypeDec],
) -> Result<(), TypeFault>
    requires { TypesWithin (length names.now) (map plain_type group.now) }
    ensures { (whole : List PlainTypeDec) (scope : Scope) (in_loop : Bool) →
        HasPlaces places.now whole →
        scope ≡ scope_of names.now state.now in_loop → (n : Noted) →
        AnswersCheck result (λ _. tt) n (groups.known_forms whole
        (map plain_type group.now) scope n) }
{
    for dec in group {
        known_form(names, state, places, &dec.form)?;
    }
    Ok(())
}

fn known_form(
    names: &Names,
    state: &CheckingState,
    places: &HashMap<u32, usize>,
    form: &Form,
) -> Result<(), TypeFault>
    requires { FormWithin (length names.now) (plain_form form.now) }
    ensures { (whole : List PlainTypeDec) (scope : Scope) (in_loop : Bool) →
        HasPlaces places.now whole →
        scope ≡ scope_of names.now state.now in_loop → (n : Noted) →
        AnswersCheck result (λ _. tt) n (groups.known_form whole scope (plain_form form.now) n) }
{
    match form {
        Form::Alias(x) => known(names, state, places, *x),
        Form::Fields(fields) => known_fields(names, state, places, fields.as_slice()),
        Form::Array(x) => known(names, state, places, *x),
    }
}

fn known_fields(
    names: &Names,
    state: &CheckingState,
    places: &HashMap<u32, usize>,
    fields: &[Param],
) -> Result<(), TypeFault>
    requires { ParamsWithin (length names.now) fields.now }
    ensures { (whole : List PlainTypeDec) (scope : Scope) (in_loop : Bool) →
        HasPlaces places.now whole →
        scope ≡ scope_of names.now state.now in_loop → (n : Noted) →
        AnswersCheck result (λ _. tt) n (groups.known_fields whole scope [] fields.now n) }
{
    let mut earlier = HashSet::new(state.alloc);
    for field in fields {
        fresh(&mut earlier, TypeRule::T18, field.name)?;
        known(names, state, places, field.kind)?;
    }
    Ok(())
}

/// A name that isn't among those before it.
pub(crate) fn fresh(earlier: &mut HashSet<u32>, rule: TypeRule, x: Ident) -> Result<(), TypeFault>
    ensures given { (seen : List PlainIdent) → HasNames earlier.old seen → (n : Noted) →
        AnswersCheck result (λ _. tt) n (keep rule x.span.from (not
        (groups.stands_in x.name.0 seen)) n) }
    ensures seen { (seen : List PlainIdent) → HasNames earlier.old seen →
        OnOk result (HasNames earlier.new (x ∷ seen)) }
{
    let is_new = earlier.insert(x.name.0)?;
    kept(rule, x.span.from, is_new)
}

fn chains_end(ends: &[Chain], group: &[TypeDec]) -> Result<(), TypeFault>
    requires as_many { length ends.now ≡ length group.now }
    requires within { (count : ℕ) × All (ChainWithin count (map plain_type group.now)) ends.now }
    ensures { let whole = map plain_type group.now in
        map (chain_from whole) ends.now ≡ map (λ d. groups.chain_of whole d.name) whole →
        (n : Noted) → AnswersCheck result (λ _. tt) n (groups.chains_end whole whole n) }
{
    let mut at = 0;
    for dec in group {
        kept(TypeRule::T19, dec.name.span.from, has_end(ends[at]))?;
        at += 1;
    }
    Ok(())
}

fn has_end(chain: Chain) -> bool
    ensures { (count : ℕ) (group : List PlainTypeDec) → ChainWithin count group chain →
        result ≡ groups.has_end (chain_from group chain) }
{
    match chain {
        Chain::Onward(_) => false,
        _ => true,
    }
}

// The types at the ends of the chains.
fn types_of(
    names: &Names,
    state: &CheckingState,
    ends: &[Chain],
    group: &[TypeDec],
) -> Result<Vec<Ty>, Memory>
    requires { All (ChainWithin (length names.now) (map plain_type group.now)) ends.now }
    ensures { (scope : Scope) (in_loop : Bool) → scope ≡ scope_of names.now state.now in_loop →
        IfOk result (λ ts. ts.items
        ≡ map (λ e. groups.type_at_end (chain_from (map plain_type group.now) e) scope) ends.now) }
{
    let mut types = Vec::new(state.alloc);
    for end in ends {
        types.push(type_at_end(names, state, *end, group))?;
    }
    Ok(types)
}

fn type_at_end(names: &Names, state: &CheckingState, end: Chain, group: &[TypeDec]) -> Ty
    requires { ChainWithin (length names.now) (map plain_type group.now) end }
    ensures { (scope : Scope) (in_loop : Bool) → scope ≡ scope_of names.now state.now in_loop →
        result ≡ groups.type_at_end (chain_from (map plain_type group.now) end) scope }
{
    match end {
        Chain::Outside(x) => type_of(names, state, x).unwrap_or(Ty::nothing()),
        Chain::EndsAt(at) => declared(&group[at]),
        Chain::Onward(_) => Ty::nothing(),
    }
}

fn declared(dec: &TypeDec) -> Ty
    ensures { result ≡ groups.type_declared (plain_type dec.now) }
{
    match &dec.form {
        Form::Alias(_) => Ty::nothing(),
        Form::Fields(_) => Ty::record_at(dec.name.span.from),
        Form::Array(_) => Ty::array_at(dec.name.span.from),
    }
}

fn open_types(state: &mut CheckingState, types: &[Ty], group: &[TypeDec]) -> Result<(), Memory>
    requires { length types.now ≡ length group.now }
    ensures types { OnOk result
        (state.new.types ≡ named_types group.now types.now state.old.types) }
    ensures bindings { state.new.bindings ≡ state.old.bindings }
    ensures noted { noted_of state.new ≡ noted_of state.old }
{
    let mut at = 0;
    for dec in group {
        state.types.push(dec.name.name.0, types[at])?;
        at += 1;
    }
    Ok(())
}

fn add_forms(names: &Names, state: &mut CheckingState, group: &[TypeDec]) -> Result<(), TypeFault>
    requires { TypesWithin (length names.now) (map plain_type group.now) }
    ensures given { (in_loop : Bool) →
        MovesOn names.now state.old state.new in_loop result (λ _. tt)
        (λ scope. groups.add_forms scope (map plain_type group.now)) }
    ensures kept { OnOk result (Keeps state.old state.new) }
{
    for dec in group {
        add_form(names, state, dec)?;
    }
    Ok(())
}

fn add_form(names: &Names, state: &mut CheckingState, dec: &TypeDec) -> Result<(), TypeFault>
    requires { FormWithin (length names.now) (plain_form dec.now.form) }
    ensures given { (in_loop : Bool) →
        MovesOn names.now state.old state.new in_loop result (λ _. tt)
        (λ scope. groups.add_form scope dec.now.name.span.from (plain_form dec.now.form)) }
    ensures kept { OnOk result (Keeps state.old state.new) }
{
    match &dec.form {
        Form::Alias(_) => Ok(()),
        Form::Fields(fields) => {
            let fields = fields_of(names, state, fields.as_slice())?;
            add_shape(state, dec.name.span.from, Shape::record_of(fields))
        }
        Form::Array(x) => {
            let element = known_type(names, state, *x);
            add_shape(state, dec.name.span.from, Shape::array_of(element))
        }
    }
}

fn add_shape(state: &mut CheckingState, at: u32, shape: Shape) -> Result<(), TypeFault>
    ensures given { AnswersCheck result (λ _. tt) (noted_of state.new)
        (add_shape at shape (noted_of state.old)) }
    ensures kept { OnOk result (Keeps state.old state.new) }
{
    state.shapes.push(at, shape)?;
    Ok(())
}

fn fields_of(names: &Names, state: &CheckingState, fields: &[Param]) -> Result<Table<Ty>, Memory>
    requires { ParamsWithin (length names.now) fields.now }
    ensures { (scope : Scope) (in_loop : Bool) → scope ≡ scope_of names.now state.now in_loop →
        IfOk result (λ t. t
        ≡ map (λ p. (p.name.name.0, groups.known_type scope p.kind)) fields.now) }
{
    let mut table = Table::new(state.alloc);
    let mut at = fields.len();
    while at > 0 {
        at -= 1;
        let field = fields[at];
        table.push(field.name.name.0, known_type(names, state, field.kind))?;
    }
    Ok(table)
}

fn known_type(names: &Names, state: &CheckingState, x: Ident) -> Ty
    requires { NameIsWithin (length names.now) x }
    ensures { (scope : Scope) (in_loop : Bool) → scope ≡ scope_of names.now state.now in_loop →
        result ≡ groups.known_type scope x }
{
    type_of(names, state, x).unwrap_or(Ty::nothing())
}
