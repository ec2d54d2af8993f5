ghost use Rattle.std.specs.Prelude.{◌≡◌, IfOk, length};
ghost use Rattle.tg_syntax.specs.glue.Plain.{plain_inits};
ghost use Rattle.tg_typecheck.specs.Typing as typing;
ghost use Rattle.tg_typecheck.specs.glue.Selections.{init_count, selected_of, placed_of, made_fields};
ghost use Rattle.tg_typecheck.specs.glue.States.{AnswersCheck, Keeps, noted_of};

use crate::faults::{TypeFault, TypeRule};
use crate::kinds::Ty;
use crate::notes::Means;
use crate::rules::kept;
use crate::states::CheckingState;
use tg_symbols::Table;
use tg_syntax::{Ident, Inits};

/// The fields of a type, which is that of the part at a byte.
fn fields_of(state: &CheckingState, ty: Ty, at: u32) -> Result<&Table<Ty>, TypeFault>
    ensures { AnswersCheck result (λ t. t.now) (noted_of state.now)
        (typing.fields_of ty at (noted_of state.now)) }
{
    let fault = TypeFault::Bad {
        rule: TypeRule::T7,
        at,
    };
    let Some(byte) = ty.record_byte() else {
        return Err(fault);
    };
    let Some(shape) = state.shapes.get(byte) else {
        return Err(fault);
    };
    match shape.fields() {
        Some(fields) => Ok(fields),
        None => Err(fault),
    }
}

/// The type of the elements of a type, which is that of the part at a byte.
pub(crate) fn element_of(state: &CheckingState, ty: Ty, at: u32) -> Result<Ty, TypeFault>
    ensures { AnswersCheck result (λ t. t) (noted_of state.now)
        (typing.element_of ty at (noted_of state.now)) }
{
    let fault = TypeFault::Bad {
        rule: TypeRule::T9,
        at,
    };
    let Some(byte) = ty.array_byte() else {
        return Err(fault);
    };
    let Some(shape) = state.shapes.get(byte) else {
        return Err(fault);
    };
    match shape.element() {
        Some(element) => Ok(element),
        None => Err(fault),
    }
}

/// A field of what has a type and begins at a byte.
pub(crate) fn selected(
    state: &mut CheckingState,
    ty: Ty,
    at: u32,
    field: Ident,
) -> Result<Ty, TypeFault>
    ensures given { AnswersCheck result (λ t. t) (noted_of state.new)
        (selected_of ty at field (noted_of state.old)) }
    ensures kept { Keeps state.old state.new }
{
    let (place, kind) = placed(state, ty, at, field)?;
    state.note(field.span.from, Means::Field(place))?;
    Ok(kind)
}

// The place and the type of a field.
fn placed(state: &CheckingState, ty: Ty, at: u32, field: Ident) -> Result<(u32, Ty), TypeFault>
    ensures { AnswersCheck result (λ p. p) (noted_of state.now)
        (placed_of ty at field (noted_of state.now)) }
{
    let fields = fields_of(state, ty, at)?;
    let fault = TypeFault::Bad {
        rule: TypeRule::T8,
        at: field.span.from,
    };
    let Some(place) = fields.find(field.name.0) else {
        return Err(fault);
    };
    match fields.get(field.name.0) {
        Some(kind) => Ok((place, *kind)),
        None => Err(fault),
    }
}

/// The fields of a record type, where these are they.
pub(crate) fn made(
    state: &CheckingState,
    ty: Ty,
    at: u32,
    inits: &Inits,
) -> Result<Vec<(u32, Ty)>, TypeFault>
    ensures given { AnswersCheck result (λ fs. fs.items) (noted_of state.now)
        (made_fields ty at (plain_inits inits.now) (noted_of state.now)) }
    ensures as_many { IfOk result (λ fs. length fs.items ≡ init_count (plain_inits inits.now)) }
{
    let fields = fields_of(state, ty, at)?.to_vec(state.alloc)?;
    kept(TypeRule::T11, at, are_fields(inits, &fields))?;
    Ok(fields)
}

// Whether these are the fields, in their order.
fn are_fields(inits: &Inits, fields: &[(u32, Ty)]) -> bool
    ensures value { result ≡ typing.are_fields (plain_inits inits.now) fields.now }
{
    if inits.items.as_slice().len() != fields.len() {
        return false;
    }
    let mut at = 0;
    for init in &inits.items {
        let (name, _) = fields[at];
        if init.field.name.0 != name {
            return false;
        }
        at += 1;
    }
    true
}
