ghost use Rattle.std.specs.Prelude.{◌≡◌, [], ◌∷◌, IfOk, OnOk};
ghost use Rattle.tg_syntax.specs.Groups.{snoc_dec, one_type, one_variable, one_function};
ghost use Rattle.tg_syntax.specs.glue.Lists.{decs_of};
ghost use Rattle.tg_syntax.specs.glue.Plain.{plain, plain_type};

use std::alloc::Global;
use tg_base::{ListOf, Memory};
use tg_syntax::{Dec, Exp, FunDec, FunDecs, Ident, TypeDec};

/// A type after other declarations: in the last group, where that is one of types.
pub(crate) fn push_type(alloc: Global, decs: &mut Vec<Dec>, dec: TypeDec) -> Result<(), Memory>
    ensures { OnOk result (decs_of decs.new.items
        ≡ snoc_dec (decs_of decs.old.items) (one_type (plain_type dec))) }
{
    let Some(last) = decs.pop() else {
        decs.push(type_alone(alloc, dec)?)?;
        return Ok(());
    };
    match last {
        Dec::Types(types) => {
            let mut group = types.into_vec();
            group.push(dec)?;
            decs.push(Dec::Types(ListOf::from_vec(group)))?;
        }
        other => {
            decs.push(other)?;
            decs.push(type_alone(alloc, dec)?)?;
        }
    }
    Ok(())
}

/// A list of one. Its type is open, so that what it holds is let go by a call where a list can't be
/// had.
pub(crate) fn list_of_one<T: Drop>(alloc: Global, one: T) -> Result<Vec<T>, Memory>
    ensures { IfOk result (λ list. list.items ≡ one ∷ []) }
{
    let mut list = Vec::with_capacity(alloc, 1)?;
    list.push(one)?;
    Ok(list)
}

fn type_alone(alloc: Global, dec: TypeDec) -> Result<Dec, Memory>
    ensures { IfOk result (λ d. decs_of (d ∷ [])
        ≡ snoc_dec (decs_of []) (one_type (plain_type dec))) }
{
    let group = list_of_one(alloc, dec)?;
    Ok(Dec::Types(ListOf::from_vec(group)))
}

/// A variable after other declarations.
pub(crate) fn push_variable(
    decs: &mut Vec<Dec>,
    name: Ident,
    kind: Option<Ident>,
    value: Exp,
) -> Result<(), Memory>
    ensures { OnOk result (decs_of decs.new.items
        ≡ snoc_dec (decs_of decs.old.items) (one_variable name kind (plain value))) }
{
    decs.push(Dec::Variable(name, kind, value))?;
    Ok(())
}

/// A function after other declarations: in the last group, where that is one of functions.
pub(crate) fn push_function(alloc: Global, decs: &mut Vec<Dec>, dec: FunDec) -> Result<(), Memory>
    ensures { OnOk result (decs_of decs.new.items
        ≡ snoc_dec (decs_of decs.old.items)
        (one_function dec.name dec.params dec.result (plain dec.body))) }
{
    let Some(last) = decs.pop() else {
        decs.push(function_alone(alloc, dec)?)?;
        return Ok(());
    };
    match last {
        Dec::Functions(functions) => {
            let mut group = functions.items;
            group.push(dec)?;
            decs.push(Dec::Functions(FunDecs { items: group }))?;
        }
        other => {
            decs.push(other)?;
            decs.push(function_alone(alloc, dec)?)?;
        }
    }
    Ok(())
}

fn function_alone(alloc: Global, dec: FunDec) -> Result<Dec, Memory>
    ensures { IfOk result (λ d. decs_of (d ∷ [])
        ≡ snoc_dec (decs_of []) (one_function dec.name dec.params dec.result (plain dec.body))) }
{
    let items = list_of_one(alloc, dec)?;
    Ok(Dec::Functions(FunDecs { items }))
}
