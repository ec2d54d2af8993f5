ghost use Rattle.std.specs.Prelude.{◌≡◌, IfOk, OnOk};
ghost use Rattle.tg_show.specs.Names as spec;

use crate::variables::{FunctionVariables, Variable};
use std::alloc::Global;
use tg_base::{Bytes, Memory};
use tg_frame::Access;

/// The names of a function's temporaries by their numbers, up to the last that is the home of a
/// variable: its name, or an empty one for a temporary that is none.
pub fn names_of(alloc: Global, all: &FunctionVariables) -> Result<Vec<Bytes>, Memory>
    ensures { IfOk result (λ names. names.items ≡ spec.names_of all.now) }
{
    let mut names = Vec::new(alloc);
    put_names(alloc, &mut names, all.parameters.as_slice())?;
    put_names(alloc, &mut names, all.locals.as_slice())?;
    Ok(names)
}

fn put_names(alloc: Global, names: &mut Vec<Bytes>, list: &[Variable]) -> Result<(), Memory>
    ensures { OnOk result (names.new.items ≡ spec.names_from list.now names.old.items) }
{
    for one in list {
        put_named(alloc, names, one)?;
    }
    Ok(())
}

fn put_named(alloc: Global, names: &mut Vec<Bytes>, one: &Variable) -> Result<(), Memory>
    ensures { OnOk result (names.new.items
        ≡ spec.named one.now.home one.now.name names.old.items) }
{
    match one.home {
        Access::InTemp(temp) => put_name_at(alloc, names, temp.0, one.name.as_slice()),
        Access::InFrame(_) => Ok(()),
    }
}

fn put_name_at(alloc: Global, names: &mut Vec<Bytes>, place: u32, name: &[u8]) -> Result<(), Memory>
    ensures { OnOk result (names.new.items ≡ spec.name_at place name.now names.old.items) }
{
    let own = Vec::from_slice(alloc, name)?;
    for at in names.len()..place as usize + 1 {
        names.push(Bytes::from_vec(Vec::new(alloc)))?;
    }
    names[place as usize] = Bytes::from_vec(own);
    Ok(())
}
