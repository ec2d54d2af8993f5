ghost use Rattle.std.specs.Prelude.{◌≡◌, ◌-◌, OnOk, length, slice_range};
ghost use Rattle.std.specs.FinSet as set;
ghost use Rattle.tg_escape.specs.Uses.{Use};
ghost use Rattle.tg_escape.specs.Escaping.{escaping};
ghost use Rattle.tg_escape.specs.glue.Searches.{with_all, with_use};

use crate::declarations::Declaration;
use crate::sets::{Escapes, Links};
use std::alloc::Global;
use tg_base::Memory;

/// What the uses of names in a text show.
#[derive(Drop)]
pub(crate) struct Found {
    pub(crate) escapes: Escapes,
    pub(crate) links: Links,
}

impl Found {
    /// What no use shows.
    pub(crate) fn nothing(alloc: Global) -> Found
        ensures escapes { result.escapes ≡ set.empty }
        ensures links { result.links ≡ set.empty }
    {
        Found {
            escapes: Escapes::new(alloc),
            links: Links::new(alloc),
        }
    }

    /// With what a use shows of a name that is declared so, in a text within these functions.
    pub(crate) fn add(&mut self, used: &Declaration, within: &[u32]) -> Result<(), Memory>
        ensures { let u : Use = record { of = used.now; within = within.now } in
            OnOk result (self.new ≡ with_use u self.old) }
    {
        add_escape(&mut self.escapes, used, within.len())?;
        add_links(&mut self.links, used.level(), within)
    }
}

// The variable that a use in a text of this level shows to escape.
fn add_escape(escapes: &mut Escapes, used: &Declaration, level: usize) -> Result<(), Memory>
    ensures { let shown = escaping level used.now in
        OnOk result (escapes.new ≡ with_all shown escapes.old) }
{
    match used.outside(level) {
        Some(at) => escapes.add(at),
        None => Ok(()),
    }
}

// The functions whose links a use goes through of a name that a text of level `own` declares.
fn add_links(links: &mut Links, own: usize, within: &[u32]) -> Result<(), Memory>
    ensures { let shown = slice_range within.now own (length within.now - 1) in
        OnOk result (links.new ≡ with_all shown links.old) }
{
    let user = within.len().saturating_sub(1);
    if own < user {
        add_all(links, &within[own..user])?;
    }
    Ok(())
}

fn add_all(links: &mut Links, functions: &[u32]) -> Result<(), Memory>
    ensures { OnOk result (links.new ≡ with_all functions.now links.old) }
{
    for function in functions {
        links.add(*function)?;
    }
    Ok(())
}
