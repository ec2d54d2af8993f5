ghost use Rattle.std.specs.Prelude.{◌≡◌, ◌<◌, length, IfOk, OnOk};
ghost use Rattle.tg_live.specs.Live.{set_at};
ghost use Rattle.tg_live.specs.glue.LiveChanges.{
  set_without_all,
  all_put_in_order,
  set_before,
  sets_of,
};

use crate::changes::LiveChanges;
use crate::rising::{leave_out, put_in_order};
use std::alloc::Global;
use std::marker::Model;
use tg_base::Memory;
use tg_instr::Opnd;

/// What is live out of each instruction of a code, in rising order at each place: registers by
/// their numbers, and then temporaries. It keeps what comes and what goes at each place: most
/// temporaries live over long ranges where many do, so that sets of their own would take memory
/// for each pair of a place and an operand.
#[derive(Drop)]
pub struct LiveSets {
    changes: LiveChanges,
}

impl Model for LiveSets {
    ghost use Rattle.std.specs.Prelude.{List};
    ghost use Rattle.tg_instr.specs.declared.operands.Opnd.{Opnd};
    ghost use Rattle.tg_live.specs.glue.LiveChanges.{sets_of};

    ghost Value = { List (List Opnd) };

    ghost view = { λ s. sets_of s.changes.comes s.changes.goes };
}

impl LiveSets {
    pub(crate) fn new(changes: LiveChanges) -> LiveSets
        ensures { result ≡ sets_of changes.comes changes.goes }
    {
        LiveSets { changes }
    }

    /// Makes of what is live out of the instruction before a place what is live out of the one at
    /// it; before the first nothing is. Takes time for each change and the length of the set.
    pub fn advance(&self, at: u32, set: &mut Vec<Opnd>) -> Result<(), Memory>
        requires at { at < length self.now }
        requires before { set.old.items ≡ set_before self.now at }
        ensures { OnOk result (set.new.items ≡ set_at self.now at) }
    {
        set_without_all(self.changes.goes(at as usize), set);
        all_put_in_order(self.changes.comes(at as usize), set)?;
        Ok(())
    }

    /// What is live out of the instruction at a place, made from the changes up to it: takes time for
    /// each of them and the length of each set before. To go through a code in order use `advance`.
    pub fn out(&self, alloc: Global, at: u32) -> Result<Vec<Opnd>, Memory>
        requires { at < length self.now }
        ensures { IfOk result (λ set. set.items ≡ set_at self.now at) }
    {
        set_out_of(self, alloc, at)
    }
}

// What is live out of a place, from nothing before the first on.
fn set_out_of(live: &LiveSets, alloc: Global, at: u32) -> Result<Vec<Opnd>, Memory>
    requires { at < length live.now }
    ensures { IfOk result (λ set. set.items ≡ set_at live.now at) }
{
    let mut set = Vec::new(alloc);
    for place in 0..at {
        live.advance(place, &mut set)?;
    }
    live.advance(at, &mut set)?;
    Ok(set)
}

// Takes what goes out of a set.
fn set_without_all(goes: &[Opnd], set: &mut Vec<Opnd>)
    ensures { set.new.items ≡ set_without_all goes.now set.old.items }
{
    for one in goes {
        leave_out(one, set);
    }
}

// Puts what comes into a set.
fn all_put_in_order(comes: &[Opnd], set: &mut Vec<Opnd>) -> Result<(), Memory>
    ensures { OnOk result (set.new.items ≡ all_put_in_order comes.now set.old.items) }
{
    for one in comes {
        put_in_order(one, set)?;
    }
    Ok(())
}
