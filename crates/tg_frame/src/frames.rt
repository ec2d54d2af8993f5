ghost use Rattle.std.specs.Prelude.{◌≡◌, ◌<◌, ◌≤◌, ◌+◌, IsTrue, IfOk, length, map, cond};
ghost use Rattle.std.specs.declared.option.Option.{Option};
ghost use Rattle.tg_frame.specs.declared.accesses.Access.{Access as AccessOf};
ghost use Rattle.tg_frame.specs.Homes.{
  slot_bound,
  temp_bound,
  differ,
  is_slot,
  homes_of,
  slots_of,
  temps_of,
  IsDrawn,
  next_home,
};

use crate::accesses::{Access, Accesses};
use std::alloc::Global;
use tg_base::{Label, Memory, Temp};

/// A function's frame: its label, the homes of its parameters, how many slots (words) and
/// temporaries were drawn, and the words at its low end for the arguments past the fourth of the
/// calls that the function makes.
#[derive(Drop)]
pub struct Frame {
    pub label: Label,
    pub params: Accesses,
    pub slots: u32,
    pub temps: u32,
    pub out: u32,
    pub ghost slots_below: { slot_bound params ≤ slots },
    pub ghost temps_below: { temp_bound params ≤ temps },
    pub ghost distinct: { IsTrue (differ params) },
}

/// A frame with a home for each parameter, in the frame exactly where `escaping` says so; its `out`
/// is 0.
#[tactic(auto, using(crate::proofs::Making::made_none, crate::proofs::Making::made_slot, crate::proofs::Making::made_temp))]
pub fn new_frame(alloc: Global, label: Label, escaping: &[bool]) -> Result<Frame, Memory>
    requires { length escaping.now ≤ 4194304 }
    ensures label { IfOk result (λ f. f.label ≡ label) }
    ensures params { IfOk result (λ f. f.params ≡ homes_of escaping.now) }
    ensures escaping { IfOk result (λ f. map is_slot f.params ≡ escaping.now) }
    ensures slots { IfOk result (λ f. f.slots ≡ slots_of escaping.now) }
    ensures temps { IfOk result (λ f. f.temps ≡ temps_of escaping.now) }
    ensures out { IfOk result (λ f. f.out ≡ 0) }
{
    let mut params = Vec::new(alloc);
    let mut slots = 0;
    let mut temps = 0;
    for &escapes in escaping.iter() {
        if escapes {
            params.push(Access::InFrame(slots))?;
            slots += 1;
        } else {
            params.push(Access::InTemp(Temp(temps)))?;
            temps += 1;
        }
    }
    Ok(Frame {
        label,
        params: Accesses::from_vec(params),
        slots,
        temps,
        out: 0,
    })
}

impl Frame {
    /// A new home for a local variable, in the frame exactly where it escapes.
    pub fn alloc_local(&mut self, escaping: bool) -> Access
        requires slots { self.old.slots < 4194304 }
        requires temps { self.old.temps < 4194304 }
        ensures home { result ≡ next_home escaping self.old.slots self.old.temps }
        ensures new { IsDrawn self.old.slots self.old.temps result → ⊥ }
        ensures drawn { IsDrawn self.new.slots self.new.temps result }
        ensures slots { self.new.slots ≡ self.old.slots + cond escaping 1 0 }
        ensures temps { self.new.temps ≡ self.old.temps + cond escaping 0 1 }
        ensures params { self.new.params ≡ self.old.params }
        ensures out { self.new.out ≡ self.old.out }
        ensures label { self.new.label ≡ self.old.label }
    {
        if escaping {
            let slot = self.slots;
            self.slots += 1;
            Access::InFrame(slot)
        } else {
            Access::InTemp(self.fresh())
        }
    }

    /// A new temporary.
    pub fn fresh(&mut self) -> Temp
        requires slots { self.old.slots < 4194304 }
        requires temps { self.old.temps < 4194304 }
        ensures new { result.0 ≡ self.old.temps }
        ensures temps { self.new.temps ≡ self.old.temps + 1 }
        ensures slots { self.new.slots ≡ self.old.slots }
        ensures params { self.new.params ≡ self.old.params }
        ensures out { self.new.out ≡ self.old.out }
        ensures label { self.new.label ≡ self.old.label }
    {
        let temp = Temp(self.temps);
        self.temps += 1;
        temp
    }
}
