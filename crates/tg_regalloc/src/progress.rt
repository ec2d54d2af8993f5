// Every temporary goes to the frame where a round spills made temporaries alone: what was loaded
// for one use would only be loaded anew. That round is kept, so that `alloc` tells why.

ghost use Rattle.std.specs.Prelude.{
  ◌≡◌,
  ◌<◌,
  ◌≤◌,
  ◌+◌,
  ◌++◌,
  ◌∷◌,
  [],
  ℕ,
  None,
  IfOk,
  IsFalse,
  IsTrue,
  length,
  map,
  replicate,
};
ghost use Rattle.std.specs.List.{list_all, range_with_len};
ghost use Rattle.std.specs.Option.{option_or};
ghost use Rattle.tg_instr.specs.Codes.{has_slots_below, is_allocated, names_registers};
ghost use Rattle.tg_regalloc.specs.Allocations.{HasFrame};
ghost use Rattle.tg_regalloc.specs.Conditions.{is_fixed};
ghost use Rattle.tg_regalloc.specs.Painting.{
  code_painted,
  colour_of,
  colour_or_first as colour_or_first_of,
};
ghost use Rattle.tg_regalloc.specs.Rewriting.{
  code_rewritten,
  slot_after,
  slot_in,
  slotted,
  temps_after,
};
ghost use Rattle.tg_regalloc.specs.Rounds.{IsOfTemps, CodeIsNumbered, location_in, locations_in};

use crate::allocations::{Allocation, Location, Locations, Rounds};
use crate::painting::{colour_or_first, paint};
use crate::rewriting::rewrite;
use crate::stages::{check_size, slots_of};
use std::alloc::Global;
use tg_base::Memory;
use tg_frame::Frame;
use tg_graph::COLOURS;
use tg_instr::{Allocated, Code, Instrs};
use tg_irc_definition::Round;

/// The code by now, the slot of each original temporary that has one, and the number of slots.
#[derive(Drop)]
pub struct Progress {
    pub code: Code,
    pub locations: Vec<Option<u32>>,
    pub slots: u32,
    pub ghost registers: { IsTrue (list_all (names_registers is_fixed) code.list) },
    pub ghost slots_below: { IsTrue (list_all (has_slots_below slots) code.list) },
}

impl Progress {
    /// Before the first round.
    pub fn new(alloc: Global, code: &Code, slots: u32) -> Result<Progress, Memory>
        requires registers { IsTrue (list_all (names_registers is_fixed) code.now.list) }
        requires slots_below { IsTrue (list_all (has_slots_below slots) code.now.list) }
        ensures list { IfOk result (λ next. next.code.list ≡ code.now.list) }
        ensures temps { IfOk result (λ next. next.code.temps ≡ code.now.temps) }
        ensures locations { IfOk result (λ next.
            next.locations.items ≡ replicate code.now.temps None) }
        ensures slots { IfOk result (λ next. next.slots ≡ slots) }
    {
        check_size(code)?;
        let locations = vec![in alloc; None; code.temps as usize]?;
        let code = rewrite(alloc, code, &locations)?;
        Ok(Progress {
            code,
            locations,
            slots,
        })
    }

    /// After a round that gives slots to these classes.
    pub fn spill(self, alloc: Global, round: &Round, classes: &[u32]) -> Result<Progress, Memory>
        requires small { CodeIsNumbered self.code }
        requires locations { length self.locations.items ≤ self.code.temps }
        requires nodes { IsOfTemps self.code.temps round.now }
        requires classes { classes.now ≡ slotted (length self.locations.items) round.now }
        ensures list { IfOk result (λ next. next.code.list ≡ code_rewritten
            (slot_after (length self.locations.items) self.slots round.now)
            self.code.list self.code.temps) }
        ensures temps { IfOk result (λ next. next.code.temps ≡ temps_after
            (slot_after (length self.locations.items) self.slots round.now)
            self.code.list self.code.temps) }
        ensures size { IfOk result (λ next.
            length next.locations.items ≡ length self.locations.items) }
        ensures locations { IfOk result (λ next. (t : ℕ) → t < length self.locations.items →
            slot_in next.locations.items t ≡ option_or (slot_in self.locations.items t)
            (slot_after (length self.locations.items) self.slots round.now t)) }
        ensures slots { IfOk result (λ next. next.slots ≡ self.slots + length classes.now) }
    {
        let end = slots_behind(self.slots, classes.len())?;
        let aliases = round.aliases.as_slice();
        let temps = &aliases[COLOURS as usize..];
        let slots = slots_of(alloc, self.slots, aliases.len(), temps, classes)?;
        let code = rewrite(alloc, &self.code, &slots)?;
        let mut locations = self.locations;
        fill_locations(&mut locations, &slots);
        Ok(Progress {
            code,
            locations,
            slots: end,
        })
    }

    /// After the last round.
    pub fn finish(
        self,
        alloc: Global,
        frame: Frame,
        round: Round,
        rounds: Vec<Round>,
    ) -> Result<Allocation, Memory>
        requires locations { length self.locations.items ≤ self.code.temps }
        requires nodes { IsOfTemps self.code.temps round }
        requires slots { frame.slots ≤ self.slots }
        ensures list { IfOk result (λ a.
            a.done.code.list ≡ code_painted (colour_of round) self.code.list) }
        ensures locations { IfOk result (λ a. a.registers ≡
            map (λ t. location_in (slot_in self.locations.items t) (colour_of round t))
            (range_with_len 0 (length self.locations.items))) }
        ensures frame { IfOk result (λ a. HasFrame frame a) }
        ensures slots { IfOk result (λ a. self.slots ≡ frame.slots + a.slots) }
        ensures rounds { IfOk result (λ a. a.rounds ≡ rounds.items ++ round ∷ []) }
        ensures coloured { IfOk result (λ a. IsFalse a.all_in_frame) }
        ensures registers { IfOk result
            (λ a. IsTrue (list_all (names_registers is_allocated) a.done.code.list)) }
    {
        self.colour(alloc, frame, &round)?.behind(rounds, round)
    }

    /// The code in the colours of a round, with no rounds after it.
    fn colour(&self, alloc: Global, frame: Frame, round: &Round) -> Result<Allocation, Memory>
        requires locations { length self.now.locations.items ≤ self.now.code.temps }
        requires nodes { IsOfTemps self.now.code.temps round.now }
        requires slots { frame.slots ≤ self.now.slots }
        ensures list { IfOk result (λ a.
            a.done.code.list ≡ code_painted (colour_of round.now) self.now.code.list) }
        ensures locations { IfOk result (λ a. a.registers ≡
            map (λ t. location_in (slot_in self.now.locations.items t) (colour_of round.now t))
            (range_with_len 0 (length self.now.locations.items))) }
        ensures frame { IfOk result (λ a. HasFrame frame a) }
        ensures slots { IfOk result (λ a. self.now.slots ≡ frame.slots + a.slots) }
        ensures coloured { IfOk result (λ a. IsFalse a.all_in_frame) }
        ensures registers { IfOk result
            (λ a. IsTrue (list_all (names_registers is_allocated) a.done.code.list)) }
    {
        let colours = &round.colours.as_slice()[COLOURS as usize..];
        let list = paint(alloc, self.code.list.as_slice(), colours)?;
        let registers = locations_of(alloc, &self.locations, colours)?;
        let slots = self.slots - frame.slots;
        let mut frame = frame;
        frame.slots = self.slots;
        Ok(Allocation {
            done: Allocated {
                frame,
                code: Code {
                    list: Instrs::from_vec(list),
                    temps: 0,
                },
            },
            registers,
            rounds: Rounds::from_vec(Vec::new(alloc)),
            all_in_frame: false,
            slots,
        })
    }
}

/// The number of slots where classes take more of them.
fn slots_behind(slots: u32, classes: usize) -> Result<u32, Memory>
    ensures { IfOk result (λ end. end ≡ slots + classes) }
{
    let room = u32::MAX - slots;
    if classes > room as usize {
        return Err(Memory);
    }
    Ok(slots + classes as u32)
}

/// Gives each original that has no slot yet the one that it has now.
fn fill_locations(locations: &mut [Option<u32>], slots: &[Option<u32>])
    requires { length locations.old ≤ length slots.now }
    ensures { (t : ℕ) → t < length locations.old →
        slot_in locations.new t ≡ option_or (slot_in locations.old t) (slot_in slots.now t) }
{
    for at in 0..locations.len() {
        if locations[at].is_none() {
            locations[at] = slots[at];
        }
    }
}

/// The location of each original: its slot, or else its colour.
fn locations_of(
    alloc: Global,
    slots: &[Option<u32>],
    colours: &[Option<u8>],
) -> Result<Locations, Memory>
    requires { length slots.now ≤ length colours.now }
    ensures { IfOk result (λ locations. locations ≡ locations_in slots.now colours.now) }
{
    let mut locations = Vec::with_capacity(alloc, slots.len())?;
    for at in 0..slots.len() {
        locations.push(location_of(slots[at], colours[at]))?;
    }
    Ok(Locations::from_vec(locations))
}

fn location_of(slot: Option<u32>, colour: Option<u8>) -> Location
    ensures { result ≡ location_in slot (colour_or_first_of colour) }
{
    match slot {
        Some(slot) => Location::Slot(slot),
        None => Location::Colour(colour_or_first(colour)),
    }
}
