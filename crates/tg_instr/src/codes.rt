ghost use Rattle.std.specs.Prelude.{IsTrue};
ghost use Rattle.std.specs.List.{list_all};
ghost use Rattle.tg_instr.specs.Codes.{
  marks_differ,
  leads_to_marks,
  ends_well,
  has_temps_below,
  has_registers_alone,
  has_slots_below,
};

use crate::instr::Instrs;
use tg_frame::Frame;

/// A function's code: its marks differ, each mark that an instruction leads to stands in it, its
/// temporaries are below `temps`, and its last instruction is a jump, a fault or a return.
#[derive(Drop)]
pub struct Code {
    pub list: Instrs,
    pub temps: u32,
    pub ghost marks_differ: { IsTrue (marks_differ list) },
    pub ghost marks_stand: { IsTrue (list_all (leads_to_marks list) list) },
    pub ghost temps_below: { IsTrue (list_all (has_temps_below temps) list) },
    pub ghost ends_well: { IsTrue (ends_well list) },
}

/// A function's code over registers alone, with its frame, below whose number its slots are.
#[derive(Drop)]
pub struct Allocated {
    pub frame: Frame,
    pub code: Code,
    pub ghost registers_alone: { IsTrue (list_all has_registers_alone code.list) },
    pub ghost slots_below: { IsTrue (list_all (has_slots_below frame.slots) code.list) },
}
