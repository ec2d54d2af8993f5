ghost use Rattle.std.specs.Prelude.{◌≡◌, ◌<◌, ◌^◌, ◌++◌, IsTrue, OnOk, length};
ghost use Rattle.tg_emit.specs.Conditions.{has_code, fits_frame, is_emittable};
ghost use Rattle.std.specs.List.{All, list_all};
ghost use Rattle.tg_emit.specs.Ranges.{FunctionFits, InstructionFits, NumbersFit, RowFits};
ghost use Rattle.tg_emit.specs.mirror.Lines.{
  branch_lines,
  code_lines,
  function_lines,
  instruction_lines,
};
ghost use Rattle.tg_emit.specs.mirror.Names.{mark_name, behind_name};
ghost use Rattle.tg_emit.specs.mirror.Rows.{branch_of, opposite_branch_of, register_of};

use crate::assembly::Line;
use crate::frames::{above_stack, alone, entry, load, push, size, slot_offset, store};
use crate::names;
use crate::rows::{branch, opposite_branch, register, row};
use std::alloc::Global;
use tg_base::{Label, Memory};
use tg_instr::{Allocated, Instr, Test};
use tg_isa::{Bits, Mips, Reg};

/// Where an instruction stands: its function's label and frame, in bytes, and its place in the
/// function's code.
#[derive(Clone, Copy)]
struct Site {
    label: Label,
    size: u32,
    place: usize,
}

/// Puts the lines of an instruction at the end. A branch is turned round where that is asked.
fn instruction(
    alloc: Global,
    list: &mut Vec<Line>,
    turned: bool,
    site: Site,
    one: &Instr,
) -> Result<(), Memory>
    requires size { site.size < 2 ^ 29 }
    requires code { IsTrue (has_code one.now) }
    requires slots { IsTrue (fits_frame site.size one.now) }
    ensures lines { OnOk result (list.new.items ≡
        list.old.items ++ instruction_lines turned site.label.0 site.size site.place one.now) }
    ensures row { OnOk result (RowFits one.now) }
    ensures numbers { OnOk result (NumbersFit one.now) }
{
    match one {
        Instr::FrameLoad(to, slot) => {
            load(alloc, list, register(*to), slot_offset(site.size, *slot))
        }
        Instr::FrameStore(from, slot) => {
            store(alloc, list, register(*from), slot_offset(site.size, *slot))
        }
        Instr::FrameAddress(to) => above_stack(alloc, list, register(*to), site.size),
        Instr::Address(to, label) => {
            push(
                list,
                Line::La(register(*to), names::literal(alloc, *label)?),
            )
        }
        Instr::Mark(mark) => push(list, Line::Label(names::mark(alloc, site.label, *mark)?)),
        Instr::Jump(mark) => {
            let target = names::mark(alloc, site.label, *mark)?;
            push(list, Line::One(Mips::J(Bits::new(0)), target))
        }
        Instr::Branch(test, mark) => branches(alloc, list, turned, site, test, *mark),
        Instr::Call(label) => {
            let target = names::function(alloc, *label)?;
            push(list, Line::One(Mips::Jal(Bits::new(0)), target))
        }
        Instr::Fault(code) => alone(alloc, list, Mips::Break(Bits::new(*code))),
        Instr::Return => {
            above_stack(alloc, list, Reg::SP, site.size)?;
            alone(alloc, list, Mips::Jr(Reg::RA))
        }
        _ => match row(one) {
            Some(one) => alone(alloc, list, one),
            None => Ok(()),
        },
    }
}

/// Puts the branch of a test at the end, or the opposite branch over a jump.
fn branches(
    alloc: Global,
    list: &mut Vec<Line>,
    turned: bool,
    site: Site,
    test: &Test,
    mark: u32,
) -> Result<(), Memory>
    ensures lines { OnOk result (list.new.items ≡
        list.old.items ++ branch_lines turned (branch_of test.now) (opposite_branch_of test.now)
        (mark_name site.label.0 mark) (behind_name site.label.0 site.place)) }
    ensures fits { OnOk result
        ((register_of test.now.left < 32) × (register_of test.now.right < 32)) }
{
    let there = names::mark(alloc, site.label, mark)?;
    if !turned {
        return push(list, Line::One(branch(test), there));
    }
    let around = names::behind(alloc, site.label, site.place)?;
    push(list, Line::One(opposite_branch(test), around))?;
    push(list, Line::One(Mips::J(Bits::new(0)), there))?;
    let around = names::behind(alloc, site.label, site.place)?;
    push(list, Line::Label(around))
}

/// Puts the lines of a function's code at the end.
fn code(
    alloc: Global,
    list: &mut Vec<Line>,
    turned: bool,
    label: Label,
    size: u32,
    instructions: &[Instr],
) -> Result<(), Memory>
    requires size { size < 2 ^ 29 }
    requires code { IsTrue (list_all has_code instructions.now) }
    requires slots { IsTrue (list_all (fits_frame size) instructions.now) }
    ensures lines { OnOk result (list.new.items ≡
        list.old.items ++ code_lines turned label.0 size 0 instructions.now) }
    ensures fits { OnOk result (All InstructionFits instructions.now) }
    ensures length { length instructions.now < 2 ^ 64 }
{
    for (place, one) in instructions.iter().enumerate() {
        instruction(alloc, list, turned, Site { label, size, place }, one)?;
    }
    Ok(())
}

/// Puts the lines of a function at the end.
pub fn function(
    alloc: Global,
    list: &mut Vec<Line>,
    turned: bool,
    one: &Allocated,
) -> Result<(), Memory>
    requires { IsTrue (is_emittable one.now) }
    ensures lines { OnOk result (list.new.items ≡ list.old.items ++ function_lines turned one.now) }
    ensures fits { OnOk result (FunctionFits one.now) }
{
    let label = one.frame.label;
    let size = size(&one.frame);
    entry(alloc, list, label, size)?;
    code(alloc, list, turned, label, size, one.code.list.as_slice())
}
