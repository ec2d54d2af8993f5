ghost use Rattle.std.specs.Prelude.{◌≡◌, ◌<◌, IfOk, IsTrue, length};
ghost use Rattle.std.specs.List.{list_all};
ghost use Rattle.tg_instr.specs.declared.operands.Opnd.TheVariants.{Reg as RegOf, Temp as TempOf};
ghost use Rattle.tg_instr.specs.Codes.{has_slots_below, names_registers};
ghost use Rattle.tg_regalloc.specs.Conditions.{is_fixed};

use std::alloc::Global;
use std::str;
use std::test::Fail;
use tg_base::{Label, Memory, Temp};
use tg_frame::new_frame;
use tg_instr::{Code, Instr, Instrs, Opnd, push_instr};
use tg_interference::interference;
use tg_irc_definition::LeastUse;
use tg_isa::{Bits, Reg};
use tg_live::{flow, live};
use tg_regalloc::{allocate, in_frame};
use tg_regalloc_report::list;

const COALESCED: &str = "function 33
round 1
coalesce $a0 t0 george
coalesce $a0 t1 george
coalesce $v0 t2 george
colour t0 $a0
colour t1 $a0
colour t2 $v0
slots 0
";

const SPILLED: &str = "function 33
round 1
constrain t0 $ra
constrain t1 $a0
constrain $v0 t1
constrain $ra t0
spill t0
spill t1
spilled t1
spilled t0
round 2
simplify t0
simplify t1
coalesce $ra t2 george
coalesce $a0 t3 george
coalesce $v0 t4 george
coalesce $ra t5 george
slot t0 1
slot t1 0
slots 2
";

fn temp(number: u32) -> Opnd
    ensures { result ≡ TempOf (record { 0 = number }) }
{
    Opnd::Temp(Temp(number))
}

/// A code in which a temporary is a copy of another:
/// `t0 <- $a0; t1 <- t0; t2 <- t0 + t1; $v0 <- t2; Return`.
fn copied(alloc: Global) -> Result<Code, Memory>
    ensures registers { IfOk result
        (λ code. IsTrue (list_all (names_registers is_fixed) code.list)) }
    ensures slots { IfOk result (λ code. IsTrue (list_all (has_slots_below 0) code.list)) }
    ensures temps { IfOk result (λ code. code.temps ≡ 3) }
    ensures size { IfOk result (λ code. length code.list ≡ 5) }
{
    let mut list = Vec::new(alloc);
    push_instr(&mut list, Instr::Move(temp(0), Opnd::Reg(Reg::A0)))?;
    push_instr(&mut list, Instr::Move(temp(1), temp(0)))?;
    push_instr(&mut list, Instr::Add(temp(2), temp(0), temp(1)))?;
    push_instr(&mut list, Instr::Move(Opnd::Reg(Reg::V0), temp(2)))?;
    push_instr(&mut list, Instr::Return)?;
    Ok(Code {
        list: Instrs::from_vec(list),
        temps: 3,
    })
}

/// A code with two temporaries that live over a call, for which no register is left that a call
/// keeps: `t0 <- $ra; t1 <- $a0; Call; $v0 <- t1; $ra <- t0; Return`.
fn kept_over_a_call(alloc: Global) -> Result<Code, Memory>
    ensures registers { IfOk result
        (λ code. IsTrue (list_all (names_registers is_fixed) code.list)) }
    ensures slots { IfOk result (λ code. IsTrue (list_all (has_slots_below 0) code.list)) }
    ensures temps { IfOk result (λ code. code.temps ≡ 2) }
{
    let mut list = Vec::new(alloc);
    push_instr(&mut list, Instr::Move(temp(0), Opnd::Reg(Reg::RA)))?;
    push_instr(&mut list, Instr::Move(temp(1), Opnd::Reg(Reg::A0)))?;
    push_instr(&mut list, Instr::Call(Label(33)))?;
    push_instr(&mut list, Instr::Move(Opnd::Reg(Reg::V0), temp(1)))?;
    push_instr(&mut list, Instr::Move(Opnd::Reg(Reg::RA), temp(0)))?;
    push_instr(&mut list, Instr::Return)?;
    Ok(Code {
        list: Instrs::from_vec(list),
        temps: 2,
    })
}

/// A register that a function keeps for its caller.
fn kept(number: u8) -> Opnd
    requires { number < 32 }
    ensures { result ≡ RegOf number }
{
    Opnd::Reg(Reg::new(number))
}

/// The body of `print("hello\n")`: what a function keeps for its caller goes to temporaries, and
/// back in the end.
fn printing(alloc: Global) -> Result<Code, Memory>
    ensures registers { IfOk result
        (λ code. IsTrue (list_all (names_registers is_fixed) code.list)) }
    ensures slots { IfOk result (λ code. IsTrue (list_all (has_slots_below 0) code.list)) }
    ensures temps { IfOk result (λ code. code.temps ≡ 9) }
{
    let mut list = Vec::new(alloc);
    push_instr(&mut list, Instr::Move(temp(0), kept(16)))?;
    push_instr(&mut list, Instr::Move(temp(1), kept(17)))?;
    push_instr(&mut list, Instr::Move(temp(2), kept(18)))?;
    push_instr(&mut list, Instr::Move(temp(3), kept(19)))?;
    push_instr(&mut list, Instr::Move(temp(4), kept(20)))?;
    push_instr(&mut list, Instr::Move(temp(5), kept(21)))?;
    push_instr(&mut list, Instr::Move(temp(6), kept(22)))?;
    push_instr(&mut list, Instr::Move(temp(7), kept(23)))?;
    push_instr(&mut list, Instr::Move(temp(8), Opnd::Reg(Reg::RA)))?;
    push_instr(&mut list, Instr::Mark(0))?;
    push_instr(&mut list, Instr::Address(Opnd::Reg(Reg::A0), Label(33)))?;
    push_instr(&mut list, Instr::Call(Label(3)))?;
    let zero = Opnd::Reg(Reg::ZERO);
    push_instr(
        &mut list,
        Instr::Addiu(Opnd::Reg(Reg::V0), zero, Bits::new(0)),
    )?;
    push_instr(&mut list, Instr::Move(kept(16), temp(0)))?;
    push_instr(&mut list, Instr::Move(kept(17), temp(1)))?;
    push_instr(&mut list, Instr::Move(kept(18), temp(2)))?;
    push_instr(&mut list, Instr::Move(kept(19), temp(3)))?;
    push_instr(&mut list, Instr::Move(kept(20), temp(4)))?;
    push_instr(&mut list, Instr::Move(kept(21), temp(5)))?;
    push_instr(&mut list, Instr::Move(kept(22), temp(6)))?;
    push_instr(&mut list, Instr::Move(kept(23), temp(7)))?;
    push_instr(&mut list, Instr::Move(Opnd::Reg(Reg::RA), temp(8)))?;
    push_instr(&mut list, Instr::Return)?;
    Ok(Code {
        list: Instrs::from_vec(list),
        temps: 9,
    })
}

#[test]
fn a_copy_does_not_interfere(rt: HostRuntime) -> Result<(), Fail> {
    let code = copied(rt.alloc())?;
    let flow = flow(rt.alloc(), &code)?;
    let live = live(rt.alloc(), &code, &flow)?;
    let graph = interference(rt.alloc(), &code, &live)?;
    assert!(rt; !graph.interferes(25, 26));
    Ok(())
}

#[test]
fn live_sets_are_found_at_any_place(rt: HostRuntime) -> Result<(), Fail> {
    let code = copied(rt.alloc())?;
    let flow = flow(rt.alloc(), &code)?;
    let live = live(rt.alloc(), &code, &flow)?;
    let behind = live.out(rt.alloc(), 3)?;
    let sum = live.out(rt.alloc(), 2)?;
    let both = live.out(rt.alloc(), 1)?;
    assert!(rt; !matches!(behind.last().copied(), Some(Opnd::Temp(_))));
    assert!(rt; matches!(sum.last().copied(), Some(Opnd::Temp(Temp(2)))));
    assert_eq!(rt; both.len(), sum.len().saturating_add(1));
    Ok(())
}

#[test]
fn copies_share_a_register(rt: HostRuntime) -> Result<(), Fail> {
    let code = copied(rt.alloc())?;
    let frame = new_frame(rt.alloc(), Label(33), &[])?;
    let allocation = allocate(rt.alloc(), &code, frame, &mut LeastUse)?;
    assert_eq!(rt; allocation.done.code.list.as_slice().len(), 2);
    let allocations = [allocation];
    let text = list(rt.alloc(), &allocations)?;
    let shown = str::from_utf8(&text)?;
    assert_eq!(rt; shown, COALESCED);
    Ok(())
}

#[test]
fn every_temporary_goes_to_the_frame(rt: HostRuntime) -> Result<(), Fail> {
    let code = copied(rt.alloc())?;
    let frame = new_frame(rt.alloc(), Label(33), &[])?;
    let allocation = in_frame(rt.alloc(), &code, frame)?;
    assert_eq!(rt; allocation.slots, 3);
    assert_eq!(rt; allocation.done.code.list.as_slice().len(), 9);
    assert!(rt; allocation.all_in_frame);
    Ok(())
}

#[test]
fn what_a_program_keeps_goes_to_the_frame(rt: HostRuntime) -> Result<(), Fail> {
    let code = printing(rt.alloc())?;
    let frame = new_frame(rt.alloc(), Label(32), &[])?;
    let allocation = in_frame(rt.alloc(), &code, frame)?;
    assert_eq!(rt; allocation.slots, 9);
    assert_eq!(rt; allocation.done.code.list.as_slice().len(), 23);
    assert!(rt; allocation.all_in_frame);
    Ok(())
}

#[test]
fn what_lives_over_a_call_is_spilled(rt: HostRuntime) -> Result<(), Fail> {
    let code = kept_over_a_call(rt.alloc())?;
    let frame = new_frame(rt.alloc(), Label(33), &[])?;
    let allocation = allocate(rt.alloc(), &code, frame, &mut LeastUse)?;
    assert!(rt; !allocation.all_in_frame);
    let allocations = [allocation];
    let text = list(rt.alloc(), &allocations)?;
    let shown = str::from_utf8(&text)?;
    assert_eq!(rt; shown, SPILLED);
    Ok(())
}
