ghost use Rattle.std.specs.Prelude.{◌≡◌, ◌<◌, ◌+◌, ◌^◌, OnOk, IsTrue, length, nat_lt};
ghost use Rattle.std.specs.Prelude.{None, option_map};
ghost use Rattle.std.specs.List.{list_all};
ghost use Rattle.tg_tree.specs.glue.Lists.{code_of};
ghost use Rattle.tg_tree.specs.glue.Plain.{plain_linear, plain_tx};
ghost use Rattle.tg_munch.specs.glue.Drafts.{Writes};
ghost use Rattle.tg_munch.specs.mirror.Bodies as bodies;
ghost use Rattle.tg_munch.specs.mirror.Munching as munching;

use crate::drafts::Draft;
use crate::expressions::{expression, low_bytes};
use crate::statements::{branch_behind, statement};
use tg_base::{Memory, Temp};
use tg_frame::Access;
use tg_instr::{Instr, Opnd};
use tg_isa::{Bits, Reg};
use tg_tree::{Linear, Tx};

/// The registers that a function gives back: `$s0` to `$s7` and `$ra`.
pub(crate) const KEPT: [u8; 9] = [16, 17, 18, 19, 20, 21, 22, 23, 31];

/// The registers that are given back at the end go into temporaries of their own.
pub(crate) fn keep(draft: &mut Draft, registers: &[u8]) -> Result<(), Memory>
    requires { IsTrue (list_all (λ n. nat_lt n 32) registers.now) }
    ensures { OnOk result (Writes (bodies.kept registers.now) draft.old draft.new tt) }
{
    for &register in registers {
        keep_register(draft, Reg::new(register))?;
    }
    Ok(())
}

fn keep_register(draft: &mut Draft, register: Reg) -> Result<(), Memory>
    ensures { OnOk result (Writes (bodies.kept_register register) draft.old draft.new tt) }
{
    let to = draft.fresh()?;
    draft.put(Instr::Move(to, Opnd::Reg(register)))?;
    Ok(())
}

/// The kept registers get back what their temporaries hold, which begin at a number.
fn give_back(draft: &mut Draft, keeps: u32, registers: &[u8]) -> Result<(), Memory>
    requires registers { IsTrue (list_all (λ n. nat_lt n 32) registers.now) }
    requires fits { keeps + length registers.now < 2 ^ 32 }
    ensures { OnOk result
        (Writes (munching.given_back keeps registers.now) draft.old draft.new tt) }
{
    let mut from = keeps;
    for &register in registers {
        let kept = Opnd::Temp(Temp(from));
        draft.put(Instr::Move(Opnd::Reg(Reg::new(register)), kept))?;
        from += 1;
    }
    Ok(())
}

/// The parameters go to their homes, those past the fourth all by one frame address.
pub(crate) fn parameters(draft: &mut Draft, homes: &[Access]) -> Result<(), Memory>
    ensures { OnOk result (Writes (bodies.parameters 0 homes.now) draft.old draft.new tt) }
{
    for (i, &home) in homes.iter().enumerate() {
        if i >= 4 {
            by_frame_address(draft, i, &homes[i..])?;
            return Ok(());
        }
        from_register(draft, i, home)?;
    }
    Ok(())
}

/// Parameter i goes from its register to its home.
fn from_register(draft: &mut Draft, i: usize, home: Access) -> Result<(), Memory>
    requires { i < 4 }
    ensures { OnOk result (Writes (bodies.from_register i home) draft.old draft.new tt) }
{
    let from = Opnd::Reg(Reg::new(4 + i as u8));
    match home {
        Access::InTemp(temp) => draft.put(Instr::Move(Opnd::Temp(temp), from)),
        Access::InFrame(slot) => draft.put(Instr::FrameStore(from, slot)),
    }
}

/// The parameters from one past the fourth on go to their homes.
fn by_frame_address(draft: &mut Draft, first: usize, homes: &[Access]) -> Result<(), Memory>
    requires past { 3 < first }
    requires fits { first + length homes.now < 2 ^ 64 }
    ensures { OnOk result
        (Writes (bodies.by_frame_address first homes.now) draft.old draft.new tt) }
{
    let above = draft.fresh()?;
    let target = above;
    draft.put(Instr::FrameAddress(target))?;
    from_words(draft, above, first, homes)?;
    Ok(())
}

fn from_words(draft: &mut Draft, above: Opnd, first: usize, homes: &[Access]) -> Result<(), Memory>
    requires past { 3 < first }
    requires fits { first + length homes.now < 2 ^ 64 }
    ensures { OnOk result
        (Writes (bodies.from_words above first homes.now) draft.old draft.new tt) }
{
    for (k, &home) in homes.iter().enumerate() {
        let base = above;
        from_word(draft, base, first + k, home)?;
    }
    Ok(())
}

/// Parameter i goes from the word where its caller put it to its home.
fn from_word(draft: &mut Draft, above: Opnd, i: usize, home: Access) -> Result<(), Memory>
    requires { 3 < i }
    ensures { OnOk result (Writes (bodies.from_word above i home) draft.old draft.new tt) }
{
    let bytes = low_bytes(i)?;
    match home {
        Access::InTemp(temp) => load_above(draft, above, bytes, Opnd::Temp(temp)),
        Access::InFrame(slot) => {
            let value = draft.fresh()?;
            let to = value;
            load_above(draft, above, bytes, to)?;
            draft.put(Instr::FrameStore(value, slot))?;
            Ok(())
        }
    }
}

/// An operand gets the word so many bytes above the frame address, which another holds.
fn load_above(draft: &mut Draft, above: Opnd, bytes: u32, to: Opnd) -> Result<(), Memory>
    ensures { OnOk result (Writes (bodies.load_above above bytes to) draft.old draft.new tt) }
{
    if bytes < 32768 {
        return draft.put(Instr::Lw(to, Bits::new(bytes), above));
    }
    load_far(draft, above, bytes, to)
}

fn load_far(draft: &mut Draft, above: Opnd, bytes: u32, to: Opnd) -> Result<(), Memory>
    ensures { OnOk result (Writes (bodies.load_far above bytes to) draft.old draft.new tt) }
{
    let target = to;
    draft.constant(target, bytes)?;
    let target = to;
    let source = to;
    draft.put(Instr::Addu(target, source, above))?;
    let base = to;
    draft.put(Instr::Lw(to, Bits::new(0), base))?;
    Ok(())
}

/// The elements of flat code, where the kept registers stand in temporaries from a number on.
pub(crate) fn elements(
    draft: &mut Draft,
    slots: u32,
    keeps: u32,
    code: &[Linear],
) -> Result<(), Memory>
    requires { keeps < 2 ^ 24 }
    ensures { OnOk result
        (Writes (munching.elements slots keeps None (code_of code.now)) draft.old draft.new tt) }
{
    let mut before = None;
    for one in code {
        element(draft, slots, keeps, before, one)?;
        before = Some(one);
    }
    Ok(())
}

/// An element of flat code, after another or at the start.
fn element(
    draft: &mut Draft,
    slots: u32,
    keeps: u32,
    before: Option<&Linear>,
    one: &Linear,
) -> Result<(), Memory>
    requires { keeps < 2 ^ 24 }
    ensures { OnOk result
        (Writes (munching.element slots keeps (option_map (λ e. plain_linear e.now) before.entry)
        (plain_linear one.now)) draft.old draft.new tt) }
{
    match one {
        Linear::Mark(mark) => draft.put(Instr::Mark(*mark)),
        Linear::Do(s) => statement(draft, slots, s),
        Linear::Jump(mark) => draft.put(Instr::Jump(*mark)),
        Linear::Branch(rel, left, right, mark) => {
            branch_behind(draft, slots, before, *rel, left, right, *mark)
        }
        Linear::Fault(number) => draft.put(Instr::Fault(*number)),
        Linear::Return(x) => answer(draft, slots, keeps, x),
    }
}

/// A return with a word: the kept registers get back what they held.
fn answer(draft: &mut Draft, slots: u32, keeps: u32, x: &Tx) -> Result<(), Memory>
    requires { keeps < 2 ^ 24 }
    ensures { OnOk result
        (Writes (munching.returned slots keeps (plain_tx x.now)) draft.old draft.new tt) }
{
    expression(draft, slots, x, Some(Opnd::Reg(Reg::V0)))?;
    give_back(draft, keeps, &KEPT)?;
    draft.put(Instr::Return)?;
    Ok(())
}
