ghost use Rattle.std.specs.Prelude.{◌≡◌, ◌<◌, OnOk, IfOk};
ghost use Rattle.tg_munch.specs.glue.Drafts.{Writes};
ghost use Rattle.tg_munch.specs.mirror.Tiles as tiles;

use crate::comparing::if_zero;
use crate::drafts::Draft;
use tg_base::Memory;
use tg_instr::{Instr, Opnd};
use tg_isa::Bits;
use tg_tree::Bin;

/// An operand gets what an operator gives for two others.
pub(crate) fn operate(
    draft: &mut Draft,
    op: Bin,
    to: Opnd,
    left: Opnd,
    right: Opnd,
) -> Result<Opnd, Memory>
    ensures { IfOk result
        (λ x. Writes (tiles.operated op to left right) draft.old draft.new x) }
{
    let target = to;
    match op {
        Bin::Add => draft.define(Instr::Addu(target, left, right), to),
        Bin::Sub => draft.define(Instr::Subu(target, left, right), to),
        Bin::Mul => draft.define_behind(Instr::Mult(left, right), Instr::Mflo(target), to),
        Bin::Div => draft.define_behind(Instr::Div(left, right), Instr::Mflo(target), to),
        Bin::And => draft.define(Instr::And(target, left, right), to),
        Bin::Or => draft.define(Instr::Or(target, left, right), to),
        Bin::Xor => draft.define(Instr::Xor(target, left, right), to),
        Bin::AddTrap => draft.define(Instr::Add(target, left, right), to),
        Bin::SubTrap => draft.define(Instr::Sub(target, left, right), to),
        Bin::MulHigh => draft.define_behind(Instr::Mult(left, right), Instr::Mfhi(target), to),
        Bin::ShiftLeft | Bin::ShiftRight | Bin::ShiftSigned => Ok(to),
    }
}

fn shift_by(op: Bin, to: Opnd, bits: u32) -> Instr
    requires { bits < 32 }
    ensures { result ≡ tiles.shift_by op to bits }
{
    let from = to;
    let bits = Bits::new(bits);
    match op {
        Bin::ShiftLeft => Instr::Sll(to, from, bits),
        Bin::ShiftRight => Instr::Srl(to, from, bits),
        _ => Instr::Sra(to, from, bits),
    }
}

/// Shifts an operand by so many bits, where the bit of that value in another one is set.
fn shift_bit(draft: &mut Draft, op: Bin, to: &Opnd, amount: &Opnd, bits: u32) -> Result<(), Memory>
    requires { bits < 32 }
    ensures { OnOk result
        (Writes (tiles.shift_bit op to.now amount.now bits) draft.old draft.new tt) }
{
    let bit = draft.fresh()?;
    let mark = draft.fresh_mark()?;
    let tested = bit;
    draft.put(Instr::Andi(bit, *amount, Bits::new(bits)))?;
    draft.put(if_zero(tested, mark))?;
    draft.put(shift_by(op, *to, bits))?;
    draft.put(Instr::Mark(mark))?;
    Ok(())
}

fn shift_bits(draft: &mut Draft, op: Bin, to: &Opnd, amount: &Opnd) -> Result<(), Memory>
    ensures { OnOk result (Writes (tiles.shift_bits op to.now amount.now) draft.old draft.new tt) }
{
    shift_bit(draft, op, to, amount, 1)?;
    shift_bit(draft, op, to, amount, 2)?;
    shift_bit(draft, op, to, amount, 4)?;
    shift_bit(draft, op, to, amount, 8)?;
    shift_bit(draft, op, to, amount, 16)?;
    Ok(())
}

/// A shift by a word, of which the lower five bits count.
fn shift(draft: &mut Draft, op: Bin, word: Opnd, amount: Opnd) -> Result<Opnd, Memory>
    ensures { IfOk result (λ x. Writes (tiles.shifted op word amount) draft.old draft.new x) }
{
    let to = draft.fresh()?;
    let target = to;
    draft.put(Instr::Move(target, word))?;
    shift_bits(draft, op, &to, &amount)?;
    Ok(to)
}

/// The operand that is asked for gets a word shifted by another.
pub(crate) fn shift_into(
    draft: &mut Draft,
    op: Bin,
    word: Opnd,
    amount: Opnd,
    asked: Option<Opnd>,
) -> Result<Opnd, Memory>
    ensures { IfOk result
        (λ x. Writes (tiles.shifted_into op asked word amount) draft.old draft.new x) }
{
    let shifted = shift(draft, op, word, amount)?;
    let value = draft.move_into(asked, shifted)?;
    Ok(value)
}
