ghost use Rattle.std.specs.Prelude.{◌≡◌, ◌<◌, ◌^◌};
ghost use Rattle.tg_asm_text.specs.Assembly as assembly;
ghost use Rattle.tg_asm_text.specs.Items as items;
ghost use Rattle.tg_asm.specs.glue.Layouts.{IsSmall, layout_of};
ghost use Rattle.tg_asm.specs.glue.Means.{coded_of};
ghost use Rattle.tg_asm.specs.glue.Spots.{found_spot, spot_of};

use crate::items::Coded;
use crate::layouts::Layout;
use crate::spots::LabelTarget;
use tg_asm_text::AsmRule;
use tg_base::{add, mul};
use tg_isa::{Bits, Mips, Reg, encode};
use tg_machine_state::{CODE_BASE, STATICS_BASE};

/// The place of a spot.
pub(crate) fn address(layout: &Layout<'_>, spot: LabelTarget) -> u32
    ensures { result ≡ assembly.target_address (layout_of layout.now) (spot_of spot) }
{
    match spot {
        LabelTarget::InCode(at) => add(CODE_BASE, mul(4, at)),
        LabelTarget::InStatics(at) => {
            let at = at as usize;
            if at < layout.starts.len() {
                add(STATICS_BASE, layout.starts[at])
            } else {
                add(STATICS_BASE, layout.size)
            }
        }
    }
}

/// The place of a label, or that there is none.
pub(crate) fn place_of<'a>(layout: &Layout<'a>, label: &'a [u8]) -> Result<u32, AsmRule>
    ensures { result ≡ assembly.label_address (layout_of layout.now)
        (assembly.spot_of (layout_of layout.now) label.now) }
{
    match layout.labels.find(label) {
        Some(spot) => Ok(address(layout, spot)),
        None => Err(AsmRule::A5),
    }
}

/// A branch with its offset.
fn with_offset(one: Mips, offset: Bits<16>) -> Mips
    ensures { result ≡ assembly.with_offset one offset }
{
    match one {
        Mips::Beq(rs, rt, _) => Mips::Beq(rs, rt, offset),
        Mips::Bne(rs, rt, _) => Mips::Bne(rs, rt, offset),
        Mips::Blez(rs, _) => Mips::Blez(rs, offset),
        Mips::Bgtz(rs, _) => Mips::Bgtz(rs, offset),
        Mips::Bltz(rs, _) => Mips::Bltz(rs, offset),
        Mips::Bgez(rs, _) => Mips::Bgez(rs, offset),
        _ => one,
    }
}

/// A jump with its target.
fn with_target(one: Mips, target: Bits<26>) -> Mips
    ensures { result ≡ assembly.with_target one target }
{
    match one {
        Mips::J(_) => Mips::J(target),
        Mips::Jal(_) => Mips::Jal(target),
        _ => one,
    }
}

/// The branch at a word to another.
fn branch_word(one: Mips, at: usize, to: u32) -> Result<u32, AsmRule>
    requires { at < 2 ^ 63 }
    ensures { result ≡ assembly.branch_word one at to }
{
    let to = to as usize;
    if at < to {
        let ahead = to - (at + 1);
        if ahead > 32767 {
            return Err(AsmRule::A6);
        }
        return Ok(encode(&with_offset(one, Bits::new(ahead as u32))));
    }
    let behind = at + 1 - to;
    if behind > 32768 {
        return Err(AsmRule::A6);
    }
    Ok(encode(&with_offset(one, Bits::new(65536 - behind as u32))))
}

fn branch_to<'a>(layout: &Layout<'a>, one: Mips, at: usize, label: &'a [u8]) -> Result<u32, AsmRule>
    requires { at < 2 ^ 63 }
    ensures { result ≡ assembly.branch_to one at
        (assembly.spot_of (layout_of layout.now) label.now) }
{
    match layout.labels.find(label) {
        Some(LabelTarget::InCode(to)) => branch_word(one, at, to),
        Some(LabelTarget::InStatics(_)) => Err(AsmRule::A6),
        None => Err(AsmRule::A5),
    }
}

fn jump_to<'a>(layout: &Layout<'a>, one: Mips, label: &'a [u8]) -> Result<u32, AsmRule>
    requires { IsSmall (layout_of layout.now) }
    ensures { result ≡ assembly.jump_to (layout_of layout.now) one
        (assembly.spot_of (layout_of layout.now) label.now) }
{
    match layout.labels.find(label) {
        Some(LabelTarget::InCode(to)) => {
            if to < layout.words {
                Ok(encode(&with_target(one, Bits::new(1048576 + to))))
            } else {
                Err(AsmRule::A6)
            }
        }
        Some(LabelTarget::InStatics(_)) => Err(AsmRule::A6),
        None => Err(AsmRule::A5),
    }
}

/// The upper half of a label's place for a register.
fn upper<'a>(layout: &Layout<'a>, rt: Reg, label: &'a [u8]) -> Result<u32, AsmRule>
    ensures { result ≡ assembly.word (layout_of layout.now) 0
        (items.Upper rt label.now) }
{
    match place_of(layout, label) {
        Ok(place) => Ok(encode(&Mips::Lui(rt, Bits::new(place / 65536)))),
        Err(rule) => Err(rule),
    }
}

/// The lower half.
fn lower<'a>(layout: &Layout<'a>, rt: Reg, label: &'a [u8]) -> Result<u32, AsmRule>
    ensures { result ≡ assembly.word (layout_of layout.now) 0
        (items.Lower rt label.now) }
{
    match place_of(layout, label) {
        Ok(place) => Ok(encode(&Mips::Ori(rt, rt, Bits::new(place % 65536)))),
        Err(rule) => Err(rule),
    }
}

/// A word of the code that stands at a place of it.
pub(crate) fn word<'a>(layout: &Layout<'a>, at: usize, coded: &Coded<'a>) -> Result<u32, AsmRule>
    requires small { IsSmall (layout_of layout.now) }
    requires at { at < 2 ^ 63 }
    ensures { result ≡ assembly.word (layout_of layout.now) at (coded_of coded.now) }
{
    match coded {
        Coded::Fixed(one) => Ok(encode(one)),
        Coded::Branch(one, label) => branch_to(layout, *one, at, *label),
        Coded::Jump(one, label) => jump_to(layout, *one, *label),
        Coded::Upper(rt, label) => upper(layout, *rt, *label),
        Coded::Lower(rt, label) => lower(layout, *rt, *label),
    }
}
