ghost use Rattle.std.specs.Prelude.{◌≡◌, ◌<◌, ◌≤◌, ◌^◌, ◌++◌, ◌∷◌, [], ◌+◌, ◌*◌, ◌/◌, OnOk};
ghost use Rattle.tg_isa.specs.declared.mips.Mips.TheVariants.{Lui, Addu};
ghost use Rattle.tg_emit.specs.mirror.Lines.{
  alone as alone_line,
  in_at,
  above_stack as lines_above_stack,
  lowered,
  entry as entry_lines,
  load_at,
  store_at,
  size_of,
  slot_offset as offset_of_slot,
};

use crate::assembly::Line;
use crate::names;
use std::alloc::Global;
use tg_base::{Bytes, Label, Memory};
use tg_frame::Frame;
use tg_isa::{Bits, Mips, Reg};

/// `$at`, through which large numbers go.
const AT: u8 = 1;

/// The bytes of a frame.
pub fn size(frame: &Frame) -> u32
    requires { size_of frame.now < 2 ^ 29 }
    ensures { result ≡ size_of frame.now }
{
    (4 * (frame.slots + frame.out)).max(8)
}

/// The offset of a slot from `$sp`, in bytes.
pub fn slot_offset(size: u32, slot: u32) -> u32
    requires { 4 * (slot + 1) ≤ size }
    ensures { result ≡ offset_of_slot size slot }
{
    size - 4 * (slot + 1)
}

/// Puts a line at the end of others.
pub fn push(list: &mut Vec<Line>, line: Line) -> Result<(), Memory>
    ensures { OnOk result (list.new.items ≡ list.old.items ++ line ∷ []) }
{
    // (the borrow checker has to be told of the types that a line holds)
    let _row: Option<Mips> = None;
    list.push(line)?;
    Ok(())
}

/// Puts an instruction at the end that leads to no label.
pub fn alone(alloc: Global, list: &mut Vec<Line>, one: Mips) -> Result<(), Memory>
    ensures { OnOk result (list.new.items ≡ list.old.items ++ alone_line one ∷ []) }
{
    push(list, Line::One(one, Bytes::from_vec(Vec::new(alloc))))
}

/// `$at` gets a number.
fn number_in_at(alloc: Global, list: &mut Vec<Line>, number: u32) -> Result<(), Memory>
    ensures { OnOk result (list.new.items ≡ list.old.items ++ in_at number) }
{
    let at = Reg::new(AT);
    alone(alloc, list, Mips::Lui(at, Bits::new(number / 65536)))?;
    alone(alloc, list, Mips::Ori(at, at, Bits::new(number % 65536)))
}

/// A register gets `$sp` and a number of bytes.
pub fn above_stack(alloc: Global, list: &mut Vec<Line>, to: Reg, number: u32) -> Result<(), Memory>
    ensures { OnOk result (list.new.items ≡ list.old.items ++ lines_above_stack to number) }
{
    if number < 32768 {
        return alone(alloc, list, Mips::Addiu(to, Reg::SP, Bits::new(number)));
    }
    number_in_at(alloc, list, number)?;
    alone(alloc, list, Mips::Addu(to, Reg::SP, Reg::new(AT)))
}

/// Takes a frame's bytes from `$sp`.
fn lower_stack(alloc: Global, list: &mut Vec<Line>, number: u32) -> Result<(), Memory>
    requires { 0 < number }
    ensures { OnOk result (list.new.items ≡ list.old.items ++ lowered number) }
{
    if number <= 32768 {
        return alone(
            alloc,
            list,
            Mips::Addiu(Reg::SP, Reg::SP, Bits::new(65536 - number)),
        );
    }
    number_in_at(alloc, list, number)?;
    alone(alloc, list, Mips::Subu(Reg::SP, Reg::SP, Reg::new(AT)))
}

/// A function's entry: its label, its frame, and the probe of the frame's lowest word.
pub fn entry(alloc: Global, list: &mut Vec<Line>, label: Label, size: u32) -> Result<(), Memory>
    requires { 0 < size }
    ensures lines { OnOk result (list.new.items ≡ list.old.items ++ entry_lines label.0 size) }
    ensures fits { label.0 < 2 ^ 32 }
{
    push(list, Line::Label(names::function(alloc, label)?))?;
    lower_stack(alloc, list, size)?;
    alone(alloc, list, Mips::Lw(Reg::ZERO, Bits::new(0), Reg::SP))
}

/// `$at` gets `$sp` and the upper part of an offset, so that a field of 16 bits reaches the rest.
fn near_in_at(alloc: Global, list: &mut Vec<Line>, offset: u32) -> Result<(), Memory>
    requires { offset < 2 ^ 31 }
    ensures { OnOk result (list.new.items ≡
        list.old.items
        ++ alone_line (Lui 1 ((offset + 32768) / 65536)) ∷ alone_line (Addu 1 1 29) ∷ []) }
{
    let at = Reg::new(AT);
    alone(
        alloc,
        list,
        Mips::Lui(at, Bits::new((offset + 32768) / 65536)),
    )?;
    alone(alloc, list, Mips::Addu(at, at, Reg::SP))
}

/// Loads a word at an offset from `$sp`.
pub fn load(alloc: Global, list: &mut Vec<Line>, to: Reg, offset: u32) -> Result<(), Memory>
    requires { offset < 2 ^ 31 }
    ensures { OnOk result (list.new.items ≡ list.old.items ++ load_at to offset) }
{
    if offset < 32768 {
        return alone(alloc, list, Mips::Lw(to, Bits::new(offset), Reg::SP));
    }
    near_in_at(alloc, list, offset)?;
    alone(
        alloc,
        list,
        Mips::Lw(to, Bits::new(offset % 65536), Reg::new(AT)),
    )
}

/// Stores a word at an offset from `$sp`.
pub fn store(alloc: Global, list: &mut Vec<Line>, from: Reg, offset: u32) -> Result<(), Memory>
    requires { offset < 2 ^ 31 }
    ensures { OnOk result (list.new.items ≡ list.old.items ++ store_at from offset) }
{
    if offset < 32768 {
        return alone(alloc, list, Mips::Sw(from, Bits::new(offset), Reg::SP));
    }
    near_in_at(alloc, list, offset)?;
    alone(
        alloc,
        list,
        Mips::Sw(from, Bits::new(offset % 65536), Reg::new(AT)),
    )
}
