ghost use Rattle.std.specs.Prelude.{◌≡◌, ◌<◌, ◌≤◌, ◌-◌, ◌∷◌, [], ◌++◌, OnOk, codes};
ghost use Rattle.std.specs.Fmt.{decimal};
ghost use Rattle.tg_show.specs.Flat.{mark_text};
ghost use Rattle.tg_show.specs.Instructions as instructions;

use crate::layouts::put_blanks;
use crate::runs::{put_operand, put_operands};
use crate::trees::{put_comma, put_end};
use crate::words::{put, put_byte, put_number, put_numbered, rel_word};
use std::alloc::Global;
use tg_base::{Bytes, Memory};
use tg_instr::{Instr, Opnd, Test};
use tg_isa::Bits;

/// Puts the lines of instructions at the end: each with the operands that it defines and uses.
pub fn put_instructions(
    alloc: Global,
    text: &mut Vec<u8>,
    names: &[Bytes],
    list: &[Instr],
) -> Result<(), Memory>
    ensures { OnOk result (text.new.items
        ≡ text.old.items ++ instructions.instruction_lines names.now list.now) }
{
    for one in list {
        put_instruction_line(alloc, text, names, one)?;
    }
    Ok(())
}

fn put_instruction_line(
    alloc: Global,
    text: &mut Vec<u8>,
    names: &[Bytes],
    one: &Instr,
) -> Result<(), Memory>
    ensures { OnOk result (text.new.items
        ≡ text.old.items ++ instructions.instruction_line names.now one.now) }
{
    put_blanks(text, instruction_margin(one))?;
    put_instruction(text, names, one)?;
    let defs = one.defs(alloc);
    put_told(text, names, b"  # defines", defs.as_slice())?;
    let uses = one.uses(alloc);
    put_told(text, names, b"  # uses", uses.as_slice())?;
    put_byte(text, b'\n')
}

/// The margin of an instruction's line.
pub fn instruction_margin(one: &Instr) -> usize
    ensures { result ≡ instructions.instruction_margin one.now }
{
    match one {
        Instr::Mark(_) => 1,
        _ => 2,
    }
}

/// Puts operands at the end behind a word, where there are any.
pub fn put_told(
    text: &mut Vec<u8>,
    names: &[Bytes],
    word: &[u8],
    operands: &[Opnd],
) -> Result<(), Memory>
    ensures { OnOk result (text.new.items
        ≡ text.old.items ++ instructions.told names.now word.now operands.now) }
{
    if operands.is_empty() {
        return Ok(());
    }
    text.extend_from_slice(word)?;
    put_operands(text, names, operands)
}

/// Puts the text of an instruction at the end.
pub fn put_instruction(text: &mut Vec<u8>, names: &[Bytes], one: &Instr) -> Result<(), Memory>
    ensures { OnOk result (text.new.items
        ≡ text.old.items ++ instructions.instruction_text names.now one.now) }
{
    match one {
        Instr::Sll(rd, rt, n) => put_and_number(text, names, b"sll ", *rd, *rt, n.get()),
        Instr::Srl(rd, rt, n) => put_and_number(text, names, b"srl ", *rd, *rt, n.get()),
        Instr::Sra(rd, rt, n) => put_and_number(text, names, b"sra ", *rd, *rt, n.get()),
        Instr::Mfhi(rd) => put_one(text, names, b"mfhi ", *rd),
        Instr::Mflo(rd) => put_one(text, names, b"mflo ", *rd),
        Instr::Mult(rs, rt) => put_two(text, names, b"mult ", *rs, *rt),
        Instr::Div(rs, rt) => put_two(text, names, b"div ", *rs, *rt),
        Instr::Add(rd, rs, rt) => put_three(text, names, b"add ", *rd, *rs, *rt),
        Instr::Sub(rd, rs, rt) => put_three(text, names, b"sub ", *rd, *rs, *rt),
        Instr::Addu(rd, rs, rt) => put_three(text, names, b"addu ", *rd, *rs, *rt),
        Instr::Subu(rd, rs, rt) => put_three(text, names, b"subu ", *rd, *rs, *rt),
        Instr::And(rd, rs, rt) => put_three(text, names, b"and ", *rd, *rs, *rt),
        Instr::Or(rd, rs, rt) => put_three(text, names, b"or ", *rd, *rs, *rt),
        Instr::Xor(rd, rs, rt) => put_three(text, names, b"xor ", *rd, *rs, *rt),
        Instr::Nor(rd, rs, rt) => put_three(text, names, b"nor ", *rd, *rs, *rt),
        Instr::Slt(rd, rs, rt) => put_three(text, names, b"slt ", *rd, *rs, *rt),
        Instr::Sltu(rd, rs, rt) => put_three(text, names, b"sltu ", *rd, *rs, *rt),
        Instr::Addi(rt, rs, n) => put_and_signed(text, names, b"addi ", *rt, *rs, *n),
        Instr::Addiu(rt, rs, n) => put_and_signed(text, names, b"addiu ", *rt, *rs, *n),
        Instr::Slti(rt, rs, n) => put_and_signed(text, names, b"slti ", *rt, *rs, *n),
        Instr::Sltiu(rt, rs, n) => put_and_signed(text, names, b"sltiu ", *rt, *rs, *n),
        Instr::Andi(rt, rs, n) => put_and_number(text, names, b"andi ", *rt, *rs, n.get()),
        Instr::Ori(rt, rs, n) => put_and_number(text, names, b"ori ", *rt, *rs, n.get()),
        Instr::Xori(rt, rs, n) => put_and_number(text, names, b"xori ", *rt, *rs, n.get()),
        Instr::Lui(rt, n) => put_upper(text, names, *rt, n.get()),
        Instr::Lb(rt, n, rs) => put_memory(text, names, b"lb ", *rt, *n, *rs),
        Instr::Lbu(rt, n, rs) => put_memory(text, names, b"lbu ", *rt, *n, *rs),
        Instr::Lw(rt, n, rs) => put_memory(text, names, b"lw ", *rt, *n, *rs),
        Instr::Sb(rt, n, rs) => put_memory(text, names, b"sb ", *rt, *n, *rs),
        Instr::Sw(rt, n, rs) => put_memory(text, names, b"sw ", *rt, *n, *rs),
        Instr::Move(to, from) => put_two(text, names, b"move ", *to, *from),
        Instr::FrameLoad(to, slot) => put_slot(text, names, b"load ", *to, *slot),
        Instr::FrameStore(from, slot) => put_slot(text, names, b"store ", *from, *slot),
        Instr::FrameAddress(to) => put_one(text, names, b"frame ", *to),
        Instr::Address(to, label) => put_address(text, names, *to, label.0),
        Instr::Mark(mark) => put_mark(text, *mark),
        Instr::Jump(mark) => put_numbered(text, b"j .", *mark),
        Instr::Branch(test, mark) => put_test(text, names, test, *mark),
        Instr::Call(label) => put_numbered(text, b"jal f", label.0),
        Instr::Service => put(text, b"syscall"),
        Instr::Fault(code) => put_numbered(text, b"break ", *code),
        Instr::Return => put(text, b"return"),
    }
}

/// Puts a field of 16 bits at the end, with its sign.
fn put_signed(text: &mut Vec<u8>, field: Bits<16>) -> Result<(), Memory>
    ensures { OnOk result (text.new.items ≡ text.old.items ++ instructions.signed_text field) }
{
    let value = field.get();
    if value < 32768 {
        return put_number(text, value);
    }
    text.push(b'-')?;
    put_number(text, 65536 - value)
}

fn put_one(text: &mut Vec<u8>, names: &[Bytes], word: &[u8], only: Opnd) -> Result<(), Memory>
    ensures { OnOk result (text.new.items
        ≡ text.old.items ++ instructions.one_operand names.now word.now only) }
{
    text.extend_from_slice(word)?;
    put_operand(text, names, only)
}

fn put_two(
    text: &mut Vec<u8>,
    names: &[Bytes],
    word: &[u8],
    first: Opnd,
    second: Opnd,
) -> Result<(), Memory>
    ensures { OnOk result (text.new.items
        ≡ text.old.items ++ instructions.two_operands names.now word.now first second) }
{
    text.extend_from_slice(word)?;
    put_operand(text, names, first)?;
    put_comma(text)?;
    put_operand(text, names, second)
}

fn put_three(
    text: &mut Vec<u8>,
    names: &[Bytes],
    word: &[u8],
    first: Opnd,
    second: Opnd,
    third: Opnd,
) -> Result<(), Memory>
    ensures { OnOk result (text.new.items
        ≡ text.old.items ++ instructions.three_operands names.now word.now first second third) }
{
    put_two(text, names, word, first, second)?;
    put_comma(text)?;
    put_operand(text, names, third)
}

fn put_and_number(
    text: &mut Vec<u8>,
    names: &[Bytes],
    word: &[u8],
    first: Opnd,
    second: Opnd,
    number: u32,
) -> Result<(), Memory>
    ensures { OnOk result (text.new.items
        ≡ text.old.items ++ instructions.and_number names.now word.now first second number) }
{
    put_two(text, names, word, first, second)?;
    put_comma(text)?;
    put_number(text, number)
}

fn put_and_signed(
    text: &mut Vec<u8>,
    names: &[Bytes],
    word: &[u8],
    first: Opnd,
    second: Opnd,
    field: Bits<16>,
) -> Result<(), Memory>
    ensures { OnOk result (text.new.items
        ≡ text.old.items ++ instructions.and_signed names.now word.now first second field) }
{
    put_two(text, names, word, first, second)?;
    put_comma(text)?;
    put_signed(text, field)
}

/// Puts a word, an operand, and memory so many bytes after another at the end.
fn put_memory(
    text: &mut Vec<u8>,
    names: &[Bytes],
    word: &[u8],
    first: Opnd,
    field: Bits<16>,
    base: Opnd,
) -> Result<(), Memory>
    ensures { OnOk result (text.new.items
        ≡ text.old.items ++ instructions.with_memory names.now word.now first field base) }
{
    put_one(text, names, word, first)?;
    put_comma(text)?;
    put_signed(text, field)?;
    put_one(text, names, b"(", base)?;
    put_end(text)
}

fn put_slot(
    text: &mut Vec<u8>,
    names: &[Bytes],
    word: &[u8],
    first: Opnd,
    slot: u32,
) -> Result<(), Memory>
    ensures { OnOk result (text.new.items
        ≡ text.old.items ++ instructions.with_slot names.now word.now first slot) }
{
    put_one(text, names, word, first)?;
    put_comma(text)?;
    put_numbered(text, b"slot ", slot)
}

fn put_upper(text: &mut Vec<u8>, names: &[Bytes], to: Opnd, number: u32) -> Result<(), Memory>
    ensures { OnOk result (text.new.items
        ≡ text.old.items ++ instructions.upper_text names.now to number) }
{
    put_one(text, names, b"lui ", to)?;
    put_comma(text)?;
    put_number(text, number)
}

fn put_address(text: &mut Vec<u8>, names: &[Bytes], to: Opnd, label: u32) -> Result<(), Memory>
    ensures { OnOk result (text.new.items
        ≡ text.old.items ++ instructions.address_text names.now to label) }
{
    put_one(text, names, b"la ", to)?;
    put_comma(text)?;
    put_numbered(text, b"s", label)
}

fn put_mark(text: &mut Vec<u8>, mark: u32) -> Result<(), Memory>
    ensures { OnOk result (text.new.items ≡ text.old.items ++ (mark_text mark ++ codes ":")) }
{
    put_numbered(text, b".", mark)?;
    put_byte(text, b':')
}

fn put_test(text: &mut Vec<u8>, names: &[Bytes], test: &Test, mark: u32) -> Result<(), Memory>
    ensures { OnOk result (text.new.items
        ≡ text.old.items ++ instructions.test_text names.now test.now mark) }
{
    text.extend_from_slice(b"branch ")?;
    text.extend_from_slice(rel_word(test.rel))?;
    put_two(text, names, b" ", test.left, test.right)?;
    put_comma(text)?;
    put_numbered(text, b".", mark)
}
