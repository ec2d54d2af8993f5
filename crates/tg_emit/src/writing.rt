// Literals are written as `.byte`s, their length and padding among them, so that any byte can
// stand in them and nothing has to be escaped.

ghost use Rattle.std.specs.Prelude.{◌≡◌, ◌++◌, ◌∷◌, [], IsTrue, IfOk, OnOk};
ghost use Rattle.std.specs.List.{list_all};
ghost use Rattle.tg_asm_text.specs.Operands.{is_label};
ghost use Rattle.tg_asm_text.specs.Writing.{takes_label, line_of};
ghost use Rattle.tg_emit.specs.declared.assembly.Line.TheVariants.{Label};
ghost use Rattle.tg_emit.specs.Conditions.{has_labels};
ghost use Rattle.tg_emit.specs.mirror.Text.{
  bytes_text,
  further_numbers,
  is_in_statics,
  line_text,
  switched,
  text_of,
};

use crate::assembly::{Assembly, Line};
use crate::names::push_decimal;
use std::alloc::Global;
use std::str::from_utf8;
use tg_asm_text::line;
use tg_base::Memory;
use tg_isa::{Mips, name};

/// The text of an assembly: a line for each, and a directive where the segment changes.
pub fn text(alloc: Global, assembly: &Assembly) -> Result<Vec<u8>, Memory>
    requires { IsTrue (list_all has_labels assembly.now) }
    ensures { IfOk result (λ text. text.items ≡ text_of assembly.now) }
{
    let mut text = Vec::from_slice(alloc, b"\t.text\n\t.globl main\n")?;
    let mut before = false;
    let lines = assembly.as_slice();
    for at in 0..lines.len() {
        let now = stands_in_statics(&lines[at], &lines[at + 1..]);
        switch(&mut text, before, now)?;
        put_line(alloc, &mut text, &lines[at])?;
        text.push(b'\n')?;
        before = now;
    }
    Ok(text)
}

/// Whether the first of some lines stands in the statics.
fn stands_in_statics(first: &Line, rest: &[Line]) -> bool
    ensures { result ≡ is_in_statics first.now rest.now }
{
    match first {
        Line::Statics(_) => true,
        Line::Label(_) => begins_with_bytes(rest),
        _ => false,
    }
}

fn begins_with_bytes(lines: &[Line]) -> bool
    ensures { result ≡ is_in_statics (Label []) lines.now }
{
    match lines {
        [first, ..] => is_bytes(first),
        [] => false,
    }
}

fn is_bytes(line: &Line) -> bool
    ensures { result ≡ is_in_statics (Label []) (line.now ∷ []) }
{
    match line {
        Line::Statics(_) => true,
        _ => false,
    }
}

/// Puts the directive at the end that stands between two lines.
fn switch(text: &mut Vec<u8>, from: bool, to: bool) -> Result<(), Memory>
    ensures { OnOk result (text.new.items ≡ text.old.items ++ switched from to) }
{
    if !from && to {
        text.extend_from_slice(b"\t.data\n")?;
    } else if from && !to {
        text.extend_from_slice(b"\t.text\n")?;
    }
    Ok(())
}

/// Puts a line at the end, without its newline.
pub fn put_line(alloc: Global, text: &mut Vec<u8>, one: &Line) -> Result<(), Memory>
    requires { IsTrue (has_labels one.now) }
    ensures { OnOk result (text.new.items ≡ text.old.items ++ line_text one.now) }
{
    match one {
        Line::Label(name) => {
            text.extend_from_slice(name.as_slice())?;
            text.push(b':')?;
        }
        Line::One(row, target) => {
            text.push(b'\t')?;
            text.extend_from_slice(row_line(alloc, row, target.as_slice())?.as_slice())?;
        }
        Line::La(register, target) => {
            text.extend_from_slice(b"\tla ")?;
            text.extend_from_slice(name(*register).as_bytes())?;
            text.extend_from_slice(b", ")?;
            text.extend_from_slice(target.as_slice())?;
        }
        Line::Statics(bytes) => put_bytes(text, bytes.as_slice())?,
    }
    Ok(())
}

/// The line of an instruction, with its label where its form takes one.
fn row_line(alloc: Global, one: &Mips, target: &[u8]) -> Result<Vec<u8>, Memory>
    requires { IsTrue (takes_label one.now) → IsTrue (is_label target.now) }
    ensures { IfOk result (λ l. l.items ≡ line_of one.now target.now) }
{
    line(alloc, one, label_text(target))
}

/// The text of a label.
fn label_text(label: &[u8]) -> &str
    ensures { IsTrue (is_label label.now) → result.now ≡ label.now }
{
    match from_utf8(label) {
        Ok(text) => text,
        Err(_) => "",
    }
}

/// Puts the directive of some bytes at the end.
fn put_bytes(text: &mut Vec<u8>, bytes: &[u8]) -> Result<(), Memory>
    ensures { OnOk result (text.new.items ≡ text.old.items ++ bytes_text bytes.now) }
{
    match bytes {
        [] => text.extend_from_slice(b"\t.space 0")?,
        [first, rest @ ..] => {
            text.extend_from_slice(b"\t.byte ")?;
            push_decimal(text, *first as u32)?;
            put_further(text, rest)?;
        }
    }
    Ok(())
}

/// Puts numbers after others.
fn put_further(text: &mut Vec<u8>, bytes: &[u8]) -> Result<(), Memory>
    ensures { OnOk result (text.new.items ≡ text.old.items ++ further_numbers bytes.now) }
{
    for &byte in bytes.iter() {
        text.extend_from_slice(b", ")?;
        push_decimal(text, byte as u32)?;
    }
    Ok(())
}
