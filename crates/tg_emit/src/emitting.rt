// Code above 32,000 words has all its branches turned round, each over a jump, so no branch has
// to know how far it leads.

ghost use Rattle.std.specs.Prelude.{◌≡◌, ◌++◌, ◌<◌, ◌^◌, IsTrue, IfOk, OnOk, nat_lt};
ghost use Rattle.std.specs.List.{All, list_all};
ghost use Rattle.tg_emit.specs.Ranges.{FunctionFits, LiteralFits};
ghost use Rattle.tg_emit.specs.Conditions.{is_emittable};
ghost use Rattle.tg_machine_state.specs.State.{padded};
ghost use Rattle.tg_emit.specs.mirror.Lines.{
  assembly_of,
  functions_lines,
  literal_lines,
  literals_lines,
  words,
  words_of as words_of_line,
};

use crate::assembly::{Assembly, Line};
use crate::bodies::function;
use crate::frames::push;
use crate::names;
use std::alloc::Global;
use tg_base::{Bytes, Memory};
use tg_instr::Allocated;
use tg_tree::Literal;

/// The words of code up to which each branch is one row; in longer code each is turned round over a
/// jump, since a branch reaches 32,767 words.
const NEAR: usize = 32000;

/// The lines of a program's functions and literals, functions first, each in its order.
pub fn emit(
    alloc: Global,
    functions: &[Allocated],
    literals: &[Literal],
) -> Result<Assembly, Memory>
    requires { IsTrue (list_all is_emittable functions.now) }
    ensures lines { IfOk result (λ assembly. assembly ≡ assembly_of functions.now literals.now) }
    ensures functions { OnOk result (All FunctionFits functions.now) }
    ensures literals { OnOk result (All LiteralFits literals.now) }
{
    let near = bodies(alloc, functions, false)?;
    let mut list = if is_above(&near, NEAR) {
        bodies(alloc, functions, true)?
    } else {
        near
    };
    put_literals(alloc, &mut list, literals)?;
    Ok(Assembly::from_vec(list))
}

/// Whether the lines of functions are so many words of code that each branch in them is turned
/// round over a jump. They are the lines with no branch turned.
pub fn are_far(list: &[Line]) -> bool
    ensures { result ≡ nat_lt 32000 (words list.now) }
{
    is_above(list, NEAR)
}

fn bodies(alloc: Global, functions: &[Allocated], turned: bool) -> Result<Vec<Line>, Memory>
    requires { IsTrue (list_all is_emittable functions.now) }
    ensures lines { IfOk result (λ list. list.items ≡ functions_lines turned functions.now) }
    ensures fits { OnOk result (All FunctionFits functions.now) }
{
    let mut list = Vec::new(alloc);
    for one in functions.iter() {
        function(alloc, &mut list, turned, one)?;
    }
    Ok(list)
}

/// Whether lines are more words of code than so many.
fn is_above(list: &[Line], most: usize) -> bool
    ensures { result ≡ nat_lt most (words list.now) }
{
    let mut left = most;
    for line in list.iter() {
        let words = words_of(line);
        if left < words {
            return true;
        }
        left -= words;
    }
    false
}

fn words_of(line: &Line) -> usize
    ensures { result ≡ words_of_line line.now }
{
    match line {
        Line::One(_, _) => 1,
        Line::La(_, _) => 2,
        _ => 0,
    }
}

fn put_literals(alloc: Global, list: &mut Vec<Line>, literals: &[Literal]) -> Result<(), Memory>
    ensures lines { OnOk result (list.new.items ≡ list.old.items ++ literals_lines literals.now) }
    ensures fits { OnOk result (All LiteralFits literals.now) }
{
    for one in literals.iter() {
        put_literal(alloc, list, one)?;
    }
    Ok(())
}

fn put_literal(alloc: Global, list: &mut Vec<Line>, one: &Literal) -> Result<(), Memory>
    ensures lines { OnOk result (list.new.items ≡ list.old.items ++ literal_lines one.now) }
    ensures fits { OnOk result (LiteralFits one.now) }
{
    push(list, Line::Label(names::literal(alloc, one.label)?))?;
    push(
        list,
        Line::Statics(padded_bytes(alloc, one.text.as_slice())?),
    )
}

/// Bytes, padded to a multiple of 4.
fn padded_bytes(alloc: Global, bytes: &[u8]) -> Result<Bytes, Memory>
    ensures bytes { IfOk result (λ all. all ≡ padded bytes.now) }
    ensures fits { OnOk result (All (λ c. c < 2 ^ 8) bytes.now) }
{
    let mut all = Vec::from_slice(alloc, bytes)?;
    for _ in 0..(4 - bytes.len() % 4) % 4 {
        all.push(0)?;
    }
    Ok(Bytes::from_vec(all))
}
