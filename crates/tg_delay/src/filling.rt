ghost use Rattle.std.specs.Prelude.{◌≡◌, ◌≤◌, ◌++◌, ◌∷◌, ℕ, List, IfOk, drop, length};
ghost use Rattle.tg_emit.specs.declared.assembly.Line.{Line as LineOf};
ghost use Rattle.tg_emit.specs.declared.assembly.Line.TheVariants.{One};
ghost use Rattle.tg_delay.specs.Filling.{filled};
ghost use Rattle.tg_delay.specs.mirror.Walks.{is_moved, takes_slot};

use crate::lines::{push, push_same};
use crate::rows::{controls, movable};
use std::alloc::Global;
use tg_base::{Bytes, Memory};
use tg_emit::Line;
use tg_isa::{Bits, Mips, Reg};

/// Lines with a delay slot behind each jump and branch.
pub fn fill(alloc: Global, lines: &[Line]) -> Result<Vec<Line>, Memory>
    ensures { IfOk result (λ list. list.items ≡ filled lines.now) }
{
    let mut list = Vec::new(alloc);
    let mut at = 0;
    while at < lines.len() {
        at += 1 + put_first(alloc, &mut list, &lines[at], &lines[at + 1..])?;
    }
    Ok(list)
}

/// Puts the first of some lines at the end, with its slot where it takes one, or behind the next
/// one, in whose slot it stands then. Answers how many lines of the rest it put.
fn put_first(
    alloc: Global,
    list: &mut Vec<Line>,
    first: &Line,
    rest: &[Line],
) -> Result<usize, Memory>
    ensures within { IfOk result (λ n. n ≤ length rest.now) }
    ensures lines { IfOk result (λ n. list.new.items ++ filled (drop n rest.now)
        ≡ list.old.items ++ filled (first.now ∷ rest.now)) }
{
    if is_moved(first, rest) {
        push_same(alloc, list, &rest[0])?;
        push_same(alloc, list, first)?;
        return Ok(1);
    }
    push_same(alloc, list, first)?;
    if takes_slot(first) {
        let nop = Mips::Sll(Reg::ZERO, Reg::ZERO, Bits::new(0));
        push(list, Line::One(nop, Bytes::from_vec(Vec::new(alloc))))?;
    }
    Ok(0)
}

/// Whether the first of some lines goes into the slot of the next one.
fn is_moved(first: &Line, rest: &[Line]) -> bool
    ensures { result ≡ is_moved first.now rest.now }
{
    match rest {
        [next, ..] => is_moved_behind(first, next),
        [] => false,
    }
}

fn is_moved_behind(first: &Line, next: &Line) -> bool
    ensures { (rest : List LineOf) → result ≡ is_moved first.now (next.now ∷ rest) }
{
    match first {
        Line::One(one, _) => is_movable_behind(one, next),
        _ => false,
    }
}

fn is_movable_behind(one: &Mips, next: &Line) -> bool
    ensures { (target : List ℕ) (rest : List LineOf) →
        result ≡ is_moved (One one.now target) (next.now ∷ rest) }
{
    match next {
        Line::One(other, _) => movable(one, other),
        _ => false,
    }
}

fn takes_slot(line: &Line) -> bool
    ensures { result ≡ takes_slot line.now }
{
    match line {
        Line::One(one, _) => controls(one),
        _ => false,
    }
}
