ghost use Rattle.std.specs.Prelude.{◌≡◌, ◌≤◌, ◌++◌, IfOk, OnOk};
ghost use Rattle.tg_delay.specs.Filling.{around_name, branches_in, turned_round};
ghost use Rattle.tg_delay.specs.mirror.Walks.{branches_of, turned_line};

use crate::lines::{push, push_same, same_bytes};
use crate::rows::{branches, opposite};
use itoa::Buffer;
use std::alloc::Global;
use tg_base::{Bytes, Memory};
use tg_emit::Line;
use tg_isa::{Bits, Mips};

/// Lines with each branch turned round over a jump.
pub fn turn_round(alloc: Global, lines: &[Line]) -> Result<Vec<Line>, Memory>
    ensures { IfOk result (λ list. list.items ≡ turned_round lines.now) }
{
    let mut list = Vec::new(alloc);
    let mut behind = count_branches(lines);
    for line in lines.iter() {
        behind -= branches_of(line);
        put_turned(alloc, &mut list, line, behind)?;
    }
    Ok(list)
}

fn count_branches(lines: &[Line]) -> usize
    ensures { result ≡ branches_in lines.now }
{
    let mut count = 0;
    for line in lines.iter() {
        count += branches_of(line);
    }
    count
}

fn branches_of(line: &Line) -> usize
    ensures count { result ≡ branches_of line.now }
    ensures most { result ≤ 1 }
{
    match line {
        Line::One(one, _) if branches(one) => 1,
        _ => 0,
    }
}

/// Puts a line at the end that stands in front of so many branches; a branch is turned round.
fn put_turned(alloc: Global, list: &mut Vec<Line>, line: &Line, behind: usize) -> Result<(), Memory>
    ensures { OnOk result (list.new.items ≡ list.old.items ++ turned_line behind line.now) }
{
    match line {
        Line::One(one, target) if branches(one) => {
            push(list, Line::One(opposite(one), around(alloc, behind)?))?;
            let there = same_bytes(alloc, target)?;
            push(list, Line::One(Mips::J(Bits::new(0)), there))?;
            push(list, Line::Label(around(alloc, behind)?))
        }
        _ => push_same(alloc, list, line),
    }
}

/// The label behind a branch that is turned round, in front of so many branches.
fn around(alloc: Global, behind: usize) -> Result<Bytes, Memory>
    ensures { IfOk result (λ name. name ≡ around_name behind) }
{
    let mut name = Vec::from_slice(alloc, b"b")?;
    let mut digits = Buffer::new();
    name.extend_from_slice(digits.format(behind).as_bytes())?;
    Ok(Bytes::from_vec(name))
}
