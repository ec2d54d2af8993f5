ghost use Rattle.std.specs.Prelude.{OnOk};
ghost use Rattle.tg_tree.specs.glue.Plain.{plain_tx, plain_cond};
ghost use Rattle.tg_tree.specs.Tree as tree;
ghost use Rattle.tg_trace_schedule.specs.glue.Plains.{Cuts};
ghost use Rattle.tg_trace_schedule.specs.mirror.Cutting as cutting;

use crate::cuts::{Cut, open_at, seal};
use crate::flows::End;
use std::alloc::Global;
use tg_base::Memory;
use tg_tree::{Cond, Rel, Tx};

/// Cuts a condition, by the marks where it leads where it holds and where it doesn't.
#[inline(never)]
pub(crate) fn branch(
    alloc: Global,
    cut: &mut Cut,
    test: Cond,
    yes: u32,
    no: u32,
) -> Result<(), Memory>
    ensures { OnOk result (Cuts cut.old cut.new (cutting.branch (plain_cond test) yes no)) }
{
    match test {
        Cond::Compare(rel, left, right) => {
            branch_compare(cut, rel, left, right, yes, no);
            Ok(())
        }
        Cond::Not(test) => branch(alloc, cut, Box::into_inner(test), no, yes),
        Cond::Both(first, second) => {
            branch(alloc, cut, Box::into_inner(second), yes, no)?;
            let next = seal(alloc, cut)?;
            branch(alloc, cut, Box::into_inner(first), next, no)
        }
        Cond::Either(first, second) => {
            branch(alloc, cut, Box::into_inner(second), yes, no)?;
            let next = seal(alloc, cut)?;
            branch(alloc, cut, Box::into_inner(first), yes, next)
        }
    }
}

/// Cuts a comparison.
#[inline(never)]
fn branch_compare(cut: &mut Cut, rel: Rel, left: Box<Tx>, right: Box<Tx>, yes: u32, no: u32)
    ensures { Cuts cut.old cut.new (cutting.branch
        (tree.Compare rel (plain_tx left.value) (plain_tx right.value)) yes no) }
{
    let left = Box::into_inner(left);
    let right = Box::into_inner(right);
    open_at(cut, End::Branch(rel, left, right, yes, no));
}
