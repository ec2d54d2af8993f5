ghost use Rattle.std.specs.Prelude.{◌≡◌, ◌∷◌, [], ◌++◌, OnOk};
ghost use Rattle.tg_tree.specs.glue.Plain.{plain_tx, plain_linear};
ghost use Rattle.tg_tree.specs.glue.Lists.{stms_of, code_of};
ghost use Rattle.tg_trace_schedule.specs.glue.Plains.{plain_end, plain_block};
ghost use Rattle.tg_trace_schedule.specs.mirror.Laying as laying;

use crate::flows::{Block, End};
use tg_base::Memory;
use tg_tree::{Linear, Rel, Stms, Tx, opposite};

/// Puts a block's code at the end, by the block that comes next.
pub(crate) fn put_block(
    code: &mut Vec<Linear>,
    place: u32,
    next: Option<u32>,
    block: Block,
) -> Result<(), Memory>
    ensures { OnOk result (code_of code.new.items ≡
        code_of code.old.items ++ laying.block_code place next (plain_block block)) }
{
    let Block { body, end } = block;
    put(code, Linear::Mark(place))?;
    put_body(code, body)?;
    put_end(code, next, end)?;
    Ok(())
}

/// Puts an element at the end.
fn put(code: &mut Vec<Linear>, one: Linear) -> Result<(), Memory>
    ensures { OnOk result (code_of code.new.items ≡
        code_of code.old.items ++ plain_linear one ∷ []) }
{
    code.push(one)?;
    Ok(())
}

fn put_body(code: &mut Vec<Linear>, body: Stms) -> Result<(), Memory>
    ensures { OnOk result (code_of code.new.items ≡
        code_of code.old.items ++ laying.body_code (stms_of body.items.items)) }
{
    let mut rest = body.items;
    rest.reverse();
    while let Some(statement) = rest.pop() {
        put(code, Linear::Do(statement))?;
    }
    Ok(())
}

/// Puts an end.
fn put_end(code: &mut Vec<Linear>, next: Option<u32>, end: End) -> Result<(), Memory>
    ensures { OnOk result (code_of code.new.items ≡
        code_of code.old.items ++ laying.end_code next (plain_end end)) }
{
    match end {
        End::Jump(place) => put_jump(code, next, place),
        End::Branch(rel, left, right, yes, no) => {
            put_branch(code, next, rel, left, right, yes, no)
        }
        End::Fault(number) => put(code, Linear::Fault(number)),
        End::Return(value) => put(code, Linear::Return(value)),
    }
}

/// Puts a jump, unless it leads to what comes next.
fn put_jump(code: &mut Vec<Linear>, next: Option<u32>, place: u32) -> Result<(), Memory>
    ensures { OnOk result (code_of code.new.items ≡
        code_of code.old.items ++ laying.jump_unless (laying.is_next next place) place) }
{
    if is_next(next, place) {
        return Ok(());
    }
    put(code, Linear::Jump(place))
}

/// Puts a branch, which is turned round in front of its true side.
fn put_branch(
    code: &mut Vec<Linear>,
    next: Option<u32>,
    rel: Rel,
    left: Tx,
    right: Tx,
    yes: u32,
    no: u32,
) -> Result<(), Memory>
    ensures { OnOk result (code_of code.new.items ≡ code_of code.old.items ++
        laying.branch_by (laying.is_next next yes) next rel (plain_tx left) (plain_tx right)
        yes no) }
{
    if is_next(next, yes) {
        return put(code, Linear::Branch(opposite(rel), left, right, no));
    }
    put(code, Linear::Branch(rel, left, right, yes))?;
    put_jump(code, next, no)?;
    Ok(())
}

/// Whether this block comes next.
fn is_next(next: Option<u32>, place: u32) -> bool
    ensures { result ≡ laying.is_next next place }
{
    match next {
        Some(next) => next == place,
        None => false,
    }
}
