ghost use Rattle.std.specs.Prelude.{◌≡◌, ◌<◌, IfOk};
ghost use Rattle.std.specs.declared.result.Result.TheVariants.{Ok};
ghost use Rattle.tg_tree.specs.glue.Plain.{plain_ts};
ghost use Rattle.tg_canon.specs.glue.Views.{plain_opened};

use std::alloc::Global;
use tg_base::{Memory, Temp, keep_with};
use tg_tree::{Cond, Stms, Ts, Tx};

/// A statement with each part in a box of its own.
#[derive(Drop)]
pub(crate) enum Opened {
    Move(Temp, Box<Tx>),
    Store(Box<Tx>, Box<Tx>),
    StoreByte(Box<Tx>, Box<Tx>),
    Do(Box<Tx>),
    If(Box<Cond>, Box<Ts>, Box<Ts>),
    Loop(Box<Ts>),
    Break(u32),
    Fault(u32),
    Seq(Stms),
    Return(Box<Tx>),
}

fn boxed(alloc: Global, x: Tx, y: Tx) -> Result<(Box<Tx>, Box<Tx>), Memory>
    ensures { IfOk result (λ both. (both.0.value ≡ x) × (both.1.value ≡ y)) }
{
    let (y, x) = keep_with(y, Box::new(alloc, x))?;
    let y = Box::new(alloc, y)?;
    Ok((x, y))
}

/// A statement's parts, where they may be nested so deep.
#[inline(never)]
pub(crate) fn parts_of(alloc: Global, s: Box<Ts>, height: u32) -> Result<Opened, Memory>
    ensures parts { IfOk result (λ o. plain_opened o ≡ plain_ts s.value) }
    ensures room { IfOk result (λ o. 0 < height) }
{
    if height == 0 {
        return Err(Memory);
    }
    match Box::into_inner(s) {
        Ts::Move(temp, x) => Ok(Opened::Move(temp, Box::new(alloc, x)?)),
        Ts::Store(x, y) => {
            let (x, y) = boxed(alloc, x, y)?;
            Ok(Opened::Store(x, y))
        }
        Ts::StoreByte(x, y) => {
            let (x, y) = boxed(alloc, x, y)?;
            Ok(Opened::StoreByte(x, y))
        }
        Ts::Do(x) => Ok(Opened::Do(Box::new(alloc, x)?)),
        Ts::If(test, this, other) => Ok(Opened::If(Box::new(alloc, test)?, this, other)),
        Ts::Loop(s) => Ok(Opened::Loop(s)),
        Ts::Break(loops) => Ok(Opened::Break(loops)),
        Ts::Fault(number) => Ok(Opened::Fault(number)),
        Ts::Seq(ss) => Ok(Opened::Seq(ss)),
        Ts::Return(x) => Ok(Opened::Return(Box::new(alloc, x)?)),
    }
}

/// What is held, beside what was made after it, where it was made.
#[inline(never)]
pub(crate) fn beside<T: Drop, U: Drop>(
    held: Box<T>,
    made: Result<Box<U>, Memory>,
) -> Result<(Box<T>, Box<U>), Memory>
    ensures { IfOk result (λ x. (x.0 ≡ held) × (made ≡ Ok x.1)) }
{
    match made {
        Ok(one) => Ok((held, one)),
        Err(fault) => Err(fault),
    }
}
