ghost use Rattle.std.specs.Prelude.{◌≡◌, ◌<◌, ◌-◌, ◌^◌, OnErr, IfOk, [], length};
ghost use Rattle.tg_tree.specs.Named.{HasItsTemps, named_flat};
ghost use Rattle.tg_tree.specs.Shapes.{IsWellMarked};
ghost use Rattle.tg_tree.specs.glue.Lists.{code_of};
ghost use Rattle.tg_tree.specs.glue.Plain.{plain_linear, plain_function, plain_tx, plain_ts};
ghost use Rattle.tg_munch.specs.mirror.Bodies as bodies;

use crate::bodies::{KEPT, elements, keep, parameters};
use crate::drafts::{Draft, MOST_TEMPS};
use crate::expressions::MOST_ARGUMENTS;
use crate::finishing::finish;
use std::alloc::Global;
use tg_base::Memory;
use tg_frame::Frame;
use tg_instr::Code;
use tg_tree::{Linear, Ts, Tx};

/// The instructions of a function, by its flat code, whose temporaries its frame has drawn. Of the
/// frame `out` is set: the words at its low end for the arguments past the fourth of the calls that
/// the code makes.
pub fn munch(alloc: Global, code: &[Linear], frame: &mut Frame) -> Result<Code, Memory>
    requires marked { IsWellMarked (code_of code.now) }
    requires drawn { HasItsTemps (λ e. named_flat e [])
        (plain_function frame.old (code_of code.now)) }
    ensures code { IfOk result (λ c. c.list ≡
        (bodies.munched (plain_function frame.old (code_of code.now))).code) }
    ensures temps { IfOk result (λ c. c.temps ≡
        (bodies.munched (plain_function frame.old (code_of code.now))).drawn.temp) }
    ensures few { IfOk result (λ c. c.temps < 2 ^ 24) }
    ensures out { IfOk result (λ c. frame.new.out ≡ bodies.outs (code_of code.now)) }
    ensures label { frame.new.label ≡ frame.old.label }
    ensures params { frame.new.params ≡ frame.old.params }
    ensures slots { frame.new.slots ≡ frame.old.slots }
    ensures frame_temps { frame.new.temps ≡ frame.old.temps }
    ensures err { OnErr result (frame.new ≡ frame.old) }
{
    let mark = mark_above(code)?;
    let out = out_words(code)?;
    let draft = body(alloc, code, frame, mark)?;
    let made = finish(draft)?;
    frame.out = out;
    Ok(made)
}

fn body(alloc: Global, code: &[Linear], frame: &Frame, mark: u32) -> Result<Draft, Memory>
    requires { mark ≡ bodies.mark_above (code_of code.now) }
    ensures list { IfOk result (λ d. d.list.items ≡
        (bodies.munched (plain_function frame.now (code_of code.now))).code) }
    ensures temps { IfOk result (λ d. d.temp ≡
        (bodies.munched (plain_function frame.now (code_of code.now))).drawn.temp) }
{
    if frame.temps > MOST_TEMPS {
        return Err(Memory);
    }
    let mut draft = Draft::new(alloc, frame.temps, mark);
    keep(&mut draft, &KEPT)?;
    parameters(&mut draft, frame.params.as_slice())?;
    elements(&mut draft, frame.slots, frame.temps, code)?;
    Ok(draft)
}

/// The least mark above those of a code.
fn mark_above(code: &[Linear]) -> Result<u32, Memory>
    ensures { IfOk result (λ m. m ≡ bodies.mark_above (code_of code.now)) }
{
    let mut above = 0;
    for one in code {
        above = above.max(next_mark(one)?);
    }
    Ok(above)
}

/// The mark above that of an element.
fn next_mark(one: &Linear) -> Result<u32, Memory>
    ensures { IfOk result (λ m. m ≡ bodies.next_mark (plain_linear one.now)) }
{
    match one {
        Linear::Mark(mark) => if *mark < u32::MAX {
            Ok(*mark + 1)
        } else {
            Err(Memory)
        },
        Linear::Do(_) | Linear::Jump(_) | Linear::Branch(_, _, _, _) => Ok(0),
        Linear::Fault(_) | Linear::Return(_) => Ok(0),
    }
}

/// The words that a code needs at the low end of its frame.
fn out_words(code: &[Linear]) -> Result<u32, Memory>
    ensures { IfOk result (λ n. n ≡ bodies.outs (code_of code.now)) }
{
    let mut most = 0;
    for one in code {
        most = most.max(out_of_element(one)?);
    }
    Ok(most)
}

fn out_of_element(one: &Linear) -> Result<u32, Memory>
    ensures { IfOk result (λ n. n ≡ bodies.out_of_element (plain_linear one.now)) }
{
    match one {
        Linear::Do(s) => out_of_statement(s),
        Linear::Mark(_) | Linear::Jump(_) | Linear::Branch(_, _, _, _) => Ok(0),
        Linear::Fault(_) | Linear::Return(_) => Ok(0),
    }
}

fn out_of_statement(s: &Ts) -> Result<u32, Memory>
    ensures { IfOk result (λ n. n ≡ bodies.out_of_statement (plain_ts s.now)) }
{
    match s {
        Ts::Move(_, x) | Ts::Do(x) => out_of(x),
        Ts::Store(_, _) | Ts::StoreByte(_, _) | Ts::If(_, _, _) | Ts::Loop(_) => Ok(0),
        Ts::Break(_) | Ts::Fault(_) | Ts::Seq(_) | Ts::Return(_) => Ok(0),
    }
}

fn out_of(x: &Tx) -> Result<u32, Memory>
    ensures { IfOk result (λ n. n ≡ bodies.out_of (plain_tx x.now)) }
{
    match x {
        Tx::Call(_, items) => past_fourth(&items.items),
        Tx::Const(_) | Tx::Address(_) | Tx::Temp(_) | Tx::FrameAddress => Ok(0),
        Tx::Binary(_, _, _) | Tx::Load(_) | Tx::LoadByte(_) => Ok(0),
        Tx::Service(_, _) | Tx::After(_, _) => Ok(0),
    }
}

/// How many arguments are past the fourth.
fn past_fourth(arguments: &[Tx]) -> Result<u32, Memory>
    ensures { IfOk result (λ n. n ≡ length arguments.now - 4) }
{
    let count = arguments.len();
    if count > MOST_ARGUMENTS {
        return Err(Memory);
    }
    Ok((count as u32).saturating_sub(4))
}
