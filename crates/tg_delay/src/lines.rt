ghost use Rattle.std.specs.Prelude.{◌≡◌, ◌++◌, ◌∷◌, [], IfOk, OnOk};

use std::alloc::Global;
use tg_base::{Bytes, Memory};
use tg_emit::Line;
use tg_isa::Mips;

/// Puts a line at the end of others.
pub fn push(list: &mut Vec<Line>, line: Line) -> Result<(), Memory>
    ensures { OnOk result (list.new.items ≡ list.old.items ++ line ∷ []) }
{
    // (the borrow checker has to be told of the types that a line holds)
    let _row: Option<Mips> = None;
    list.push(line)?;
    Ok(())
}

/// Puts a line at the end of others that is the same as this one.
pub fn push_same(alloc: Global, list: &mut Vec<Line>, line: &Line) -> Result<(), Memory>
    ensures { OnOk result (list.new.items ≡ list.old.items ++ line.now ∷ []) }
{
    push(list, same(alloc, line)?)
}

fn same(alloc: Global, line: &Line) -> Result<Line, Memory>
    ensures { IfOk result (λ one. one ≡ line.now) }
{
    match line {
        Line::Label(name) => Ok(Line::Label(same_bytes(alloc, name)?)),
        Line::One(one, target) => Ok(Line::One(*one, same_bytes(alloc, target)?)),
        Line::La(register, target) => Ok(Line::La(*register, same_bytes(alloc, target)?)),
        Line::Statics(bytes) => Ok(Line::Statics(same_bytes(alloc, bytes)?)),
    }
}

/// The same bytes again.
pub fn same_bytes(alloc: Global, bytes: &Bytes) -> Result<Bytes, Memory>
    ensures { IfOk result (λ all. all ≡ bytes.now) }
{
    Ok(Bytes::from_vec(Vec::from_slice(alloc, bytes.as_slice())?))
}
