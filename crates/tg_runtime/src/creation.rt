// A record is made by service 9 where it stands. The runtime's function for records is kept, as
// each program keeps all of them, and none calls it.

ghost use Rattle.std.specs.Prelude.{◌≡◌, IfOk};
ghost use Rattle.tg_tree.specs.glue.Plain.{plain_ts};
ghost use Rattle.tg_runtime.specs.mirror.Routines as routines;

use crate::forms::{MINUS_ONE, TAKE, advance, assign, is_negative, sum, temp, walk};
use std::alloc::Global;
use tg_base::Memory;
use tg_tree::{Bin, Rel, Ts, Tx, binary, compare, sequence, service, when};

/// The fault of an array of a size below 0.
const SIZE_FAULT: u32 = 6;

/// So many elements would take more bytes than a word tells.
const TOO_MANY: u32 = 1 << 26;

pub(crate) fn make_record(alloc: Global) -> Result<Ts, Memory>
    ensures { IfOk result (λ s. plain_ts s ≡ routines.make_record 0) }
{
    Ok(Ts::Return(service(alloc, TAKE, temp(0))?))
}

pub(crate) fn make_array(alloc: Global) -> Result<Ts, Memory>
    ensures { IfOk result (λ s. plain_ts s ≡ routines.make_array 0 1 2 3 4) }
{
    let (size, value, array, at, end) = (0, 1, 2, 3, 4);
    let bytes = binary(alloc, Bin::ShiftLeft, temp(size), Tx::Const(2))?;
    let taken = sum(alloc, end, Tx::Const(4))?;
    let turn = vec![in alloc; advance(alloc, at, 4)?, Ts::Store(temp(at), temp(value))]?;
    Ok(sequence(vec![in alloc;
        when(alloc, is_negative(alloc, size)?, Ts::Fault(SIZE_FAULT))?,
        refuse_too_many(alloc, size)?,
        assign(end, bytes),
        assign(array, service(alloc, TAKE, taken)?),
        Ts::Store(temp(array), temp(size)),
        assign(at, temp(array)),
        assign(end, sum(alloc, end, temp(array))?),
        walk(alloc, at, end, turn)?,
        Ts::Return(temp(array)),
    ]?))
}

// A size of too many elements asks for more heap than there is.
fn refuse_too_many(alloc: Global, size: u32) -> Result<Ts, Memory>
    ensures { IfOk result (λ s. plain_ts s ≡ routines.refuse_too_many size) }
{
    let test = compare(alloc, Rel::NotBelow, temp(size), Tx::Const(TOO_MANY))?;
    when(
        alloc,
        test,
        Ts::Do(service(alloc, TAKE, Tx::Const(MINUS_ONE))?),
    )
}
