// Whether a branch is taken is told by an option, never by comparing places: a branch by the
// offset 0 leads to its own delay slot, which is done twice, as SPIM does it.

ghost use Rattle.std.specs.Prelude.{◌≡◌, ◌+◌, ◌*◌, ◌/◌, ◌^◌, Some, None, if◌then◌else◌};
ghost use Rattle.tg_base.specs.Words.{add};
ghost use Rattle.tg_bare.specs.Delayed.{taken_to};
ghost use Rattle.tg_bare.specs.glue.Moves.{Leads};
ghost use Rattle.tg_bare.specs.mirror.Ways.{row_way};
ghost use Rattle.tg_machine_state.specs.State as state;

use tg_base::less_signed;
use tg_isa::{Bits, Reg};
use tg_machine::{Core, Row};

/// Where a row leads.
#[derive(Clone, Copy)]
pub(crate) enum Way {
    /// Straight on.
    Straight,
    /// To its delay slot, and behind that to a place.
    Turns(u32),
    /// The same, and a register gets the place behind the delay slot.
    Calls(Reg, u32),
}

/// Where a row leads whose delay slot is at a place.
#[inline(always)]
pub(crate) fn lead(core: &Core, one: Row, slot: u32) -> Way
    ensures { Leads result (row_way one (state.go core.now slot)) (state.go core.now slot) }
{
    match one {
        Row::J(target) => Way::Turns(jump(slot, target)),
        Row::Jal(target) => Way::Calls(Reg::RA, jump(slot, target)),
        Row::Jr(rs) => Way::Turns(core.register(rs)),
        Row::Jalr(rd, rs) => Way::Calls(rd, core.register(rs)),
        Row::Beq(rs, rt, bytes) => branch(core.register(rs) == core.register(rt), slot, bytes),
        Row::Bne(rs, rt, bytes) => branch(core.register(rs) != core.register(rt), slot, bytes),
        Row::Blez(rs, bytes) => branch(!less_signed(0, core.register(rs)), slot, bytes),
        Row::Bgtz(rs, bytes) => branch(less_signed(0, core.register(rs)), slot, bytes),
        Row::Bltz(rs, bytes) => branch(less_signed(core.register(rs), 0), slot, bytes),
        Row::Bgez(rs, bytes) => branch(!less_signed(core.register(rs), 0), slot, bytes),
        _ => Way::Straight,
    }
}

/// The place of a jump.
#[inline(always)]
fn jump(slot: u32, target: Bits<28>) -> u32
    ensures { result ≡ slot / 2 ^ 28 * 2 ^ 28 + target }
{
    slot / 268435456 * 268435456 + target.get()
}

/// The way of a branch: so many bytes further on than its delay slot, where a test holds.
#[inline(always)]
fn branch(holds: bool, slot: u32, bytes: u32) -> Way
    ensures { result
        ≡ Way.Turns (taken_to (if holds then Some (add slot bytes) else None) (add slot 4)) }
{
    if holds {
        Way::Turns(slot.wrapping_add(bytes))
    } else {
        Way::Turns(slot.wrapping_add(4))
    }
}
