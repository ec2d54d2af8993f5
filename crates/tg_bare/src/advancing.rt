ghost use Rattle.std.specs.Prelude.{◌≡◌, ◌≢◌, Ok, Some};
ghost use Rattle.tg_bare.specs.Delayed.{bare_step, straight_on};
ghost use Rattle.tg_bare.specs.glue.Inside.{machine_at};
ghost use Rattle.tg_bare.specs.glue.Moves.{HasEntered, HasStepped};
ghost use Rattle.tg_isa.specs.Effects.{fetch};
ghost use Rattle.tg_isa.specs.Table.{decode_of, word_of};
ghost use Rattle.tg_isa.specs.declared.mips.Mips.{Mips};
ghost use Rattle.tg_machine.specs.mirror.Rows as rows;
ghost use Rattle.tg_machine_state.specs.State as state;

use crate::places::Places;
use crate::ways::{Way, lead};
use tg_isa::{decode, encode};
use tg_machine::{Core, Row};
use tg_machine_state::RunEnd;

/// How the instruction of a word ends in a delay slot, where it may not stand.
fn bad_word(word: u32) -> RunEnd
    ensures { (one : Mips) → decode_of word ≡ Some one → result ≡ RunEnd.BadWord (word_of one) }
{
    match decode(word) {
        Some(one) => RunEnd::BadWord(encode(&one)),
        None => RunEnd::BadWord(word),
    }
}

/// How a row that jumps or branches ends in a delay slot. Memory and registers stay.
#[inline(never)]
fn bad_in_slot(core: &mut Core, place: u32) -> RunEnd
    ensures { (one : Mips) → fetch (state.go core.old place) ≡ Ok one →
        result ≡ RunEnd.BadWord (word_of one) }
{
    core.go(place);
    match core.seen() {
        Some(seen) => bad_word(seen.word),
        None => RunEnd::BadAddress(place),
    }
}

/// Goes on in a delay slot, and behind it at a place. In a delay slot no row may.
#[inline(always)]
fn enter(core: &mut Core, at: Places, place: u32) -> Result<Places, RunEnd>
    ensures { HasEntered result at place core.old core.new }
{
    if at.in_slot {
        return Err(bad_in_slot(core, at.place));
    }
    Ok(Places {
        place: at.next,
        next: place,
        in_slot: true,
    })
}

/// Does a row that goes straight on, where the step behind it is at `next`.
#[inline(always)]
fn go_on(core: &mut Core, one: Row, next: u32) -> Result<Places, RunEnd>
    requires { one ≢ Row.Syscall }
    ensures { HasStepped (straight_on (rows.does one (state.go core.old next))) result core.new }
{
    match core.execute(one, next) {
        Ok(place) => Ok(Places {
            place,
            next: place.wrapping_add(4),
            in_slot: false,
        }),
        Err(end) => Err(end),
    }
}

/// Does a row that calls no service, at places whose first is the row's, and answers the places to
/// go on at. The place in the core isn't read.
#[inline(always)]
pub(crate) fn advance(core: &mut Core, one: Row, at: Places) -> Result<Places, RunEnd>
    requires found { rows.row_at core.old.code at.place ≡ Some one }
    requires alone { one ≢ Row.Syscall }
    ensures { HasStepped (bare_step (machine_at core.old at)) result core.new }
{
    // A copy: the borrow checker passes no row twice.
    let same = one;
    let way = lead(core, same, at.next);
    match way {
        Way::Straight => go_on(core, one, at.next),
        Way::Turns(place) => enter(core, at, place),
        Way::Calls(link, place) => match enter(core, at, place) {
            Ok(there) => {
                core.set(link, at.next.wrapping_add(4));
                Ok(there)
            }
            Err(end) => Err(end),
        },
    }
}
