ghost use Rattle.std.specs.Prelude.{◌≡◌, ◌≤◌, ◌%◌, length, IfOk};
ghost use Rattle.tg_bare.specs.Machines.{loaded_bare};
ghost use Rattle.tg_machine_state.specs.State.{most_bytes, most_room, most_words};

use crate::cores::BareCore;
use crate::machines::BareMachine;
use std::alloc::Global;
use tg_base::Memory;
use tg_isa::Image;
use tg_machine::Core;

/// A machine with delayed branches at the start of an image, with so many bytes of heap and of
/// stack. It takes all memory of the run.
///
/// Memory of the heap and of the stack is reserved and not written to, so their sizes cost no time.
/// `Memory` comes where memory runs out; a run takes none.
pub fn load_bare(alloc: Global, image: &Image, heap: u32, stack: u32) -> Result<BareMachine, Memory>
    requires code { length image.now.code ≤ most_words }
    requires statics { length image.now.statics ≤ most_bytes }
    requires heap { heap ≤ most_room }
    requires whole_heap { heap % 4 ≡ 0 }
    requires stack { stack ≤ most_room }
    requires whole_stack { stack % 4 ≡ 0 }
    ensures { IfOk result (λ m. m ≡ loaded_bare image.now heap stack) }
{
    let core = Core::load(alloc, image, heap, stack)?;
    Ok(BareMachine {
        core: BareCore {
            core,
            next: image.entry.wrapping_add(4),
            in_slot: false,
        },
        end: None,
        written: 0,
        input_ended: false,
    })
}
