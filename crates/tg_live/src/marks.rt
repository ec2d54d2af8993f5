ghost use Rattle.std.specs.Prelude.{◌<◌, ◌^◌, length, IfOk};
ghost use Rattle.tg_live.specs.glue.Marks.{HavePlaces};

use std::alloc::Global;
use std::collections::HashMap;
use tg_base::Memory;
use tg_instr::Instr;

/// The places of the marks of a code.
pub(crate) fn mark_places(alloc: Global, list: &[Instr]) -> Result<HashMap<u32, u32>, Memory>
    requires { length list.now < 2 ^ 32 }
    ensures { IfOk result (λ places. HavePlaces list.now places) }
{
    let mut places = HashMap::new(alloc);
    for at in (0..list.len()).rev() {
        if let Instr::Mark(mark) = &list[at] {
            let _ = places.insert(*mark, at as u32)?;
        }
    }
    Ok(places)
}
