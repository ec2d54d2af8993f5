ghost use Rattle.std.specs.Prelude.{◌≡◌, ◌<◌, ◌^◌, IsTrue, IfOk};
ghost use Rattle.std.specs.List.{list_all};
ghost use Rattle.tg_instr.specs.Codes.{
  marks_differ,
  leads_to_marks,
  ends_well,
  has_temps_below,
};

use crate::drafts::{Draft, MOST_TEMPS};
use tg_base::Memory;
use tg_instr::{Code, Instrs};

/// The code of a draft that has what a `Code` keeps.
pub(crate) fn finish(draft: Draft) -> Result<Code, Memory>
    requires marks_differ { IsTrue (marks_differ draft.list.items) }
    requires marks_stand { IsTrue (list_all (leads_to_marks draft.list.items) draft.list.items) }
    requires temps_below { IsTrue (list_all (has_temps_below draft.temp) draft.list.items) }
    requires ends_well { IsTrue (ends_well draft.list.items) }
    ensures list { IfOk result (λ c. c.list ≡ draft.list.items) }
    ensures temps { IfOk result (λ c. c.temps ≡ draft.temp) }
    ensures few { IfOk result (λ c. c.temps < 2 ^ 24) }
{
    let temps = draft.temp;
    if temps > MOST_TEMPS {
        return Err(Memory);
    }
    let list = Instrs::from_vec(draft.list);
    Ok(Code { list, temps })
}
