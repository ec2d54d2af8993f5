ghost use Rattle.std.specs.Prelude.{◌≡◌, ◌≤◌, IfOk};
ghost use Rattle.tg_tree.specs.glue.Plain.{plain_ts};
ghost use Rattle.tg_tree.specs.glue.Lists.{stms_of};
ghost use Rattle.tg_canon.specs.mirror.Canon.{linearized, statements_of};
ghost use Rattle.tg_canon.specs.mirror.Drawing.{DrawsFrom};

use crate::pass::linear_body;
use crate::supply::Supply;
use std::alloc::Global;
use tg_base::Memory;
use tg_frame::Frame;
use tg_tree::Ts;

// The statements of a sequence, or the one statement.
fn statements(alloc: Global, statement: Ts) -> Result<Vec<Ts>, Memory>
    ensures { IfOk result (λ ss. stms_of ss.items ≡ statements_of (plain_ts statement)) }
{
    match statement {
        Ts::Seq(inner) => Ok(inner.items),
        other => Ok(vec![in alloc; other]?),
    }
}

/// A function's body as statements in canonical form (Appel, chapter 8): each expression is flat
/// but for a call or service that is the whole right side of a move or alone. `frame` gets the
/// temporaries that are drawn. It is out of memory also where temporaries run out and where trees
/// are nested too deep.
pub fn linearize(alloc: Global, frame: &mut Frame, body: Ts) -> Result<Vec<Ts>, Memory>
    ensures statements { IfOk result (λ ss. DrawsFrom (linearized (plain_ts body))
        frame.old.temps (stms_of ss.items) frame.new.temps) }
    ensures label { frame.new.label ≡ frame.old.label }
    ensures params { frame.new.params ≡ frame.old.params }
    ensures slots { frame.new.slots ≡ frame.old.slots }
    ensures out { frame.new.out ≡ frame.old.out }
    ensures temps { frame.old.temps ≤ frame.new.temps }
{
    let mut supply = Supply {
        alloc,
        next: frame.temps,
    };
    let part = linear_body(body, &mut supply)?;
    frame.temps = supply.next;
    Ok(statements(alloc, part.statement)?)
}
