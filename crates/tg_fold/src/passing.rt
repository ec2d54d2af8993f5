// Copies go to the next statement alone, and only where it assigns neither temporary anywhere: a
// loop further on would need what is live.

ghost use Rattle.std.specs.Prelude.{◌≡◌, OnOk};
ghost use Rattle.tg_tree.specs.glue.Plain.{plain_ts};
ghost use Rattle.tg_fold.specs.glue.Views.{plain_copy};
ghost use Rattle.tg_fold.specs.mirror.Folding as folding;

use crate::reading::{CopyOf, takes_copy};
use crate::renaming::rename;
use std::alloc::Global;
use tg_base::Memory;
use tg_tree::Ts;

/// Passes a copy on to the statement after it.
pub(crate) fn pass_on(
    alloc: Global,
    before: Option<CopyOf>,
    statement: &mut Ts,
    height: u32,
) -> Result<(), Memory>
    ensures { OnOk result (plain_ts statement.new
        ≡ folding.passed (plain_copy before) (plain_ts statement.old)) }
{
    match before {
        Some(copied) => {
            if takes_copy(copied, statement) {
                Ok(rename(alloc, copied, statement, height)?)
            } else {
                Ok(())
            }
        }
        None => Ok(()),
    }
}
