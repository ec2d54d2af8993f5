// Escapes are found by scopes, and not by the checker's notes, which would take a search for
// each use. So the definition needs nothing of typing, and the walk keeps one scoped table.

ghost use Rattle.std.specs.Prelude.{◌≡◌, IfOk};
ghost use Rattle.std.specs.FinSet.{from_list};
ghost use Rattle.tg_syntax.specs.glue.Plain.{plain};
ghost use Rattle.tg_escape.specs.Escaping.{escapes_of};
ghost use Rattle.tg_escape.specs.Links.{links_of};

use crate::searches::search_body;
use crate::sets::{Escapes, Links};
use std::alloc::Global;
use tg_base::Memory;
use tg_typecheck::Checked;

/// The variables of a program that escape. A use of a name takes a bounded number of look-ups in
/// hash maps for each function that it lies in, however many names are declared where it stands.
/// It fails only where memory runs out.
pub fn escapes(alloc: Global, checked: &Checked) -> Result<Escapes, Memory>
    ensures { IfOk result (λ e. e ≡ from_list (escapes_of (plain checked.now.program.body))) }
{
    Ok(search_body(alloc, &checked.program.body)?.escapes)
}

/// The functions of a program through whose static links functions nested in them go. A use of a
/// name takes a bounded number of look-ups in hash maps for each function that it lies in. It
/// fails only where memory runs out.
pub fn links(alloc: Global, checked: &Checked) -> Result<Links, Memory>
    ensures { IfOk result (λ l. l ≡ from_list (links_of (plain checked.now.program.body))) }
{
    Ok(search_body(alloc, &checked.program.body)?.links)
}
