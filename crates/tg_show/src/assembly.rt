ghost use Rattle.std.specs.Prelude.{◌≡◌, ◌++◌, IsTrue, OnOk};
ghost use Rattle.std.specs.List.{list_all};
ghost use Rattle.tg_emit.specs.Conditions.{has_labels};
ghost use Rattle.tg_show.specs.Assembly as assembly;

use crate::words::{put, put_byte};
use std::alloc::Global;
use tg_base::Memory;
use tg_emit::{Line, put_line};

/// Puts lines of assembly at the end.
pub fn put_assembly_lines(alloc: Global, text: &mut Vec<u8>, lines: &[Line]) -> Result<(), Memory>
    requires { IsTrue (list_all has_labels lines.now) }
    ensures { OnOk result (text.new.items ≡ text.old.items ++ assembly.assembly_lines lines.now) }
{
    for at in 0..lines.len() {
        put_assembly_line(alloc, text, &lines[at])?;
    }
    Ok(())
}

fn put_assembly_line(alloc: Global, text: &mut Vec<u8>, line: &Line) -> Result<(), Memory>
    requires { IsTrue (has_labels line.now) }
    ensures { OnOk result (text.new.items ≡ text.old.items ++ assembly.assembly_line line.now) }
{
    put(text, b"  ")?;
    put_line(alloc, text, line)?;
    put_byte(text, b'\n')
}
