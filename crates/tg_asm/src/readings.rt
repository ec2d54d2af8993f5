ghost use Rattle.std.specs.Prelude.{◌≡◌, Some};
ghost use Rattle.tg_asm_text.specs.Assembly as assembly;
ghost use Rattle.tg_asm.specs.glue.Cuts.{cut_of};
ghost use Rattle.tg_asm.specs.glue.Means.{GivesMeant};
ghost use Rattle.tg_asm.specs.glue.Readings.{reading_of};

use crate::cuts::{Cut, cut_line};
use crate::faults::Refused;
use crate::items::{Item, read_item};
use crate::words::{keyword, stands_in};
use std::alloc::Global;
use tg_asm_text::{AsmRule, Segment};

/// A line, which begins with its labels, and its item.
#[derive(Drop)]
pub(crate) struct Reading<'a> {
    pub(crate) line: &'a [u8],
    pub(crate) item: Item<'a>,
}

/// What the parts of a line are that stands in a segment.
fn read_cut<'a>(alloc: Global, segment: Segment, cut: Cut<'a>) -> Result<Reading<'a>, Refused>
    ensures { GivesMeant reading_of (assembly.read_cut segment (Some (cut_of cut.entry))) result }
{
    let Cut {
        line,
        word,
        operands,
    } = cut;
    if word.is_empty() {
        return Ok(Reading {
            line,
            item: Item::Nothing,
        });
    }
    match keyword(word) {
        Some(keyword) => {
            if !stands_in(keyword, segment) {
                return Err(Refused::Rule(AsmRule::A1));
            }
            let item = read_item(alloc, keyword, operands)?;
            Ok(Reading { line, item })
        }
        None => Err(Refused::Rule(AsmRule::A2)),
    }
}

/// A line that stands in a segment, or its first fault of A1, A2, A3 and A7.
pub(crate) fn read_line<'a>(
    alloc: Global,
    segment: Segment,
    line: &'a [u8],
) -> Result<Reading<'a>, Refused>
    ensures { GivesMeant reading_of (assembly.reading segment line.now) result }
{
    match cut_line(alloc, line)? {
        Some(cut) => read_cut(alloc, segment, cut),
        None => Err(Refused::Rule(AsmRule::A1)),
    }
}
