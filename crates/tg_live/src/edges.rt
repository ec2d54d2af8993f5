ghost use Rattle.std.specs.Prelude.{◌≡◌, ◌<◌, ◌^◌, List, length, IsTrue, OnOk, IfOk};
ghost use Rattle.std.specs.List.{list_any, list_all};
ghost use Rattle.tg_instr.specs.declared.instr.Instr.{Instr as InstrOf};
ghost use Rattle.tg_instr.specs.Codes.{is_mark, leads_to_marks};
ghost use Rattle.tg_live.specs.Flow.{place_of, successors, flow_of};
ghost use Rattle.tg_live.specs.glue.Tables.{row, add_to, add_from, have_rows_below};
ghost use Rattle.tg_live.specs.glue.Marks.{HavePlaces};

use crate::flows::Flow;
use crate::marks::mark_places;
use crate::tables::PlaceTable;
use std::alloc::Global;
use std::collections::HashMap;
use tg_base::Memory;
use tg_instr::{Code, Instr};

/// The flow of a code: a jump goes on at its mark, a branch at its mark and at the next place, a
/// fault and a return nowhere, and each other instruction at the next place (Appel, chapter 10).
pub fn flow(alloc: Global, code: &Code) -> Result<Flow, Memory>
    ensures { IfOk result (λ flow. flow ≡ flow_of code.now.list) }
{
    let list = code.list.as_slice();
    if list.len() > u32::MAX as usize {
        return Err(Memory);
    }
    let places = mark_places(alloc, list)?;
    let mut before = PlaceTable::with_rows(alloc, list.len())?;
    add_all_edges(list, &places, &mut before)?;
    Ok(Flow::new(before))
}

// Each place in the rows of the places at which its instruction goes on.
fn add_all_edges(
    list: &[Instr],
    places: &HashMap<u32, u32>,
    before: &mut PlaceTable,
) -> Result<(), Memory>
    requires short { length list.now < 2 ^ 32 }
    requires places { HavePlaces list.now places.now }
    requires marks_stand { IsTrue (list_all (leads_to_marks list.now) list.now) }
    requires within { IsTrue (have_rows_below (length before.old) (successors list.now)) }
    ensures { OnOk result (before.new ≡ add_from 0 (successors list.now) before.old) }
{
    for at in 0..list.len() {
        add_edges(list, at, places, before)?;
    }
    Ok(())
}

// A place in the rows of the places at which its instruction goes on.
fn add_edges(
    list: &[Instr],
    at: usize,
    places: &HashMap<u32, u32>,
    before: &mut PlaceTable,
) -> Result<(), Memory>
    requires short { length list.now < 2 ^ 32 }
    requires at { at < length list.now }
    requires places { HavePlaces list.now places.now }
    requires marks_stand { IsTrue (list_all (leads_to_marks list.now) list.now) }
    requires within { IsTrue (have_rows_below (length before.old) (successors list.now)) }
    ensures { OnOk result (before.new ≡ add_to at (row (successors list.now) at) before.old) }
{
    let from = at as u32;
    match &list[at] {
        Instr::Jump(mark) => before.push(place_of(places, *mark), from),
        Instr::Branch(_, mark) => {
            before.push(place_of(places, *mark), from)?;
            before.push(at + 1, from)
        }
        Instr::Fault(_) => Ok(()),
        Instr::Return => Ok(()),
        _ => before.push(at + 1, from),
    }
}

// The place of a mark that stands in the code.
fn place_of(places: &HashMap<u32, u32>, mark: u32) -> usize
    ensures { (list : List InstrOf) → HavePlaces list places.now →
        IsTrue (list_any (is_mark mark) list) → result ≡ place_of mark list }
{
    match places.get(&mark) {
        Some(place) => *place as usize,
        None => 0,
    }
}
