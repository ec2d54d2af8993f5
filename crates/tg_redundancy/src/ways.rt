ghost use Rattle.std.specs.Prelude.{◌≡◌, ◌∷◌, List, IfOk, OnOk};
ghost use Rattle.tg_instr.specs.declared.instr.Instr.{Instr as InstrOf};
ghost use Rattle.tg_instr.specs.Shapes.{shape};
ghost use Rattle.tg_redundancy.specs.mirror.Known.{comes_back};
ghost use Rattle.tg_redundancy.specs.glue.Walks.{HasWays, flags, way};

use std::alloc::Global;
use std::collections::HashSet;
use tg_base::Memory;
use tg_instr::Instr;

/// For each instruction whether it is a mark with a way from what stands behind it.
pub(crate) fn marks_from_behind(alloc: Global, code: &[Instr]) -> Result<Vec<bool>, Memory>
    ensures { IfOk result (λ all. all.items ≡ flags code.now) }
{
    let mut all = vec![in alloc; false; code.len()]?;
    let mut ways = HashSet::new(alloc);
    for at in (0..code.len()).rev() {
        all[at] = is_led_to(&ways, &code[at]);
        note_way(&mut ways, &code[at])?;
    }
    Ok(all)
}

fn is_led_to(ways: &HashSet<u32>, one: &Instr) -> bool
    ensures { (rest : List InstrOf) → HasWays ways.now rest →
        result ≡ comes_back rest (shape one.now) }
{
    match one {
        Instr::Mark(mark) => ways.contains(mark),
        _ => false,
    }
}

fn note_way(ways: &mut HashSet<u32>, one: &Instr) -> Result<(), Memory>
    ensures { OnOk result ((rest : List InstrOf) → HasWays ways.old rest →
        HasWays ways.new (one.now ∷ rest)) }
{
    match way(one) {
        Some(mark) => {
            let _ = ways.insert(mark)?;
            Ok(())
        }
        None => Ok(()),
    }
}

fn way(one: &Instr) -> Option<u32>
    ensures { result ≡ way one.now }
{
    match one {
        Instr::Jump(mark) => Some(*mark),
        Instr::Branch(_, mark) => Some(*mark),
        _ => None,
    }
}
