// A class that is spilled takes a slot exactly where it stands under a temporary of the code
// that was handed in: it stands under one where it holds one, so its node tells.

ghost use Rattle.std.specs.Prelude.{◌≡◌, ◌<◌, ◌≤◌, ◌++◌, ◌∷◌, [], IfOk, IsTrue, OnOk, length, cond};
ghost use Rattle.std.specs.List.{list_all};
ghost use Rattle.tg_instr.specs.Codes.{has_temps_below, is_below};
ghost use Rattle.tg_regalloc.specs.Painting.{
  code_painted,
  colour_in,
  colour_or_first,
  instruction_painted,
  is_idle,
  painted,
  painted_named,
  register_of,
};
ghost use Rattle.tg_regalloc.specs.glue.Below.{is_option_below};

use std::alloc::Global;
use tg_base::Memory;
use tg_instr::{Instr, Opnd, push_instr};
use tg_isa::Reg;

/// The register of a colour, by its place in the order `$v0 $v1`, `$a0` to `$a3`, `$t0` to `$t9`,
/// `$s0` to `$s7`, `$ra`; after these `$zero`.
pub fn register_of(colour: u8) -> Reg
    ensures { result ≡ register_of colour }
{
    match colour {
        0..=13 => Reg::new(colour + 2),
        14..=15 => Reg::new(colour + 10),
        16..=23 => Reg::new(colour),
        24 => Reg::RA,
        _ => Reg::ZERO,
    }
}

/// Instructions with the register of its colour in the place of each temporary, without moves from
/// a register to itself. `colours` has one for each temporary.
pub fn paint(alloc: Global, code: &[Instr], colours: &[Option<u8>]) -> Result<Vec<Instr>, Memory>
    requires { IsTrue (list_all (has_temps_below (length colours.now)) code.now) }
    ensures { IfOk result (λ list. list.items ≡ code_painted (colour_in colours.now) code.now) }
{
    let mut list = Vec::with_capacity(alloc, code.len())?;
    for one in code.iter() {
        put_painted(&mut list, colours, one)?;
    }
    list.shrink_to_fit();
    Ok(list)
}

/// Puts a painted instruction at the end of a list, unless it is a move from a register to itself.
fn put_painted(list: &mut Vec<Instr>, colours: &[Option<u8>], one: &Instr) -> Result<(), Memory>
    requires { IsTrue (has_temps_below (length colours.now) one.now) }
    ensures { OnOk result (list.new.items ≡ list.old.items ++ cond
        (is_idle (instruction_painted (colour_in colours.now) one.now)) []
        (instruction_painted (colour_in colours.now) one.now ∷ [])) }
{
    let named = one.named();
    let to = paint_named(colours, named.to);
    let first = paint_named(colours, named.first);
    let second = paint_named(colours, named.second);
    let painted = one.renamed(to, first, second);
    if is_idle(&painted) {
        Ok(())
    } else {
        push_instr(list, painted)
    }
}

/// Whether an instruction moves from a register to itself.
fn is_idle(one: &Instr) -> bool
    ensures { result ≡ is_idle one.now }
{
    match one {
        Instr::Move(Opnd::Reg(to), Opnd::Reg(from)) => to.number() == from.number(),
        _ => false,
    }
}

fn paint_named(colours: &[Option<u8>], one: Option<Opnd>) -> Opnd
    requires { IsTrue (is_option_below (length colours.now) one) }
    ensures { result ≡ painted_named (colour_in colours.now) one }
{
    match one {
        Some(one) => paint_operand(colours, one),
        None => Opnd::Reg(Reg::ZERO),
    }
}

fn paint_operand(colours: &[Option<u8>], one: Opnd) -> Opnd
    requires { IsTrue (is_below (length colours.now) one) }
    ensures { result ≡ painted (colour_in colours.now) one }
{
    match one {
        Opnd::Temp(temp) => Opnd::Reg(register_of(colour_or_first(colours[temp.0 as usize]))),
        Opnd::Reg(_) => one,
    }
}

/// A colour; where nothing is spilled each temporary has one.
pub fn colour_or_first(colour: Option<u8>) -> u8
    ensures { result ≡ colour_or_first colour }
{
    colour.unwrap_or(0)
}
