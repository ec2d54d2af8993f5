ghost use Rattle.std.specs.Prelude.{◌≡◌, IsTrue};
ghost use Rattle.tg_instr.specs.declared.operands.Opnd.TheVariants.{Reg as RegOf};
ghost use Rattle.tg_instr.specs.Codes.{is_below};
ghost use Rattle.tg_interference.specs.Nodes.{most_temps, node_of};

use tg_graph::COLOURS;
use tg_instr::Opnd;
use tg_isa::Reg;

/// The node of an operand: a register that is a colour stands at its place in the order of the
/// colours, and temporaries stand after the colours. No other register has a node.
pub fn node_of(one: &Opnd) -> Option<u32>
    requires { IsTrue (is_below most_temps one.now) }
    ensures { result ≡ node_of one.now }
{
    match one {
        Opnd::Reg(reg) => colour_of(*reg),
        Opnd::Temp(temp) => Some(COLOURS + temp.0),
    }
}

fn colour_of(reg: Reg) -> Option<u32>
    ensures { result ≡ node_of (RegOf reg) }
{
    let number = u32::from(reg.number());
    match number {
        2..=15 => Some(number - 2),
        16..=23 => Some(number),
        24..=25 => Some(number - 10),
        31 => Some(24),
        _ => None,
    }
}
