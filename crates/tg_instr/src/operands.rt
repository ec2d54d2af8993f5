use tg_base::Temp;
use tg_isa::Reg;

/// An operand: a temporary of the function, or a register of the machine.
#[derive(Clone, Copy)]
pub enum Opnd {
    Temp(Temp),
    Reg(Reg),
}

impl Default for Opnd {
    fn default() -> Opnd {
        Opnd::Temp(Temp(0))
    }
}
