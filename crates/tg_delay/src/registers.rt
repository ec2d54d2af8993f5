ghost use Rattle.std.specs.Prelude.{◌≡◌, ◌∷◌};
ghost use Rattle.tg_delay.specs.Filling.{is_among, touch, written};
ghost use Rattle.tg_delay.specs.glue.Registers.{registers_of};

use tg_isa::Reg;

/// The registers that an instruction reads, or those that it writes.
#[derive(Clone, Copy)]
pub(crate) enum Registers {
    None,
    One(Reg),
    Two(Reg, Reg),
}

impl Registers {
    /// The register that is written, which `$zero` never is.
    pub(crate) fn written(register: Reg) -> Registers
        ensures { registers_of result ≡ written register }
    {
        if register.number() == 0 {
            Registers::None
        } else {
            Registers::One(register)
        }
    }

    fn contains(&self, register: Reg) -> bool
        ensures { result ≡ is_among (registers_of self.now) register }
    {
        match self {
            Registers::None => false,
            Registers::One(first) => register.number() == first.number(),
            Registers::Two(first, second) => {
                register.number() == first.number() || register.number() == second.number()
            }
        }
    }

    /// Whether some register is among both.
    pub(crate) fn touch(&self, those: &Registers) -> bool
        ensures { result ≡ touch (registers_of self.now) (registers_of those.now) }
    {
        match those {
            Registers::None => false,
            Registers::One(first) => self.contains(*first),
            Registers::Two(first, second) => self.contains(*first) || self.contains(*second),
        }
    }
}
