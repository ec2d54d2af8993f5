ghost use Rattle.std.specs.Prelude.{◌≡◌, ℕ, ◌<◌};

use std::marker::Model;

/// A register of the machine, which contracts see as its number, below 32 (MIPS I manual, register
/// usage).
#[derive(Clone, Copy, Debug, PartialEq, Eq)]
pub struct Reg(u8);

impl Model for Reg {
    ghost Value = { ℕ };

    ghost view = { λ r. r.0 };

    ghost invariant = { λ r. r.0 < 32 };

    ghost inverse = { λ n. record { 0 = n } };
}

impl Reg {
    /// `$zero`, which reads as 0 and keeps no word.
    pub const ZERO: Reg = Reg(0);

    /// `$v0`, of a call's result, and of the number of a service.
    pub const V0: Reg = Reg(2);

    /// `$a0`, of the first argument of a call, and of a service.
    pub const A0: Reg = Reg(4);

    /// `$t0`, the first of the registers that a call needn't keep.
    pub const T0: Reg = Reg(8);

    /// `$t1`, the second of them.
    pub const T1: Reg = Reg(9);

    /// `$t2`, the third of them.
    pub const T2: Reg = Reg(10);

    /// `$sp`, the lowest address of the stack that is in use.
    pub const SP: Reg = Reg(29);

    /// `$ra`, the address that a call returns to.
    pub const RA: Reg = Reg(31);

    /// The register with a number.
    #[inline(always)]
    pub fn new(number: u8) -> Reg
        requires { number < 32 }
        ensures { result ≡ number }
    {
        Reg(number)
    }

    /// The register's number.
    #[inline(always)]
    pub fn number(self) -> u8
        ensures value { result ≡ self }
        ensures fits { self < 32 }
    {
        self.0
    }
}
