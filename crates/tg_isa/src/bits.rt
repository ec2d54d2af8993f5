// Fields of instructions are numbers of type `Bits<N>`, which keep in their type that they fit,
// and contracts see the plain number.

ghost use Rattle.std.specs.Prelude.{◌≡◌, ℕ, ◌^◌, ◌<◌};

use std::marker::Model;

/// A field of `N` bits of an instruction's word, which contracts see as its number, below 2 ^ N.
#[derive(Clone, Copy, Debug, PartialEq, Eq)]
pub struct Bits<const N: u32> {
    value: u32,
}

impl<const N: u32> Model for Bits<N> {
    ghost Value = { ℕ };

    ghost view = { λ b. b.value };

    ghost invariant = { λ b. b.value < 2 ^ N };

    ghost inverse = { λ n. record { value = n } };
}

impl<const N: u32> Bits<N> {
    /// The field with a number.
    #[inline(always)]
    pub fn new(value: u32) -> Self
        requires { value < 2 ^ N }
        ensures { result ≡ value }
    {
        Bits { value }
    }

    /// The field's number.
    #[inline(always)]
    pub fn get(self) -> u32
        ensures value { result ≡ self.entry }
        ensures fits { self.entry < 2 ^ N }
    {
        self.value
    }
}
