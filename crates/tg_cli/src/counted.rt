ghost use Rattle.std.specs.Prelude.{◌≡◌};

use std::marker::Model;

/// A part of the system with its count of faults, as which contracts see it.
#[derive(Drop)]
pub struct Counted<T> {
    pub(crate) part: T,
    pub(crate) faults: u64,
}

impl<T> Model for Counted<T> {
    ghost use Rattle.std.specs.Prelude.{ℕ};

    ghost Value = { ℕ };

    ghost view = { λ s. s.faults };
}

impl<T> Counted<T> {
    /// A part without a fault so far.
    pub fn new(part: T) -> Counted<T>
        ensures { result ≡ 0 }
    {
        Counted { part, faults: 0 }
    }
}
