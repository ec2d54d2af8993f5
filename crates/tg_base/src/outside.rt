ghost use Rattle.std.specs.Prelude.{◌≡◌, ℕ, ◌<◌, ◌≤◌, List, length, IfOk, IsErrOf, IsOk};
ghost use Rattle.std.specs.declared.option.Option.{Option};
ghost use Rattle.std.specs.Io.{ReadsAtMost};
ghost use Rattle.std.specs.Io.KnownBytes.{ReadConsumes, WriteAppends};
ghost use Rattle.tg_base.specs.Causes.{Rose, HasCause};
ghost use Rattle.tg_base.specs.Files.{Files, IsFilePrefix};
ghost use Rattle.tg_base.specs.Writes.{TakesAll};

use crate::faults::Failed;
use std::alloc::Global;

/// A source of bytes. Its meaning is the bytes left, where it tells them, and a count of faults.
pub trait Source {
    ghost left: { Self → Option (List ℕ) };

    ghost faults: { Self → ℕ };

    /// Puts the next bytes at the front of `into`, and answers how many: 0 at the end of input
    /// alone. After `Failed` the bytes left are as before.
    fn read(&mut self, into: &mut [u8]) -> Result<usize, Failed>
        requires { 0 < length into.old }
        ensures bound { ReadsAtMost result into.new }
        ensures bytes { ReadConsumes (left self.old) (left self.new) result into.new }
        ensures cause { HasCause (faults self.old) (faults self.new) result };
}

/// A sink of bytes. Its meaning is the bytes taken, where it tells them, and a count of faults.
pub trait Sink {
    ghost taken: { Self → Option (List ℕ) };

    ghost faults: { Self → ℕ };

    /// Takes the first bytes of `piece`, and answers how many, at least 1. After `Failed` it has
    /// taken none.
    fn write(&mut self, piece: &[u8]) -> Result<usize, Failed>
        requires { 0 < length piece.now }
        ensures some { IfOk result (λ n. (0 < n) × (n ≤ length piece.now)) }
        ensures bytes { WriteAppends (taken self.old) (taken self.new) result piece.now }
        ensures cause { HasCause (faults self.old) (faults self.new) result };
}

/// Why a file isn't answered.
#[derive(Clone, Copy, Debug, PartialEq, Eq)]
pub enum ShelfFault {
    /// It isn't there, or it can't be read.
    Failed,
    /// Out of memory.
    Memory,
}

/// Files by their names. Its meaning is a map from names to bytes, where it tells it, which no call
/// changes, and a count of faults for each name.
pub trait Shelf {
    ghost files: { Self → Files };

    ghost faults: { Self → List ℕ → ℕ };

    /// The first `most` bytes of a file, or all where it is shorter.
    fn read_file(&mut self, alloc: Global, name: &str, most: usize) -> Result<Vec<u8>, ShelfFault>
        ensures same { files self.new ≡ files self.old }
        ensures later { (n : List ℕ) → faults self.old n ≤ faults self.new n }
        ensures cause { IsErrOf result ShelfFault.Failed →
            Rose (faults self.old name.now) (faults self.new name.now) }
        ensures bound { IfOk result (λ v. length v.items ≤ most) }
        ensures front { IfOk result (λ v. IsFilePrefix (files self.old) name.now most v.items) };
}

/// Writes a piece whole. After `Failed` the sink has taken a prefix of it, and an empty piece
/// leaves the sink alone.
pub fn write_all<O: Sink>(out: &mut O, piece: &[u8]) -> Result<(), Failed>
    ensures bytes { TakesAll (O.taken out.old) (O.taken out.new) result piece.now }
    ensures cause { HasCause (O.faults out.old) (O.faults out.new) result }
    ensures empty { length piece.now ≡ 0 → (out.new ≡ out.old) × IsOk result }
{
    let mut done = 0;
    while done < piece.len() {
        done += out.write(&piece[done..])?;
    }
    Ok(())
}
