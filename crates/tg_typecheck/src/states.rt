ghost use Rattle.std.specs.Prelude.{◌≡◌, [], List, ℕ};
ghost use Rattle.tg_typecheck.specs.Checks.{note, Noted};
ghost use Rattle.tg_typecheck.specs.glue.States.{AnswersCheck, Keeps, noted_of};

use crate::bindings::Binding;
use crate::faults::TypeFault;
use crate::kinds::Ty;
use crate::notes::{Means, Note};
use crate::shapes::Shape;
use std::alloc::Global;
use tg_symbols::Table;

/// What is open at a place of the text, the shapes of types so far, and the notes so far.
#[derive(Drop)]
pub(crate) struct CheckingState {
    pub(crate) alloc: Global,
    pub(crate) bindings: Table<Binding>,
    pub(crate) types: Table<Ty>,
    pub(crate) shapes: Table<Shape>,
    pub(crate) notes: Vec<Note>,
}

impl CheckingState {
    /// Nothing is open, and nothing noted.
    pub(crate) fn new(alloc: Global) -> CheckingState
        ensures bindings { result.bindings ≡ [] }
        ensures types { result.types ≡ [] }
        ensures noted { noted_of result ≡ record { shapes = []; notes = [] } }
    {
        CheckingState {
            alloc,
            bindings: Table::new(alloc),
            types: Table::new(alloc),
            shapes: Table::new(alloc),
            notes: Vec::new(alloc),
        }
    }

    /// A note after the others.
    pub(crate) fn note(&mut self, at: u32, means: Means) -> Result<(), TypeFault>
        ensures given { AnswersCheck result (λ _. tt) (noted_of self.new)
            (note at means (noted_of self.old)) }
        ensures kept { Keeps self.old self.new }
    {
        self.notes.push(Note { at, means })?;
        Ok(())
    }
}
