ghost use Rattle.std.specs.Prelude.{◌≡◌, length, IfOk, IfErr};
ghost use Rattle.tg_syntax.specs.glue.Plain.{plain};
ghost use Rattle.tg_syntax.specs.NamesWithin.{NamesWithin};
ghost use Rattle.tg_syntax.specs.Beginnings.{BeginsApart};
ghost use Rattle.tg_typecheck.specs.Accepted.{finding};
ghost use Rattle.tg_typecheck.specs.Answered.{Accepts, AreRising, IsAt, meaning_at};

use crate::faults::TypeFault;
use crate::limits::first_limit;
use crate::notes::{Means, Note};
use crate::states::CheckingState;
use crate::trees::typed;
use std::alloc::Global;
use std::marker::Model;
use tg_base::Names;
use tg_syntax::Program;

/// The notes of a program, in rising order of the bytes where they stand.
#[derive(Drop)]
pub struct Notes {
    notes: Vec<Note>,
}

impl Model for Notes {
    ghost use Rattle.std.specs.Prelude.{List};
    ghost use Rattle.tg_typecheck.specs.declared.notes.Note.{Note as OneNote};

    ghost Value = { List OneNote };

    ghost use Rattle.tg_typecheck.specs.Answered.{AreRising};

    ghost view = { λ n. n.notes.items };

    ghost invariant = { λ n. AreRising n.notes.items };
}

impl Notes {
    /// The notes of a vector, in which each stands after those before it. It takes no memory.
    pub fn from_vec(notes: Vec<Note>) -> Notes
        requires { AreRising notes.items }
        ensures { result ≡ notes.items }
    {
        Notes { notes }
    }

    /// The notes.
    pub fn as_slice(&self) -> &[Note]
        ensures { result.now ≡ self.now }
    {
        &self.notes
    }

    /// The vector of the notes. It takes no memory.
    pub fn into_vec(self) -> Vec<Note>
        ensures notes { result.items ≡ self }
        ensures rising { AreRising self }
    {
        self.notes
    }

    /// What is noted at a byte. It takes no memory.
    pub fn find(&self, at: u32) -> Option<Means>
        ensures { result ≡ meaning_at at self.now }
    {
        let mut low = 0;
        let mut high = self.notes.len();
        while low < high {
            let middle = low + (high - low) / 2;
            let note = self.notes[middle];
            if note.at == at {
                return Some(note.means);
            }
            if note.at < at {
                low = middle + 1;
            } else {
                high = middle;
            }
        }
        None
    }
}

/// A program that has no fault of types, with its names and its notes. Whoever reads a field knows
/// that its names lie within the list, that its identifiers and operators begin at bytes of their
/// own, and that the notes are those of its typing.
#[derive(Drop)]
pub struct Checked<'a> {
    pub program: &'a Program,
    pub names: &'a Names,
    pub notes: Notes,
}

impl<'a> Model for Checked<'a> {
    ghost use Rattle.tg_typecheck.specs.Programs.{CheckedTree, checked_code, plain_checked};
    ghost use Rattle.tg_typecheck.specs.Programs.{IsAccepted};

    ghost Value = { CheckedTree };

    ghost coded = { checked_code };

    ghost view = { λ c. record { program = c.program.now; names = c.names.now; notes = c.notes } };

    ghost invariant = { λ c. IsAccepted (plain_checked
        (record { program = c.program.now; names = c.names.now; notes = c.notes })) };
}

/// Types a program, whose identifiers are numbered by a list of names.
pub fn check<'a>(
    alloc: Global,
    program: &'a Program,
    names: &'a Names,
) -> Result<Checked<'a>, TypeFault>
    requires names { NamesWithin (length names.now) (plain program.now.body) }
    requires apart { BeginsApart (plain program.now.body) }
    ensures ok { IfOk result (λ c. Accepts (finding names.now (plain program.now.body)) c.notes) }
    ensures program { IfOk result (λ c. c.program ≡ program.now) }
    ensures names { IfOk result (λ c. c.names ≡ names.now) }
    ensures err { IfErr result (λ e. IsAt (finding names.now (plain program.now.body)) e) }
{
    let mut state = CheckingState::new(alloc);
    typed(names, &mut state, &program.body, false)?;
    if let Some(limit) = first_limit(program) {
        return Err(TypeFault::Bad {
            rule: limit.rule,
            at: limit.at,
        });
    }
    let mut notes = state.notes;
    notes.sort_by_key(|note| note.at)?;
    Ok(Checked {
        program,
        names,
        notes: Notes::from_vec(notes),
    })
}
