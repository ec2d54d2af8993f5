// Bounds that no crate below gives are tested, and out of memory is answered beyond them, in
// each pass; `docs/THEOREM.md` lists them. `translate` tests besides that a field's place, a
// record's number of fields and a slot's number are below 2^30, and labels, levels, loops that a
// `break` leaves and a string's bytes below 2^32.
//
// Some laws stand with the definitions that they are about, and
// `tg_translate/specs/mirror/Scopes.antt` has the types of what is found.

ghost use Rattle.std.specs.Prelude.{◌≡◌, ◌<◌, ◌+◌, map, IfOk, OnOk};
ghost use Rattle.tg_tree.specs.glue.Plain.{
  plain_ts,
  plain_function,
  plain_fragment,
  plain_fragments,
};
ghost use Rattle.tg_translate.specs.mirror.States as states;
ghost use Rattle.tg_translate.specs.mirror.States.{drawn, state_of};
ghost use Rattle.tg_translate.specs.mirror.Functions as functions;

use crate::homes::{Callee, Home, TranslatedProgram};
use std::alloc::Global;
use std::mem::replace;
use tg_base::{Label, Memory, Temp};
use tg_frame::{Access, Frame, new_frame};
use tg_symbols::Table;
use tg_tree::{Fragment, Fragments, Literal, Ts};

/// How many slots, and how many temporaries, a function's frame may have.
const MOST_HOMES: u32 = 4194304;

/// What a translation draws: labels, literals, the functions that are done, and homes; and the
/// frame of the function at work.
#[derive(Drop)]
pub(crate) struct TranslationState {
    pub(crate) alloc: Global,
    pub(crate) label: u32,
    pub(crate) literals: Vec<Literal>,
    pub(crate) functions: Vec<Fragment>,
    pub(crate) homes: Table<Home>,
    pub(crate) callees: Table<Callee>,
    pub(crate) frame: Frame,
}

/// What a function's text is put aside for: the functions that were done before it, and the frame
/// of the function around it.
#[derive(Drop)]
pub(crate) struct Outer {
    functions: Vec<Fragment>,
    frame: Frame,
}

impl TranslationState {
    /// Nothing is drawn, and the frame is that of the program's body.
    pub(crate) fn new(alloc: Global, first: u32, frame: Frame) -> TranslationState
        ensures { state_of result ≡ functions.beginning first (plain_function frame tt) }
    {
        TranslationState {
            alloc,
            label: first,
            literals: Vec::new(alloc),
            functions: Vec::new(alloc),
            homes: Table::new(alloc),
            callees: Table::new(alloc),
            frame,
        }
    }

    fn has_room(&self) -> Result<(), Memory>
        ensures slots { OnOk result (self.now.frame.slots < 4194304) }
        ensures temps { OnOk result (self.now.frame.temps < 4194304) }
    {
        if self.frame.slots >= MOST_HOMES || self.frame.temps >= MOST_HOMES {
            return Err(Memory);
        }
        Ok(())
    }

    /// A fresh temporary.
    pub(crate) fn fresh(&mut self) -> Result<Temp, Memory>
        ensures { IfOk result
            (λ t. states.fresh (state_of self.old) ≡ drawn t.0 (state_of self.new)) }
    {
        self.has_room()?;
        Ok(self.frame.fresh())
    }

    /// A home for a local variable, in the frame where it escapes.
    pub(crate) fn local(&mut self, escapes: bool) -> Result<Access, Memory>
        ensures { IfOk result
            (λ a. states.local escapes (state_of self.old) ≡ drawn a (state_of self.new)) }
    {
        self.has_room()?;
        Ok(self.frame.alloc_local(escapes))
    }

    /// The next label.
    pub(crate) fn draw_label(&mut self) -> Result<Label, Memory>
        ensures { IfOk result
            (λ l. states.draw_label (state_of self.old) ≡ drawn l.0 (state_of self.new)) }
    {
        let label = self.label;
        self.label = next(label)?;
        Ok(Label(label))
    }

    /// A function's text begins, with a frame of its own.
    pub(crate) fn open(&mut self, frame: Frame) -> Outer
        ensures opened { state_of self.new ≡
            functions.opened (state_of self.old) (plain_function frame tt) }
        ensures functions { result.functions ≡ self.old.functions }
        ensures frame { result.frame ≡ self.old.frame }
    {
        Outer {
            functions: replace(&mut self.functions, Vec::new(self.alloc)),
            frame: replace(&mut self.frame, frame),
        }
    }

    /// A function's text ends: it stands after those before it, and before those found in it.
    pub(crate) fn close(&mut self, outer: Outer, body: Ts) -> Result<(), Memory>
        ensures { OnOk result (state_of self.new ≡
            functions.finished (map plain_fragment outer.functions.items)
            (plain_function outer.frame tt) (state_of self.old) (plain_ts body)) }
    {
        let Outer { functions, frame } = outer;
        let frame = replace(&mut self.frame, frame);
        let mut inner = replace(&mut self.functions, functions);
        self.functions.push(Fragment { frame, body })?;
        self.functions.append(&mut inner)?;
        Ok(())
    }

    /// The program's text ends: its body stands before its functions.
    pub(crate) fn finish(self, body: Ts) -> Result<TranslatedProgram, Memory>
        ensures code { IfOk result (λ t. plain_fragments t.fragments ≡
            functions.program_of (state_of self) (plain_ts body)) }
        ensures homes { IfOk result (λ t. t.homes ≡ self.homes) }
        ensures callees { IfOk result (λ t. t.callees ≡ self.callees) }
    {
        let TranslationState {
            alloc,
            label: _,
            literals,
            functions: mut inner,
            homes,
            callees,
            frame,
        } = self;
        let mut functions = vec![in alloc; Fragment { frame, body }]?;
        functions.append(&mut inner)?;
        let fragments = Fragments {
            functions,
            literals,
        };
        Ok(TranslatedProgram {
            fragments,
            homes,
            callees,
        })
    }
}

/// The number after a number.
pub(crate) fn next(number: u32) -> Result<u32, Memory>
    ensures { IfOk result (λ n. n ≡ number + 1) }
{
    Ok(number.checked_add(1).ok_or(Memory)?)
}

/// A frame for a function of a label.
pub(crate) fn frame_of(alloc: Global, label: Label, asked: &[bool]) -> Result<Frame, Memory>
    ensures { IfOk result (λ f. plain_function f tt ≡ functions.frame_for label.0 asked.now) }
{
    if asked.len() > MOST_HOMES as usize {
        return Err(Memory);
    }
    Ok(new_frame(alloc, label, asked)?)
}
