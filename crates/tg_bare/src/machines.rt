// The machine with delayed branches is a crate of its own, over the core and the rows of
// `tg_machine`: what goes straight on is done by the same `execute`, and the ten rows that jump
// or branch are its own. So a run without delayed branches takes no instruction more.

ghost use Rattle.std.specs.Prelude.{◌≡◌, ◌<◌, None, IfSome};
ghost use Rattle.tg_bare.specs.Machines.{HasBareEnded};
ghost use Rattle.tg_bare.specs.Ran.{IsBareSimulation};
ghost use Rattle.tg_machine.specs.Machines.{end_of};

use crate::cores::BareCore;
use std::marker::Model;
use tg_base::{Sink, Source};
use tg_machine::Status;
use tg_machine_state::RunEnd;

/// A machine with delayed branches and a program: its registers, its regions and its places, how it
/// ended if it has, how many bytes its services have written, and whether a read has met the end of
/// the input. From then on it asks no source for more, and answers each read with the end.
#[derive(Drop)]
pub struct BareMachine {
    pub(crate) core: BareCore,
    pub(crate) end: Option<RunEnd>,
    pub(crate) written: u64,
    pub(crate) input_ended: bool,
}

impl Model for BareMachine {
    ghost use Rattle.tg_bare.specs.Machines.{BareSimulated};

    ghost Value = { BareSimulated };

    ghost use Rattle.tg_bare.specs.glue.Inside.{shown};

    ghost view = { shown };
}

impl BareMachine {
    /// How many bytes the services of this machine have written since it was loaded, without a
    /// service whose write failed, or the greatest u64 where that is less.
    pub fn written(&self) -> u64
        ensures { result ≡ self.now.written }
    {
        self.written
    }

    /// Makes at most `steps` steps. `StepLimit` says that all were made and the machine hasn't
    /// ended. A machine that has ended answers its end again and does nothing. It takes no memory.
    pub fn run<I: Source, O: Sink>(&mut self, input: &mut I, out: &mut O, steps: u64) -> RunEnd
        requires { 0 < steps }
        ensures run { self.old.end ≡ None →
            IsBareSimulation I.left I.faults O.taken O.faults steps self.old self.new
            input.old input.new out.old out.new result }
        ensures again { IfSome self.old.end (λ e. (result ≡ e)
            × HasBareEnded self.old self.new input.old input.new out.old out.new) }
    {
        match self.advance(input, out, steps) {
            Status::Running => RunEnd::StepLimit,
            Status::Ended(end) => end,
        }
    }

    /// Makes at most so many steps, where the machine hasn't ended.
    #[inline(always)]
    fn advance<I: Source, O: Sink>(&mut self, input: &mut I, out: &mut O, steps: u64) -> Status
        ensures run { self.old.end ≡ None →
            IsBareSimulation I.left I.faults O.taken O.faults steps self.old self.new
            input.old input.new out.old out.new (end_of result) }
        ensures again { IfSome self.old.end (λ e. (result ≡ Status.Ended e)
            × HasBareEnded self.old self.new input.old input.new out.old out.new) }
    {
        if let Some(end) = self.end {
            return Status::Ended(end);
        }
        let mut written = self.written;
        let mut ended = self.input_ended;
        let status = self.core.run(input, out, &mut written, &mut ended, steps);
        self.written = written;
        self.input_ended = ended;
        if let Status::Ended(end) = status {
            self.end = Some(end);
        }
        status
    }
}
