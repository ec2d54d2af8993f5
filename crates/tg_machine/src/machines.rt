ghost use Rattle.std.specs.Prelude.{◌≡◌, ◌≢◌, ◌<◌, None, IfSome};
ghost use Rattle.tg_machine.specs.Machines.{HasEnded, end_of};
ghost use Rattle.tg_machine.specs.Ran.{IsSimulation};
ghost use Rattle.tg_machine_state.specs.State as state;

use crate::cores::Core;
use crate::status::Status;
use std::marker::Model;
use tg_base::{Sink, Source};
use tg_isa::Reg;
use tg_machine_state::RunEnd;

/// A machine with a program: its registers and its regions, how it ended if it has, how many bytes
/// its services have written, and whether a read has met the end of the input. From then on it asks
/// no source for more, and answers each read with the end.
#[derive(Drop)]
pub struct Machine {
    pub(crate) core: Core,
    pub(crate) end: Option<RunEnd>,
    pub(crate) written: u64,
    pub(crate) input_ended: bool,
}

impl Model for Machine {
    ghost use Rattle.tg_machine.specs.Machines.{Simulated};

    ghost Value = { Simulated };

    ghost use Rattle.tg_machine.specs.glue.Inside.{shown};

    ghost view = { shown };
}

impl Machine {
    /// How many bytes the services of this machine have written since it was loaded, without a
    /// service whose write failed, or the greatest u64 where that is less.
    pub fn written(&self) -> u64
        ensures { result ≡ self.now.written }
    {
        self.written
    }

    /// How the machine ended, where it has.
    pub fn end(&self) -> Option<RunEnd>
        ensures { result ≡ self.now.end }
    {
        self.end
    }

    /// The value of a register.
    pub fn register(&self, number: Reg) -> u32
        ensures { result ≡ state.register self.now.state number }
    {
        self.core.register(number)
    }

    /// The value of hi: the upper word of a product, or the remainder of a division.
    pub fn hi(&self) -> u32
        ensures { result ≡ self.now.state.hi }
    {
        self.core.hi()
    }

    /// The value of lo: the lower word of a product, or the quotient of a division.
    pub fn lo(&self) -> u32
        ensures { result ≡ self.now.state.lo }
    {
        self.core.lo()
    }

    /// The word in memory at an address. The error, where the address isn't a multiple of 4 or isn't
    /// served, is the end that a load of it comes to.
    pub fn load_word(&self, address: u32) -> Result<u32, RunEnd>
        ensures { result ≡ state.load_word self.now.state address }
    {
        self.core.load_word(address)
    }

    /// Makes one step, whose fetch counts. A machine that has ended answers its end again and does
    /// nothing.
    pub fn step<I: Source, O: Sink>(&mut self, input: &mut I, out: &mut O) -> Status
        ensures apart { self.old.end ≡ None → result ≢ Status.Ended RunEnd.StepLimit }
        ensures step { self.old.end ≡ None →
            IsSimulation I.left I.faults O.taken O.faults 1 self.old self.new
            input.old input.new out.old out.new (end_of result) }
        ensures again { IfSome self.old.end (λ e. (result ≡ Status.Ended e)
            × HasEnded self.old self.new input.old input.new out.old out.new) }
    {
        self.advance(input, out, 1)
    }

    /// Makes at most `steps` steps. `StepLimit` says that all were made and the machine hasn't
    /// ended.
    pub fn run<I: Source, O: Sink>(&mut self, input: &mut I, out: &mut O, steps: u64) -> RunEnd
        requires { 0 < steps }
        ensures run { self.old.end ≡ None →
            IsSimulation I.left I.faults O.taken O.faults steps self.old self.new
            input.old input.new out.old out.new result }
        ensures again { IfSome self.old.end (λ e. (result ≡ e)
            × HasEnded self.old self.new input.old input.new out.old out.new) }
    {
        match self.advance(input, out, steps) {
            Status::Running => RunEnd::StepLimit,
            Status::Ended(end) => end,
        }
    }

    /// Makes at most so many steps, where the machine hasn't ended.
    #[inline(always)]
    fn advance<I: Source, O: Sink>(&mut self, input: &mut I, out: &mut O, steps: u64) -> Status
        ensures apart { self.old.end ≡ None → result ≢ Status.Ended RunEnd.StepLimit }
        ensures run { self.old.end ≡ None →
            IsSimulation I.left I.faults O.taken O.faults steps self.old self.new
            input.old input.new out.old out.new (end_of result) }
        ensures again { IfSome self.old.end (λ e. (result ≡ Status.Ended e)
            × HasEnded self.old self.new input.old input.new out.old out.new) }
    {
        if let Some(end) = self.end {
            return Status::Ended(end);
        }
        let mut written = self.written;
        let mut ended = self.input_ended;
        let status = self.core.run(input, out, &mut written, &mut ended, steps);
        self.written = written;
        self.input_ended = ended;
        if let Status::Ended(end) = status {
            self.end = Some(end);
        }
        status
    }
}
