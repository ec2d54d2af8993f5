ghost use Rattle.std.specs.Prelude.{◌<◌, ◌^◌, ◌≢◌, None};
ghost use Rattle.tg_bare.specs.Machines.{bare_simulated};
ghost use Rattle.tg_bare.specs.Ran.{IsBareSimulation};
ghost use Rattle.tg_bare.specs.glue.Inside.{machine_of};
ghost use Rattle.tg_machine.specs.Machines.{end_of, kept};

use crate::cores::BareCore;
use crate::pauses::Pause;
use tg_base::{Sink, Source};
use tg_machine::Status;
use tg_machine_state::RunEnd;

impl BareCore {
    /// Makes at most so many steps. `ended` says whether a read has met the end of the input.
    pub(crate) fn run<I: Source, O: Sink>(
        &mut self,
        input: &mut I,
        out: &mut O,
        written: &mut u64,
        ended: &mut bool,
        steps: u64,
    ) -> Status
        requires { written.old < 2 ^ 64 }
        ensures apart { result ≢ Status.Ended RunEnd.StepLimit }
        ensures ran { IsBareSimulation I.left I.faults O.taken O.faults steps
            (bare_simulated (machine_of self.old) None written.old ended.old)
            (bare_simulated (machine_of self.new) (kept result) written.new ended.new)
            input.old input.new out.old out.new (end_of result) }
    {
        let mut made = 0;
        while made < steps {
            match self.run_alone(steps - made) {
                Pause::Due(more) => {
                    if let Err(end) = self.core.service(input, out, written, ended) {
                        return Status::Ended(end);
                    }
                    made += more + 1;
                }
                Pause::Ended(end) => return Status::Ended(end),
                Pause::Made => return Status::Running,
            }
        }
        Status::Running
    }
}
