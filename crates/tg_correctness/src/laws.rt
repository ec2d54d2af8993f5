ghost use Rattle.tg_correctness.specs.laws.EndLaws.{EndsTellMeaning};
ghost use Rattle.tg_correctness.specs.laws.Laws.{AgreementIsMeant, PassesAgree};

use tg_isa::machine_runs_by_fuel;
use tg_semantics::forms_agree;

/// The law of the passes together: where each keeps its promise, the machine agrees with the
/// program, within the constants of all of them, and ends by a full stack where the program's calls
/// are too deep.
pub fn passes_agree()
    ensures { PassesAgree }
{}

/// The law that agreement by fuel, within these constants, is what is said of an image.
pub fn image_agrees()
    ensures { AgreementIsMeant }
{
    machine_runs_by_fuel();
    forms_agree();
}

/// The law of ends: what the end of a run of so many steps says of the meaning of its program.
pub fn ends_tell()
    ensures { EndsTellMeaning }
{}
