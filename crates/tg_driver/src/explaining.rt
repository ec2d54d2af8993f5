// The answer is told to be explained once it is there, so nothing that only answers knows of
// explanations. The text is then read again from its bytes on, which takes the time of a check.

ghost use Rattle.std.specs.Prelude.{◌≡◌};
ghost use Rattle.tg_driver.specs.Explained.{TellsWhy};
ghost use Rattle.tg_driver.specs.glue.Explanations.{IsExplainedText, text_of};

use crate::answers::Answer;
use std::alloc::Global;
use tg_command::Flags;
use tg_explain_source::explain_source;

/// What is told behind the line of an answer.
#[derive(Drop)]
pub(crate) enum Explanation {
    /// Nothing: the answer is no fault of a source, or isn't to be explained.
    Nothing,
    /// The lines that explain the fault.
    Lines(Vec<u8>),
    /// That there was no memory for them.
    NoMemory,
}

/// The bytes that are told.
pub(crate) fn told(explanation: &Explanation) -> &[u8]
    ensures { result.now ≡ text_of explanation.now }
{
    match explanation {
        Explanation::Nothing => &[],
        Explanation::Lines(lines) => lines.as_slice(),
        Explanation::NoMemory => b"tiger:   no memory to explain it\n",
    }
}

/// What is told behind the line of an answer to a text: of a fault, where the flags ask for it, what
/// explains it.
#[tactic(auto, using(crate::proofs::GivenTexts::unasked_text, crate::proofs::GivenTexts::asked_text, crate::proofs::GivenTexts::other_text))]
pub(crate) fn explain(alloc: Global, flags: Flags, text: &[u8], answer: Answer) -> Explanation
    ensures { IsExplainedText flags text.now answer (text_of result) }
{
    if !flags.explain {
        return Explanation::Nothing;
    }
    match answer {
        Answer::Faulty(_) => explain_text(alloc, text),
        _ => Explanation::Nothing,
    }
}

/// What explains the first fault of a text.
fn explain_text(alloc: Global, text: &[u8]) -> Explanation
    ensures { TellsWhy text.now (text_of result) }
{
    match explain_source(alloc, text) {
        Ok(lines) => Explanation::Lines(lines),
        Err(_) => Explanation::NoMemory,
    }
}
