ghost use Rattle.std.specs.Prelude.{◌≡◌, IfOk};
ghost use Rattle.std.specs.FinSet.{from_list};
ghost use Rattle.tg_syntax.specs.glue.Plain.{plain};
ghost use Rattle.tg_escape.specs.Links.{links_of};
ghost use Rattle.tg_tree.specs.glue.Plain.{plain_ts, plain_fragments};
ghost use Rattle.tg_translate.specs.mirror.States.{drawn, state_of};
ghost use Rattle.tg_translate.specs.mirror.Scopes.{found, findings_of};
ghost use Rattle.tg_translate.specs.mirror.Translate as translation;

use crate::expressions::expression;
use crate::findings::Findings;
use crate::functions::closing;
use crate::homes::{TranslatedProgram, Within};
use crate::states::{TranslationState, frame_of};
use crate::wants::{Made, Want};
use std::alloc::Global;
use tg_base::{Label, Memory};
use tg_escape::{Escapes, links};
use tg_syntax::Exp;
use tg_tree::{Fragments, Ts, Tx};
use tg_typecheck::Checked;

/// The label of the program's body. Labels below it are the runtime's.
const BODY: u32 = 32;

/// The trees of a checked program (Appel, chapter 7): its body first, with the label 32, and then
/// its functions in the order of the source; and its literals, one for each string of the text. It
/// fails only where memory runs out.
pub fn translate(alloc: Global, checked: &Checked, escapes: &Escapes) -> Result<Fragments, Memory>
    ensures { IfOk result (λ code. plain_fragments code ≡
        translation.translated
        (found checked.now.notes escapes.now
        (from_list (links_of (plain checked.now.program.body))))
        (plain checked.now.program.body)) }
{
    let TranslatedProgram {
        fragments,
        homes: _,
        callees: _,
    } = translate_with_homes(alloc, checked, escapes)?;
    Ok(fragments)
}

/// The trees that `translate` makes, and where what the program declares is: the home of each of
/// its variables and parameters, with the level of the function that declares it, and the label of
/// each of its functions. It fails only where memory runs out.
pub fn translate_with_homes(
    alloc: Global,
    checked: &Checked,
    escapes: &Escapes,
) -> Result<TranslatedProgram, Memory>
    ensures code { IfOk result (λ t. plain_fragments t.fragments ≡
        translation.translated
        (found checked.now.notes escapes.now
        (from_list (links_of (plain checked.now.program.body))))
        (plain checked.now.program.body)) }
    ensures homes { IfOk result (λ t. t.homes ≡ (translation.last_state
        (found checked.now.notes escapes.now
        (from_list (links_of (plain checked.now.program.body))))
        (plain checked.now.program.body)).homes) }
    ensures callees { IfOk result (λ t. t.callees ≡ (translation.last_state
        (found checked.now.notes escapes.now
        (from_list (links_of (plain checked.now.program.body))))
        (plain checked.now.program.body)).callees) }
{
    let links = links(alloc, checked)?;
    let findings = Findings {
        notes: &checked.notes,
        escapes,
        links: &links,
    };
    Ok(program(alloc, &findings, &checked.program.body)?)
}

/// The trees of a program and its homes, by what was found of it.
fn program(alloc: Global, findings: &Findings, e: &Exp) -> Result<TranslatedProgram, Memory>
    ensures code { IfOk result (λ t. plain_fragments t.fragments ≡
        translation.translated (findings_of findings.now) (plain e.now)) }
    ensures homes { IfOk result (λ t. t.homes ≡
        (translation.last_state (findings_of findings.now) (plain e.now)).homes) }
    ensures callees { IfOk result (λ t. t.callees ≡
        (translation.last_state (findings_of findings.now) (plain e.now)).callees) }
{
    let frame = frame_of(alloc, Label(BODY), &[])?;
    let mut state = TranslationState::new(alloc, BODY + 1, frame);
    let body = program_body(findings, &mut state, e)?;
    Ok(state.finish(body)?)
}

/// The program's body, of which nothing is wanted.
fn program_body(findings: &Findings, state: &mut TranslationState, e: &Exp) -> Result<Ts, Memory>
    ensures { IfOk result (λ s.
        translation.program_body (findings_of findings.now) (plain e.now) (state_of state.old) ≡
        drawn (plain_ts s) (state_of state.new)) }
{
    let outermost = Within {
        level: 0,
        link_in_slot: false,
        leave: 0,
    };
    let mut made = Made::Value(Tx::Const(0));
    expression(findings, state, e, Want::Dropped, &outermost, &mut made)?;
    Ok(closing(state, false, made)?)
}
