ghost use Rattle.std.specs.Prelude.{◌≡◌, ◌≤◌, ◌==◌, IfOk, count_by, length};
ghost use Rattle.tg_machine_state.specs.State.{most_bytes, most_words};
ghost use Rattle.tg_asm_text.specs.Assembly as assembly;
ghost use Rattle.tg_asm.specs.Images.{GivesImage};
ghost use Rattle.tg_asm.specs.glue.Layouts.{layout_of};

use crate::faults::AsmFault;
use crate::layouts::{Layout, lay_out};
use crate::makers::address;
use crate::making::make;
use crate::spots::LabelTarget;
use std::alloc::Global;
use tg_asm_text::AsmRule;
use tg_base::{Bytes, Words};
use tg_isa::Image;

/// The place of `main`, where that is in the code and not at its end.
fn entry(layout: &Layout<'_>) -> Option<u32>
    ensures { result ≡ assembly.entry_point (layout_of layout.now) }
{
    match layout.labels.find(b"main") {
        Some(LabelTarget::InCode(at)) if at < layout.words => Some(address(
            layout,
            LabelTarget::InCode(at),
        )),
        _ => None,
    }
}

/// How many newlines bytes have.
fn newlines(bytes: &[u8]) -> usize
    ensures count { result ≡ count_by (λ c. c == 10) bytes.now }
    ensures bound { result ≤ length bytes.now }
{
    bytes.iter().filter(|byte| **byte == b'\n').count()
}

/// The number of a text's last line. A newline at the text's end begins none.
fn last_line(text: &[u8]) -> u64
    ensures { result ≡ assembly.last_line_number text.now }
{
    match text.split_last() {
        Some((_, front)) => newlines(front) as u64 + 1,
        None => 1,
    }
}

/// The image of an assembly text.
///
/// A fault is the text's first one: of the lines with a fault of A1, A2, A3, A7, A4 or A8 the
/// first, where there are none of the lines with a fault of A5 or A6 the first, and then A9, with
/// the number of the last line. A text has one image or one such fault, since the definition is a
/// function of the text. `Memory` comes where memory runs out, and may come in place of any other
/// answer. The time is linear in the sizes of the text and of the image, and for labels n log n in
/// their number.
pub fn assemble(alloc: Global, text: &[u8]) -> Result<Image, AsmFault>
    ensures image { GivesImage (assembly.assembled text.now) result }
    ensures code { IfOk result (λ i. length i.code ≤ most_words) }
    ensures statics { IfOk result (λ i. length i.statics ≤ most_bytes) }
{
    let layout = lay_out(alloc, text)?;
    let made = make(alloc, &layout, text)?;
    match entry(&layout) {
        Some(entry) => Ok(Image {
            code: Words::from_vec(made.code),
            statics: Bytes::from_vec(made.statics),
            entry,
        }),
        None => Err(AsmFault::Bad {
            rule: AsmRule::A9,
            at: last_line(text),
        }),
    }
}
