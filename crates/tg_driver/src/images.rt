ghost use Rattle.std.specs.Prelude.{◌≡◌, ◌≤◌, IfOk, length};
ghost use Rattle.tg_machine_state.specs.State.{most_bytes, most_words};
ghost use Rattle.tg_asm_text.specs.Assembly.{assembled};
ghost use Rattle.tg_asm.specs.Images as meant;
ghost use Rattle.tg_compile.specs.Compiling.{HasImage};

use std::alloc::Global;
use tg_asm::assemble;
use tg_base::{Faulty, Memory};
use tg_isa::Image;

/// The image of an assembly text that has one, as that of a compiled source.
pub(crate) fn image_of(alloc: Global, assembly: &[u8]) -> Result<Image, Memory>
    requires { HasImage assembly.now }
    ensures image { IfOk result (λ i. assembled assembly.now ≡ Ok (meant.image_of i)) }
    ensures code { IfOk result (λ i. length i.code ≤ most_words) }
    ensures statics { IfOk result (λ i. length i.statics ≤ most_bytes) }
{
    match assemble(alloc, assembly) {
        Ok(image) => Ok(image),
        Err(Faulty::Bad { rule: _, at: _ }) => unreachable!(),
        Err(Faulty::Memory) => Err(Memory),
    }
}
