ghost use Rattle.std.specs.Prelude.{◌≡◌, IfSome, ◌<◌};
ghost use Rattle.tg_asm_text.specs.Operands as operands;

use crate::numbers::number;
use tg_isa::{Reg, name};

/// The register that a text names by a word.
fn named(text: &[u8]) -> Option<u8>
    ensures value { result ≡ operands.named_register text.now }
    ensures fits { IfSome result (λ r. r < 32) }
{
    for r in 0..32 {
        if name(Reg::new(r)).as_bytes() == text {
            return Some(r);
        }
    }
    None
}

/// The register that a text names by its number.
fn numbered(text: &[u8]) -> Option<u8>
    ensures value { result ≡ operands.numbered text.now }
    ensures fits { IfSome result (λ r. r < 32) }
{
    match text.split_first() {
        Some((b'$', more)) => match number(more) {
            Some(one) if one.is_within(0, 31) => Some(one.size as u8),
            _ => None,
        },
        _ => None,
    }
}

/// The register that a text is.
pub(crate) fn register(text: &[u8]) -> Option<Reg>
    ensures { result ≡ operands.register_operand text.now }
{
    match named(text) {
        Some(r) => Some(Reg::new(r)),
        None => match numbered(text) {
            Some(r) => Some(Reg::new(r)),
            None => None,
        },
    }
}
