ghost use Rattle.std.specs.Prelude.{◌≡◌, ◌≤◌, ◌+◌, length, IfOk};
ghost use Rattle.tg_syntax.specs.Spellings.{is_plain as plain};
ghost use Rattle.tg_lexer.specs.glue.Lexemes.{IsBehindQuote};

use crate::escapes::{Escaped, escape};
use std::alloc::Global;
use tg_base::{Bytes, Memory};
use tg_syntax::LexRule;

/// What stands after an opening quote.
#[derive(Drop)]
pub(crate) enum Quoted {
    /// A string, and the number of its bytes with the closing quote.
    Whole(Bytes, usize),
    /// A fault, and its byte.
    Fault(LexRule, usize),
}

// A byte that stands for itself in a string.
fn is_plain(byte: u8) -> bool
    ensures { result ≡ plain byte }
{
    b' ' <= byte && byte != 127 && byte != b'"' && byte != b'\\'
}

// The string after an opening quote, whose byte is `quote`.
pub(crate) fn string(alloc: Global, text: &[u8], quote: usize) -> Result<Quoted, Memory>
    requires { quote + length text.now ≤ 262144 }
    ensures { IfOk result (λ q. IsBehindQuote quote text.now q) }
{
    let mut meant = Vec::new(alloc);
    let mut at = 0;
    while at < text.len() {
        let byte = text[at];
        if is_plain(byte) {
            meant.push(byte)?;
            at += 1;
            continue;
        }
        match byte {
            b'"' => return Ok(Quoted::Whole(Bytes::from_vec(meant), at + 1)),
            b'\n' => return Ok(Quoted::Fault(LexRule::L3, quote)),
            b'\\' => match escape(&text[at + 1..]) {
                Escaped::Byte(byte, size) => {
                    meant.push(byte)?;
                    at += 1 + size;
                }
                Escaped::Nothing(size) => at += 1 + size,
                Escaped::Cut => return Ok(Quoted::Fault(LexRule::L3, quote)),
                Escaped::Bad => return Ok(Quoted::Fault(LexRule::L4, quote + 1 + at)),
            },
            _ => return Ok(Quoted::Fault(LexRule::L6, quote + 1 + at)),
        }
    }
    Ok(Quoted::Fault(LexRule::L3, quote))
}
