ghost use Rattle.std.specs.Prelude.{◌≡◌, IfOk};
ghost use Rattle.tg_formatter.specs.Canonical.{canonical, tokens_of};
ghost use Rattle.tg_formatter.specs.Writable.{AreWritable};

use crate::gaps::{Behind, put_gap};
use crate::spellings::put_spelling;
use std::alloc::Global;
use tg_base::{Memory, Names};
use tg_syntax::Spanned;

/// The canonical text of tokens, which end with the end of their text, as those that the lexer
/// answers. The spans don't matter, and comments aren't there. The only error is out of memory.
pub fn format(alloc: Global, tokens: &[Spanned], names: &Names) -> Result<Vec<u8>, Memory>
    requires { AreWritable names.now (tokens_of tokens.now) }
    ensures { IfOk result (λ text. text.items ≡ canonical names.now (tokens_of tokens.now)) }
{
    let mut text = Vec::new(alloc);
    let mut behind = Behind::start();
    for spanned in tokens {
        put_gap(&mut text, behind, &spanned.token)?;
        put_spelling(&mut text, names, &spanned.token)?;
        behind = behind.after(&spanned.token);
    }
    Ok(text)
}
