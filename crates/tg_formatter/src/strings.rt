// A string of `format` is written by a table of escapes, 64 bytes at a time into an array that
// the text takes at once. Byte by byte, each with its own tests, took half as many instructions
// again.

ghost use Rattle.std.specs.Prelude.{◌≡◌, ◌++◌, ◌∷◌, [], OnOk};
ghost use Rattle.tg_formatter.specs.Canonical as canonical;

use crate::escapes::{ROOM, STRETCH, write_stretch};
use tg_base::Memory;

/// Puts a string at the end, between quotes.
pub(crate) fn put_string(text: &mut Vec<u8>, bytes: &[u8]) -> Result<(), Memory>
    ensures { OnOk result (text.new.items
        ≡ text.old.items ++ (34 ∷ canonical.quoted_text bytes.now ++ 34 ∷ [])) }
{
    text.push(b'"')?;
    put_quoted(text, bytes)?;
    text.push(b'"')?;
    Ok(())
}

/// Puts what stands between the quotes of a string at the end.
fn put_quoted(text: &mut Vec<u8>, bytes: &[u8]) -> Result<(), Memory>
    ensures { OnOk result (text.new.items ≡ text.old.items ++ canonical.quoted_text bytes.now) }
{
    let mut written = [0; ROOM];
    for stretch in bytes.chunks(STRETCH) {
        let count = write_stretch(&mut written, stretch);
        text.extend_from_slice(&written[..count])?;
    }
    Ok(())
}
