ghost use Rattle.tg_lexer.specs.glue.Lexemes.{FoundComment, IsMark};

// How many bytes a comment has, after the `/*` that opens it, where it is closed.
pub(crate) fn comment(text: &[u8]) -> Option<usize>
    ensures { FoundComment text.now result }
{
    let mut depth: usize = 1;
    let mut at = 0;
    while at < text.len() {
        match look(&text[at..]) {
            Mark::Opens => {
                depth += 1;
                at += 2;
            }
            Mark::Closes => {
                depth -= 1;
                at += 2;
                if depth == 0 {
                    return Some(at);
                }
            }
            Mark::Byte => at += 1,
        }
    }
    None
}

// What a text begins with inside a comment.
#[derive(Clone, Copy)]
enum Mark {
    Opens,
    Closes,
    Byte,
}

fn look(text: &[u8]) -> Mark
    ensures { IsMark text.now result }
{
    if text.starts_with(b"/*") {
        return Mark::Opens;
    }
    if text.starts_with(b"*/") {
        return Mark::Closes;
    }
    Mark::Byte
}
