ghost use Rattle.std.specs.Prelude.{◌≡◌, ◌≢◌, MatchOption};
ghost use Rattle.tg_syntax.specs.declared.tokens.Word.{Word};
ghost use Rattle.tg_syntax.specs.Spellings.{word_text};

use tg_syntax::Word;

// The reserved word that a text is.
pub(crate) fn word(text: &[u8]) -> Option<Word>
    ensures { MatchOption result ((w : Word) → text.now ≢ word_text w)
        (λ w. text.now ≡ word_text w) }
{
    match text {
        b"array" => Some(Word::WArray),
        b"break" => Some(Word::WBreak),
        b"do" => Some(Word::WDo),
        b"else" => Some(Word::WElse),
        b"end" => Some(Word::WEnd),
        b"for" => Some(Word::WFor),
        b"function" => Some(Word::WFunction),
        b"if" => Some(Word::WIf),
        b"in" => Some(Word::WIn),
        b"let" => Some(Word::WLet),
        b"nil" => Some(Word::WNil),
        b"of" => Some(Word::WOf),
        b"then" => Some(Word::WThen),
        b"to" => Some(Word::WTo),
        b"type" => Some(Word::WType),
        b"var" => Some(Word::WVar),
        b"while" => Some(Word::WWhile),
        _ => None,
    }
}
