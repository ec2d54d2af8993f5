ghost use Rattle.std.specs.Prelude.{◌≡◌};
ghost use Rattle.std.specs.Str.{bytes_eq};
ghost use Rattle.tg_explain_typing.specs.Standards as standards;

use crate::types::Ty;

fn is(word: &[u8], text: &[u8]) -> bool
    ensures { result ≡ bytes_eq word.now text.now }
{
    word == text
}

/// The type that a name has in the outermost scope.
pub(crate) fn outermost_type(word: &[u8]) -> Ty
    ensures { result ≡ standards.outermost_type word.now }
{
    if is(word, b"int") {
        Ty::Int
    } else if is(word, b"string") {
        Ty::Text
    } else {
        Ty::Nothing
    }
}

/// The type of a standard function's result.
pub(crate) fn standard_result(word: &[u8]) -> Ty
    ensures { result ≡ standards.standard_result word.now }
{
    if is(word, b"ord") || is(word, b"size") || is(word, b"not") {
        Ty::Int
    } else if is(word, b"print") || is(word, b"flush") || is(word, b"exit") {
        Ty::Nothing
    } else {
        Ty::Text
    }
}

/// The type of a standard function's parameter.
pub(crate) fn standard_param(word: &[u8], index: usize) -> Ty
    ensures { result ≡ standards.standard_param word.now index }
{
    if is(word, b"chr") || is(word, b"not") || is(word, b"exit") {
        Ty::Int
    } else if is(word, b"substring") && index > 0 {
        Ty::Int
    } else {
        Ty::Text
    }
}
