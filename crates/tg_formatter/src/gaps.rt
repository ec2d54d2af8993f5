ghost use Rattle.std.specs.Prelude.{◌≡◌, ◌<◌, ◌≤◌, ◌+◌, ◌^◌, ◌++◌, OnOk};
ghost use Rattle.tg_formatter.specs.Canonical as canonical;
ghost use Rattle.tg_formatter.specs.glue.Reached.{behind_of};

use crate::kinds;
use tg_base::Memory;
use tg_syntax::Token;

/// What the next token is written after: the token before it, whether that is a minus with one
/// operand, and how many of `let`, `(`, `[` and `{` are open.
#[derive(Clone, Copy)]
pub(crate) struct Behind<'a> {
    before: Option<&'a Token>,
    is_unary: bool,
    depth: usize,
}

impl<'a> Behind<'a> {
    /// Nothing is written yet.
    pub(crate) fn start() -> Behind<'a>
        ensures { behind_of result ≡ canonical.at_start }
    {
        Behind {
            before: None,
            is_unary: false,
            depth: 0,
        }
    }

    /// What the next token is written after, once this one is.
    pub(crate) fn after(self, one: &'a Token) -> Behind<'a>
        requires { self.depth + 1 < 2 ^ 64 }
        ensures after { behind_of result ≡ canonical.behind_one (behind_of self.entry) one.now }
        ensures depth { result.depth ≤ self.entry.depth + 1 }
    {
        Behind {
            before: Some(one),
            is_unary: self.is_unary_minus(one),
            depth: depth_after(self.depth, one),
        }
    }

    fn is_unary_minus(self, one: &Token) -> bool
        ensures { result ≡ canonical.is_unary_minus (behind_of self.entry).before one.now }
    {
        match self.before {
            None => kinds::is_minus(one),
            Some(before) => kinds::is_minus(one) && !kinds::ends_operand(before),
        }
    }
}

/// How many are open after a token.
fn depth_after(depth: usize, one: &Token) -> usize
    requires { depth + 1 < 2 ^ 64 }
    ensures depth { result ≡ canonical.depth_after depth one.now }
    ensures most { result ≤ depth + 1 }
{
    if kinds::opens(one) {
        depth + 1
    } else if kinds::closes(one) {
        depth.saturating_sub(1)
    } else {
        depth
    }
}

/// Puts what stands between a token and the one before it at the end.
pub(crate) fn put_gap(text: &mut Vec<u8>, behind: Behind, one: &Token) -> Result<(), Memory>
    ensures { OnOk result (text.new.items
        ≡ text.old.items ++ canonical.space_before (behind_of behind.entry) one.now) }
{
    match behind.before {
        None => Ok(()),
        Some(before) => put_between(text, before, behind.is_unary, behind.depth, one),
    }
}

/// Puts what stands between two tokens at the end.
fn put_between(
    text: &mut Vec<u8>,
    before: &Token,
    is_unary: bool,
    depth: usize,
    one: &Token,
) -> Result<(), Memory>
    ensures { OnOk result (text.new.items
        ≡ text.old.items ++ canonical.between_tokens before.now is_unary depth one.now) }
{
    if matches!(one, Token::End) {
        text.push(b'\n')?;
    } else if kinds::begins_line(one) || kinds::ends_line(before) {
        put_line(text, depth, one)?;
    } else if !are_close(before, is_unary, one) {
        text.push(b' ')?;
    }
    Ok(())
}

/// Whether two tokens stand close, where the first is a minus with one operand or not.
fn are_close(before: &Token, is_unary: bool, one: &Token) -> bool
    ensures { result ≡ canonical.are_close before.now is_unary one.now }
{
    kinds::is_close_before(one)
        || kinds::is_close_behind(before)
        || is_unary
        || kinds::is_bracket(one) && kinds::takes_bracket(before)
}

/// Puts a new line at the end, up to its first token.
fn put_line(text: &mut Vec<u8>, depth: usize, one: &Token) -> Result<(), Memory>
    ensures { OnOk result (text.new.items ≡ text.old.items ++ canonical.line depth one.now) }
{
    text.push(b'\n')?;
    if kinds::is_in_or_end(one) {
        put_indentation(text, depth.saturating_sub(1))
    } else {
        put_indentation(text, depth)
    }
}

/// Puts two blanks for each that is open at the end.
fn put_indentation(text: &mut Vec<u8>, depth: usize) -> Result<(), Memory>
    ensures { OnOk result (text.new.items ≡ text.old.items ++ canonical.indentation depth) }
{
    for _ in 0..depth {
        text.extend_from_slice(b"  ")?;
    }
    Ok(())
}
