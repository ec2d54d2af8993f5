ghost use Rattle.std.specs.Prelude.{◌≡◌, ◌++◌, ◌≤◌, OnOk, IfOk, length};
ghost use Rattle.tg_base.specs.Lines.{place_of};
ghost use Rattle.tg_explain.specs.Lines as lines;

use crate::details::SyntaxDetail;
use crate::kinds::TokenKind;
use crate::openers::Opening;
use crate::putting::{put, put_kind, put_line, put_place, put_quoted};
use crate::words::opener_text;
use std::alloc::Global;
use tg_base::{Memory, Place, place};
use tg_parser::SyntaxRule;

/// The lines that explain a fault of syntax in a text: what was found, what was expected, and what
/// is still open. The only error is out of memory.
pub fn syntax_lines(
    alloc: Global,
    text: &[u8],
    rule: SyntaxRule,
    detail: &SyntaxDetail,
) -> Result<Vec<u8>, Memory>
    requires { length text.now ≤ 262144 }
    ensures { IfOk result (λ all. all.items ≡ lines.syntax_lines text.now rule detail.now) }
{
    let mut all = Vec::new(alloc);
    put_found(alloc, &mut all, detail.found)?;
    put_expected(alloc, &mut all, rule, detail.expected.as_slice())?;
    put_opening(alloc, &mut all, text, detail.opening)?;
    Ok(all)
}

/// The place of a byte of a text; that of its end for a byte behind it.
pub fn place_in(text: &[u8], at: u32) -> Place
    requires { length text.now ≤ 262144 }
    ensures { result ≡ place_of text.now at }
{
    let end = text.len() as u32;
    place(text, if at < end { at } else { end })
}

fn put_found(alloc: Global, out: &mut Vec<u8>, kind: TokenKind) -> Result<(), Memory>
    ensures { OnOk result
        (out.new.items ≡ out.old.items ++ lines.line_of (lines.found_text kind)) }
{
    let mut line = Vec::new(alloc);
    put(&mut line, b"found ")?;
    put_kind(&mut line, kind)?;
    put_line(out, &line)
}

/// Puts the line of what is expected at the end, unless the nesting is too deep.
fn put_expected(
    alloc: Global,
    out: &mut Vec<u8>,
    rule: SyntaxRule,
    kinds: &[TokenKind],
) -> Result<(), Memory>
    ensures { OnOk result (out.new.items ≡ out.old.items ++ lines.expected_line rule kinds.now) }
{
    match rule {
        SyntaxRule::S1 => put_expected_kinds(alloc, out, kinds),
        SyntaxRule::S2 => Ok(()),
    }
}

fn put_expected_kinds(alloc: Global, out: &mut Vec<u8>, kinds: &[TokenKind]) -> Result<(), Memory>
    ensures { OnOk result
        (out.new.items ≡ out.old.items ++ lines.line_of (lines.expected_text kinds.now)) }
{
    let mut line = Vec::new(alloc);
    put(&mut line, expected_words(kinds.len()))?;
    put_kinds(&mut line, kinds)?;
    put_line(out, &line)
}

fn expected_words(count: usize) -> &'static [u8]
    ensures { result.now ≡ lines.expected_words count }
{
    if count == 1 {
        b"expected"
    } else {
        b"expected one of"
    }
}

fn put_kinds(line: &mut Vec<u8>, kinds: &[TokenKind]) -> Result<(), Memory>
    ensures { OnOk result (line.new.items ≡ line.old.items ++ lines.kind_texts kinds.now) }
{
    for kind in kinds {
        put(line, b" ")?;
        put_kind(line, *kind)?;
    }
    Ok(())
}

/// Puts the line of the opener that is still open at the end, if there is one.
fn put_opening(
    alloc: Global,
    out: &mut Vec<u8>,
    text: &[u8],
    opening: Option<Opening>,
) -> Result<(), Memory>
    requires { length text.now ≤ 262144 }
    ensures { OnOk result (out.new.items ≡ out.old.items ++ lines.open_line text.now opening) }
{
    match opening {
        None => Ok(()),
        Some(one) => {
            let place = place_in(text, one.span.from);
            put_open(alloc, out, opener_text(one.opener), place)
        }
    }
}

/// Puts the line of what stands open at a place at the end.
pub fn put_open(alloc: Global, out: &mut Vec<u8>, opener: &[u8], place: Place) -> Result<(), Memory>
    ensures { OnOk result (out.new.items
        ≡ out.old.items ++ lines.line_of (lines.still_open opener.now place)) }
{
    let mut line = Vec::new(alloc);
    put_quoted(&mut line, opener)?;
    put(&mut line, b" of ")?;
    put_place(&mut line, place)?;
    put(&mut line, b" is still open")?;
    put_line(out, &line)
}
