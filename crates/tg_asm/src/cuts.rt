// A line is cut into labels, an item's word, operands and a comment. The word runs up to a
// blank, `,`, `"` or `#`. So a word that names no item has A2, whatever its shape.

ghost use Rattle.std.specs.Prelude.{◌≡◌, false, map, MatchOption, Some, None, IfOk, length};
ghost use Rattle.tg_asm_text.specs.Lines as lines;
ghost use Rattle.tg_asm.specs.glue.Cuts.{found_cut, found_operand, gap_of, operand_of, pair_of};

use crate::bytes::{Class, begins_label, is_blank, skip, split};
use std::alloc::Global;
use tg_base::Memory;

/// An operand as it is written: a run of bytes, or what stands between two quotes.
#[derive(Clone, Copy)]
pub(crate) enum Operand<'a> {
    Plain(&'a [u8]),
    Quoted(&'a [u8]),
}

/// What stands before the next operand of a line.
#[derive(Clone, Copy)]
enum Gap<'a> {
    /// The line is over.
    Over,
    /// The operand and what follows it.
    Next(&'a [u8]),
    /// Nothing of a line's shape.
    Misshapen,
}

/// A line, which begins with its labels, its item's word, which is empty where it has no item, and
/// the operands. Labels aren't listed, since a line may have millions.
#[derive(Drop)]
pub(crate) struct Cut<'a> {
    pub(crate) line: &'a [u8],
    pub(crate) word: &'a [u8],
    pub(crate) operands: Vec<Operand<'a>>,
}

/// The label in front of a text, and what follows its colon.
pub(crate) fn label_at(text: &[u8]) -> Option<(&[u8], &[u8])>
    ensures { pair_of result ≡ lines.label_at text.now }
{
    let first = text.first()?;
    if !begins_label(*first) {
        return None;
    }
    let (name, rest) = split(text, Class::PastLabel);
    match rest.split_first() {
        Some((b':', more)) => Some((name, more)),
        _ => None,
    }
}

/// What stands between quotes, after the first one, and what follows the second.
fn quoted(text: &[u8]) -> Option<(&[u8], &[u8])>
    ensures { pair_of result ≡ lines.quoted false text.now }
{
    let mut escaped = false;
    for (at, byte) in text.iter().enumerate() {
        if *byte == b'"' && !escaped {
            return Some((&text[..at], &text[at + 1..]));
        }
        escaped = *byte == b'\\' && !escaped;
    }
    None
}

/// The operand in front of a text, and what follows it.
fn first_operand(text: &[u8]) -> Option<(Operand<'_>, &[u8])>
    ensures { found_operand result ≡ lines.operand text.now }
{
    let (first, more) = text.split_first()?;
    if *first == b'"' {
        let (inside, rest) = quoted(more)?;
        return Some((Operand::Quoted(inside), rest));
    }
    let (run, rest) = split(more, Class::End);
    Some((Operand::Plain(&text[..run.len() + 1]), rest))
}

/// After an item's word.
fn first_gap(text: &[u8]) -> Gap<'_>
    ensures { gap_of result ≡ lines.first_gap text.now }
{
    let rest = skip(text);
    match rest.first() {
        None | Some(b'#') => Gap::Over,
        Some(b',') => Gap::Misshapen,
        Some(_) => Gap::Next(rest),
    }
}

/// After a comma and its blanks.
fn after_comma(text: &[u8]) -> Gap<'_>
    ensures { gap_of result ≡ lines.after_comma text.now }
{
    match text.first() {
        None | Some(b'#') | Some(b',') => Gap::Misshapen,
        Some(_) => Gap::Next(text),
    }
}

/// After an operand.
fn next_gap(text: &[u8]) -> Gap<'_>
    ensures { gap_of result ≡ lines.gap text.now }
{
    let blanks = match text.first() {
        Some(byte) => is_blank(*byte),
        None => false,
    };
    let rest = skip(text);
    match rest.split_first() {
        None | Some((b'#', _)) => Gap::Over,
        Some((b',', more)) => after_comma(skip(more)),
        Some(_) if blanks => Gap::Next(rest),
        Some(_) => Gap::Misshapen,
    }
}

/// The operands from a gap on, or none where the line has no such shape.
fn operands<'a>(alloc: Global, text: &'a [u8]) -> Result<Option<Vec<Operand<'a>>>, Memory>
    ensures { IfOk result (λ found. MatchOption found (lines.operands_in text.now ≡ None)
        (λ list. lines.operands_in text.now ≡ Some (map operand_of list.items))) }
{
    let mut list = Vec::new(alloc);
    let mut before = first_gap(text);
    loop {
        match before {
            Gap::Over => return Ok(Some(list)),
            Gap::Misshapen => return Ok(None),
            Gap::Next(text) => match first_operand(text) {
                Some((one, rest)) => {
                    list.push(one)?;
                    before = next_gap(rest);
                }
                None => return Ok(None),
            },
        }
    }
}

/// What follows the labels in front of a line.
fn past_labels(line: &[u8]) -> &[u8]
    ensures { result.now ≡ (lines.labelled (length line.now) (lines.skip line.now)).rest }
{
    let mut rest = skip(line);
    while let Some((_, more)) = label_at(rest) {
        rest = skip(more);
    }
    rest
}

/// A line as its parts, or none where it has no such shape.
pub(crate) fn cut_line<'a>(alloc: Global, line: &'a [u8]) -> Result<Option<Cut<'a>>, Memory>
    ensures { IfOk result (λ found. found_cut found ≡ lines.cut line.now) }
{
    let rest = past_labels(line);
    if rest.is_empty() || rest[0] == b'#' {
        return Ok(Some(Cut {
            line,
            word: &[],
            operands: Vec::new(alloc),
        }));
    }
    let (word, more) = split(rest, Class::End);
    if word.is_empty() {
        return Ok(None);
    }
    match operands(alloc, more)? {
        Some(operands) => Ok(Some(Cut {
            line,
            word,
            operands,
        })),
        None => Ok(None),
    }
}
