ghost use Rattle.std.specs.Prelude.{◌≡◌, ◌++◌, OnOk, codes};
ghost use Rattle.tg_tree.specs.glue.Lists.{code_of, stms_of};
ghost use Rattle.tg_tree.specs.glue.Plain.{plain_linear, plain_ts, plain_tx};
ghost use Rattle.tg_show.specs.Flat as flat;
ghost use Rattle.tg_show.specs.Layout.{laid};
ghost use Rattle.tg_show.specs.Trees.{ts_text};

use crate::layouts::put_laid;
use crate::trees::{put_after_comma, put_comma, put_end, put_form, put_ts};
use crate::words::{put_numbered, rel_word};
use std::alloc::Global;
use tg_base::{Bytes, Memory};
use tg_tree::{Linear, Rel, Ts, Tx};

/// Puts the lines of a statement at the end.
pub fn put_statement(
    alloc: Global,
    text: &mut Vec<u8>,
    names: &[Bytes],
    margin: u8,
    statement: &Ts,
) -> Result<(), Memory>
    ensures { OnOk result (text.new.items
        ≡ text.old.items ++ laid margin (ts_text names.now (plain_ts statement.now))) }
{
    let mut line = Vec::new(alloc);
    put_ts(&mut line, names, statement)?;
    put_laid(text, margin, &line)
}

/// Puts the lines of statements at the end.
pub fn put_statements(
    alloc: Global,
    text: &mut Vec<u8>,
    names: &[Bytes],
    margin: u8,
    statements: &[Ts],
) -> Result<(), Memory>
    ensures { OnOk result (text.new.items
        ≡ text.old.items ++ flat.statement_lines names.now margin (stms_of statements.now)) }
{
    for statement in statements {
        put_statement(alloc, text, names, margin, statement)?;
    }
    Ok(())
}

/// Puts the lines of flat code at the end.
pub fn put_elements(
    alloc: Global,
    text: &mut Vec<u8>,
    names: &[Bytes],
    code: &[Linear],
) -> Result<(), Memory>
    ensures { OnOk result (text.new.items
        ≡ text.old.items ++ flat.element_lines names.now (code_of code.now)) }
{
    for element in code {
        put_element_lines(alloc, text, names, element)?;
    }
    Ok(())
}

fn put_element_lines(
    alloc: Global,
    text: &mut Vec<u8>,
    names: &[Bytes],
    element: &Linear,
) -> Result<(), Memory>
    ensures { OnOk result (text.new.items
        ≡ text.old.items ++ laid (flat.element_margin (plain_linear element.now))
        (flat.element_text names.now (plain_linear element.now))) }
{
    let mut line = Vec::new(alloc);
    put_element(&mut line, names, element)?;
    put_laid(text, element_margin(element), &line)
}

fn element_margin(element: &Linear) -> u8
    ensures { result ≡ flat.element_margin (plain_linear element.now) }
{
    match element {
        Linear::Mark(_) => 1,
        _ => 2,
    }
}

/// Puts the text of an element of flat code at the end, on one line.
fn put_element(text: &mut Vec<u8>, names: &[Bytes], element: &Linear) -> Result<(), Memory>
    ensures { OnOk result (text.new.items
        ≡ text.old.items ++ flat.element_text names.now (plain_linear element.now)) }
{
    match element {
        Linear::Mark(mark) => put_numbered(text, b"LABEL .", *mark),
        Linear::Do(statement) => put_ts(text, names, statement),
        Linear::Jump(mark) => put_numbered(text, b"JUMP .", *mark),
        Linear::Branch(rel, left, right, mark) => {
            put_comparison(text, names, *rel, left, right)?;
            put_comma(text)?;
            put_numbered(text, b".", *mark)?;
            put_end(text)
        }
        Linear::Fault(code) => put_numbered(text, b"FAULT ", *code),
        Linear::Return(value) => put_form(text, names, b"RETURN", value),
    }
}

/// Puts the front of a branch at the end, up to where it leads.
pub fn put_comparison(
    text: &mut Vec<u8>,
    names: &[Bytes],
    rel: Rel,
    left: &Tx,
    right: &Tx,
) -> Result<(), Memory>
    ensures { OnOk result (text.new.items
        ≡ text.old.items ++ flat.branch_front names.now rel (plain_tx left.now)
        (plain_tx right.now)) }
{
    text.extend_from_slice(b"CJUMP(")?;
    text.extend_from_slice(rel_word(rel))?;
    put_after_comma(text, names, left)?;
    put_after_comma(text, names, right)
}
