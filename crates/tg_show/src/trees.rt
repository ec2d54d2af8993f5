ghost use Rattle.std.specs.Prelude.{◌≡◌, ◌++◌, OnOk, codes, true};
ghost use Rattle.std.specs.Fmt.{decimal};
ghost use Rattle.tg_show.specs.Words.{int_text};
ghost use Rattle.tg_tree.specs.glue.Lists.{stms_of, txs_of};
ghost use Rattle.tg_tree.specs.glue.Plain.{plain_cond, plain_ts, plain_tx};
ghost use Rattle.tg_show.specs.Trees.{
  before,
  cond_text,
  form,
  stms_text,
  ts_text,
  tx_text,
  txs_text,
};

use crate::words::{
    bin_word, put, put_byte, put_number, put_numbered, put_temp, put_word, rel_word,
};
use tg_base::{Bytes, Label, Memory};
use tg_tree::{Cond, Stms, Ts, Tx, Txs};

/// Puts the text of an expression at the end, on one line.
#[cycle(trees)]
pub fn put_tx(text: &mut Vec<u8>, names: &[Bytes], x: &Tx) -> Result<(), Memory>
    ensures { OnOk result (text.new.items
        ≡ text.old.items ++ tx_text names.now (plain_tx x.now)) }
{
    match x {
        Tx::Const(n) => put_constant(text, *n),
        Tx::Address(label) => put_numbered(text, b"NAME s", label.0),
        Tx::Temp(temp) => {
            text.extend_from_slice(b"TEMP ")?;
            put_temp(text, names, *temp)
        }
        Tx::FrameAddress => put(text, b"FP"),
        Tx::Binary(op, left, right) => {
            text.extend_from_slice(b"BINOP(")?;
            text.extend_from_slice(bin_word(*op))?;
            put_after_comma(text, names, left)?;
            put_after_comma(text, names, right)?;
            put_end(text)
        }
        Tx::Load(address) => put_form(text, names, b"MEM", address),
        Tx::LoadByte(address) => put_form(text, names, b"MEMB", address),
        Tx::Call(label, items) => put_call(text, names, *label, items),
        Tx::Service(number, argument) => {
            put_numbered(text, b"SERVICE(", *number)?;
            put_after_comma(text, names, argument)?;
            put_end(text)
        }
        Tx::After(first, value) => {
            text.extend_from_slice(b"ESEQ(")?;
            put_ts(text, names, first)?;
            put_after_comma(text, names, value)?;
            put_end(text)
        }
    }
}

/// Puts a word and one part at the end.
#[cycle(trees)]
pub fn put_form(text: &mut Vec<u8>, names: &[Bytes], word: &[u8], x: &Tx) -> Result<(), Memory>
    ensures { OnOk result (text.new.items
        ≡ text.old.items ++ form word.now (tx_text names.now (plain_tx x.now))) }
{
    text.extend_from_slice(word)?;
    text.push(b'(')?;
    put_tx(text, names, x)?;
    put_end(text)
}

/// Puts a further part at the end.
#[cycle(trees)]
pub fn put_after_comma(text: &mut Vec<u8>, names: &[Bytes], x: &Tx) -> Result<(), Memory>
    ensures { OnOk result (text.new.items
        ≡ text.old.items ++ (codes ", " ++ tx_text names.now (plain_tx x.now))) }
{
    put_comma(text)?;
    put_tx(text, names, x)
}

#[cycle(trees)]
fn put_call(text: &mut Vec<u8>, names: &[Bytes], label: Label, items: &Txs) -> Result<(), Memory>
    ensures { OnOk result (text.new.items
        ≡ text.old.items ++ form (codes "CALL") (codes "NAME f" ++ (decimal label.0
        ++ txs_text names.now (txs_of items.now.items.items)))) }
{
    text.extend_from_slice(b"CALL(NAME f")?;
    put_number(text, label.0)?;
    put_further(text, names, items)?;
    put_end(text)
}

#[cycle(trees)]
fn put_further(text: &mut Vec<u8>, names: &[Bytes], items: &Txs) -> Result<(), Memory>
    ensures { OnOk result (text.new.items
        ≡ text.old.items ++ txs_text names.now (txs_of items.now.items.items)) }
{
    for x in &items.items {
        put_after_comma(text, names, x)?;
    }
    Ok(())
}

/// Puts the text of a condition at the end, on one line.
#[cycle(trees)]
pub fn put_cond(text: &mut Vec<u8>, names: &[Bytes], test: &Cond) -> Result<(), Memory>
    ensures { OnOk result (text.new.items
        ≡ text.old.items ++ cond_text names.now (plain_cond test.now)) }
{
    match test {
        Cond::Compare(rel, left, right) => {
            text.extend_from_slice(b"REL(")?;
            text.extend_from_slice(rel_word(*rel))?;
            put_after_comma(text, names, left)?;
            put_after_comma(text, names, right)?;
            put_end(text)
        }
        Cond::Not(inner) => {
            text.extend_from_slice(b"NOT(")?;
            put_cond(text, names, inner)?;
            put_end(text)
        }
        Cond::Both(left, right) => {
            text.extend_from_slice(b"AND(")?;
            put_cond(text, names, left)?;
            put_comma(text)?;
            put_cond(text, names, right)?;
            put_end(text)
        }
        Cond::Either(left, right) => {
            text.extend_from_slice(b"OR(")?;
            put_cond(text, names, left)?;
            put_comma(text)?;
            put_cond(text, names, right)?;
            put_end(text)
        }
    }
}

/// Puts the text of a statement at the end, on one line.
#[cycle(trees)]
pub fn put_ts(text: &mut Vec<u8>, names: &[Bytes], statement: &Ts) -> Result<(), Memory>
    ensures { OnOk result (text.new.items
        ≡ text.old.items ++ ts_text names.now (plain_ts statement.now)) }
{
    match statement {
        Ts::Move(temp, value) => {
            text.extend_from_slice(b"MOVE(TEMP ")?;
            put_temp(text, names, *temp)?;
            put_after_comma(text, names, value)?;
            put_end(text)
        }
        Ts::Store(address, value) => {
            text.extend_from_slice(b"MOVE(")?;
            put_form(text, names, b"MEM", address)?;
            put_after_comma(text, names, value)?;
            put_end(text)
        }
        Ts::StoreByte(address, value) => {
            text.extend_from_slice(b"MOVE(")?;
            put_form(text, names, b"MEMB", address)?;
            put_after_comma(text, names, value)?;
            put_end(text)
        }
        Ts::Do(value) => put_form(text, names, b"EXP", value),
        Ts::If(test, this, other) => {
            text.extend_from_slice(b"IF(")?;
            put_cond(text, names, test)?;
            put_comma(text)?;
            put_ts(text, names, this)?;
            put_comma(text)?;
            put_ts(text, names, other)?;
            put_end(text)
        }
        Ts::Loop(turn) => {
            text.extend_from_slice(b"LOOP(")?;
            put_ts(text, names, turn)?;
            put_end(text)
        }
        Ts::Break(loops) => put_numbered(text, b"BREAK ", *loops),
        Ts::Fault(code) => put_numbered(text, b"FAULT ", *code),
        Ts::Seq(all) => put_sequence(text, names, all),
        Ts::Return(value) => put_form(text, names, b"RETURN", value),
    }
}

#[cycle(trees)]
fn put_sequence(text: &mut Vec<u8>, names: &[Bytes], all: &Stms) -> Result<(), Memory>
    ensures { OnOk result (text.new.items
        ≡ text.old.items ++ form (codes "SEQ") (stms_text names.now true
        (stms_of all.now.items.items))) }
{
    text.extend_from_slice(b"SEQ(")?;
    put_stms(text, names, all)?;
    put_end(text)
}

#[cycle(trees)]
fn put_stms(text: &mut Vec<u8>, names: &[Bytes], all: &Stms) -> Result<(), Memory>
    ensures { OnOk result (text.new.items
        ≡ text.old.items ++ stms_text names.now true (stms_of all.now.items.items)) }
{
    let mut is_first = true;
    for statement in &all.items {
        put_before(text, is_first)?;
        put_ts(text, names, statement)?;
        is_first = false;
    }
    Ok(())
}

fn put_constant(text: &mut Vec<u8>, word: u32) -> Result<(), Memory>
    ensures { OnOk result (text.new.items
        ≡ text.old.items ++ (codes "CONST " ++ int_text word)) }
{
    text.extend_from_slice(b"CONST ")?;
    put_word(text, word)
}

fn put_before(text: &mut Vec<u8>, is_first: bool) -> Result<(), Memory>
    ensures { OnOk result (text.new.items ≡ text.old.items ++ before is_first) }
{
    if is_first {
        return Ok(());
    }
    put_comma(text)
}

/// Puts what stands between two parts at the end.
pub fn put_comma(text: &mut Vec<u8>) -> Result<(), Memory>
    ensures { OnOk result (text.new.items ≡ text.old.items ++ codes ", ") }
{
    put(text, b", ")
}

/// Puts the parenthesis that closes a form at the end.
pub fn put_end(text: &mut Vec<u8>) -> Result<(), Memory>
    ensures { OnOk result (text.new.items ≡ text.old.items ++ codes ")") }
{
    put_byte(text, b')')
}
