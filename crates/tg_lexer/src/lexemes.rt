ghost use Rattle.std.specs.Prelude.{◌≡◌, ◌≤◌, ◌<◌, ◌+◌, ◌^◌, ℕ, List, length, IfOk, OnErr};
ghost use Rattle.tg_syntax.specs.Spellings.{
  AllAre,
  is_digit as digit,
  is_letter as letter,
  is_name_byte,
};
ghost use Rattle.tg_syntax.specs.Lexing.{OpensComment};
ghost use Rattle.tg_base.specs.Interned.{IsInterned};
ghost use Rattle.tg_lexer.specs.Numbering.{names_after};
ghost use Rattle.tg_lexer.specs.glue.Lexemes.{IsRead, BeginsWith, BeginsQuote, BeginsOther};

use crate::bytes::{Class, count_run, is_blank, is_digit, is_letter};
use crate::comments::comment;
use crate::faults::LexFault;
use crate::ints::int;
use crate::signs::sign;
use crate::strings::{Quoted, string};
use crate::words::word;
use std::alloc::Global;
use std::str::from_utf8;
use tg_base::{Memory, Name, Names};
use tg_syntax::{LexRule, Token};

/// What a text begins with, and the number of its bytes.
#[derive(Drop)]
pub(crate) enum Lexeme {
    /// A blank or a comment.
    Gap(usize),
    One(Token, usize),
}

// A comment.
fn read_comment(text: &[u8], at: usize) -> Result<Lexeme, LexFault>
    requires begins { OpensComment text.now }
    requires within { at + length text.now ≤ 262144 }
    ensures read { (n : List (List ℕ)) → IsRead n at text.now result }
    ensures unnamed { (n : List (List ℕ)) → names_after n text.now result ≡ n }
{
    match comment(&text[2..]) {
        Some(size) => Ok(Lexeme::Gap(size + 2)),
        None => Err(LexFault::Bad {
            rule: LexRule::L2,
            at: at as u32,
        }),
    }
}

// An int.
fn read_int(text: &[u8], at: usize) -> Result<Lexeme, LexFault>
    requires begins { BeginsWith digit text.now }
    requires within { at + length text.now ≤ 262144 }
    ensures read { (n : List (List ℕ)) → IsRead n at text.now result }
    ensures unnamed { (n : List (List ℕ)) → names_after n text.now result ≡ n }
{
    let size = count_run(Class::Digit, text);
    match int(&text[..size]) {
        Some(value) => Ok(Lexeme::One(Token::Int(value), size)),
        None => Err(LexFault::Bad {
            rule: LexRule::L5,
            at: at as u32,
        }),
    }
}

// A string.
fn read_string(alloc: Global, text: &[u8], at: usize) -> Result<Lexeme, LexFault>
    requires begins { BeginsQuote text.now }
    requires within { at + length text.now ≤ 262144 }
    ensures read { (n : List (List ℕ)) → IsRead n at text.now result }
    ensures unnamed { (n : List (List ℕ)) → names_after n text.now result ≡ n }
{
    let quoted = string(alloc, &text[1..], at)?;
    match quoted {
        Quoted::Whole(meant, size) => Ok(Lexeme::One(Token::Text(meant), size + 1)),
        Quoted::Fault(rule, place) => Err(LexFault::Bad {
            rule,
            at: place as u32,
        }),
    }
}

// A sign.
fn read_sign(text: &[u8], at: usize) -> Result<Lexeme, LexFault>
    requires begins { BeginsOther text.now }
    requires within { at + length text.now ≤ 262144 }
    ensures read { (n : List (List ℕ)) → IsRead n at text.now result }
    ensures unnamed { (n : List (List ℕ)) → names_after n text.now result ≡ n }
{
    match sign(text) {
        Some((sign, size)) => Ok(Lexeme::One(Token::Sign(sign), size)),
        None => Err(LexFault::Bad {
            rule: LexRule::L1,
            at: at as u32,
        }),
    }
}

// The name that bytes of a name are.
#[tactic(auto, using(crate::proofs::AsciiNames::name_is_text))]
fn intern(bytes: &[u8], names: &mut Names) -> Result<Name, Memory>
    requires bytes { AllAre is_name_byte bytes.now }
    requires room { length names.old < 2 ^ 31 }
    ensures ok { IfOk result (λ n. IsInterned names.old bytes.now names.new n.0) }
    ensures err { OnErr result (names.new ≡ names.old) }
{
    match from_utf8(bytes) {
        Ok(text) => names.intern(text),
        // Bytes of a name are ASCII.
        Err(_) => unreachable!(),
    }
}

// A reserved word or an identifier.
fn read_name(text: &[u8], at: usize, names: &mut Names) -> Result<Lexeme, LexFault>
    requires begins { BeginsWith letter text.now }
    requires room { length names.old < 2 ^ 31 }
    ensures read { IsRead names.new at text.now result }
    ensures named { names.new ≡ names_after names.old text.now result }
{
    let size = count_run(Class::NameByte, text);
    let bytes = &text[..size];
    if let Some(word) = word(bytes) {
        return Ok(Lexeme::One(Token::Word(word), size));
    }
    let name = intern(bytes, names)?;
    Ok(Lexeme::One(Token::Ident(name), size))
}

// What a text begins with, whose first byte is the whole one's at `at`.
pub(crate) fn read(
    alloc: Global,
    text: &[u8],
    at: usize,
    names: &mut Names,
) -> Result<Lexeme, LexFault>
    requires some { 0 < length text.now }
    requires within { at + length text.now ≤ 262144 }
    requires room { length names.old < 2 ^ 31 }
    ensures read { IsRead names.new at text.now result }
    ensures named { names.new ≡ names_after names.old text.now result }
{
    let first = text[0];
    if is_blank(first) {
        return Ok(Lexeme::Gap(1));
    }
    if is_letter(first) {
        return read_name(text, at, names);
    }
    if is_digit(first) {
        return read_int(text, at);
    }
    if first == b'"' {
        return read_string(alloc, text, at);
    }
    if text.starts_with(b"/*") {
        return read_comment(text, at);
    }
    read_sign(text, at)
}
