ghost use Rattle.std.specs.Prelude.{◌≡◌, ◌++◌, OnOk};
ghost use Rattle.tg_show.specs.Variables as variables;

use crate::words::{put, put_byte, put_numbered};
use tg_base::{Bytes, ListOf, Memory, Place};
use tg_frame::Access;

/// A parameter or another variable of a function: where and as what it is declared, its type where
/// the source writes one, its home, and the functions that it escapes to.
#[derive(Drop)]
pub struct Variable {
    pub place: Place,
    pub name: Bytes,
    pub of_type: Option<Bytes>,
    pub home: Access,
    pub users: ListOf<Bytes>,
}

/// The variables of a function: its level, that of the program's body being 0, the home of its
/// static link, which the body has none of, its parameters, and the others in the order of the
/// source.
#[derive(Drop)]
pub struct FunctionVariables {
    pub level: u32,
    pub link: Option<Access>,
    pub parameters: ListOf<Variable>,
    pub locals: ListOf<Variable>,
}

/// Puts the lines of a function's variables at the end.
pub fn put_variables_lines(text: &mut Vec<u8>, all: &FunctionVariables) -> Result<(), Memory>
    ensures { OnOk result (text.new.items
        ≡ text.old.items ++ variables.variables_lines all.now) }
{
    put_level_line(text, all.level)?;
    put_link_line(text, all.link)?;
    put_variable_lines(text, b"parameter", all.parameters.as_slice())?;
    put_variable_lines(text, b"variable", all.locals.as_slice())
}

fn put_level_line(text: &mut Vec<u8>, level: u32) -> Result<(), Memory>
    ensures { OnOk result (text.new.items ≡ text.old.items ++ variables.level_line level) }
{
    put_numbered(text, b"  level ", level)?;
    put_byte(text, b'\n')
}

fn put_link_line(text: &mut Vec<u8>, link: Option<Access>) -> Result<(), Memory>
    ensures { OnOk result (text.new.items ≡ text.old.items ++ variables.link_line link) }
{
    match link {
        Some(home) => {
            put(text, b"  link")?;
            put_home(text, home)?;
            put_byte(text, b'\n')
        }
        None => Ok(()),
    }
}

fn put_variable_lines(text: &mut Vec<u8>, word: &[u8], list: &[Variable]) -> Result<(), Memory>
    ensures { OnOk result (text.new.items
        ≡ text.old.items ++ variables.variable_lines word.now list.now) }
{
    for one in list {
        put_variable_line(text, word, one)?;
    }
    Ok(())
}

fn put_variable_line(text: &mut Vec<u8>, word: &[u8], one: &Variable) -> Result<(), Memory>
    ensures { OnOk result (text.new.items
        ≡ text.old.items ++ variables.variable_line word.now one.now) }
{
    put(text, b"  ")?;
    put(text, word)?;
    put_place(text, one.place)?;
    put_variable(text, one)?;
    put_byte(text, b'\n')
}

/// Puts a variable's name, its type, its home, and the functions that it escapes to at the end.
fn put_variable(text: &mut Vec<u8>, one: &Variable) -> Result<(), Memory>
    ensures { OnOk result (text.new.items ≡ text.old.items ++ variables.variable_text one.now) }
{
    put_after_blank(text, one.name.as_slice())?;
    put_type(text, &one.of_type)?;
    put_home(text, one.home)?;
    put_users(text, one.users.as_slice())
}

fn put_type(text: &mut Vec<u8>, of_type: &Option<Bytes>) -> Result<(), Memory>
    ensures { OnOk result (text.new.items
        ≡ text.old.items ++ variables.type_text of_type.now) }
{
    match of_type {
        Some(name) => put_after_blank(text, name.as_slice()),
        None => put(text, b" -"),
    }
}

/// Puts a place at the end, behind a blank.
pub fn put_place(text: &mut Vec<u8>, place: Place) -> Result<(), Memory>
    ensures { OnOk result (text.new.items ≡ text.old.items ++ variables.place_text place) }
{
    put_numbered(text, b" ", place.line)?;
    put_numbered(text, b":", place.column)
}

fn put_home(text: &mut Vec<u8>, home: Access) -> Result<(), Memory>
    ensures { OnOk result (text.new.items ≡ text.old.items ++ variables.home_text home) }
{
    match home {
        Access::InTemp(temp) => put_numbered(text, b" t", temp.0),
        Access::InFrame(slot) => put_numbered(text, b" slot ", slot),
    }
}

fn put_users(text: &mut Vec<u8>, users: &[Bytes]) -> Result<(), Memory>
    ensures { OnOk result (text.new.items ≡ text.old.items ++ variables.users_text users.now) }
{
    if users.is_empty() {
        return Ok(());
    }
    put(text, b" escapes to")?;
    put_words(text, users)
}

fn put_words(text: &mut Vec<u8>, words: &[Bytes]) -> Result<(), Memory>
    ensures { OnOk result (text.new.items ≡ text.old.items ++ variables.words_text words.now) }
{
    for word in words {
        put_after_blank(text, word.as_slice())?;
    }
    Ok(())
}

fn put_after_blank(text: &mut Vec<u8>, word: &[u8]) -> Result<(), Memory>
    ensures { OnOk result (text.new.items ≡ text.old.items ++ variables.word_text word.now) }
{
    put_byte(text, b' ')?;
    put(text, word)
}
