ghost use Rattle.std.specs.Prelude.{◌≡◌, ◌<◌, ◌^◌, ◌++◌, ℕ, [], length, map, Option, IfOk, OnOk};
ghost use Rattle.std.specs.List.{slice_get};
ghost use Rattle.tg_syntax.specs.glue.Plain.{plain};
ghost use Rattle.tg_tree.specs.glue.Plain.{plain_fragment};
ghost use Rattle.tg_variables.specs.Functions as declared;
ghost use Rattle.tg_variables.specs.Users.{users_from};
ghost use Rattle.tg_variables.specs.Variables as spec;
ghost use Rattle.tg_variables.specs.glue.Known.{IsKnown, users_at};

use crate::functions::{OwnText, program_texts};
use crate::parts::Part;
use crate::placing::{place_at, places_of};
use crate::sources::Source;
use crate::users::{UserTable, user_table};
use std::alloc::Global;
use tg_base::{Bytes, ListOf, Memory};
use tg_escape::escapes;
use tg_frame::Access;
use tg_show::{FunctionVariables, Variable};
use tg_symbols::Table;
use tg_syntax::{Ident, Param};
use tg_translate::{Home, translate_with_homes};
use tg_tree::Fragment;
use tg_typecheck::Checked;

/// The variables of a program's body, and then those of each function of its source, in the order of
/// the text, which is given.
pub fn variables(
    alloc: Global,
    text: &[u8],
    checked: &Checked,
) -> Result<Vec<FunctionVariables>, Memory>
    requires { length text.now < 2 ^ 31 }
    ensures { IfOk result (λ all. all.items ≡ spec.variables text.now checked.now.notes
        (plain checked.now.program.body)) }
{
    let escaping = escapes(alloc, checked)?;
    let translated = translate_with_homes(alloc, checked, &escaping)?;
    let functions = translated.fragments.functions.as_slice();
    Ok(variables_by(alloc, text, checked, &translated.homes, functions)?)
}

/// The variables of a program's functions, by the homes of the variables, and by what the functions
/// are translated to.
fn variables_by(
    alloc: Global,
    text: &[u8],
    checked: &Checked,
    homes: &Table<Home>,
    functions: &[Fragment],
) -> Result<Vec<FunctionVariables>, Memory>
    requires { length text.now < 2 ^ 31 }
    ensures { IfOk result (λ all. all.items ≡ spec.variables_from text.now checked.now.notes
        homes.now (declared.program_texts (plain checked.now.program.body))
        (map plain_fragment functions.now) 0
        (declared.program_texts (plain checked.now.program.body))) }
{
    let texts = program_texts(alloc, &checked.program.body)?;
    let users = user_table(alloc, &checked.notes, homes, &texts)?;
    let places = places_of(alloc, text)?;
    let source = Source {
        text,
        places: &places,
        notes: &checked.notes,
        homes,
        texts: &texts,
        users: &users,
    };
    all_variables(alloc, &source, functions)
}

fn all_variables(
    alloc: Global,
    source: &Source,
    functions: &[Fragment],
) -> Result<Vec<FunctionVariables>, Memory>
    requires { IsKnown source.now }
    ensures { IfOk result (λ all. all.items ≡ spec.variables_from source.now.text.now
        source.now.notes.now source.now.homes.now source.now.texts.now
        (map plain_fragment functions.now) 0 source.now.texts.now) }
{
    let mut all = Vec::new(alloc);
    for at in 0..source.texts.len() {
        let link = link_at(functions, at);
        let one = function_variables(alloc, source, &source.texts[at], link)?;
        all.push(one)?;
    }
    Ok(all)
}

/// Where the function of a place keeps its static link.
fn link_at(functions: &[Fragment], at: usize) -> Option<Access>
    ensures { result ≡ spec.link_of (slice_get (map plain_fragment functions.now) at) }
{
    match functions.get(at) {
        Some(one) => one.frame.params.as_slice().first().copied(),
        None => None,
    }
}

fn function_variables(
    alloc: Global,
    source: &Source,
    own: &OwnText,
    link: Option<Access>,
) -> Result<FunctionVariables, Memory>
    requires { IsKnown source.now }
    ensures { IfOk result (λ all. all ≡ spec.function_variables source.now.text.now
        source.now.notes.now source.now.homes.now source.now.texts.now own.now link) }
{
    Ok(FunctionVariables {
        level: own.level,
        link,
        parameters: parameters_of(alloc, source, own.parameters.as_slice())?,
        locals: locals_of(alloc, source, own.parts.as_slice())?,
    })
}

fn parameters_of(
    alloc: Global,
    source: &Source,
    parameters: &[Param],
) -> Result<ListOf<Variable>, Memory>
    requires { IsKnown source.now }
    ensures { IfOk result (λ all. all ≡ spec.parameters_of source.now.text.now
        source.now.notes.now source.now.homes.now source.now.texts.now parameters.now) }
{
    let mut found = Vec::new(alloc);
    for one in parameters {
        put_variable(alloc, &mut found, source, one.name, Some(one.kind))?;
    }
    Ok(ListOf::from_vec(found))
}

fn locals_of(alloc: Global, source: &Source, own: &[Part]) -> Result<ListOf<Variable>, Memory>
    requires { IsKnown source.now }
    ensures { IfOk result (λ all. all ≡ spec.locals_of source.now.text.now
        source.now.notes.now source.now.homes.now source.now.texts.now own.now) }
{
    let mut found = Vec::new(alloc);
    for one in own {
        if let Part::Declares(name, of_type) = one {
            put_variable(alloc, &mut found, source, *name, *of_type)?;
        }
    }
    Ok(ListOf::from_vec(found))
}

/// Puts a variable at the end that is declared by this identifier, where it has a home.
fn put_variable(
    alloc: Global,
    found: &mut Vec<Variable>,
    source: &Source,
    name: Ident,
    of_type: Option<Ident>,
) -> Result<(), Memory>
    requires { IsKnown source.now }
    ensures { OnOk result (found.new.items ≡ found.old.items ++ spec.variable_at
        source.now.text.now source.now.notes.now source.now.homes.now source.now.texts.now
        name of_type) }
{
    if let Some(home) = source.homes.get(name.span.from).copied() {
        let users = users_of(alloc, source, name.span.from)?;
        found.push(Variable {
            place: place_at(source.text, source.places, name.span.from),
            name: written(alloc, source.text, name)?,
            of_type: written_type(alloc, source.text, of_type)?,
            home: home.access,
            users,
        })?;
    }
    Ok(())
}

/// An identifier as the text writes it.
fn written(alloc: Global, text: &[u8], x: Ident) -> Result<Bytes, Memory>
    ensures { IfOk result (λ name. name ≡ spec.written text.now x) }
{
    let to = text.len().min(x.span.to as usize);
    let from = to.min(x.span.from as usize);
    Ok(Bytes::from_vec(Vec::from_slice(alloc, &text[from..to])?))
}

fn written_type(alloc: Global, text: &[u8], x: Option<Ident>) -> Result<Option<Bytes>, Memory>
    ensures { IfOk result (λ name. name ≡ spec.written_type text.now x) }
{
    match x {
        Some(x) => Ok(Some(written(alloc, text, x)?)),
        None => Ok(None),
    }
}

/// The names of the functions that the variable of a byte escapes to.
fn users_of(alloc: Global, source: &Source, at: u32) -> Result<ListOf<Bytes>, Memory>
    requires { IsKnown source.now }
    ensures { IfOk result (λ names. names ≡ map (spec.written source.now.text.now)
        (users_from source.now.notes.now source.now.homes.now at source.now.texts.now [])) }
{
    match source.users.get(&at) {
        Some(users) => all_written(alloc, source.text, users.as_slice()),
        None => Ok(ListOf::from_vec(Vec::new(alloc))),
    }
}

fn all_written(alloc: Global, text: &[u8], list: &[Ident]) -> Result<ListOf<Bytes>, Memory>
    ensures { IfOk result (λ names. names ≡ map (spec.written text.now) list.now) }
{
    let mut names = Vec::new(alloc);
    for &x in list.iter() {
        names.push(written(alloc, text, x)?)?;
    }
    Ok(ListOf::from_vec(names))
}
