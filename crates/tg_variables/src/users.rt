ghost use Rattle.std.specs.Prelude.{◌≡◌, ◌==◌, ◌-◌, ℕ, [], length, IfOk, OnOk, if◌then◌else◌};
ghost use Rattle.std.specs.List.{slice_get};
ghost use Rattle.tg_variables.specs.Users as spec;
ghost use Rattle.tg_variables.specs.glue.Known.{users_at};

use crate::functions::OwnText;
use crate::parts::Part;
use std::alloc::Global;
use std::collections::HashMap;
use tg_base::{ListOf, Memory};
use tg_symbols::Table;
use tg_syntax::Ident;
use tg_translate::Home;
use tg_typecheck::{Means, Notes};

/// The functions that use a variable of a function around them, by the byte of its declaring
/// identifier.
pub type UserTable = HashMap<u32, ListOf<Ident>>;

/// The users of the variables of a program, whose texts are given.
pub fn user_table(
    alloc: Global,
    notes: &Notes,
    homes: &Table<Home>,
    texts: &[OwnText],
) -> Result<UserTable, Memory>
    ensures { IfOk result (λ users. (at : ℕ) → users_at users at
        ≡ spec.users_from notes.now homes.now at texts.now []) }
{
    let mut users = HashMap::new(alloc);
    for one in texts {
        put_text(alloc, &mut users, notes, homes, one)?;
    }
    Ok(users)
}

/// Puts the function of a text behind the users of what it uses; the program's body is none.
fn put_text(
    alloc: Global,
    users: &mut UserTable,
    notes: &Notes,
    homes: &Table<Home>,
    one: &OwnText,
) -> Result<(), Memory>
    ensures { OnOk result ((at : ℕ) → users_at users.new at ≡ spec.users_by notes.now homes.now at
        one.now.level one.now.function one.now.parts (users_at users.old at)) }
{
    match one.function {
        Some(f) => put_parts(
            alloc,
            users,
            notes,
            homes,
            one.level,
            f,
            one.parts.as_slice(),
        ),
        None => Ok(()),
    }
}

fn put_parts(
    alloc: Global,
    users: &mut UserTable,
    notes: &Notes,
    homes: &Table<Home>,
    level: u32,
    f: Ident,
    parts: &[Part],
) -> Result<(), Memory>
    ensures { OnOk result ((at : ℕ) → users_at users.new at ≡ spec.users_in notes.now homes.now at
        level f parts.now (users_at users.old at)) }
{
    for &part in parts.iter() {
        let used = outer_use(notes, homes, level, part);
        put_use(alloc, users, f, used)?;
    }
    Ok(())
}

fn put_use(alloc: Global, users: &mut UserTable, f: Ident, used: Option<u32>) -> Result<(), Memory>
    ensures { OnOk result ((at : ℕ) → users_at users.new at
        ≡ spec.with_use at f used (users_at users.old at)) }
{
    match used {
        Some(at) => put_user(alloc, users, f, at),
        None => Ok(()),
    }
}

/// Puts a function behind the users of a variable.
fn put_user(alloc: Global, users: &mut UserTable, f: Ident, used: u32) -> Result<(), Memory>
    ensures { OnOk result ((at : ℕ) → users_at users.new at ≡ if used == at
        then spec.with_user f (users_at users.old at) else users_at users.old at) }
{
    let before = take_users(alloc, users, used);
    let after = with_user(before, f)?;
    users.insert(used, after)?;
    Ok(())
}

/// Takes the users of a variable out.
fn take_users(alloc: Global, users: &mut UserTable, used: u32) -> ListOf<Ident>
    ensures taken { result ≡ users_at users.old used }
    ensures others { (at : ℕ) → users_at users.new at
        ≡ if used == at then [] else users_at users.old at }
{
    match users.remove(&used) {
        Some(list) => list,
        None => ListOf::from_vec(Vec::new(alloc)),
    }
}

fn with_user(users: ListOf<Ident>, f: Ident) -> Result<ListOf<Ident>, Memory>
    ensures { IfOk result (λ after. after ≡ spec.with_user f users) }
{
    if is_same(f, last_of(users.as_slice())) {
        return Ok(users);
    }
    let mut list = users.into_vec();
    list.push(f)?;
    Ok(ListOf::from_vec(list))
}

fn last_of(users: &[Ident]) -> Option<Ident>
    ensures { result ≡ slice_get users.now (length users.now - 1) }
{
    users.get(users.len().saturating_sub(1)).copied()
}

fn is_same(f: Ident, last: Option<Ident>) -> bool
    ensures { result ≡ spec.is_same f last }
{
    match last {
        Some(g) => g.span.from == f.span.from,
        None => false,
    }
}

/// The variable of a function around one of this level that a part of its text uses.
fn outer_use(notes: &Notes, homes: &Table<Home>, level: u32, part: Part) -> Option<u32>
    ensures { result ≡ spec.outer_use notes.now homes.now level part }
{
    match part {
        Part::Uses(x) => outer(homes, level, used_variable(notes.find(x.span.from))),
        Part::Declares(_, _) => None,
    }
}

fn used_variable(meaning: Option<Means>) -> Option<u32>
    ensures { result ≡ spec.used_variable meaning }
{
    match meaning {
        Some(Means::Variable(at)) => Some(at),
        _ => None,
    }
}

fn outer(homes: &Table<Home>, level: u32, used: Option<u32>) -> Option<u32>
    ensures { result ≡ spec.outer homes.now level used }
{
    match used {
        Some(at) if is_outer(level, homes.get(at).copied()) => Some(at),
        _ => None,
    }
}

fn is_outer(level: u32, home: Option<Home>) -> bool
    ensures { result ≡ spec.is_outer level home }
{
    match home {
        Some(home) => home.level < level,
        None => false,
    }
}
