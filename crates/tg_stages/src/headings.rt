ghost use Rattle.std.specs.Prelude.{◌≡◌, ◌<◌, ◌^◌, [], ◌∷◌, ◌++◌, length, map, take, IsTrue};
ghost use Rattle.std.specs.Prelude.{IfOk, OnOk, nat_lt, slice_index_or};
ghost use Rattle.std.specs.List.{list_all};
ghost use Rattle.tg_syntax.specs.glue.Plain.{plain};
ghost use Rattle.tg_variables.specs.Places.{ArePlaces};
ghost use Rattle.tg_stages.specs.Headings as spec;
ghost use Rattle.tg_stages.specs.Programs.{heading_at};

use crate::declared::put_declared;
use std::alloc::Global;
use tg_base::{Bytes, Memory, Names, Place};
use tg_syntax::Ident;
use tg_typecheck::Checked;
use tg_variables::{place_at, places_of};

/// The name of a function, and where the source declares it, if it does.
#[derive(Drop)]
pub struct Heading {
    pub name: Bytes,
    pub place: Option<Place>,
}

/// The heading at a place, or another, which has no name, where there is none.
pub(crate) fn heading_at<'a>(all: &'a [Heading], other: &'a Heading, at: usize) -> &'a Heading
    requires { other.now ≡ spec.undeclared [] }
    ensures { result.now ≡ heading_at all.now at }
{
    match all.get(at) {
        Some(one) => one,
        None => other,
    }
}

/// How many functions the runtime has.
const ROUTINES: usize = 13;

/// The headings of a program's functions: its body's, then those of its text, which is given, in
/// their order, then the runtime's.
pub fn headings(alloc: Global, text: &[u8], checked: &Checked) -> Result<Vec<Heading>, Memory>
    requires { length text.now < 2 ^ 31 }
    ensures { IfOk result (λ all. all.items
        ≡ spec.headings text.now checked.now.names (plain checked.now.program.body)) }
{
    let mut found = Vec::new(alloc);
    put_declared(&mut found, &checked.program.body)?;
    let places = places_of(alloc, text)?;
    let mut all = Vec::new(alloc);
    put_undeclared(alloc, &mut all, b"main")?;
    put_source(
        alloc,
        &mut all,
        text,
        places.as_slice(),
        checked.names,
        &found,
    )?;
    put_routines(alloc, &mut all)?;
    Ok(all)
}

fn put_undeclared(alloc: Global, all: &mut Vec<Heading>, name: &[u8]) -> Result<(), Memory>
    ensures { OnOk result (all.new.items ≡ all.old.items ++ spec.undeclared name.now ∷ []) }
{
    let one = undeclared(alloc, name)?;
    all.push(one)?;
    Ok(())
}

/// The heading of a function that no source declares.
pub(crate) fn undeclared(alloc: Global, name: &[u8]) -> Result<Heading, Memory>
    ensures { IfOk result (λ h. h ≡ spec.undeclared name.now) }
{
    let name = Vec::from_slice(alloc, name)?;
    Ok(Heading {
        name: Bytes::from_vec(name),
        place: None,
    })
}

/// Puts the headings of functions of the source at the end.
#[tactic(auto, using(crate::proofs::Within::name_at))]
fn put_source(
    alloc: Global,
    all: &mut Vec<Heading>,
    text: &[u8],
    places: &[Place],
    names: &Names,
    found: &[Ident],
) -> Result<(), Memory>
    requires places { ArePlaces text.now places.now }
    requires within { IsTrue (list_all (λ f. nat_lt f.name.0 (length names.now)) found.now) }
    ensures { OnOk result (all.new.items
        ≡ all.old.items ++ map (spec.heading_of text.now names.now) found.now) }
{
    for at in 0..found.len() {
        let one = heading_of(alloc, text, places, names, found[at])?;
        all.push(one)?;
    }
    Ok(())
}

fn heading_of(
    alloc: Global,
    text: &[u8],
    places: &[Place],
    names: &Names,
    one: Ident,
) -> Result<Heading, Memory>
    requires places { ArePlaces text.now places.now }
    requires within { one.name.0 < length names.now }
    ensures { IfOk result (λ h. h ≡ spec.heading_of text.now names.now one) }
{
    let name = Vec::from_slice(alloc, names.text(one.name).as_bytes())?;
    Ok(Heading {
        name: Bytes::from_vec(name),
        place: Some(place_at(text, places, one.span.from)),
    })
}

/// Puts the headings of the runtime's functions at the end.
fn put_routines(alloc: Global, all: &mut Vec<Heading>) -> Result<(), Memory>
    ensures { OnOk result (all.new.items
        ≡ all.old.items ++ map spec.undeclared spec.routine_names) }
{
    for at in 0..ROUTINES {
        put_undeclared(alloc, all, routine_name(at))?;
    }
    Ok(())
}

fn routine_name(at: usize) -> &'static [u8]
    requires { at < 13 }
    ensures { result.now ≡ slice_index_or spec.routine_names at [] }
{
    match at {
        0 => b"make_record",
        1 => b"make_array",
        2 => b"compare",
        3 => b"print",
        4 => b"flush",
        5 => b"getchar",
        6 => b"ord",
        7 => b"chr",
        8 => b"size",
        9 => b"substring",
        10 => b"concat",
        11 => b"not",
        _ => b"exit",
    }
}
