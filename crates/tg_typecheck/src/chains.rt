// Cycles of type names are found by squaring the chains of names that stand for others of their
// group, in n log n steps. A walk from each name could take n squared.

ghost use Rattle.std.specs.Prelude.{◌≡◌, ◌<◌, ℕ, length, map, slice_index_or, IfOk, All};
ghost use Rattle.tg_syntax.specs.glue.Plain.{plain_type, plain_form};
ghost use Rattle.tg_typecheck.specs.declared.chains.Chain.{Chain as Place};
ghost use Rattle.tg_typecheck.specs.declared.chains.Chain.TheVariants.{Onward};
ghost use Rattle.tg_syntax.specs.NamesWithin.{TypesWithin, NameIsWithin};
ghost use Rattle.tg_typecheck.specs.Groups as groups;
ghost use Rattle.tg_typecheck.specs.glue.Declaring.{
  HasPlaces,
  AreDifferent,
  chain_from,
  ChainWithin,
  start_in,
  link_at,
  links_in,
  LeadsWithin,
  followed,
};

use std::alloc::Global;
use std::collections::HashMap;
use tg_base::Memory;
use tg_syntax::{Form, Ident, TypeDec};

/// Where a chain of aliases stands: outside the group at a name, at a form that is no alias, or at
/// an alias, whose place in the group is named.
#[derive(Clone, Copy)]
pub(crate) enum Chain {
    Outside(Ident),
    EndsAt(usize),
    Onward(usize),
}

/// Where the chain from each declaration of a group stands after as many links as the group has
/// declarations.
pub(crate) fn ends_of(
    alloc: Global,
    places: &HashMap<u32, usize>,
    group: &[TypeDec],
) -> Result<Vec<Chain>, Memory>
    requires places { HasPlaces places.now (map plain_type group.now) }
    requires different { AreDifferent (map plain_type group.now) }
    ensures chains { IfOk result (λ v. map (chain_from (map plain_type group.now)) v.items
        ≡ map (λ d. groups.chain_of (map plain_type group.now) d.name) (map plain_type group.now)) }
    ensures within { (n : ℕ) → TypesWithin n (map plain_type group.now) →
        IfOk result (λ v. All (ChainWithin n (map plain_type group.now)) v.items) }
    ensures as_many { IfOk result (λ v. length v.items ≡ length group.now) }
{
    let mut links = links_of(alloc, places, group)?;
    let mut ends = places_themselves(alloc, group.len())?;
    let mut count = group.len();
    while count > 0 {
        if count % 2 == 1 {
            ends = composed(alloc, &ends, &links)?;
        }
        links = composed(alloc, &links, &links)?;
        count /= 2;
    }
    Ok(ends)
}

fn places_themselves(alloc: Global, count: usize) -> Result<Vec<Chain>, Memory>
    ensures as_many { IfOk result (λ v. length v.items ≡ count) }
    ensures each { IfOk result (λ v. (k : ℕ) (d : Place) → k < count →
        slice_index_or v.items k d ≡ Onward k) }
{
    let mut ends = Vec::new(alloc);
    for at in 0..count {
        ends.push(Chain::Onward(at))?;
    }
    Ok(ends)
}

// One link from each declaration.
fn links_of(
    alloc: Global,
    places: &HashMap<u32, usize>,
    group: &[TypeDec],
) -> Result<Vec<Chain>, Memory>
    requires places { HasPlaces places.now (map plain_type group.now) }
    ensures links { IfOk result (λ v. v.items
        ≡ links_in (map plain_type group.now) 0 (map plain_type group.now)) }
    ensures within { (n : ℕ) → TypesWithin n (map plain_type group.now) →
        IfOk result (λ v. All (ChainWithin n (map plain_type group.now)) v.items) }
{
    let mut links = Vec::new(alloc);
    for (at, dec) in group.iter().enumerate() {
        links.push(link_of(places, group, at, &dec.form))?;
    }
    Ok(links)
}

fn link_of(places: &HashMap<u32, usize>, group: &[TypeDec], at: usize, form: &Form) -> Chain
    requires places { HasPlaces places.now (map plain_type group.now) }
    ensures { result ≡ link_at (map plain_type group.now) at (plain_form form.now) }
{
    match form {
        Form::Alias(x) => start_of(places, group, *x),
        _ => Chain::EndsAt(at),
    }
}

fn start_of(places: &HashMap<u32, usize>, group: &[TypeDec], x: Ident) -> Chain
    requires places { HasPlaces places.now (map plain_type group.now) }
    ensures within { (n : ℕ) → TypesWithin n (map plain_type group.now) → NameIsWithin n x →
        ChainWithin n (map plain_type group.now) result }
    ensures chain { result ≡ start_in (map plain_type group.now) x }
{
    match places.get(&x.name.0) {
        None => Chain::Outside(x),
        Some(at) => match &group[*at].form {
            Form::Alias(_) => Chain::Onward(*at),
            _ => Chain::EndsAt(*at),
        },
    }
}

// Where the second leads from where the first does.
fn composed(alloc: Global, first: &[Chain], second: &[Chain]) -> Result<Vec<Chain>, Memory>
    requires { All (LeadsWithin (length second.now)) first.now }
    ensures { IfOk result (λ v. v.items ≡ map (λ c. followed c second.now) first.now) }
{
    let mut both = Vec::new(alloc);
    for chain in first {
        both.push(follow(*chain, second))?;
    }
    Ok(both)
}

fn follow(chain: Chain, links: &[Chain]) -> Chain
    requires { LeadsWithin (length links.now) chain }
    ensures { result ≡ followed chain links.now }
{
    match chain {
        Chain::Onward(at) => links[at],
        end => end,
    }
}
