ghost use Rattle.std.specs.Prelude.{
  ◌≡◌,
  ◌<◌,
  ◌+◌,
  ◌^◌,
  All,
  IfOk,
  OnOk,
  length,
  map,
  slice_index,
  sum,
};
ghost use Rattle.tg_coalescing_round.specs.glue.Groupings.{apart, is_made, joined};
ghost use Rattle.tg_coalescing_round.specs.glue.Lists.{set_at_all};

use crate::lists::{Numbers, conjoin, move_sum, pour, singletons};
use std::alloc::Global;
use std::marker::Model;
use tg_base::Memory;
use tg_graph::numbers;
use tg_irc_definition::NodeFacts;

/// The classes of the nodes that were coalesced so far, each named by the node under which it
/// stands. A merge takes time by the size of the class that goes, which a round's merges sum to at
/// most the square of the number of nodes, as the bits of the graph do.
#[derive(Drop)]
pub(crate) struct Classes {
    aliases: Vec<u32>,
    members: Vec<Numbers>,
    uses: Vec<u32>,
    made: Vec<bool>,
}

impl Model for Classes {
    ghost use Rattle.tg_coalescing_round.specs.glue.Groupings.{Grouping, IsGrouping};

    ghost Value = { Grouping };

    ghost use Rattle.tg_coalescing_round.specs.glue.ShownClasses.{grouping_of};

    ghost view = { grouping_of };

    ghost invariant = { λ c. IsGrouping (grouping_of c) };
}

impl Classes {
    /// Each node in a class of its own.
    pub(crate) fn new(alloc: Global, facts: &[NodeFacts]) -> Result<Classes, Memory>
        requires count { length facts.now < 2 ^ 32 }
        requires few { sum (map (λ m. m.uses) facts.now) < 2 ^ 32 }
        ensures { IfOk result (λ c. c ≡ apart facts.now) }
    {
        let nodes = facts.len() as u32;
        Ok(Classes {
            aliases: numbers(alloc, nodes)?,
            uses: uses_of(alloc, facts)?,
            made: made_of(alloc, facts)?,
            members: singletons(alloc, nodes)?,
        })
    }

    /// The node under which a node's class stands.
    pub(crate) fn alias(&self, node: u32) -> u32
        requires { node < length self.now.aliases }
        ensures value { result ≡ slice_index self.now.aliases node }
        ensures within { result < length self.now.aliases }
    {
        self.aliases[node as usize]
    }

    /// The sum of the uses of a class's members.
    pub(crate) fn uses(&self, class: u32) -> u32
        requires { class < length self.now.aliases }
        ensures { result ≡ slice_index self.now.uses class }
    {
        self.uses[class as usize]
    }

    /// Whether spilling has made all members of a class.
    pub(crate) fn is_made(&self, class: u32) -> bool
        requires { class < length self.now.aliases }
        ensures { result ≡ is_made self.now class }
    {
        self.made[class as usize]
    }

    /// Makes two classes one, which stands under `kept`.
    pub(crate) fn join(&mut self, kept: u32, gone: u32) -> Result<(), Memory>
        requires kept { kept < length self.old.aliases }
        requires gone { gone < length self.old.aliases }
        ensures ok { OnOk result (self.new ≡ joined kept gone self.old) }
        ensures sized { length self.new.aliases ≡ length self.old.aliases }
    {
        relabel(&mut self.aliases, &self.members[gone as usize], kept);
        pour(&mut self.members, kept, gone)?;
        move_sum(&mut self.uses, kept, gone);
        conjoin(&mut self.made, kept, gone);
        Ok(())
    }

    /// The node under which each node's class stands.
    pub(crate) fn aliases(&self) -> &[u32]
        ensures value { result.now ≡ self.now.aliases }
        ensures within { All (λ x. x < length self.now.aliases) result.now }
    {
        self.aliases.as_slice()
    }

    /// The same, as a vector.
    pub(crate) fn into_aliases(self) -> Vec<u32>
        ensures { result.items ≡ self.aliases }
    {
        self.aliases
    }
}

fn uses_of(alloc: Global, facts: &[NodeFacts]) -> Result<Vec<u32>, Memory>
    ensures { IfOk result (λ v. v.items ≡ map (λ m. m.uses) facts.now) }
{
    let mut uses = Vec::with_capacity(alloc, facts.len())?;
    for node in facts {
        uses.push(node.uses)?;
    }
    Ok(uses)
}

fn made_of(alloc: Global, facts: &[NodeFacts]) -> Result<Vec<bool>, Memory>
    ensures { IfOk result (λ v. v.items ≡ map (λ m. m.made) facts.now) }
{
    let mut made = Vec::with_capacity(alloc, facts.len())?;
    for node in facts {
        made.push(node.made)?;
    }
    Ok(made)
}

/// Gives each of the members another alias.
fn relabel(aliases: &mut [u32], members: &[u32], alias: u32)
    requires { All (λ x. x < length aliases.old) members.now }
    ensures { aliases.new ≡ set_at_all alias members.now aliases.old }
{
    for member in members {
        aliases[*member as usize] = alias;
    }
}
