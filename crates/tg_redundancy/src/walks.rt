ghost use Rattle.std.specs.Prelude.{◌≡◌, ◌<◌, [], take, if◌then◌else◌, IfOk, OnOk};
ghost use Rattle.tg_tree.specs.Operators.{opposite};
ghost use Rattle.tg_redundancy.specs.declared.facts.Fact.TheVariants.{Untrue};
ghost use Rattle.tg_redundancy.specs.mirror.Facts.{found, noted};
ghost use Rattle.tg_redundancy.specs.mirror.Known as known;
ghost use Rattle.tg_redundancy.specs.mirror.Known.{most_facts, most_moves};
ghost use Rattle.tg_redundancy.specs.glue.Walks.{
  HasStepped,
  changed,
  given,
  if_room,
  learnt,
  moves,
  passed,
  reads,
  state_of,
  stepped,
  tested_by,
};

use crate::changes::{copy, get, keep, move_to};
use crate::copies::push_same;
use crate::facts::{
    Fact, forget_each, forget_memory, found, is_untrue, note, reread, stands, temp,
};
use crate::readings::{Reading, reading_of};
use std::alloc::Global;
use std::collections::HashMap;
use tg_base::{ListOf, Memory};
use tg_instr::{Instr, Opnd, Test, push_instr};
use tg_tree::{Rel, opposite};

/// Facts, the last one first.
type Facts = ListOf<Fact>;

/// So many facts are claimed for a mark at most. A fact takes 28 bytes, so that a mark that waits
/// takes 400 at most.
const MOST_CLAIMED: usize = 12;

/// So many moves are made in a function at most.
const MOST_MOVES: u32 = 50;

/// Where the walk over a code is: what is known if the last instruction goes on here, what is
/// claimed for marks that are still to come, and how many moves may still be made.
#[derive(Drop)]
pub(crate) struct Walk {
    alloc: Global,
    comes: Option<Facts>,
    claims: HashMap<u32, Facts>,
    room: u32,
}

// What is known behind a mark, by what comes from in front and what was met.
fn arrival(alloc: Global, from_behind: bool, comes: Option<Facts>, met: Option<Facts>) -> Facts
    ensures { result ≡ known.arrival from_behind comes met }
{
    if from_behind {
        return Facts::from_vec(Vec::new(alloc));
    }
    match comes {
        None => match met {
            None => Facts::from_vec(Vec::new(alloc)),
            Some(facts) => facts,
        },
        Some(facts) => match met {
            None => facts,
            Some(_) => Facts::from_vec(Vec::new(alloc)),
        },
    }
}

// What is known behind an instruction that goes on and that is no mark, no branch and gives no word
// that is noted.
fn change(alloc: Global, facts: &mut Vec<Fact>, one: &Instr) -> Result<(), Memory>
    ensures { OnOk result (facts.new.items ≡ changed one.now facts.old.items) }
{
    match one {
        Instr::Move(to, from) => move_to(facts, to, from),
        Instr::Sb(_, _, _) | Instr::Sw(_, _, _) => {
            forget_memory(facts);
            Ok(())
        }
        Instr::FrameStore(from, slot) => keep(facts, *from, *slot),
        Instr::Call(_) | Instr::Service => {
            facts.clear();
            Ok(())
        }
        _ => {
            let defs = one.defs(alloc);
            forget_each(facts, defs.as_slice());
            Ok(())
        }
    }
}

// What is claimed for a mark: the last facts, and of a second way nothing.
fn claimed(alloc: Global, is_second: bool, facts: &[Fact]) -> Result<Facts, Memory>
    ensures { IfOk result (λ claimed.
        claimed ≡ (if is_second then [] else take known.most_claimed facts.now)) }
{
    if is_second {
        return Ok(Facts::from_vec(Vec::new(alloc)));
    }
    let few = MOST_CLAIMED.min(facts.len());
    let claimed = Vec::from_slice(alloc, &facts[..few])?;
    Ok(Facts::from_vec(claimed))
}

impl Walk {
    /// Where a function is entered.
    pub(crate) fn new(alloc: Global) -> Walk
        ensures { state_of result ≡ known.at_start most_moves }
    {
        Walk {
            alloc,
            comes: Some(Facts::from_vec(Vec::new(alloc))),
            claims: HashMap::new(alloc),
            room: MOST_MOVES,
        }
    }

    // What is known here; and nothing comes.
    fn take_known(&mut self) -> Vec<Fact>
        ensures facts { result.items ≡ known.known (state_of self.old) }
        ensures left { state_of self.new ≡ known.nothing_comes (state_of self.old) }
    {
        match self.comes.take() {
            Some(facts) => facts.into_vec(),
            None => Vec::new(self.alloc),
        }
    }

    fn go_on(&mut self, facts: Vec<Fact>)
        ensures { state_of self.new ≡ known.goes_on facts.items (state_of self.old) }
    {
        self.comes = Some(Facts::from_vec(facts));
    }

    // Facts for a mark, by a way to it.
    fn claim(&mut self, mark: u32, facts: &[Fact]) -> Result<(), Memory>
        ensures { OnOk result (state_of self.new ≡
            known.with_claim mark facts.now (state_of self.old)) }
    {
        let is_second = self.claims.contains_key(&mark);
        let claimed = claimed(self.alloc, is_second, facts)?;
        let _ = self.claims.insert(mark, claimed)?;
        Ok(())
    }

    fn arrive(&mut self, mark: u32, from_behind: bool)
        ensures { state_of self.new ≡ known.at_mark mark from_behind (state_of self.old) }
    {
        let met = self.claims.remove(&mark);
        let comes = self.comes.take();
        self.comes = Some(arrival(self.alloc, from_behind, comes, met));
    }

    // A word: a move, if a temporary has it and there is room.
    fn give(
        &mut self,
        list: &mut Vec<Instr>,
        one: &Instr,
        to: u32,
        reading: Reading,
    ) -> Result<(), Memory>
        ensures { OnOk result (HasStepped self.new list.old.items list.new.items
            (given to reading one.now (state_of self.old))) }
    {
        let facts = self.take_known();
        let stood = reread(&facts, &reading);
        let held = self.holder(&facts, to, &stood);
        match held {
            Some(holder) => self.move_word(list, facts, to, holder),
            None => self.read_word(list, facts, one, to, stood),
        }
    }

    // A temporary that has a word, if there is room for a move.
    fn holder(&self, facts: &[Fact], to: u32, reading: &Reading) -> Option<u32>
        ensures { result ≡ if_room self.now.room (found to reading.now facts.now) }
    {
        if self.room == 0 {
            return None;
        }
        found(facts, to, reading)
    }

    // A move of a word from its holder.
    fn move_word(
        &mut self,
        list: &mut Vec<Instr>,
        mut facts: Vec<Fact>,
        to: u32,
        holder: u32,
    ) -> Result<(), Memory>
        requires { 0 < self.old.room }
        ensures { OnOk result (HasStepped self.new list.old.items list.new.items
            (moves to holder facts.items (state_of self.old))) }
    {
        self.room -= 1;
        copy(&mut facts, to, &temp(holder))?;
        self.go_on(facts);
        push_instr(list, Instr::Move(temp(to), temp(holder)))
    }

    // An instruction that stays, and what it gives is known.
    fn read_word(
        &mut self,
        list: &mut Vec<Instr>,
        mut facts: Vec<Fact>,
        one: &Instr,
        to: u32,
        reading: Reading,
    ) -> Result<(), Memory>
        ensures { OnOk result (HasStepped self.new list.old.items list.new.items
            (reads to reading facts.items one.now (state_of self.old))) }
    {
        get(&mut facts, to, &reading)?;
        self.go_on(facts);
        push_same(list, one)
    }

    // A test, which goes where it is known to fall through, and is a jump where it is known to be
    // taken.
    fn test(
        &mut self,
        list: &mut Vec<Instr>,
        one: &Instr,
        test: &Test,
        mark: u32,
    ) -> Result<(), Memory>
        ensures { OnOk result (HasStepped self.new list.old.items list.new.items
            (tested_by test.now mark one.now (state_of self.old))) }
    {
        let facts = self.take_known();
        let left = stands(&facts, &test.left);
        let right = stands(&facts, &test.right);
        let falls = is_untrue(&facts, test.rel, &left, &right);
        if falls {
            self.go_on(facts);
            return Ok(());
        }
        let jumps = is_untrue(&facts, opposite(test.rel), &left, &right);
        if jumps {
            self.claim(mark, &facts)?;
            return push_instr(list, Instr::Jump(mark));
        }
        self.part(facts, test.rel, &left, &right, mark)?;
        push_same(list, one)
    }

    // A test of which nothing is known: on each side one thing more is.
    fn part(
        &mut self,
        mut facts: Vec<Fact>,
        rel: Rel,
        left: &Opnd,
        right: &Opnd,
        mark: u32,
    ) -> Result<(), Memory>
        ensures { OnOk result (state_of self.new ≡
            known.goes_on (noted most_facts (Untrue rel left.now right.now) facts.items)
            (known.with_claim mark (noted most_facts (Untrue (opposite rel) left.now right.now)
            facts.items) (state_of self.old))) }
    {
        note(&mut facts, Fact::Untrue(opposite(rel), *left, *right))?;
        self.claim(mark, &facts)?;
        facts[0] = Fact::Untrue(rel, *left, *right);
        self.go_on(facts);
        Ok(())
    }

    // An instruction that gives no word.
    fn pass(&mut self, list: &mut Vec<Instr>, from_behind: bool, one: &Instr) -> Result<(), Memory>
        ensures { OnOk result (HasStepped self.new list.old.items list.new.items
            (passed from_behind one.now (state_of self.old))) }
    {
        if let Instr::Branch(test, mark) = one {
            return self.test(list, one, test, *mark);
        }
        self.learn(from_behind, one)?;
        push_same(list, one)
    }

    // What is known behind an instruction that stays.
    fn learn(&mut self, from_behind: bool, one: &Instr) -> Result<(), Memory>
        ensures { OnOk result (state_of self.new ≡ learnt from_behind one.now (state_of self.old)) }
    {
        match one {
            Instr::Mark(mark) => {
                self.arrive(*mark, from_behind);
                Ok(())
            }
            Instr::Jump(mark) => self.leave(*mark),
            Instr::Fault(_) => {
                self.comes = None;
                Ok(())
            }
            Instr::Return => {
                self.comes = None;
                Ok(())
            }
            _ => self.change(one),
        }
    }

    // A jump to a mark.
    fn leave(&mut self, mark: u32) -> Result<(), Memory>
        ensures { OnOk result (state_of self.new ≡ known.nothing_comes
            (known.with_claim mark (known.known (state_of self.old)) (state_of self.old))) }
    {
        let facts = self.take_known();
        self.claim(mark, &facts)
    }

    // An instruction that goes on.
    fn change(&mut self, one: &Instr) -> Result<(), Memory>
        ensures { OnOk result (state_of self.new ≡ known.goes_on
            (changed one.now (known.known (state_of self.old))) (state_of self.old)) }
    {
        let mut facts = self.take_known();
        change(self.alloc, &mut facts, one)?;
        self.go_on(facts);
        Ok(())
    }

    /// A step: puts the block for an instruction at the end of a list.
    pub(crate) fn step(
        &mut self,
        list: &mut Vec<Instr>,
        from_behind: bool,
        one: &Instr,
    ) -> Result<(), Memory>
        ensures { OnOk result (HasStepped self.new list.old.items list.new.items
            (stepped from_behind one.now (state_of self.old))) }
    {
        match reading_of(one) {
            Some((to, reading)) => self.give(list, one, to, reading),
            None => self.pass(list, from_behind, one),
        }
    }
}
