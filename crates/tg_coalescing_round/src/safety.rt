ghost use Rattle.std.specs.Prelude.{◌≡◌, ◌<◌, ◌≤◌, ◌⊎◌, min};
ghost use Rattle.tg_graph.specs.Interference.{colours};
ghost use Rattle.tg_coalescing_round.specs.mirror.Passing.{
  high_apart,
  high_around,
  passes,
  passes_briggs,
  passes_george,
  stands_under,
};

use crate::states::{Coalescer, is_register};
use tg_graph::COLOURS;

impl Coalescer {
    /// Whether two classes may be coalesced: by George's test where one is a register, else by
    /// that of Briggs.
    pub(crate) fn passes(&self, one: u32, other: u32) -> bool
        requires one { one < self.now.graph.nodes }
        requires other { other < self.now.graph.nodes }
        requires temporary { (colours ≤ one) ⊎ (colours ≤ other) }
        ensures { result ≡ passes self.now one other }
    {
        if is_register(one) {
            self.passes_george(one, other)
        } else if is_register(other) {
            self.passes_george(other, one)
        } else {
            self.passes_briggs(one, other)
        }
    }

    /// Whether each neighbour of a temporary interferes with a register or is low.
    fn passes_george(&self, register: u32, temporary: u32) -> bool
        requires register { register < self.now.graph.nodes }
        requires node { temporary < self.now.graph.nodes }
        requires temporary { colours ≤ temporary }
        ensures { result ≡ passes_george self.now register temporary }
    {
        self.high_apart(temporary, register, 1) == 0
    }

    /// Whether the class that two temporaries would make has fewer high neighbours than there are
    /// colours.
    fn passes_briggs(&self, one: u32, other: u32) -> bool
        requires one { one < self.now.graph.nodes }
        requires other { other < self.now.graph.nodes }
        requires first { colours ≤ one }
        requires second { colours ≤ other }
        ensures { result ≡ passes_briggs self.now one other }
    {
        let room = COLOURS - self.high_around(one, COLOURS);
        if room == 0 {
            return false;
        }
        self.high_apart(other, one, room) < room
    }

    /// How many high neighbours a temporary has, counted up to a limit.
    fn high_around(&self, node: u32, limit: u32) -> u32
        requires node { node < self.now.graph.nodes }
        requires temporary { colours ≤ node }
        requires limit { 0 < limit }
        ensures value { result ≡ min (high_around self.now node) limit }
        ensures bound { result ≤ limit }
    {
        let mut count = 0;
        for other in self.graph.neighbours(node) {
            if self.is_high(*other) {
                count += 1;
                if count == limit {
                    return limit;
                }
            }
        }
        count
    }

    /// How many high neighbours a temporary has that do not interfere with another node, counted up
    /// to a limit.
    fn high_apart(&self, node: u32, apart: u32, limit: u32) -> u32
        requires node { node < self.now.graph.nodes }
        requires apart { apart < self.now.graph.nodes }
        requires temporary { colours ≤ node }
        requires limit { 0 < limit }
        ensures value { result ≡ min (high_apart self.now node apart) limit }
        ensures bound { result ≤ limit }
    {
        let mut count = 0;
        for other in self.graph.neighbours(node) {
            if self.is_high(*other) && !self.graph.interferes(apart, *other) {
                count += 1;
                if count == limit {
                    return limit;
                }
            }
        }
        count
    }

    /// Whether the class of two is to stand under the first: the register where one is, else the
    /// one that holds an original, else the one of larger degree.
    pub(crate) fn stands_under(&self, first: u32, second: u32) -> bool
        requires first { first < self.now.graph.nodes }
        requires second { second < self.now.graph.nodes }
        ensures { result ≡ stands_under self.now first second }
    {
        if is_register(first) || is_register(second) {
            is_register(first)
        } else if self.classes.is_made(first) != self.classes.is_made(second) {
            self.classes.is_made(second)
        } else {
            self.degrees[first as usize] >= self.degrees[second as usize]
        }
    }
}
