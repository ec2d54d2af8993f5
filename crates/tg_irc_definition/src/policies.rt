ghost use Rattle.std.specs.Prelude.{◌≡◌, ◌<◌, ℕ, List, Bool, IsTrue, length};
ghost use Rattle.tg_irc_definition.specs.declared.candidates.Candidate.{Candidate};
ghost use Rattle.tg_irc_definition.specs.Policies.{least_use, comes_before};

use crate::candidates::Candidate;

/// Which class is spilled where nothing else can be done. A policy has a rule, which says of each
/// place in a list of candidates whether it may be answered. No call changes the rule; a policy
/// whose answers vary has one that allows each of them.
pub trait SpillPolicy: Drop {
    ghost rule: { Self → List Candidate → ℕ → Bool };

    /// The place of the candidate to spill. The candidates are all remaining classes of temporaries
    /// in rising order of `temp`.
    fn choose(&mut self, candidates: &[Candidate]) -> usize
        requires { 0 < length candidates.now }
        ensures below { result < length candidates.now }
        ensures allowed { IsTrue (rule self.old candidates.now result) }
        ensures same { rule self.new ≡ rule self.old };
}

/// The policy that spills the class with the fewest uses, the lowest `temp` among equals, and those
/// that spilling has made last of all.
#[derive(Clone, Copy)]
pub struct LeastUse;

impl SpillPolicy for LeastUse {
    ghost rule = { λ _. least_use };

    fn choose(&mut self, candidates: &[Candidate]) -> usize {
        let mut least = 0;
        for at in 1..candidates.len() {
            if comes_before(&candidates[at], &candidates[least]) {
                least = at;
            }
        }
        least
    }
}

/// Whether a candidate is to be spilled rather than another.
fn comes_before(one: &Candidate, other: &Candidate) -> bool
    ensures { result ≡ comes_before one.now other.now }
{
    if one.made != other.made {
        other.made
    } else if one.uses != other.uses {
        one.uses < other.uses
    } else {
        one.temp < other.temp
    }
}
