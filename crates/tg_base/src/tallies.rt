ghost use Rattle.std.specs.Prelude.{◌≡◌, ◌≤◌, true, false};
ghost use Rattle.tg_base.specs.Counts.{none_so_far, next_fails, after_call};

use std::marker::Model;

/// The calls that fail, and the counts of calls and of faults. Each call is to be counted once.
#[derive(Drop)]
pub(crate) struct Tally {
    fails: Vec<u64>,
    calls: u64,
    faults: u64,
}

impl Model for Tally {
    ghost use Rattle.tg_base.specs.Counts.{Counts};

    ghost Value = { Counts };

    ghost view = { λ t. record { fails = t.fails.items; calls = t.calls; faults = t.faults } };
}

impl Tally {
    pub(crate) fn new(fails: Vec<u64>) -> Tally
        ensures { result ≡ none_so_far fails.items }
    {
        Tally {
            fails,
            calls: 0,
            faults: 0,
        }
    }

    pub(crate) fn calls(&self) -> u64
        ensures { result ≡ self.now.calls }
    {
        self.calls
    }

    pub(crate) fn faults(&self) -> u64
        ensures { result ≡ self.now.faults }
    {
        self.faults
    }

    /// Whether the next call is one of those that fail.
    pub(crate) fn next_fails(&self) -> bool
        ensures { result ≡ next_fails self.now }
    {
        self.fails.contains(&self.calls.saturating_add(1))
    }

    /// Counts a call that doesn't fail.
    pub(crate) fn count_call(&mut self)
        ensures { self.new ≡ after_call self.old false }
    {
        self.calls = self.calls.saturating_add(1);
    }

    /// Counts a call that fails.
    pub(crate) fn count_fault(&mut self)
        ensures counts { self.new ≡ after_call self.old true }
        ensures later { self.old.faults ≤ self.new.faults }
    {
        self.calls = self.calls.saturating_add(1);
        self.faults = self.faults.saturating_add(1);
    }
}
