ghost use Rattle.std.specs.Prelude.{◌≡◌, ◌++◌, length, min, take, is_err, IsOk, IfOk};
ghost use Rattle.std.specs.declared.option.Option.TheVariants.{Some};
ghost use Rattle.std.specs.Io.{ReadsAtMost};
ghost use Rattle.std.specs.Io.KnownBytes.{ReadConsumes};
ghost use Rattle.tg_base.specs.Causes.{HasCause};
ghost use Rattle.tg_base.specs.Counts.{counted, none_so_far, next_fails, after_call};

use crate::faults::Failed;
use crate::outside::Source;
use crate::tallies::Tally;
use std::marker::Model;

/// Bytes that are taken from the front on.
#[derive(Drop)]
struct Rest {
    bytes: Vec<u8>,
    at: usize,
}

impl Model for Rest {
    ghost use Rattle.std.specs.Prelude.{ℕ, ◌≤◌, List, drop, vec_len};

    ghost Value = { List ℕ };

    ghost view = { λ r. drop r.at r.bytes.items };

    ghost invariant = { λ r. r.at ≤ vec_len r.bytes };
}

impl Rest {
    fn new(bytes: Vec<u8>) -> Rest
        ensures { result ≡ bytes.items }
    {
        Rest { bytes, at: 0 }
    }

    /// Fills `into` from its front on, as far as the bytes reach, and answers how many it took.
    fn fill(&mut self, into: &mut [u8]) -> usize
        ensures count { result ≡ min (length into.old) (length self.old) }
        ensures bytes { self.old ≡ take result into.new ++ self.new }
    {
        let count = into.len().min(self.bytes.len() - self.at);
        into[..count].copy_from_slice(&self.bytes[self.at..self.at + count]);
        self.at += count;
        count
    }
}

/// Bytes that never fail to be read. Its count of faults is always 0.
#[derive(Drop)]
pub struct PlainSource {
    rest: Rest,
    calls: u64,
}

impl Model for PlainSource {
    ghost use Rattle.tg_base.specs.PlainBytes.{PlainBytes};

    ghost Value = { PlainBytes };

    ghost view = { λ s. record { left = s.rest; calls = s.calls } };
}

impl PlainSource {
    /// A source of these bytes, none of them read so far.
    pub fn new(bytes: Vec<u8>) -> PlainSource
        ensures { result ≡ record { left = bytes.items; calls = 0 } }
    {
        PlainSource {
            rest: Rest::new(bytes),
            calls: 0,
        }
    }

    /// The count of faults.
    pub fn faults(&self) -> u64
        ensures { result ≡ 0 }
    {
        0
    }

    /// The number of calls of `read` so far, at most the greatest u64.
    pub fn calls(&self) -> u64
        ensures { result ≡ self.now.calls }
    {
        self.calls
    }
}

impl Source for PlainSource {
    ghost left = { λ s. Some s.left };

    ghost faults = { λ _. 0 };

    fn read(&mut self, into: &mut [u8]) -> Result<usize, Failed>
        ensures bound { ReadsAtMost result into.new }
        ensures bytes { ReadConsumes (Some self.old.left) (Some self.new.left) result into.new }
        ensures cause { HasCause 0 0 result }
        ensures served { result ≡ Ok (min (length into.old) (length self.old.left)) }
        ensures counted { self.new.calls ≡ counted self.old.calls }
    {
        self.calls = self.calls.saturating_add(1);
        Ok(self.rest.fill(into))
    }
}

/// Bytes whose reads fail at the listed calls alone. Calls are numbered from 1.
#[derive(Drop)]
pub struct ListSource {
    rest: Rest,
    tally: Tally,
}

impl Model for ListSource {
    ghost use Rattle.tg_base.specs.InMemory.{ListedBytes};

    ghost Value = { ListedBytes };

    ghost view = { λ s. record { left = s.rest; counts = s.tally } };
}

impl ListSource {
    /// A source of these bytes, none of them read so far, whose reads fail at the listed calls.
    pub fn new(bytes: Vec<u8>, fails: Vec<u64>) -> ListSource
        ensures { result ≡ record { left = bytes.items; counts = none_so_far fails.items } }
    {
        ListSource {
            rest: Rest::new(bytes),
            tally: Tally::new(fails),
        }
    }

    /// The count of faults, at most the greatest u64.
    pub fn faults(&self) -> u64
        ensures { result ≡ self.now.counts.faults }
    {
        self.tally.faults()
    }

    /// The number of calls of `read` so far, at most the greatest u64.
    pub fn calls(&self) -> u64
        ensures { result ≡ self.now.counts.calls }
    {
        self.tally.calls()
    }
}

impl Source for ListSource {
    ghost left = { λ s. Some s.left };

    ghost faults = { λ s. s.counts.faults };

    fn read(&mut self, into: &mut [u8]) -> Result<usize, Failed>
        ensures bound { ReadsAtMost result into.new }
        ensures bytes { ReadConsumes (Some self.old.left) (Some self.new.left) result into.new }
        ensures cause { HasCause self.old.counts.faults self.new.counts.faults result }
        ensures listed { is_err result ≡ next_fails self.old.counts }
        ensures served { IfOk result (λ n. n ≡ min (length into.old) (length self.old.left)) }
        ensures counted { self.new.counts ≡ after_call self.old.counts (is_err result) }
    {
        if self.tally.next_fails() {
            self.tally.count_fault();
            return Err(Failed);
        }
        self.tally.count_call();
        Ok(self.rest.fill(into))
    }
}

#[cfg(test)]
mod tests {
    use super::*;
    use std::test::Fail;

    #[test]
    fn plain_bytes(rt: HostRuntime) -> Result<(), Fail> {
        let mut source = PlainSource::new(vec![in rt.alloc(); 7, 8, 9]?);
        let mut into = [0; 2];
        assert_eq!(rt; source.read(&mut into), Ok(2));
        assert_eq!(rt; into, [7, 8]);
        assert_eq!(rt; source.read(&mut into), Ok(1));
        assert_eq!(rt; into[0], 9);
        assert_eq!(rt; source.read(&mut into), Ok(0));
        assert_eq!(rt; source.calls(), 3);
        assert_eq!(rt; source.faults(), 0);
        Ok(())
    }

    #[test]
    fn a_listed_read_fails(rt: HostRuntime) -> Result<(), Fail> {
        let mut source = ListSource::new(vec![in rt.alloc(); 7]?, vec![in rt.alloc(); 2]?);
        let mut into = [0; 1];
        assert_eq!(rt; source.read(&mut into), Ok(1));
        assert_eq!(rt; source.faults(), 0);
        assert_eq!(rt; source.read(&mut into), Err(Failed));
        assert_eq!(rt; source.faults(), 1);
        assert_eq!(rt; source.read(&mut into), Ok(0));
        assert_eq!(rt; source.calls(), 3);
        assert_eq!(rt; source.faults(), 1);
        Ok(())
    }
}
