ghost use Rattle.std.specs.Prelude.{
  ◌≡◌,
  ◌≤◌,
  ◌<◌,
  ◌-◌,
  ◌||◌,
  [],
  length,
  min,
  is_err,
  nat_le,
  IfOk,
};
ghost use Rattle.std.specs.declared.option.Option.TheVariants.{Some};
ghost use Rattle.std.specs.Io.KnownBytes.{WriteAppends};
ghost use Rattle.tg_base.specs.Causes.{HasCause};
ghost use Rattle.tg_base.specs.Counts.{after_call};
ghost use Rattle.tg_base.specs.InMemory.{empty_room, space, write_fails};

use crate::faults::{Failed, Memory};
use crate::outside::Sink;
use crate::tallies::Tally;
use std::alloc::Global;
use std::marker::Model;

/// A sink in memory with room for so many bytes. Only `new` takes memory.
///
/// Its writes fail at the listed calls, numbered from 1, and once the room is used up.
#[derive(Drop)]
pub struct RoomSink {
    bytes: Vec<u8>,
    room: usize,
    tally: Tally,
}

impl Model for RoomSink {
    ghost use Rattle.std.specs.Prelude.{◌≤◌, vec_len, vec_capacity};
    ghost use Rattle.tg_base.specs.InMemory.{RoomBytes};

    ghost Value = { RoomBytes };

    ghost view = { λ s. record { taken = s.bytes.items; room = s.room; counts = s.tally } };

    ghost invariant = { λ s. (s.room ≤ vec_capacity s.bytes) × (vec_len s.bytes ≤ s.room) };
}

impl RoomSink {
    /// An empty sink with room for so many bytes, whose writes fail at the listed calls.
    pub fn new(alloc: Global, room: usize, fails: Vec<u64>) -> Result<RoomSink, Memory>
        ensures { IfOk result (λ s. s ≡ empty_room room fails.items) }
    {
        Ok(RoomSink {
            bytes: Vec::with_capacity(alloc, room)?,
            room,
            tally: Tally::new(fails),
        })
    }

    /// The bytes taken.
    pub fn taken(&self) -> &[u8]
        ensures { result.now ≡ self.now.taken }
    {
        &self.bytes
    }

    /// The count of faults, at most the greatest u64.
    pub fn faults(&self) -> u64
        ensures { result ≡ self.now.counts.faults }
    {
        self.tally.faults()
    }

    /// The number of calls of `write` so far, at most the greatest u64.
    pub fn calls(&self) -> u64
        ensures { result ≡ self.now.counts.calls }
    {
        self.tally.calls()
    }
}

impl Sink for RoomSink {
    ghost taken = { λ s. Some s.taken };

    ghost faults = { λ s. s.counts.faults };

    fn write(&mut self, piece: &[u8]) -> Result<usize, Failed>
        requires { 0 < length piece.now }
        ensures some { IfOk result (λ n. (0 < n) × (n ≤ length piece.now)) }
        ensures bytes { WriteAppends (Some self.old.taken) (Some self.new.taken) result piece.now }
        ensures cause { HasCause self.old.counts.faults self.new.counts.faults result }
        ensures listed { is_err result ≡ write_fails self.old }
        ensures filled { IfOk result (λ n. n ≡ min (length piece.now) (space self.old)) }
        ensures counted { self.new.counts ≡ after_call self.old.counts (is_err result) }
        ensures same { self.new.room ≡ self.old.room }
    {
        let count = piece.len().min(self.room - self.bytes.len());
        if count == 0 || self.tally.next_fails() {
            self.tally.count_fault();
            return Err(Failed);
        }
        self.tally.count_call();
        self.bytes.extend_from_slice(&piece[..count]).unwrap();
        Ok(count)
    }
}

#[cfg(test)]
mod tests {
    use super::*;
    use std::test::Fail;

    #[test]
    fn a_listed_write_and_a_full_sink_fail(rt: HostRuntime) -> Result<(), Fail> {
        let mut sink = RoomSink::new(rt.alloc(), 3, vec![in rt.alloc(); 1]?)?;
        assert_eq!(rt; sink.write(b"ab"), Err(Failed));
        assert_eq!(rt; sink.faults(), 1);
        assert_eq!(rt; sink.write(b"ab"), Ok(2));
        assert_eq!(rt; sink.write(b"cd"), Ok(1));
        assert_eq!(rt; sink.faults(), 1);
        assert_eq!(rt; sink.write(b"d"), Err(Failed));
        assert_eq!(rt; sink.taken(), b"abc".as_slice());
        assert_eq!(rt; sink.calls(), 4);
        assert_eq!(rt; sink.faults(), 2);
        Ok(())
    }
}
