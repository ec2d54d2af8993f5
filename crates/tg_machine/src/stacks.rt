ghost use Rattle.std.specs.Prelude.{
  ◌≡◌,
  ◌<◌,
  ◌≤◌,
  ◌+◌,
  ◌-◌,
  ◌%◌,
  length,
  ℕ,
  vec_capacity,
  replicate,
  ◌++◌,
  IfOk,
  slice_index,
  slice_set,
};
ghost use Rattle.tg_machine_state.specs.State as state;
ghost use Rattle.tg_machine_state.specs.State.{most_room};

use crate::words::{set_word, word_at};
use byteorder::{ByteOrder, LittleEndian};
use std::alloc::{AllocError, Global};
use std::marker::Model;

/// The bytes of the stack, which grows down. Only the bytes from the lowest one written on are
/// held, in memory that was reserved for all of them; the bytes before these are 0.
#[derive(Drop)]
pub(crate) struct Stack {
    near: Vec<u8>,
    size: usize,
}

impl Model for Stack {
    ghost use Rattle.tg_machine_state.specs.State.{most_room};
    ghost use Rattle.std.specs.Prelude.{List, ℕ, length, vec_capacity, replicate};
    ghost use Rattle.std.specs.Prelude.{◌++◌, ◌-◌, ◌≤◌, ◌≡◌, ◌%◌};

    ghost Value = { List ℕ };

    ghost view = { λ s. replicate (s.size - length s.near.items) 0 ++ s.near.items };

    ghost invariant = { λ s. (length s.near.items ≤ s.size)
        × (s.size ≤ vec_capacity s.near) × (s.size ≤ most_room) };
}

/// Puts zeros before what a vector holds.
#[inline(never)]
fn grow_front(bytes: &mut Vec<u8>, more: usize)
    requires { length bytes.old.items + more ≤ vec_capacity bytes.old }
    ensures items { bytes.new.items ≡ replicate more 0 ++ bytes.old.items }
    ensures capacity { vec_capacity bytes.old ≤ vec_capacity bytes.new }
{
    let len = bytes.len();
    bytes.resize(len + more, 0).unwrap();
    bytes.as_mut_slice().rotate_right(more);
}

impl Stack {
    /// A stack of zeros. It reserves all memory and touches none.
    #[inline(always)]
    pub(crate) fn new(alloc: Global, size: usize) -> Result<Stack, AllocError>
        requires { size ≤ most_room }
        ensures { IfOk result (λ s. s ≡ replicate size 0) }
    {
        let near = Vec::with_capacity(alloc, size)?;
        Ok(Stack { near, size })
    }

    #[inline(always)]
    pub(crate) fn len(&self) -> usize
        ensures value { result ≡ length self.now }
        ensures fits { result ≤ most_room }
    {
        self.size
    }

    /// The byte at an offset from the floor.
    #[inline(always)]
    pub(crate) fn byte(&self, at: usize) -> u8
        requires { at < length self.now }
        ensures { result ≡ slice_index self.now at }
    {
        let skipped = self.size - self.near.len();
        if at < skipped {
            0
        } else {
            self.near[at - skipped]
        }
    }

    /// The word at an offset from the floor.
    #[inline(always)]
    pub(crate) fn word(&self, at: usize) -> u32
        requires { at + 4 ≤ length self.now }
        ensures { result ≡ state.word_at self.now at }
    {
        let skipped = self.size - self.near.len();
        if skipped <= at {
            return word_at(&self.near, at - skipped);
        }
        LittleEndian::read_u32(&[
            self.byte(at),
            self.byte(at + 1),
            self.byte(at + 2),
            self.byte(at + 3),
        ])
    }

    /// Puts a word at an offset from the floor.
    #[inline(always)]
    pub(crate) fn set_word(&mut self, at: usize, value: u32)
        requires { at + 4 ≤ length self.old }
        ensures { self.new ≡ state.set_word self.old at value }
    {
        reach(&mut self.near, self.size, at);
        let skipped = self.size - self.near.len();
        set_word(&mut self.near, at - skipped, value);
    }

    /// Puts a byte at an offset from the floor.
    #[inline(always)]
    pub(crate) fn set_byte(&mut self, at: usize, value: u8)
        requires { at < length self.old }
        ensures { self.new ≡ slice_set self.old at value }
    {
        reach(&mut self.near, self.size, at);
        let skipped = self.size - self.near.len();
        self.near[at - skipped] = value;
    }
}

/// Makes a vector hold the byte at a place, where zeros stand before it up to a size. It at least
/// doubles the vector.
#[inline(always)]
fn reach(near: &mut Vec<u8>, size: usize, at: usize)
    requires held { length near.old.items ≤ size }
    requires room { size ≤ vec_capacity near.old }
    requires within { at < size }
    requires bound { size ≤ most_room }
    ensures reached { size - length near.new.items ≤ at }
    ensures held { length near.new.items ≤ size }
    ensures room { size ≤ vec_capacity near.new }
    ensures same { replicate (size - length near.new.items) 0 ++ near.new.items
        ≡ replicate (size - length near.old.items) 0 ++ near.old.items }
{
    let skipped = size - near.len();
    if at < skipped {
        let more = (skipped - at).max(near.len()).max(65536).min(skipped);
        grow_front(near, more);
    }
}
