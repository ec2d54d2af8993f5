// Service 12 gives -1 at the end of input. The SPIM manual, whose table of services this is,
// says nothing of it.
//
// A service writes a text from the heap or the statics where it stands. Only a text on the
// stack, or across regions, is copied, in a function of its own, since a function clears its
// locals when it is entered.

ghost use Rattle.std.specs.Prelude.{
  ◌≡◌,
  ◌<◌,
  ◌≤◌,
  ◌+◌,
  ℕ,
  length,
  IfErr,
  IfOk,
  IfSome,
  MatchResult,
  IsOk,
  Ok,
  Err,
};
ghost use Rattle.tg_base.specs.Causes.{HasCause};
ghost use Rattle.tg_machine_state.specs.State as state;
ghost use Rattle.tg_machine_state.specs.Services.{service, text_at};
ghost use Rattle.tg_base.specs.Writes.{TakesAll};
ghost use Rattle.tg_machine.specs.glue.Moves.{
  Answers,
  HasPut,
  HasRead,
  HasText,
  HasWritten,
  IsOwn,
  IsPiece,
  IsUnanswered,
  Moved,
  TakesPiece,
};

use crate::cores::Core;
use crate::words::{offset, part};
use tg_base::{Failed, Sink, Source, decimal, write_all};
use tg_isa::Reg;
use tg_machine_state::{HEAP_BASE, RunEnd, STATICS_BASE};

/// How many bytes of a text are written at once.
const CHUNK: usize = 4096;

/// A byte as it is: below 256, by its type.
#[inline(always)]
fn below_256(byte: u8) -> u8
    ensures same { result ≡ byte }
    ensures low { result < 256 }
{
    byte
}

/// The next byte of a source, or none at its end. An end that was met is answered again, and the
/// source isn't asked: a terminal may give bytes behind an end.
fn next_byte<I: Source>(input: &mut I, ended: &mut bool) -> Result<Option<u8>, Failed>
    ensures bytes { MatchResult result
        (λ answer. Answers I.left input.old input.new ended.old ended.new answer)
        (λ _. IsUnanswered I.left input.old input.new ended.old ended.new) }
    ensures cause { HasCause (I.faults input.old) (I.faults input.new) result }
{
    if *ended {
        return Ok(None);
    }
    let mut byte = [0];
    if input.read(&mut byte)? == 0 {
        *ended = true;
        Ok(None)
    } else {
        Ok(Some(below_256(byte[0])))
    }
}

/// Writes a piece for a service, and counts it.
fn put_bytes<O: Sink>(out: &mut O, piece: &[u8], written: &mut u64) -> Result<(), RunEnd>
    ensures bytes { HasWritten piece.now (O.taken out.old) (O.taken out.new)
        (O.faults out.old) (O.faults out.new) written.old written.new result }
    ensures later { O.faults out.old ≤ O.faults out.new }
{
    match write_all(out, piece) {
        Ok(()) => {
            *written = written.saturating_add(piece.len() as u64);
            Ok(())
        }
        Err(_) => Err(RunEnd::WriteFault),
    }
}

impl Core {
    /// Service 12: the answer of the source goes to $v0.
    fn read_byte<I: Source>(&mut self, input: &mut I, ended: &mut bool) -> Result<(), RunEnd>
        ensures bytes { HasRead I.left I.faults self.old self.new input.old input.new
            ended.old ended.new result }
        ensures later { I.faults input.old ≤ I.faults input.new }
    {
        match next_byte(input, ended) {
            Ok(Some(byte)) => {
                self.set(Reg::V0, u32::from(byte));
                Ok(())
            }
            Ok(None) => {
                self.set(Reg::V0, 4294967295);
                Ok(())
            }
            Err(_) => Err(RunEnd::ReadFault),
        }
    }

    /// The length of the text at an address, without the 0 that ends it.
    fn text_length(&self, address: u32) -> Result<u32, RunEnd>
        ensures text { MatchResult result
            (λ n. HasText self.now address n) (λ e. text_at self.now address ≡ Err e) }
        ensures own { IfErr result IsOwn }
    {
        let most = (self.statics.len() + self.heap.len() + self.stack.len() + 1) as u32;
        for length in 0..most {
            if self.load_byte(address + length)? == 0 {
                return Ok(length);
            }
        }
        Err(RunEnd::BadAddress(address + most))
    }

    /// The bytes at an address, where the heap has all of them or the statics do.
    #[inline(always)]
    fn held(&self, address: u32, size: usize) -> Option<&[u8]>
        requires { address + size ≤ state.stack_top }
        ensures { IfSome result (λ piece. IsPiece self.now address size piece.now) }
    {
        if let Some(at) = offset(address, HEAP_BASE, self.heap.len()) {
            return part(&self.heap, at, size);
        }
        if let Some(at) = offset(address, STATICS_BASE, self.statics.len()) {
            return part(&self.statics, at, size);
        }
        None
    }

    /// Copies bytes from memory.
    fn copy(&self, address: u32, into: &mut [u8])
        requires low { address + length into.old ≤ state.stack_top }
        requires loads { (k : ℕ) → k < length into.old →
            IsOk (state.load_byte self.now (address + k)) }
        ensures { IsPiece self.now address (length into.old) into.new }
    {
        for (k, slot) in into.iter_mut().enumerate() {
            *slot = self.load_byte(address + k as u32).unwrap_or(0);
        }
    }

    /// Writes bytes from memory by way of a copy. A function clears the memory of its locals when
    /// it is entered, so this one stands apart from its callers.
    #[inline(never)]
    fn write_copy<O: Sink>(&self, address: u32, size: usize, out: &mut O) -> Result<(), Failed>
        requires size { size ≤ 4096 }
        requires low { address + size ≤ state.stack_top }
        requires loads { (k : ℕ) → k < size → IsOk (state.load_byte self.now (address + k)) }
        ensures bytes { TakesPiece self.now address size
            (O.taken out.old) (O.taken out.new) result }
        ensures cause { HasCause (O.faults out.old) (O.faults out.new) result }
    {
        let mut chunk = [0; CHUNK];
        let piece = &mut chunk[..size];
        self.copy(address, piece);
        write_all(out, piece)
    }

    /// Writes bytes from memory as one piece.
    fn write_piece<O: Sink>(&self, address: u32, size: usize, out: &mut O) -> Result<(), Failed>
        requires size { size ≤ 4096 }
        requires low { address + size ≤ state.stack_top }
        requires loads { (k : ℕ) → k < size → IsOk (state.load_byte self.now (address + k)) }
        ensures bytes { TakesPiece self.now address size
            (O.taken out.old) (O.taken out.new) result }
        ensures cause { HasCause (O.faults out.old) (O.faults out.new) result }
    {
        match self.held(address, size) {
            Some(piece) => write_all(out, piece),
            None => self.write_copy(address, size, out),
        }
    }

    /// Writes the text at an address, in pieces of the size of a chunk.
    fn write_text<O: Sink>(&self, address: u32, size: u32, out: &mut O) -> Result<(), Failed>
        requires { HasText self.now address size }
        ensures bytes { IfOk (text_at self.now address)
            (λ text. TakesAll (O.taken out.old) (O.taken out.new) result text) }
        ensures cause { HasCause (O.faults out.old) (O.faults out.new) result }
    {
        let mut done = 0;
        while done < size {
            let more = CHUNK.min((size - done) as usize);
            self.write_piece(address + done, more, out)?;
            done += more as u32;
        }
        Ok(())
    }

    /// Service 4: the text at an address is written, once all of it is found.
    fn put_text<O: Sink>(&self, address: u32, out: &mut O, written: &mut u64) -> Result<(), RunEnd>
        ensures { HasPut O.taken O.faults (text_at self.now address)
            out.old out.new written.old written.new result }
    {
        let size = self.text_length(address)?;
        match self.write_text(address, size, out) {
            Ok(()) => {
                *written = written.saturating_add(u64::from(size));
                Ok(())
            }
            Err(_) => Err(RunEnd::WriteFault),
        }
    }

    /// The service that $v0 names, with its argument in $a0. `ended` says whether a read has met
    /// the end of the input.
    #[inline(never)]
    pub fn service<I: Source, O: Sink>(
        &mut self,
        input: &mut I,
        out: &mut O,
        written: &mut u64,
        ended: &mut bool,
    ) -> Result<(), RunEnd>
        ensures { Moved I.left I.faults O.taken O.faults (service self.old) result
            self.new input.old input.new out.old out.new written.old written.new
            ended.old ended.new }
    {
        let argument = self.register(Reg::A0);
        match self.register(Reg::V0) {
            1 => {
                let mut digits = [0; 11];
                let size = decimal(argument.cast_signed(), &mut digits);
                put_bytes(out, &digits[..size], written)
            }
            4 => self.put_text(argument, out, written),
            9 => self.take_heap((argument as usize + 3) / 4 * 4),
            10 => Err(RunEnd::Exit(0)),
            11 => put_bytes(out, &[(argument % 256) as u8], written),
            12 => self.read_byte(input, ended),
            17 => Err(RunEnd::Exit(argument.cast_signed())),
            number => Err(RunEnd::BadService(number)),
        }
    }
}
