ghost use Rattle.std.specs.Prelude.{◌≡◌, ◌≤◌, ◌%◌, ℕ, List, length, IfOk, OnErr};
ghost use Rattle.tg_machine_state.specs.State.{most_bytes, most_room, most_words};
ghost use Rattle.tg_page.specs.glue.Requests.{refusal, request_of};
ghost use Rattle.tg_page.specs.Looks.{IsLook, IsLookedAt, nowhere, place_told, room_of};

use crate::buffers::put;
use crate::stopping::{Stops, run_to_stop};
use crate::viewing::{tell_registers, tell_words};
use std::alloc::Global;
use tg_asm::{AsmFault, assemble};
use tg_base::{Memory, PlainSource, RoomSink};
use tg_isa::Image;
use tg_machine::{Machine, load};

/// Where a machine is after so many steps.
#[repr(C)]
#[derive(Clone, Copy)]
pub struct Place {
    /// 0 where the text is assembled, 65 where it has a fault, 70 where memory ran out.
    pub status: u64,
    /// The line of the fault, counted from 1.
    pub line: u64,
    /// How many steps were made.
    pub made: u64,
    /// 1 where the machine has ended.
    pub ended: u64,
    /// Where the next step fetches, and the word there; 0 where it fetches nothing.
    pub place: u64,
    pub word: u64,
    /// How many bytes the services wrote.
    pub out: usize,
}

/// No machine: a status, and the line of a fault.
fn nowhere(status: u64, line: u64) -> Place
    ensures { result ≡ nowhere status line }
{
    Place {
        status,
        line,
        made: 0,
        ended: 0,
        place: 0,
        word: 0,
        out: 0,
    }
}

/// A machine at the start of an assembly text makes at most `steps` steps. Once it has made
/// `passing`, it stops before a step whose place is among `breakpoints`. Then the 32 registers, hi
/// and lo are told, the words at `addresses`, and what it wrote; and the fetches of each word of
/// the code, from its first on, are added to `counts`.
///
/// Sizes of heap and stack are bytes: what is no whole word is cut off, and what is too large is
/// the greatest size.
#[unsafe(no_mangle)]
pub extern "C" fn page_look(
    alloc: Global,
    text: &[u8],
    input: &[u8],
    heap: u32,
    stack: u32,
    steps: u64,
    passing: u64,
    breakpoints: &[u32],
    addresses: &[u32],
    registers: &mut [u32],
    words: &mut [u64],
    counts: &mut [u32],
    out: &mut [u8],
    place: &mut Place,
)
    ensures { IsLook (record {
      text = text.now;
      input = input.now;
      heap = heap;
      stack = stack;
      steps = steps;
      passing = passing;
      breakpoints = breakpoints.now;
      addresses = addresses.now;
    })
        (record {
          registers = registers.old;
          words = words.old;
          counts = counts.old;
          out = out.old;
        })
        (record {
          registers = registers.new;
          words = words.new;
          counts = counts.new;
          out = out.new;
        }) place.new }
{
    let asked = Asked {
        input,
        heap,
        stack,
        stops: Stops {
            steps,
            passing,
            breakpoints,
        },
        addresses,
    };
    *place = look_at_text(alloc, text, asked, registers, words, counts, out);
}

/// What is asked of a machine, but for its text.
#[derive(Clone, Copy)]
struct Asked<'a> {
    input: &'a [u8],
    heap: u32,
    stack: u32,
    stops: Stops<'a>,
    addresses: &'a [u32],
}

/// A look at the machine of an assembly text.
fn look_at_text(
    alloc: Global,
    text: &[u8],
    asked: Asked<'_>,
    registers: &mut [u32],
    words: &mut [u64],
    counts: &mut [u32],
    out: &mut [u8],
) -> Place
    ensures { IsLook (request_of text.now asked.entry)
        (record {
          registers = registers.old;
          words = words.old;
          counts = counts.old;
          out = out.old;
        })
        (record {
          registers = registers.new;
          words = words.new;
          counts = counts.new;
          out = out.new;
        }) result }
{
    match assemble(alloc, text) {
        Err(fault) => refused(fault),
        Ok(image) => match look(alloc, &image, asked, registers, words, counts, out) {
            Ok(place) => place,
            Err(_) => nowhere(70, 0),
        },
    }
}

/// What is told of a text without an image: the line of its fault, or that memory ran out.
fn refused(fault: AsmFault) -> Place
    ensures { result ≡ refusal fault }
{
    match fault {
        AsmFault::Bad { rule: _, at } => nowhere(65, at),
        AsmFault::Memory => nowhere(70, 0),
    }
}

/// The most words of a heap or of a stack.
const MOST: u32 = 67_108_864;

/// A size of heap or of stack in whole words, at most the greatest.
fn room_of(size: u32) -> u32
    ensures value { result ≡ room_of size }
    ensures fits { result ≤ most_room }
    ensures whole { result % 4 ≡ 0 }
{
    (size / 4).min(MOST) * 4
}

/// A look at a machine at the start of an image. After an error all is as it was.
fn look(
    alloc: Global,
    image: &Image,
    asked: Asked<'_>,
    registers: &mut [u32],
    words: &mut [u64],
    counts: &mut [u32],
    out: &mut [u8],
) -> Result<Place, Memory>
    requires code { length image.now.code ≤ most_words }
    requires statics { length image.now.statics ≤ most_bytes }
    ensures looked { IfOk result (λ place. (text : List ℕ) →
        IsLookedAt (request_of text asked.entry)
        (record {
          registers = registers.old;
          words = words.old;
          counts = counts.old;
          out = out.old;
        })
        (record {
          registers = registers.new;
          words = words.new;
          counts = counts.new;
          out = out.new;
        }) image.now place) }
    ensures registers { OnErr result (registers.new ≡ registers.old) }
    ensures words { OnErr result (words.new ≡ words.old) }
    ensures counts { OnErr result (counts.new ≡ counts.old) }
    ensures out { OnErr result (out.new ≡ out.old) }
{
    let mut machine = load(alloc, image, room_of(asked.heap), room_of(asked.stack))?;
    let mut source = PlainSource::new(asked.input.to_vec(alloc)?);
    let mut sink = RoomSink::new(alloc, out.len(), Vec::new(alloc))?;
    let made = run_to_stop(&mut machine, &mut source, &mut sink, asked.stops, counts);
    tell_registers(&machine, registers);
    tell_words(&machine, asked.addresses, words);
    Ok(place_of(&machine, made, put(sink.taken(), out)))
}

/// Where a machine is, after so many steps that wrote so many bytes.
fn place_of(machine: &Machine, made: u64, out: usize) -> Place
    ensures { result ≡ place_told machine.now made out }
{
    let (place, word) = match machine.fetch() {
        Some(seen) => (u64::from(seen.place), u64::from(seen.word)),
        None => (0, 0),
    };
    Place {
        status: 0,
        line: 0,
        made,
        ended: u64::from(machine.end().is_some()),
        place,
        word,
        out,
    }
}
