ghost use Rattle.std.specs.Prelude.{length, nat_lt};

use crate::calls::{Outside, Seen, call, call_with, is_answered};
use crate::watching::{has_told, tell};
use std::alloc::{AllocError, Global};
use std::cell::RefCell;
use std::rc::Rc;
use std::str;
use std::test::Fail;
use tg_driver::Tools;
use tg_irc_definition::{Candidate, SpillPolicy};

/// Which candidate a policy chooses.
#[derive(Clone, Copy)]
enum Way {
    First,
    Last,
    /// The first at its first call, the second at its second, and so on, around the candidates.
    Turning,
}

/// A policy that tells the temporary of each candidate that it chose, in the order of its calls.
#[derive(Drop)]
struct Telling {
    way: Way,
    calls: usize,
    chosen: Rc<RefCell<Vec<u32>>>,
}

impl SpillPolicy for Telling {
    ghost rule = { λ _ candidates at. nat_lt at (length candidates) };

    fn choose(&mut self, candidates: &[Candidate]) -> usize {
        let at = match self.way {
            Way::First => 0,
            Way::Last => candidates.len() - 1,
            Way::Turning => self.calls % candidates.len(),
        };
        self.calls = self.calls.wrapping_add(1);
        tell(&self.chosen, candidates[at].temp);
        at
    }
}

/// A program that reads 40 bytes, and then writes them from the last to the first.
fn reversing(alloc: Global) -> Result<Vec<u8>, AllocError> {
    let mut text = Vec::new(alloc);
    text.extend_from_slice(b"let")?;
    for number in 1..=40 {
        let read = format!(in alloc; " var v{number}:=getchar()")?;
        text.extend_from_slice(read.as_bytes())?;
    }
    text.extend_from_slice(b" in print(v40)")?;
    for number in (1..40).rev() {
        let written = format!(in alloc; " ; print(v{number})")?;
        text.extend_from_slice(written.as_bytes())?;
    }
    text.extend_from_slice(b" end")?;
    Ok(text)
}

static INPUT: &[u8] = b"abcdefghijklmnopqrstuvwxyzABCDEFGHIJKLMN";

static OUTPUT: &str = "NMLKJIHGFEDCBAzyxwvutsrqponmlkjihgfedcba";

/// The program's outside, with room for its allocations.
fn outside(text: &[u8]) -> Outside {
    Outside {
        input: INPUT,
        room: 1_000_000,
        ..Outside::of(text)
    }
}

/// A call on the program by a policy that chooses so, and what it chose.
fn call_telling(
    alloc: Global,
    line: &str,
    way: Way,
    chosen: &Rc<RefCell<Vec<u32>>>,
) -> Result<Seen, Fail> {
    let text = reversing(alloc)?;
    let policy = Telling {
        way,
        calls: 0,
        chosen: chosen.clone()?,
    };
    let tools = Tools {
        policy: Box::new(alloc, policy)?,
        watchers: Vec::new(alloc),
    };
    call_with(alloc, line, outside(&text), tools)
}

/// The temporaries of the lines of a listing that spill, in their order.
fn spilled_in(alloc: Global, listing: &[u8]) -> Result<Vec<u32>, Fail> {
    let mut spilled = Vec::new(alloc);
    for line in str::from_utf8(listing)?.lines() {
        if let Some(temp) = line.strip_prefix("spill t") {
            spilled.push(temp.parse::<u32>().ok().ok_or("no number")?)?;
        }
    }
    Ok(spilled)
}

#[test]
fn what_spills_runs(rt: HostRuntime) -> Result<(), Fail> {
    let alloc = rt.alloc();
    let text = reversing(alloc)?;
    let seen = call(alloc, "tiger|run|FILE", outside(&text))?;
    is_answered(&rt, alloc, &seen, 0, "", OUTPUT)?;
    let listed = call(alloc, "tiger|alloc|FILE", outside(&text))?;
    assert_eq!(rt;
        (listed.status, listed.error.len(), listed.reads),
        (0, 0, 0)
    );
    assert!(rt; !spilled_in(alloc, &listed.out)?.is_empty());
    Ok(())
}

#[test]
fn policies_leave_the_output(rt: HostRuntime) -> Result<(), Fail> {
    let alloc = rt.alloc();
    for way in [Way::First, Way::Last, Way::Turning] {
        let chosen = Rc::new(alloc, RefCell::new(Vec::new(alloc)))?;
        let seen = call_telling(alloc, "tiger|run|FILE", way, &chosen)?;
        is_answered(&rt, alloc, &seen, 0, "", OUTPUT)?;
        assert_eq!(rt; Rc::strong_count(&chosen), 1);
    }
    Ok(())
}

// After the call the policy is dropped.
#[test]
fn the_chosen_are_spilled(rt: HostRuntime) -> Result<(), Fail> {
    let alloc = rt.alloc();
    for way in [Way::First, Way::Last, Way::Turning] {
        let chosen = Rc::new(alloc, RefCell::new(Vec::new(alloc)))?;
        let seen = call_telling(alloc, "tiger|alloc|FILE", way, &chosen)?;
        assert_eq!(rt; (seen.status, seen.error.len()), (0, 0));
        let spilled = spilled_in(alloc, &seen.out)?;
        assert!(rt; !spilled.is_empty());
        has_told(&rt, &chosen, &spilled)?;
    }
    Ok(())
}
