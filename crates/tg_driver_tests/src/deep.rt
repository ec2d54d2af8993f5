use crate::calls::{answers, repeated};
use std::alloc::{AllocError, Global};
use std::test::Fail;

/// A program that exits by an int in so many brackets, with one operation so many times in each.
fn in_brackets(
    alloc: Global,
    brackets: usize,
    operation: &[u8],
    times: usize,
) -> Result<Vec<u8>, AllocError> {
    let mut text = repeated(alloc, b"exit(", b"(", brackets, b"1")?;
    for _ in 0..brackets {
        text = repeated(alloc, &text, operation, times, b")")?;
    }
    text.push(b')')?;
    Ok(text)
}

// Brackets, the operation in each, how often it stands there, and the status of the run. The first
// tree has 635 levels, while no place of the text is nested deeper than 214; the others have 2,000.
static BUILT: [(usize, &str, usize, u8); 4] = [
    (3, "*1", 210, 1),
    (20, "*1", 100, 1),
    (20, "+1", 100, 209),
    (20, "&1", 100, 1),
];

#[test]
fn deep_trees_are_built_and_run(rt: HostRuntime) -> Result<(), Fail> {
    let alloc = rt.alloc();
    for (brackets, operation, times, status) in BUILT {
        let text = in_brackets(alloc, brackets, operation.as_bytes(), times)?;
        answers(&rt, alloc, "tiger|run|FILE", &text, status, "")?;
    }
    Ok(())
}

// A tree of 7,922 levels is walked, and told to have too many nodes; one of 8,002 is too deep.
#[test]
fn deeper_trees_are_out_of_memory(rt: HostRuntime) -> Result<(), Fail> {
    let alloc = rt.alloc();
    let text = in_brackets(alloc, 80, b"*1", 98)?;
    answers(
        &rt,
        alloc,
        "tiger|check|FILE",
        &text,
        65,
        "1:1: T21 function too large",
    )?;
    let text = in_brackets(alloc, 80, b"*1", 99)?;
    for mode in ["check", "format", "build", "alloc", "run"] {
        let line = format!(in alloc; "tiger|{mode}|FILE")?;
        answers(&rt, alloc, &line, &text, 70, "out of memory")?;
    }
    Ok(())
}
