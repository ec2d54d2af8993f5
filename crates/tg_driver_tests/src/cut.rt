use crate::calls::{Outside, call};
use crate::languages::built;
use crate::programs::queens;
use std::alloc::Global;
use std::process::Abort;
use std::str;
use std::test::Fail;
use tg_base::place;

static HELLO: &[u8] = b"print(\"hello\\n\")";

/// `exec` finds a fault in a text, or runs it to its end.
fn is_refused_or_runs(rt: &impl Abort, alloc: Global, text: &[u8]) -> Result<(), Fail> {
    let seen = call(alloc, "tiger|exec|FILE|--steps|1000", Outside::of(text))?;
    assert!(rt; !matches!(seen.status, 64 | 66 | 70 | 74));
    assert_eq!(rt; seen.faults(), (0, 0, 0, 0));
    Ok(())
}

#[test]
fn assembly_that_is_cut_off(rt: HostRuntime) -> Result<(), Fail> {
    let alloc = rt.alloc();
    let hello = built(alloc, HELLO, 1_000_000)?;
    for length in 0..hello.out.len() {
        is_refused_or_runs(&rt, alloc, &hello.out[..length])?;
    }
    Ok(())
}

/// A text with each of its first bytes, up to so many, replaced by another.
fn spoiled_by(rt: &impl Abort, alloc: Global, text: &[u8], byte: u8) -> Result<(), Fail> {
    for at in 0..text.len().min(400) {
        let mut spoiled = text.to_vec(alloc)?;
        spoiled[at] = byte;
        is_refused_or_runs(rt, alloc, &spoiled)?;
    }
    Ok(())
}

#[test]
fn assembly_that_is_spoiled(rt: HostRuntime) -> Result<(), Fail> {
    let alloc = rt.alloc();
    let hello = built(alloc, HELLO, 1_000_000)?;
    for byte in *b"\0\xff\n\"" {
        spoiled_by(&rt, alloc, &hello.out, byte)?;
    }
    Ok(())
}

/// The line and the column that the error sink tells.
fn place_told(error: &[u8]) -> Result<(u32, u32), Fail> {
    let told = str::from_utf8(error)?;
    let fault = told.strip_prefix("tiger: ").ok_or("no fault")?;
    let (line, rest) = fault.split_once(':').ok_or("no line")?;
    let (column, _) = rest.split_once(':').ok_or("no column")?;
    Ok((
        line.parse::<u32>().ok().ok_or("no number")?,
        column.parse::<u32>().ok().ok_or("no number")?,
    ))
}

/// `check` finds a fault in a source, whose place is at most one byte after the source's last.
fn is_refused_by_its_end(rt: &impl Abort, alloc: Global, text: &[u8]) -> Result<(), Fail> {
    assert!(rt; text.len() <= 1000);
    let seen = call(alloc, "tiger|check|FILE", Outside::of(text))?;
    assert_eq!(rt; (seen.status, seen.faults()), (65, (0, 0, 0, 0)));
    let (line, column) = place_told(&seen.error)?;
    let end = place(text, text.len() as u32);
    assert!(rt; line < end.line || line == end.line && column <= end.column);
    Ok(())
}

// The file of the queens is a program before its last newline, too.
#[test]
fn sources_that_are_cut_off(rt: HostRuntime) -> Result<(), Fail> {
    let alloc = rt.alloc();
    let mut text = queens(alloc)?;
    text.pop();
    for length in 0..text.len() {
        is_refused_by_its_end(&rt, alloc, &text[..length])?;
    }
    Ok(())
}
