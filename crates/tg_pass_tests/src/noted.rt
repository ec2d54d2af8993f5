use crate::reading::read;
use std::alloc::Global;
use std::process::Abort;
use std::test::Fail;
use tg_typecheck::{Means, Notes, Standard, check};

// A text, and what is noted at its bytes.
static NOTED: [(&str, &[(u32, Means)]); 9] = [
    (
        "let var x:=1 var x:=\"\" in exit(size(x)) end",
        &[
            (26, Means::Standard(Standard::Exit)),
            (31, Means::Standard(Standard::Size)),
            (36, Means::Variable(17)),
        ],
    ),
    (
        "let function f()=() in let function f()=f() in f() end end",
        &[(40, Means::Function(36)), (47, Means::Function(36))],
    ),
    (
        "let type r={a:int,b:string} var v:=r{a=1,b=\"\"} in print(v.b) end",
        &[
            (50, Means::Standard(Standard::Print)),
            (56, Means::Variable(32)),
            (58, Means::Field(1)),
        ],
    ),
    ("\"a\"<>\"b\"", &[(3, Means::Content)]),
    ("1<2", &[(1, Means::Number)]),
    (
        "let type r={} var v:r:=nil in v=nil end",
        &[(30, Means::Variable(18)), (31, Means::Number)],
    ),
    (
        "let function f(n:int):int=n in f(1) end",
        &[(26, Means::Variable(15)), (31, Means::Function(13))],
    ),
    (
        "for i:=0 to 1 do exit(i)",
        &[
            (17, Means::Standard(Standard::Exit)),
            (22, Means::Variable(4)),
        ],
    ),
    ("1+2*3-4/5&6|7", &[]),
];

// What these notes say of a byte.
fn wanted(notes: &[(u32, Means)], at: u32) -> Option<Means> {
    for (byte, means) in notes {
        if *byte == at {
            return Some(*means);
        }
    }
    None
}

// The notes of a text, which are asked at each byte of it.
fn ask_notes(
    rt: &impl Abort,
    alloc: Global,
    text: &str,
    notes: &[(u32, Means)],
) -> Result<(), Fail> {
    let source = read(alloc, text)?;
    let checked = check(alloc, &source.program, &source.names)?;
    assert_eq!(rt; checked.notes.as_slice().len(), notes.len(), "{text}");
    for at in 0..100u32 {
        assert_eq!(rt; checked.notes.find(at), wanted(notes, at), "{text} at {at}");
    }
    Ok(())
}

#[test]
fn what_programs_mean(rt: HostRuntime) -> Result<(), Fail> {
    for (text, notes) in NOTED {
        ask_notes(&rt, rt.alloc(), text, notes)?;
    }
    Ok(())
}

#[test]
fn notes_are_a_vectors_items(rt: HostRuntime) -> Result<(), Fail> {
    let source = read(rt.alloc(), "1<2")?;
    let checked = check(rt.alloc(), &source.program, &source.names)?;
    let notes = Notes::from_vec(checked.notes.into_vec());
    assert_eq!(rt; notes.find(1), Some(Means::Number));
    assert_eq!(rt; notes.find(0), None);
    Ok(())
}
