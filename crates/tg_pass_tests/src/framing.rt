ghost use Rattle.std.specs.Prelude.{All, map};
ghost use Rattle.tg_tree.specs.glue.Plain.{plain_fragment};
ghost use Rattle.tg_compile.specs.glue.Passes.{IsWellFormed};

use crate::reading::read;
use std::alloc::Global;
use std::test::Fail;
use tg_base::Memory;
use tg_compile::{choose, fragments, instructions_name_their_own};
use tg_regalloc::{Allocation, in_frame};
use tg_tree::Fragment;
use tg_typecheck::{Checked, check};

/// The code of a function with every temporary in the frame.
fn place(alloc: Global, one: Fragment) -> Result<Allocation, Memory>
    requires { IsWellFormed (plain_fragment one) }
{
    let Fragment { frame, body } = one;
    let mut frame = frame;
    let code = choose(alloc, &mut frame, body)?;
    instructions_name_their_own();
    in_frame(alloc, &code, frame)
}

/// The same of each of some functions.
fn place_all(alloc: Global, functions: Vec<Fragment>) -> Result<Vec<Allocation>, Memory>
    requires { All IsWellFormed (map plain_fragment functions.items) }
{
    let mut all = Vec::new(alloc);
    for one in functions {
        all.push(place(alloc, one)?)?;
    }
    Ok(all)
}

/// A text's program and the functions of the runtime, with every temporary in the frame.
fn placed(alloc: Global, text: &str) -> Result<Vec<Allocation>, Fail> {
    let source = read(alloc, text)?;
    let checked = check(alloc, &source.program, &source.names)?;
    Ok(place_program(alloc, &checked)?)
}

/// The same of a program whose types are checked.
fn place_program(alloc: Global, checked: &Checked) -> Result<Vec<Allocation>, Memory> {
    place_all(alloc, fragments(alloc, checked)?.functions)
}

// The program's body and the thirteen functions of the runtime: none keeps a temporary in a
// register, and each has a slot for each of its temporaries.
#[test]
fn whole_programs_go_to_the_frame(rt: HostRuntime) -> Result<(), Fail> {
    let all = placed(rt.alloc(), "print(\"hello\\n\")")?;
    assert_eq!(rt; all.len(), 14);
    for one in all.iter() {
        assert!(rt; one.all_in_frame);
        assert!(rt; one.done.code.list.as_slice().len() > one.slots as usize);
    }
    Ok(())
}
