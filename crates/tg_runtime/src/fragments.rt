ghost use Rattle.std.specs.Prelude.{◌≡◌, ◌≤◌, IfOk, length, map};
ghost use Rattle.tg_frame.specs.Homes.{temps_of};
ghost use Rattle.tg_tree.specs.glue.Plain.{plain_ts, plain_fragment, plain_fragments};
ghost use Rattle.tg_runtime.specs.mirror.Routines as routines;

use crate::creation::{make_array, make_record};
use crate::routines::Routine;
use crate::standards::{chr, exit, flush, getchar, negation, ord, print, size};
use crate::strings::{compare_strings, concat, substring};
use std::alloc::Global;
use tg_base::Memory;
use tg_frame::new_frame;
use tg_tree::{Fragment, Fragments, Ts};

/// The functions of the runtime, in the order of their labels, and no literal.
pub fn runtime(alloc: Global) -> Result<Fragments, Memory>
    ensures { IfOk result (λ f. plain_fragments f ≡ routines.runtime) }
{
    let mut functions = creations(alloc)?;
    functions.append(&mut inputs_and_outputs(alloc)?)?;
    functions.append(&mut bytes_and_sizes(alloc)?)?;
    functions.append(&mut parts_and_sums(alloc)?)?;
    functions.append(&mut of_ints(alloc)?)?;
    Ok(Fragments {
        functions,
        literals: Vec::new(alloc),
    })
}

fn creations(alloc: Global) -> Result<Vec<Fragment>, Memory>
    ensures { IfOk result (λ fs. map plain_fragment fs.items ≡ routines.creations) }
{
    let mut functions = Vec::new(alloc);
    let body = make_record(alloc)?;
    functions.push(function(alloc, Routine::MakeRecord, &[false], 1, body)?)?;
    let body = make_array(alloc)?;
    functions.push(function(alloc, Routine::MakeArray, &[false, false], 5, body)?)?;
    let body = compare_strings(alloc)?;
    functions.push(function(alloc, Routine::Compare, &[false, false], 7, body)?)?;
    Ok(functions)
}

fn inputs_and_outputs(alloc: Global) -> Result<Vec<Fragment>, Memory>
    ensures { IfOk result (λ fs. map plain_fragment fs.items ≡ routines.inputs_and_outputs) }
{
    let mut functions = Vec::new(alloc);
    let body = print(alloc)?;
    functions.push(function(alloc, Routine::Print, &[false], 3, body)?)?;
    functions.push(function(alloc, Routine::Flush, &[], 0, flush())?)?;
    let body = getchar(alloc)?;
    functions.push(function(alloc, Routine::Getchar, &[], 2, body)?)?;
    Ok(functions)
}

fn bytes_and_sizes(alloc: Global) -> Result<Vec<Fragment>, Memory>
    ensures { IfOk result (λ fs. map plain_fragment fs.items ≡ routines.bytes_and_sizes) }
{
    let mut functions = Vec::new(alloc);
    let body = ord(alloc)?;
    functions.push(function(alloc, Routine::Ord, &[false], 1, body)?)?;
    let body = chr(alloc)?;
    functions.push(function(alloc, Routine::Chr, &[false], 2, body)?)?;
    let body = size(alloc)?;
    functions.push(function(alloc, Routine::Size, &[false], 1, body)?)?;
    Ok(functions)
}

fn parts_and_sums(alloc: Global) -> Result<Vec<Fragment>, Memory>
    ensures { IfOk result (λ fs. map plain_fragment fs.items ≡ routines.parts_and_sums) }
{
    let mut functions = Vec::new(alloc);
    let body = substring(alloc)?;
    functions.push(function(alloc, Routine::Substring, &[false, false, false], 7, body)?)?;
    let body = concat(alloc)?;
    functions.push(function(alloc, Routine::Concat, &[false, false], 6, body)?)?;
    Ok(functions)
}

fn of_ints(alloc: Global) -> Result<Vec<Fragment>, Memory>
    ensures { IfOk result (λ fs. map plain_fragment fs.items ≡ routines.of_ints) }
{
    let mut functions = Vec::new(alloc);
    let body = negation(alloc)?;
    functions.push(function(alloc, Routine::Not, &[false], 1, body)?)?;
    let body = exit(alloc)?;
    functions.push(function(alloc, Routine::Exit, &[false], 1, body)?)?;
    Ok(functions)
}

// A function with its parameters and so many temporaries.
fn function(
    alloc: Global,
    one: Routine,
    params: &[bool],
    temps: u32,
    body: Ts,
) -> Result<Fragment, Memory>
    requires few { length params.now ≤ 4194304 }
    requires temps { temps_of params.now ≤ temps }
    ensures { IfOk result (λ f. plain_fragment f ≡
        routines.function_of one params.now temps (plain_ts body)) }
{
    let mut frame = new_frame(alloc, one.label(), params)?;
    frame.temps = temps;
    Ok(Fragment { frame, body })
}
