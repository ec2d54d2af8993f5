// Names in assembly texts are `main` for the program's body, `f33` for other functions, `f33.5`
// for a mark of one, `f33_7` for the place after the branch at place 7 that is turned round, and
// `s40` for literals.

ghost use Rattle.std.specs.Prelude.{◌≡◌, IfOk, OnOk, ◌++◌, codes, ◌<◌, ◌^◌};
ghost use Rattle.std.specs.Fmt.{decimal};
ghost use Rattle.tg_emit.specs.mirror.Names.{function_name, mark_name, behind_name, literal_name};

use itoa::Buffer;
use std::alloc::Global;
use tg_base::{Bytes, Label, Memory};

/// The name of a function.
pub fn function(alloc: Global, label: Label) -> Result<Bytes, Memory>
    ensures name { IfOk result (λ name. name ≡ function_name label.0) }
    ensures fits { label.0 < 2 ^ 32 }
{
    Ok(Bytes::from_vec(function_text(alloc, label)?))
}

/// The name of a mark of a function.
pub fn mark(alloc: Global, label: Label, mark: u32) -> Result<Bytes, Memory>
    ensures { IfOk result (λ name. name ≡ mark_name label.0 mark) }
{
    let mut name = function_text(alloc, label)?;
    name.push(b'.')?;
    push_decimal(&mut name, mark)?;
    Ok(Bytes::from_vec(name))
}

/// The name of the place after a branch that is turned round.
pub fn behind(alloc: Global, label: Label, place: usize) -> Result<Bytes, Memory>
    ensures { IfOk result (λ name. name ≡ behind_name label.0 place) }
{
    let mut name = function_text(alloc, label)?;
    name.push(b'_')?;
    let mut digits = Buffer::new();
    name.extend_from_slice(digits.format(place).as_bytes())?;
    Ok(Bytes::from_vec(name))
}

/// The name of a literal.
pub fn literal(alloc: Global, label: Label) -> Result<Bytes, Memory>
    ensures name { IfOk result (λ name. name ≡ literal_name label.0) }
    ensures fits { label.0 < 2 ^ 32 }
{
    let mut name = Vec::from_slice(alloc, b"s")?;
    push_decimal(&mut name, label.0)?;
    Ok(Bytes::from_vec(name))
}

fn function_text(alloc: Global, label: Label) -> Result<Vec<u8>, Memory>
    ensures { IfOk result (λ name. name.items ≡ function_name label.0) }
{
    if label.0 == 32 {
        return Ok(Vec::from_slice(alloc, b"main")?);
    }
    let mut name = Vec::from_slice(alloc, b"f")?;
    push_decimal(&mut name, label.0)?;
    Ok(name)
}

/// Puts a number's decimal digits at the end.
pub fn push_decimal(text: &mut Vec<u8>, number: u32) -> Result<(), Memory>
    ensures { OnOk result (text.new.items ≡ text.old.items ++ decimal number) }
{
    let mut digits = Buffer::new();
    text.extend_from_slice(digits.format(number).as_bytes())?;
    Ok(())
}
