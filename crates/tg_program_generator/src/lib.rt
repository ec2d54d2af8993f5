//! The generator: writes a Tiger program of as many functions as asked for, for trials.
//!
//! Each of its functions has one inside that changes a variable of the outermost. The programs
//! serve for times too. Promises exactly the text of its definition.
#![tactic(auto)]

ghost use Rattle.std.specs.Prelude.{◌≡◌, ◌≤◌, ◌<◌, ◌++◌, IfOk, OnOk, codes, string_bytes};
ghost use Rattle.std.specs.Fmt.{decimal};
ghost use Rattle.tg_program_generator.specs.Generated.{function_line, generated, last_line};

use std::alloc::{AllocError, Global};
use tg_base::Memory;

/// The lines before the functions that are numbered.
const HEAD: &str = "let var s := 0
function d(i: int) = print(chr(i + ord(\"0\")))
function p(i: int) = if i > 9 then (p(i / 10); d(i - i / 10 * 10)) else d(i)
";

/// The text of the generated program of so many functions, which prints two numbers.
///
/// These are n(n+1) - 2 and (n-1)(n(n+1)/2 - 2) + (n-1)n(n+1)/6.
pub fn generate(alloc: Global, n: u32) -> Result<Vec<u8>, Memory>
    requires least { 1 ≤ n }
    requires most { n ≤ 1000 }
    ensures { IfOk result (λ text. text.items ≡ generated n) }
{
    let mut text = Vec::from_slice(alloc, HEAD.as_bytes())?;
    for i in 0..n {
        push_function(alloc, &mut text, i + 1)?;
    }
    text.extend_from_slice(last(alloc, n)?.as_bytes())?;
    Ok(text)
}

/// Adds the line of the function of this number.
fn push_function(alloc: Global, text: &mut Vec<u8>, i: u32) -> Result<(), Memory>
    requires { 1 ≤ i }
    ensures { OnOk result (text.new.items ≡ text.old.items ++ function_line i) }
{
    if i == 1 {
        text.extend_from_slice(b"function f1(a: int): int = a\n")?;
    } else {
        text.extend_from_slice(function(alloc, i, i - 1)?.as_bytes())?;
    }
    Ok(())
}

/// The line of a function after the first, which calls the one before it.
fn function(alloc: Global, i: u32, before: u32) -> Result<String, AllocError>
    ensures { IfOk result (λ line. string_bytes line ≡ codes "function f" ++ (decimal i
        ++ (codes "(a: int): int = let var b := a + " ++ (decimal i
        ++ (codes " function g(c: int): int = (s := s + c; b + c) in g(f" ++ (decimal before
        ++ codes "(b)) - a end\n")))))) }
{
    format!(in alloc;
        "function f{i}(a: int): int = let var b := a + {i} \
         function g(c: int): int = (s := s + c; b + c) in g(f{before}(b)) - a end\n"
    )
}

/// The last line.
fn last(alloc: Global, n: u32) -> Result<String, AllocError>
    ensures { IfOk result (λ line. string_bytes line ≡ last_line n) }
{
    format!(in alloc; "in p(f{n}(0)); print(\"\\n\"); p(s); print(\"\\n\") end\n")
}
