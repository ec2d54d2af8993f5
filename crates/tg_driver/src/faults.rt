ghost use Rattle.std.specs.Prelude.{◌≡◌, ◌++◌, IfOk, codes, string_bytes};
ghost use Rattle.std.specs.Fmt.{decimal};
ghost use Rattle.tg_driver.specs.declared.answers.Answer.TheVariants.{BadLine, Faulty};
ghost use Rattle.tg_driver.specs.Statuses.{asm_text, line_of, rule_text, type_text};

use std::alloc::{AllocError, Global};
use tg_asm::AsmRule;
use tg_base::Place;
use tg_lexer::LexRule;
use tg_parser::SyntaxRule;
use tg_typecheck::TypeRule;

/// A rule that a source breaks.
#[derive(Clone, Copy, Debug, PartialEq, Eq)]
pub enum Rule {
    Lexical(LexRule),
    Syntactic(SyntaxRule),
    Typed(TypeRule),
    /// T23, in `bare` alone: the program is too large for the machine with delayed branches.
    Bare,
}

/// The first fault of a source.
#[derive(Clone, Copy)]
pub(crate) struct Fault {
    pub(crate) rule: Rule,
    pub(crate) place: Place,
}

/// The name of a rule, and what it says of a source that breaks it.
pub(crate) fn rule_text(rule: Rule) -> &'static str
    ensures { result.now ≡ rule_text rule }
{
    match rule {
        Rule::Lexical(LexRule::L1) => "L1 illegal character",
        Rule::Lexical(LexRule::L2) => "L2 comment not closed",
        Rule::Lexical(LexRule::L3) => "L3 string not closed",
        Rule::Lexical(LexRule::L4) => "L4 bad escape",
        Rule::Lexical(LexRule::L5) => "L5 integer too large",
        Rule::Lexical(LexRule::L6) => "L6 control byte in string",
        Rule::Lexical(LexRule::L7) => "L7 source too long",
        Rule::Syntactic(SyntaxRule::S1) => "S1 unexpected token",
        Rule::Syntactic(SyntaxRule::S2) => "S2 nesting too deep",
        Rule::Typed(rule) => type_text(rule),
        Rule::Bare => "T23 program too large for the bare machine",
    }
}

/// The name of a rule of types, and what it says of a program that breaks it.
fn type_text(rule: TypeRule) -> &'static str
    ensures { result.now ≡ type_text rule }
{
    match rule {
        TypeRule::T1 => "T1 unknown variable",
        TypeRule::T2 => "T2 unknown function",
        TypeRule::T3 => "T3 unknown type",
        TypeRule::T4 => "T4 function used as variable",
        TypeRule::T5 => "T5 variable called",
        TypeRule::T6 => "T6 type mismatch",
        TypeRule::T7 => "T7 not a record",
        TypeRule::T8 => "T8 no such field",
        TypeRule::T9 => "T9 not an array",
        TypeRule::T10 => "T10 wrong number of arguments",
        TypeRule::T11 => "T11 wrong fields",
        TypeRule::T12 => "T12 value needed",
        TypeRule::T13 => "T13 nil without a record type",
        TypeRule::T14 => "T14 break outside a loop",
        TypeRule::T15 => "T15 loop variable assigned",
        TypeRule::T16 => "T16 type declared twice",
        TypeRule::T17 => "T17 function declared twice",
        TypeRule::T18 => "T18 name declared twice",
        TypeRule::T19 => "T19 type cycle",
        TypeRule::T20 => "T20 functions nested too deep",
        TypeRule::T21 => "T21 function too large",
        TypeRule::T22 => "T22 program too large",
    }
}

/// The line of a fault, with its newline.
pub(crate) fn fault_line(alloc: Global, fault: Fault) -> Result<String, AllocError>
    ensures { IfOk result (λ line. string_bytes line ≡ line_of (Faulty fault)) }
{
    let place = fault.place;
    located(alloc, place.line, place.column, rule_text(fault.rule))
}

/// The line of a text with its line and column.
fn located(alloc: Global, line: u32, column: u32, text: &str) -> Result<String, AllocError>
    ensures { IfOk result (λ s. string_bytes s ≡ codes "tiger: " ++ (decimal line ++ (codes ":"
        ++ (decimal column ++ (codes ": " ++ (text.now ++ codes "\n")))))) }
{
    format!(in alloc; "tiger: {line}:{column}: {text}\n")
}

/// The name of a rule of assembly text, and what it says of a text that breaks it.
fn asm_text(rule: AsmRule) -> &'static str
    ensures { result.now ≡ asm_text rule }
{
    match rule {
        AsmRule::A1 => "A1 bad line",
        AsmRule::A2 => "A2 unknown instruction",
        AsmRule::A3 => "A3 bad operand",
        AsmRule::A4 => "A4 label twice",
        AsmRule::A5 => "A5 unknown label",
        AsmRule::A6 => "A6 out of reach",
        AsmRule::A7 => "A7 number out of range",
        AsmRule::A8 => "A8 segment too large",
        AsmRule::A9 => "A9 no main",
    }
}

/// The line of a fault of assembly text on a line of it, with its newline.
pub(crate) fn bad_line(alloc: Global, rule: AsmRule, line: u64) -> Result<String, AllocError>
    ensures { IfOk result (λ s. string_bytes s ≡ line_of (BadLine rule line)) }
{
    numbered(alloc, line, asm_text(rule))
}

/// The line of a text with its line.
fn numbered(alloc: Global, line: u64, text: &str) -> Result<String, AllocError>
    ensures { IfOk result (λ s. string_bytes s ≡ codes "tiger: line " ++ (decimal line
        ++ (codes ": " ++ (text.now ++ codes "\n")))) }
{
    format!(in alloc; "tiger: line {line}: {text}\n")
}
