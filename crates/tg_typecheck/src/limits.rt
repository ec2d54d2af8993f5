// T20 to T22 are told last, after a fault of another rule, wherever it stands (`finding_of` in
// `tg_typecheck/specs/Accepted.antt`): of a program with too many nodes and an unknown name the
// name is told. A count while parsing could tell that a program is too large, and not that it
// has no other fault, so the walk is due in any case. What bounds its stack is the depth, which
// is counted before anything is walked.

ghost use Rattle.std.specs.Prelude.{◌≡◌, ◌≤◌, [], ◌++◌, List};
ghost use Rattle.tg_syntax.specs.glue.Plain.{
  plain,
  plain_lvalue,
  plain_exps,
  plain_inits,
  plain_dec,
  plain_functions,
};
ghost use Rattle.tg_syntax.specs.Tree.{no_decs};
ghost use Rattle.tg_syntax.specs.glue.Lists.{decs_of};
ghost use Rattle.tg_syntax.specs.Measures.{size};
ghost use Rattle.tg_syntax.specs.Functions as functions;
ghost use Rattle.tg_syntax.specs.Functions.{Measures};
ghost use Rattle.tg_typecheck.specs.declared.faults.TypeRule.TheVariants.{T20, T21};
ghost use Rattle.tg_typecheck.specs.Limits.{above};
ghost use Rattle.tg_typecheck.specs.Limits as limits;
ghost use Rattle.tg_typecheck.specs.glue.Faults.{rule_and_byte};

use crate::faults::TypeRule;
use tg_syntax::{
    Dec, Decs, Exp, Exps, FunDec, FunDecs, Inits, Kind, Program, Var, nodes, program_nodes,
};

/// A rule of size or depth that isn't kept, and the byte where.
#[derive(Clone, Copy)]
pub(crate) struct Limit {
    pub(crate) rule: TypeRule,
    pub(crate) at: u32,
}

/// The first limit that a program exceeds.
pub(crate) fn first_limit(program: &Program) -> Option<Limit>
    ensures { rule_and_byte result ≡ limits.limit_fault (plain program.now.body) }
{
    let at = program.body.span.from;
    if program_nodes(program) > 32768 {
        return Some(Limit {
            rule: TypeRule::T22,
            at,
        });
    }
    if nodes(&program.body) > 4096 {
        return Some(Limit {
            rule: TypeRule::T21,
            at,
        });
    }
    first_above(&program.body, 0)
}

// The first of two that is there.
fn first_of(one: Option<Limit>, other: Option<Limit>) -> Option<Limit>
    ensures { (a b : List Measures) →
        rule_and_byte one ≡ limits.first_above a →
        rule_and_byte other ≡ limits.first_above b →
        rule_and_byte result ≡ limits.first_above (a ++ b) }
{
    match one {
        Some(limit) => Some(limit),
        None => other,
    }
}

#[cycle(limits)]
fn first_above(e: &Exp, level: u32) -> Option<Limit>
    requires { level ≤ 32 }
    ensures { rule_and_byte result
        ≡ limits.first_above (functions.declared level [] (plain e.now)) }
{
    match &e.kind {
        Kind::Nil | Kind::Break | Kind::Int(_) | Kind::Text(_) => None,
        Kind::Read(place) => place_above(place, level),
        Kind::Call(_, arguments) => list_above(arguments, level),
        Kind::Neg(a) => first_above(a, level),
        Kind::Binary(_, _, a, b) | Kind::Fill(_, a, b) | Kind::While(a, b) => {
            first_of(first_above(a, level), first_above(b, level))
        }
        Kind::Make(_, inits) => inits_above(inits, level),
        Kind::Assign(place, a) => first_of(place_above(place, level), first_above(a, level)),
        Kind::If(c, a, None) => first_of(first_above(c, level), first_above(a, level)),
        Kind::If(c, a, Some(b)) => {
            let branches = first_of(first_above(a, level), first_above(b, level));
            first_of(first_above(c, level), branches)
        }
        Kind::For(_, low, high, a) => {
            let rest = first_of(first_above(high, level), first_above(a, level));
            first_of(first_above(low, level), rest)
        }
        Kind::Let(decs, body) => first_of(decs_above(decs, level), list_above(body, level)),
        Kind::Seq(items) => list_above(items, level),
    }
}

#[cycle(limits)]
fn place_above(place: &Var, level: u32) -> Option<Limit>
    requires { level ≤ 32 }
    ensures { rule_and_byte result
        ≡ limits.first_above (functions.declared_place level [] (plain_lvalue place.now)) }
{
    match place {
        Var::Simple(_) => None,
        Var::Field(of, _) => place_above(of, level),
        Var::Index(of, index) => first_of(place_above(of, level), first_above(index, level)),
    }
}

#[cycle(limits)]
fn list_above(exps: &Exps, level: u32) -> Option<Limit>
    requires { level ≤ 32 }
    ensures { rule_and_byte result
        ≡ limits.first_above (functions.declared_exps level [] (plain_exps exps.now)) }
{
    for e in &exps.items {
        let limit = first_above(e, level);
        if limit.is_some() {
            return limit;
        }
    }
    None
}

#[cycle(limits)]
fn inits_above(inits: &Inits, level: u32) -> Option<Limit>
    requires { level ≤ 32 }
    ensures { rule_and_byte result
        ≡ limits.first_above (functions.declared_inits level [] (plain_inits inits.now)) }
{
    for init in &inits.items {
        let limit = first_above(&init.value, level);
        if limit.is_some() {
            return limit;
        }
    }
    None
}

#[cycle(limits)]
fn decs_above(decs: &Decs, level: u32) -> Option<Limit>
    requires { level ≤ 32 }
    ensures { rule_and_byte result
        ≡ limits.first_above (functions.declared_decs level [] (decs_of decs.now.items.items)) }
{
    for dec in &decs.items {
        let limit = dec_above(dec, level);
        if limit.is_some() {
            return limit;
        }
    }
    None
}

#[cycle(limits)]
fn dec_above(dec: &Dec, level: u32) -> Option<Limit>
    requires { level ≤ 32 }
    ensures { rule_and_byte result
        ≡ limits.first_above (functions.declared_decs level [] (plain_dec dec.now no_decs)) }
{
    match dec {
        Dec::Types(_) => None,
        Dec::Variable(_, _, value) => first_above(value, level),
        Dec::Functions(group) => functions_above(group, level),
    }
}

#[cycle(limits)]
fn functions_above(group: &FunDecs, level: u32) -> Option<Limit>
    requires { level ≤ 32 }
    ensures { rule_and_byte result
        ≡ limits.first_above (functions.declared_functions level [] (plain_functions group.now)) }
{
    for function in &group.items {
        let limit = function_above(function, level + 1);
        if limit.is_some() {
            return limit;
        }
    }
    None
}

// A function's own limits, and those of the functions in its body.
#[cycle(limits)]
fn function_above(function: &FunDec, level: u32) -> Option<Limit>
    requires { level ≤ 33 }
    ensures { rule_and_byte result ≡ above T20 function.now.name.span.from level 32
        (above T21 function.now.name.span.from (size (plain function.now.body)) 4096
        (limits.first_above (functions.declared level [] (plain function.now.body)))) }
{
    let at = function.name.span.from;
    if level > 32 {
        return Some(Limit {
            rule: TypeRule::T20,
            at,
        });
    }
    if nodes(&function.body) > 4096 {
        return Some(Limit {
            rule: TypeRule::T21,
            at,
        });
    }
    first_above(&function.body, level)
}
