ghost use Rattle.std.specs.Prelude.{◌≡◌, sum_by};
ghost use Rattle.tg_syntax.specs.Measures.{
  saturated,
  size,
  place_size,
  exps_size,
  inits_size,
  decs_size,
  functions_size,
  type_size,
};
ghost use Rattle.tg_syntax.specs.Tree.{no_decs};
ghost use Rattle.tg_syntax.specs.glue.Plain.{
  plain,
  plain_lvalue,
  plain_exps,
  plain_inits,
  plain_dec,
  plain_functions,
  plain_type,
};

use crate::trees::{Dec, Exp, Exps, Form, FunDecs, Inits, Kind, TypeDec, TypeDecs, Var};

/// The nodes of a body, or the greatest `u32` where there are as many or more. Of a function that
/// is declared in the body its declaration and its parameters count, and its own body doesn't.
#[cycle(nodes)]
pub fn nodes(body: &Exp) -> u32
    ensures { result ≡ saturated (size (plain body.now)) }
{
    match &body.kind {
        Kind::Nil | Kind::Break | Kind::Int(_) | Kind::Text(_) => 1,
        Kind::Read(place) => place_nodes(place).saturating_add(1),
        Kind::Call(_, arguments) => list_nodes(arguments).saturating_add(1),
        Kind::Neg(a) => nodes(a).saturating_add(1),
        Kind::Binary(_, _, a, b) => nodes(a).saturating_add(nodes(b)).saturating_add(1),
        Kind::Make(_, inits) => init_nodes(inits).saturating_add(1),
        Kind::Fill(_, a, b) => nodes(a).saturating_add(nodes(b)).saturating_add(1),
        Kind::Assign(place, a) => place_nodes(place)
            .saturating_add(nodes(a))
            .saturating_add(1),
        Kind::If(c, a, None) => nodes(c).saturating_add(nodes(a)).saturating_add(1),
        Kind::If(c, a, Some(b)) => nodes(c)
            .saturating_add(nodes(a))
            .saturating_add(nodes(b))
            .saturating_add(1),
        Kind::While(c, a) => nodes(c).saturating_add(nodes(a)).saturating_add(1),
        Kind::For(_, low, high, a) => nodes(low)
            .saturating_add(nodes(high))
            .saturating_add(nodes(a))
            .saturating_add(1),
        Kind::Let(decs, body) => {
            let mut sum = list_nodes(body).saturating_add(1);
            for dec in &decs.items {
                sum = sum.saturating_add(dec_nodes(dec));
            }
            sum
        }
        Kind::Seq(items) => list_nodes(items).saturating_add(1),
    }
}

// The nodes of an l-value.
#[cycle(nodes)]
fn place_nodes(place: &Var) -> u32
    ensures { result ≡ saturated (place_size (plain_lvalue place.now)) }
{
    match place {
        Var::Simple(_) => 1,
        Var::Field(of, _) => place_nodes(of).saturating_add(1),
        Var::Index(of, index) => place_nodes(of)
            .saturating_add(nodes(index))
            .saturating_add(1),
    }
}

// The nodes of a list of expressions.
#[cycle(nodes)]
fn list_nodes(exps: &Exps) -> u32
    ensures { result ≡ saturated (exps_size (plain_exps exps.now)) }
{
    let mut sum = 0u32;
    for e in &exps.items {
        sum = sum.saturating_add(nodes(e));
    }
    sum
}

// The nodes of a record's field initialisers.
#[cycle(nodes)]
fn init_nodes(inits: &Inits) -> u32
    ensures { result ≡ saturated (inits_size (plain_inits inits.now)) }
{
    let mut sum = 0u32;
    for init in &inits.items {
        sum = sum.saturating_add(nodes(&init.value)).saturating_add(1);
    }
    sum
}

// The nodes of a group of types, of a variable or of a group of functions.
#[cycle(nodes)]
fn dec_nodes(dec: &Dec) -> u32
    ensures { result ≡ saturated (decs_size (plain_dec dec.now no_decs)) }
{
    match dec {
        Dec::Types(types) => types_nodes(types),
        Dec::Variable(_, _, value) => nodes(value).saturating_add(1),
        Dec::Functions(functions) => functions_nodes(functions),
    }
}

fn types_nodes(types: &TypeDecs) -> u32
    ensures { result ≡ saturated (sum_by (λ d. type_size (plain_type d)) types.now) }
{
    let mut sum = 0u32;
    for dec in types.as_slice() {
        sum = sum.saturating_add(type_nodes(dec));
    }
    sum
}

fn type_nodes(dec: &TypeDec) -> u32
    ensures { result ≡ saturated (type_size (plain_type dec.now)) }
{
    match &dec.form {
        Form::Alias(_) | Form::Array(_) => 2,
        Form::Fields(fields) => count(fields.as_slice().len()).saturating_add(2),
    }
}

fn functions_nodes(functions: &FunDecs) -> u32
    ensures { result ≡ saturated (functions_size (plain_functions functions.now)) }
{
    let mut sum = 0u32;
    for function in &functions.items {
        let params = count(function.params.as_slice().len());
        sum = sum.saturating_add(params).saturating_add(1);
    }
    sum
}

// A length, or the greatest number.
fn count(length: usize) -> u32
    ensures { result ≡ saturated length }
{
    if length < 4294967295 {
        length as u32
    } else {
        4294967295
    }
}
