ghost use Rattle.std.specs.Prelude.{◌≡◌, ◌<◌, ◌≤◌, IfOk, length, ◌∷◌, []};
ghost use Rattle.tg_syntax.specs.glue.Plain.{plain_form, plain_type};
ghost use Rattle.tg_syntax.specs.Groups.{one_type};
ghost use Rattle.tg_parser.specs.glue.Given.{AnswersJob};
ghost use Rattle.tg_syntax_laws.specs.mirror.Reading.{
  one_param,
  more_params,
  listed_params,
  one_form,
  annotation,
  type_dec,
};
ghost use Rattle.tg_syntax_laws.specs.mirror.Steps.{
  OneParam,
  MoreParams,
  ListedParams,
  OneForm,
  Annotation,
  TypeDec as TypeDecJob,
};

use crate::faults::Stop;
use crate::taking::{Reading, is, next, take, take_name};
use std::alloc::Global;
use tg_base::ListOf;
use tg_syntax::{Form, Ident, Param, Params, Sign, Spanned, TypeDec, Word};
use tg_syntax_laws::Mark;

fn one_param(tokens: &[Spanned]) -> Reading<Param>
    ensures given { AnswersJob OneParam (λ x. x.0) (λ x. x.1.now) result one_param tokens.now }
    ensures shorter { IfOk result (λ x. length x.1.now < length tokens.now) }
{
    let (name, rest) = take_name(tokens)?;
    let (_, rest) = take(Mark::OfSign(Sign::Colon), rest)?;
    let (kind, rest) = take_name(rest)?;
    Ok((Param { name, kind }, rest))
}

fn more_params(first: Param, alloc: Global, tokens: &[Spanned]) -> Reading<Vec<Param>>
    ensures given { AnswersJob (MoreParams (first ∷ [])) (λ x. x.0.items) (λ x. x.1.now) result
        (more_params (first ∷ [])) tokens.now }
    ensures shorter { IfOk result (λ x. length x.1.now ≤ length tokens.now) }
{
    let mut params = Vec::new(alloc);
    params.push(first)?;
    let mut rest = tokens;
    'params: loop {
        let (token, after) = next(rest)?;
        if !is(Mark::OfSign(Sign::Comma), token) {
            return Ok((params, rest));
        }
        let (param, behind) = one_param(after)?;
        params.push(param)?;
        rest = behind;
    }
}

/// Parameters, or a record's fields, up to a mark that ends them.
pub fn listed_params(alloc: Global, close: Mark, tokens: &[Spanned]) -> Reading<Params>
    ensures given { AnswersJob (ListedParams close) (λ x. x.0) (λ x. x.1.now) result
        (listed_params close) tokens.now }
    ensures shorter { IfOk result (λ x. length x.1.now < length tokens.now) }
{
    let (token, after) = next(tokens)?;
    if is(close, token) {
        return Ok((ListOf::from_vec(Vec::new(alloc)), after));
    }
    let (first, rest) = one_param(tokens)?;
    let (params, rest) = more_params(first, alloc, rest)?;
    let (_, rest) = take(close, rest)?;
    Ok((ListOf::from_vec(params), rest))
}

fn one_form(alloc: Global, tokens: &[Spanned]) -> Reading<Form>
    ensures given { AnswersJob OneForm (λ x. plain_form x.0)
        (λ x. x.1.now) result one_form tokens.now }
    ensures shorter { IfOk result (λ x. length x.1.now < length tokens.now) }
{
    let (token, after) = next(tokens)?;
    if is(Mark::OfSign(Sign::LeftBrace), token) {
        let (fields, rest) = listed_params(alloc, Mark::OfSign(Sign::RightBrace), after)?;
        return Ok((Form::Fields(fields), rest));
    }
    if is(Mark::OfWord(Word::WArray), token) {
        let (_, rest) = take(Mark::OfWord(Word::WOf), after)?;
        let (name, rest) = take_name(rest)?;
        return Ok((Form::Array(name), rest));
    }
    let (name, rest) = take_name(tokens)?;
    Ok((Form::Alias(name), rest))
}

/// The type that may stand after a name.
pub fn annotation(tokens: &[Spanned]) -> Reading<Option<Ident>>
    ensures given { AnswersJob Annotation (λ x. x.0) (λ x. x.1.now) result annotation tokens.now }
    ensures shorter { IfOk result (λ x. length x.1.now ≤ length tokens.now) }
{
    let (token, after) = next(tokens)?;
    if !is(Mark::OfSign(Sign::Colon), token) {
        return Ok((None, tokens));
    }
    let (kind, rest) = take_name(after)?;
    Ok((Some(kind), rest))
}

/// What follows `type`.
pub fn type_dec(alloc: Global, tokens: &[Spanned]) -> Reading<TypeDec>
    ensures given { AnswersJob TypeDecJob (λ x. one_type (plain_type x.0)) (λ x. x.1.now) result
        type_dec tokens.now }
    ensures shorter { IfOk result (λ x. length x.1.now < length tokens.now) }
{
    let (name, rest) = take_name(tokens)?;
    let (_, rest) = take(Mark::OfSign(Sign::Equal), rest)?;
    let (form, rest) = one_form(alloc, rest)?;
    Ok((TypeDec { name, form }, rest))
}
