ghost use Rattle.std.specs.Prelude.{◌≡◌, ◌<◌, ◌≤◌, true, IfOk, IfSome, length};
ghost use Rattle.tg_syntax.specs.declared.tokens.Word.TheVariants.{WFor};
ghost use Rattle.tg_syntax.specs.declared.tokens.Sign.TheVariants.{LeftParen, RightParen};
ghost use Rattle.tg_syntax.specs.glue.Plain.{plain};
ghost use Rattle.tg_syntax_laws.specs.declared.marks.Mark.TheVariants.{OfSign, OfWord};
ghost use Rattle.tg_syntax_laws.specs.mirror.Steps.{want, name, call, ListedParams, Annotation};
ghost use Rattle.tg_syntax_laws.specs.mirror.Reading.{
  unary as unary_steps,
  atom as atom_of_token,
  assigning,
};
ghost use Rattle.tg_parser.specs.glue.Ranks.{level_of};
ghost use Rattle.tg_parser.specs.glue.Opens.{BeginsJob, BeginsTwo, Skips, Operates, Elses, Passes};
ghost use Rattle.tg_parser.specs.glue.Heads.{unary_of, plain_of, assigning_to, Declares};

use crate::ends::{ends_tail, is_short};
use crate::faults::Stop;
use crate::forms::{annotation, listed_params};
use crate::ranks::{Rank, is_operator_within, operator};
use crate::taking::{Reading, is, next, take, take_name};
use std::alloc::Global;
use tg_base::{Memory, Span};
use tg_syntax::{
    Exp, Ident, Kind, Op, Params, Sign, Spanned, Token, Var, Word, break_out, int, nil, text,
};
use tg_syntax_laws::Mark;

/// How an expression begins that binds more tightly than the operators.
#[derive(Clone, Copy)]
pub(crate) enum Start {
    Minus,
    Parenthesis,
    If,
    While,
    For,
    Let,
    Name,
    Nothing,
}

/// How an expression begins with a token.
pub(crate) fn begins(token: &Token) -> Start
    ensures { unary_steps token.now ≡ unary_of result }
{
    match token {
        Token::Sign(Sign::Minus) => Start::Minus,
        Token::Sign(Sign::LeftParen) => Start::Parenthesis,
        Token::Word(Word::WIf) => Start::If,
        Token::Word(Word::WWhile) => Start::While,
        Token::Word(Word::WFor) => Start::For,
        Token::Word(Word::WLet) => Start::Let,
        Token::Ident(_) => Start::Name,
        _ => Start::Nothing,
    }
}

/// The expression that a token is by itself.
#[inline(always)]
pub(crate) fn atom(alloc: Global, one: &Spanned) -> Result<Option<Exp>, Memory>
    ensures { IfOk result (λ o. atom_of_token one.now ≡ plain_of o) }
{
    match &one.token {
        Token::Int(value) => Ok(Some(int(one.span, *value))),
        Token::Text(bytes) => {
            let bytes = bytes.clone()?;
            Ok(Some(text(one.span, bytes)))
        }
        Token::Word(Word::WNil) => Ok(Some(nil(one.span))),
        Token::Word(Word::WBreak) => Ok(Some(break_out(one.span))),
        _ => Ok(None),
    }
}

/// What may stand before `:=`: an l-value, or none.
#[derive(Drop)]
pub(crate) enum Target {
    LValue(Span, Var),
    Other(Exp),
}

/// The l-value that an expression is.
pub(crate) fn target_of(e: Exp) -> Target
    ensures { assigning (plain e) ≡ assigning_to result }
{
    let span = e.span;
    match e.kind {
        Kind::Read(place) => Target::LValue(span, place),
        kind => Target::Other(Exp { span, kind }),
    }
}

/// The span of a mark, where it stands at the front, and the tokens after it.
pub(crate) fn skip(mark: Mark, tokens: &[Spanned]) -> Result<Option<(Span, &[Spanned])>, Stop>
    ensures given { Skips (λ x. x.0) (λ x. x.1.now) result mark tokens.now }
    ensures shorter { IfOk result (λ o. IfSome o (λ x. length x.1.now < length tokens.now)) }
{
    let (token, after) = next(tokens)?;
    if is(mark, token) {
        Ok(Some((token.span, after)))
    } else {
        Ok(None)
    }
}

/// An operator of a rank and its first byte.
#[derive(Clone, Copy)]
pub(crate) struct Operator {
    pub(crate) op: Op,
    pub(crate) at: u32,
}

/// The operator of a rank that stands after a left operand, and the tokens after it.
pub(crate) fn operator_behind<'a>(
    left: &Exp,
    rank: Rank,
    tokens: &'a [Spanned],
) -> Result<Option<(Operator, &'a [Spanned])>, Stop>
    ensures given { Operates (λ x. x.0.op) (λ x. x.0.at) (λ x. x.1.now) result
        (level_of rank) (plain left.now) tokens.now }
    ensures shorter { IfOk result (λ o. IfSome o (λ x. length x.1.now < length tokens.now)) }
{
    if ends_tail(left) {
        return Ok(None);
    }
    let (token, after) = next(tokens)?;
    match operator(rank, &token.token) {
        Some(op) => {
            let at = token.span.from;
            Ok(Some((Operator { op, at }, after)))
        }
        None => Ok(None),
    }
}

/// Whether what stands after an expression that binds more tightly than the operators is no
/// operator of a rank, nor of one that binds more tightly, so that the expression is whole at that
/// rank.
pub(crate) fn is_over(left: &Exp, rank: Rank, tokens: &[Spanned]) -> bool
    ensures { result ≡ true → Passes (level_of rank) (plain left.now) tokens.now }
{
    if ends_tail(left) {
        return true;
    }
    match next(tokens) {
        Err(_) => false,
        Ok((token, _)) => !is_operator_within(rank, &token.token),
    }
}

/// Whether `else` follows and belongs to the `if` of this expression.
pub(crate) fn wants_else(this: &Exp, tokens: &[Spanned]) -> Result<bool, Stop>
    ensures { Elses result (plain this.now) tokens.now }
{
    if is_short(this) {
        return Ok(false);
    }
    let (token, _) = next(tokens)?;
    Ok(is(Mark::OfWord(Word::WElse), token))
}

/// What a variable's declaration has before its value.
#[derive(Clone, Copy)]
pub(crate) struct VariableHead {
    pub(crate) name: Ident,
    pub(crate) kind: Option<Ident>,
}

/// What follows `var`, up to the value.
pub(crate) fn variable_head(tokens: &[Spanned]) -> Reading<VariableHead>
    ensures given { BeginsTwo (λ x. x.0.name) (λ x. x.0.kind) (λ x. x.1.now) result
        (λ j f. name (λ x. call Annotation (λ k. f x k))) tokens.now }
    ensures shorter { IfOk result (λ x. length x.1.now < length tokens.now) }
{
    let (name, rest) = take_name(tokens)?;
    let (kind, rest) = annotation(rest)?;
    Ok((VariableHead { name, kind }, rest))
}

/// What a function's declaration has before its body.
#[derive(Drop)]
pub(crate) struct FunctionHead {
    pub(crate) name: Ident,
    pub(crate) params: Params,
    pub(crate) result: Option<Ident>,
}

/// What follows `function`, up to the body.
pub(crate) fn function_head(alloc: Global, tokens: &[Spanned]) -> Reading<FunctionHead>
    ensures given { BeginsJob (λ x. x.0) (λ x. x.1.now) result
        (λ j f. name (λ x. want (OfSign LeftParen) (λ _.
        call (ListedParams (OfSign RightParen)) (λ ps. call Annotation (λ k.
        f (record { name = x; params = ps; result = k })))))) tokens.now }
    ensures shorter { IfOk result (λ x. length x.1.now < length tokens.now) }
{
    let (name, rest) = take_name(tokens)?;
    let (_, rest) = take(Mark::OfSign(Sign::LeftParen), rest)?;
    let (params, rest) = listed_params(alloc, Mark::OfSign(Sign::RightParen), rest)?;
    let (result, rest) = annotation(rest)?;
    Ok((
        FunctionHead {
            name,
            params,
            result,
        },
        rest,
    ))
}

/// The variable of a `for` loop, and the span of `for`.
pub(crate) fn counter(tokens: &[Spanned]) -> Result<(Span, Ident, &[Spanned]), Stop>
    ensures given { BeginsTwo (λ x. x.0) (λ x. x.1) (λ x. x.2.now) result
        (λ j f. want (OfWord WFor) (λ s. name (λ v. f s v))) tokens.now }
    ensures shorter { IfOk result (λ x. length x.2.now < length tokens.now) }
{
    let (first, rest) = take(Mark::OfWord(Word::WFor), tokens)?;
    let (variable, rest) = take_name(rest)?;
    Ok((first, variable, rest))
}

/// A declaration, by its first word.
#[derive(Clone, Copy)]
pub(crate) enum DeclarationKind {
    OneType,
    OneVariable,
    OneFunction,
}

/// The declaration that begins here, and the tokens after its first word.
pub(crate) fn declared_next(
    tokens: &[Spanned],
) -> Result<Option<(DeclarationKind, &[Spanned])>, Stop>
    ensures given { Declares (λ x. x.0) (λ x. x.1.now) result tokens.now }
    ensures shorter { IfOk result (λ o. IfSome o (λ x. length x.1.now < length tokens.now)) }
{
    let (token, after) = next(tokens)?;
    if is(Mark::OfWord(Word::WType), token) {
        return Ok(Some((DeclarationKind::OneType, after)));
    }
    if is(Mark::OfWord(Word::WVar), token) {
        return Ok(Some((DeclarationKind::OneVariable, after)));
    }
    if is(Mark::OfWord(Word::WFunction), token) {
        return Ok(Some((DeclarationKind::OneFunction, after)));
    }
    Ok(None)
}
