ghost use Rattle.std.specs.Prelude.{◌≡◌, ◌<◌, ◌+◌, ◌↔◌, IsTrue, IfOk, MatchResult, [], ◌∷◌, length};
ghost use Rattle.tg_parser.specs.declared.faults.Stop.TheVariants.{More};
ghost use Rattle.tg_parser.specs.glue.Given.{AnswersJob};
ghost use Rattle.tg_syntax_laws.specs.mirror.Steps.{token_of, want, name, give, OneSpan, OneName};

use crate::faults::Stop;
use tg_base::Span;
use tg_syntax::{Ident, Spanned, Token};
use tg_syntax_laws::Mark;

/// What was read, and the tokens after it.
pub(crate) type Reading<'a, T> = Result<(T, &'a [Spanned]), Stop>;

/// Whether a token is a mark.
pub(crate) fn is(mark: Mark, token: &Spanned) -> bool
    ensures { IsTrue result ↔ (token.now.token ≡ token_of mark) }
{
    match (mark, &token.token) {
        (Mark::OfSign(sign), Token::Sign(other)) => sign == *other,
        (Mark::OfWord(word), Token::Word(other)) => word == *other,
        (Mark::OfEnd, Token::End) => true,
        _ => false,
    }
}

/// The first token, and those after it.
pub(crate) fn next(tokens: &[Spanned]) -> Result<(&Spanned, &[Spanned]), Stop>
    ensures first { MatchResult result
        (λ x. tokens.now ≡ x.0.now ∷ x.1.now)
        (λ e. (e ≡ More) × (tokens.now ≡ [])) }
    ensures shorter { IfOk result (λ x. length x.1.now < length tokens.now) }
{
    match tokens.split_first() {
        None => Err(Stop::More),
        Some((first, rest)) => Ok((first, rest)),
    }
}

/// The span of a mark that has to stand at the front.
#[tactic(auto, using(crate::proofs::Chains::take_yes, crate::proofs::Chains::take_no, crate::proofs::Chains::take_none))]
pub(crate) fn take(mark: Mark, tokens: &[Spanned]) -> Reading<Span>
    ensures given { AnswersJob OneSpan (λ x. x.0) (λ x. x.1.now) result
        (want mark (λ s. give s)) tokens.now }
    ensures shorter { IfOk result (λ x. length x.1.now < length tokens.now) }
{
    match tokens.split_first() {
        None => Err(Stop::More),
        Some((first, rest)) => {
            if is(mark, first) {
                Ok((first.span, rest))
            } else {
                Err(Stop::Wrong(first.span.from))
            }
        }
    }
}

/// An identifier that has to stand at the front.
#[tactic(auto, using(crate::proofs::Chains::name_is, crate::proofs::Chains::name_not, crate::proofs::Chains::name_none))]
pub(crate) fn take_name(tokens: &[Spanned]) -> Reading<Ident>
    ensures given { AnswersJob OneName (λ x. x.0) (λ x. x.1.now) result (name
        (λ x. give x)) tokens.now }
    ensures shorter { IfOk result (λ x. length x.1.now < length tokens.now) }
{
    match tokens.split_first() {
        None => Err(Stop::More),
        Some((first, rest)) => match first.token {
            Token::Ident(name) => {
                let span = first.span;
                Ok((Ident { name, span }, rest))
            }
            _ => Err(Stop::Wrong(first.span.from)),
        },
    }
}
