ghost use Rattle.std.specs.Prelude.{◌≡◌, false};
ghost use Rattle.tg_syntax.specs.Grammar.{or_op, and_op, rel_op, sum_op, term_op};
ghost use Rattle.tg_syntax_laws.specs.mirror.Steps.{op_of};
ghost use Rattle.tg_syntax_laws.specs.mirror.Reading.{below as below_level};
ghost use Rattle.tg_parser.specs.glue.Ranks.{level_of, NoneWithin};

use tg_syntax::{Op, Sign, Token};

/// How tightly an expression binds, the loosest first.
#[derive(Clone, Copy)]
pub(crate) enum Rank {
    Disjunction,
    Conjunction,
    Comparison,
    Sum,
    Term,
    Unary,
}

/// The rank of right operands.
pub(crate) fn below(rank: Rank) -> Rank
    ensures { level_of result ≡ below_level (level_of rank) }
{
    match rank {
        Rank::Disjunction => Rank::Conjunction,
        Rank::Conjunction => Rank::Comparison,
        Rank::Comparison => Rank::Sum,
        Rank::Sum => Rank::Term,
        _ => Rank::Unary,
    }
}

/// The operator of a rank that a token is.
pub(crate) fn operator(rank: Rank, token: &Token) -> Option<Op>
    ensures { result ≡ op_of (level_of rank) token.now }
{
    match rank {
        Rank::Disjunction => disjunction(token),
        Rank::Conjunction => conjunction(token),
        Rank::Comparison => comparison(token),
        Rank::Sum => sum(token),
        Rank::Term => term(token),
        Rank::Unary => None,
    }
}

/// Whether a token is an operator of a rank, or of one that binds more tightly.
pub(crate) fn is_operator_within(rank: Rank, token: &Token) -> bool
    ensures { result ≡ false → NoneWithin rank token.now }
{
    match rank {
        Rank::Unary => false,
        _ => match operator(rank, token) {
            Some(_) => true,
            None => is_operator_within(below(rank), token),
        },
    }
}

fn disjunction(token: &Token) -> Option<Op>
    ensures { result ≡ or_op token.now }
{
    match token {
        Token::Sign(Sign::Or) => Some(Op::Or),
        _ => None,
    }
}

fn conjunction(token: &Token) -> Option<Op>
    ensures { result ≡ and_op token.now }
{
    match token {
        Token::Sign(Sign::And) => Some(Op::And),
        _ => None,
    }
}

fn comparison(token: &Token) -> Option<Op>
    ensures { result ≡ rel_op token.now }
{
    match token {
        Token::Sign(Sign::Equal) => Some(Op::Equal),
        Token::Sign(Sign::NotEqual) => Some(Op::NotEqual),
        Token::Sign(Sign::Less) => Some(Op::Less),
        Token::Sign(Sign::LessEqual) => Some(Op::LessEqual),
        Token::Sign(Sign::Greater) => Some(Op::Greater),
        Token::Sign(Sign::GreaterEqual) => Some(Op::GreaterEqual),
        _ => None,
    }
}

fn sum(token: &Token) -> Option<Op>
    ensures { result ≡ sum_op token.now }
{
    match token {
        Token::Sign(Sign::Plus) => Some(Op::Plus),
        Token::Sign(Sign::Minus) => Some(Op::Minus),
        _ => None,
    }
}

fn term(token: &Token) -> Option<Op>
    ensures { result ≡ term_op token.now }
{
    match token {
        Token::Sign(Sign::Times) => Some(Op::Times),
        Token::Sign(Sign::Divide) => Some(Op::Divide),
        _ => None,
    }
}
