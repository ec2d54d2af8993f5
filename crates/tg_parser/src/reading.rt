ghost use Rattle.std.specs.Prelude.{◌≡◌, ◌<◌, ◌≤◌, IfOk, length};
ghost use Rattle.tg_syntax.specs.glue.Plain.{plain, plain_lvalue};
ghost use Rattle.tg_syntax.specs.glue.Lists.{exps_of, inits_of, decs_of};
ghost use Rattle.tg_syntax.specs.Tree.{Read, exp, no_exps, init, no_inits, no_decs};
ghost use Rattle.tg_syntax.specs.Groups.{snoc_dec};
ghost use Rattle.tg_syntax.specs.Grammar.{
  Whole as WholeLevel,
  Comparison as ComparisonLevel,
  Unary as UnaryLevel,
};
ghost use Rattle.tg_syntax_laws.specs.mirror.Steps.{
  Of,
  At,
  After,
  Suffix,
  Listed,
  Items,
  OneInit,
  ListedInits,
  MoreInits,
  VarDec,
  TypeDec as TypeDecJob,
  FunDec as FunDecJob,
  MoreDecs,
  Whole_program,
  want,
  name,
  call,
};
ghost use Rattle.tg_syntax_laws.specs.mirror.Reading.{
  job,
  below as below_level,
  last,
  assigning,
  negating as negating_steps,
  grouping as grouping_steps,
  choosing as choosing_steps,
  looping as looping_steps,
  counting as counting_steps,
  declaring as declaring_steps,
  naming as naming_steps,
  indexing as indexing_steps,
};
ghost use Rattle.tg_parser.specs.glue.Given.{AnswersJob};
ghost use Rattle.tg_parser.specs.glue.Ranks.{level_of};
ghost use Rattle.tg_parser.specs.glue.Opens.{BeginsJob, BeginsTwo, Completes};
ghost use Rattle.tg_parser.specs.glue.Heads.{one_of};

use crate::building::{
    build_array, build_assignment, build_call, build_choice, build_choice_of_two, build_element,
    build_for, build_let, build_negation, build_operation, build_record, build_sequence,
    build_while, join,
};
use crate::depths::bounded;
use crate::faults::Stop;
use crate::forms::type_dec;
use crate::groups::{list_of_one, push_function, push_type, push_variable};
use crate::heads::{
    DeclarationKind, Start, Target, atom, begins, counter, declared_next, function_head, is_over,
    operator_behind, skip, target_of, variable_head, wants_else,
};
use crate::ranks::{Rank, below};
use crate::taking::{Reading, next, take, take_name};
use std::alloc::Global;
use tg_base::Span;
use tg_syntax::{Dec, Exp, FunDec, Ident, Init, Sign, Spanned, Var, Word, field, read};
use tg_syntax_laws::Mark;

/// A program: one expression, and the end.
pub(crate) fn program(alloc: Global, tokens: &[Spanned]) -> Reading<Exp>
    ensures given { AnswersJob Whole_program (λ x. plain x.0) (λ x. x.1.now) result
        (job Whole_program) tokens.now }
    ensures shorter { IfOk result (λ x. length x.1.now < length tokens.now) }
{
    let (e, rest) = whole(alloc, tokens)?;
    let (_, rest) = take(Mark::OfEnd, rest)?;
    Ok((e, rest))
}

/// An expression of a rank.
#[cycle(descent)]
fn at(alloc: Global, rank: Rank, tokens: &[Spanned]) -> Reading<Exp>
    ensures given { AnswersJob (At (level_of rank)) (λ x. plain x.0) (λ x. x.1.now) result
        (job (At (level_of rank))) tokens.now }
    ensures shorter { IfOk result (λ x. length x.1.now < length tokens.now) }
{
    let (left, rest) = unary(alloc, tokens)?;
    if is_over(&left, rank, rest) {
        return Ok((left, rest));
    }
    onward(alloc, rank, left, rest)
}

/// A right operand of a rank, in a box. An atom that is whole at that rank is boxed as it is made,
/// without the calls that lead from rank to rank.
#[cycle(descent)]
fn operand(alloc: Global, rank: Rank, tokens: &[Spanned]) -> Reading<Box<Exp>>
    ensures given { AnswersJob (At (level_of rank)) (λ x. plain x.0.value) (λ x. x.1.now) result
        (job (At (level_of rank))) tokens.now }
    ensures shorter { IfOk result (λ x. length x.1.now < length tokens.now) }
{
    let (first, after) = next(tokens)?;
    if let Some(e) = atom(alloc, first)? {
        if is_over(&e, rank, after) {
            let right = Box::new(alloc, e)?;
            return Ok((right, after));
        }
    }
    boxed(alloc, rank, tokens)
}

/// An expression of a rank, in a box.
#[cycle(descent)]
#[inline(never)]
fn boxed(alloc: Global, rank: Rank, tokens: &[Spanned]) -> Reading<Box<Exp>>
    ensures given { AnswersJob (At (level_of rank)) (λ x. plain x.0.value) (λ x. x.1.now) result
        (job (At (level_of rank))) tokens.now }
    ensures shorter { IfOk result (λ x. length x.1.now < length tokens.now) }
{
    let (e, rest) = at(alloc, rank, tokens)?;
    let right = Box::new(alloc, e)?;
    Ok((right, rest))
}

/// What follows an expression that binds more tightly than the operators, up to a rank.
#[cycle(descent)]
fn onward(alloc: Global, rank: Rank, left: Exp, tokens: &[Spanned]) -> Reading<Exp>
    ensures given { Completes (level_of rank) (λ x. plain x.0) (λ x. x.1.now) result
        (job (At (level_of rank))) (plain left) tokens.now }
    ensures shorter { IfOk result (λ x. length x.1.now ≤ length tokens.now) }
{
    if is_over(&left, rank, tokens) {
        return Ok((left, tokens));
    }
    match rank {
        Rank::Unary => Ok((left, tokens)),
        Rank::Comparison => comparison(alloc, left, tokens),
        _ => operands(alloc, rank, left, tokens),
    }
}

/// An expression, which may be an assignment. It is out of memory where a long one is too deep.
#[cycle(descent)]
fn whole(alloc: Global, tokens: &[Spanned]) -> Reading<Exp>
    ensures given { AnswersJob (At WholeLevel) (λ x. plain x.0) (λ x. x.1.now) result
        (job (At WholeLevel)) tokens.now }
    ensures shorter { IfOk result (λ x. length x.1.now < length tokens.now) }
{
    let (e, rest) = of_any_depth(alloc, tokens)?;
    let e = bounded(e, tokens.len() - rest.len())?;
    Ok((e, rest))
}

/// An expression of any depth, which may be an assignment.
#[cycle(descent)]
fn of_any_depth(alloc: Global, tokens: &[Spanned]) -> Reading<Exp>
    ensures given { AnswersJob (At WholeLevel) (λ x. plain x.0) (λ x. x.1.now) result
        (job (At WholeLevel)) tokens.now }
    ensures shorter { IfOk result (λ x. length x.1.now < length tokens.now) }
{
    let (left, rest) = at(alloc, Rank::Disjunction, tokens)?;
    match target_of(left) {
        Target::Other(e) => Ok((e, rest)),
        Target::LValue(span, place) => assignment(alloc, span, place, rest),
    }
}

/// An expression, which may be an assignment, in a box.
#[cycle(descent)]
fn boxed_whole(alloc: Global, tokens: &[Spanned]) -> Reading<Box<Exp>>
    ensures given { AnswersJob (At WholeLevel) (λ x. plain x.0.value) (λ x. x.1.now) result
        (job (At WholeLevel)) tokens.now }
    ensures shorter { IfOk result (λ x. length x.1.now < length tokens.now) }
{
    let (e, rest) = whole(alloc, tokens)?;
    let expression = Box::new(alloc, e)?;
    Ok((expression, rest))
}

/// An l-value alone, or what is assigned to it.
#[cycle(descent)]
fn assignment(alloc: Global, span: Span, place: Var, tokens: &[Spanned]) -> Reading<Exp>
    ensures given { AnswersJob (At WholeLevel) (λ x. plain x.0) (λ x. x.1.now) result
        (assigning (Read span (plain_lvalue place))) tokens.now }
    ensures shorter { IfOk result (λ x. length x.1.now ≤ length tokens.now) }
{
    let Some((_, after)) = skip(Mark::OfSign(Sign::Assign), tokens)? else {
        return Ok((read(span, place), tokens));
    };
    let (value, rest) = whole(alloc, after)?;
    let e = build_assignment(alloc, span, place, value)?;
    Ok((e, rest))
}

/// What follows the first unary expression in operands of a rank that groups to the left.
#[cycle(descent)]
fn operands(alloc: Global, rank: Rank, left: Exp, tokens: &[Spanned]) -> Reading<Exp>
    ensures given { Completes (level_of rank) (λ x. plain x.0) (λ x. x.1.now) result
        (call (At (below_level (level_of rank))) (λ l. last (After (level_of rank) l)))
        (plain left) tokens.now }
    ensures shorter { IfOk result (λ x. length x.1.now ≤ length tokens.now) }
{
    let (first, rest) = onward(alloc, below(rank), left, tokens)?;
    operators(alloc, rank, first, rest)
}

/// What follows a left operand of a rank that groups to the left.
#[cycle(descent)]
fn operators(alloc: Global, rank: Rank, left: Exp, tokens: &[Spanned]) -> Reading<Exp>
    ensures given { AnswersJob (After (level_of rank) (plain left)) (λ x. plain x.0) (λ x. x.1.now)
        result (job (After (level_of rank) (plain left))) tokens.now }
    ensures shorter { IfOk result (λ x. length x.1.now ≤ length tokens.now) }
{
    let mut left = left;
    let mut rest = tokens;
    'operators: loop {
        let Some((operator, after)) = operator_behind(&left, rank, rest)? else {
            return Ok((left, rest));
        };
        let first = Box::new(alloc, left)?;
        let (right, behind) = operand(alloc, below(rank), after)?;
        left = build_operation(operator.op, operator.at, first, right);
        rest = behind;
    }
}

/// What follows the first unary expression in a comparison, which doesn't group.
#[cycle(descent)]
fn comparison(alloc: Global, left: Exp, tokens: &[Spanned]) -> Reading<Exp>
    ensures given { Completes ComparisonLevel (λ x. plain x.0) (λ x. x.1.now) result
        (job (At ComparisonLevel)) (plain left) tokens.now }
    ensures shorter { IfOk result (λ x. length x.1.now ≤ length tokens.now) }
{
    let (first, rest) = onward(alloc, Rank::Sum, left, tokens)?;
    let Some((operator, after)) = operator_behind(&first, Rank::Comparison, rest)? else {
        return Ok((first, rest));
    };
    let left = Box::new(alloc, first)?;
    let (right, rest) = operand(alloc, Rank::Sum, after)?;
    let e = build_operation(operator.op, operator.at, left, right);
    Ok((e, rest))
}

/// What binds more tightly than the operators with two operands.
#[cycle(descent)]
fn unary(alloc: Global, tokens: &[Spanned]) -> Reading<Exp>
    ensures given { AnswersJob (At UnaryLevel) (λ x. plain x.0) (λ x. x.1.now) result
        (job (At UnaryLevel)) tokens.now }
    ensures shorter { IfOk result (λ x. length x.1.now < length tokens.now) }
{
    let (first, after) = next(tokens)?;
    if let Some(e) = atom(alloc, first)? {
        return Ok((e, after));
    }
    match begins(&first.token) {
        Start::Minus => negating(alloc, tokens),
        Start::Parenthesis => grouping(alloc, tokens),
        Start::If => choosing(alloc, tokens),
        Start::While => looping(alloc, tokens),
        Start::For => counting(alloc, tokens),
        Start::Let => declaring(alloc, tokens),
        Start::Name => naming(alloc, tokens),
        Start::Nothing => Err(Stop::Wrong(first.span.from)),
    }
}

#[cycle(descent)]
fn negating(alloc: Global, tokens: &[Spanned]) -> Reading<Exp>
    ensures given { AnswersJob (At UnaryLevel) (λ x. plain x.0) (λ x. x.1.now) result
        negating_steps tokens.now }
    ensures shorter { IfOk result (λ x. length x.1.now < length tokens.now) }
{
    let (first, rest) = take(Mark::OfSign(Sign::Minus), tokens)?;
    let (a, rest) = unary(alloc, rest)?;
    let e = build_negation(alloc, first, a)?;
    Ok((e, rest))
}

#[cycle(descent)]
fn grouping(alloc: Global, tokens: &[Spanned]) -> Reading<Exp>
    ensures given { AnswersJob (At UnaryLevel) (λ x. plain x.0) (λ x. x.1.now) result
        grouping_steps tokens.now }
    ensures shorter { IfOk result (λ x. length x.1.now < length tokens.now) }
{
    let (first, rest) = take(Mark::OfSign(Sign::LeftParen), tokens)?;
    let close = Mark::OfSign(Sign::RightParen);
    let (items, last, rest) = listed(alloc, Sign::Semicolon, close, rest)?;
    Ok((build_sequence(first, items, last), rest))
}

#[cycle(descent)]
fn choosing(alloc: Global, tokens: &[Spanned]) -> Reading<Exp>
    ensures given { AnswersJob (At UnaryLevel) (λ x. plain x.0) (λ x. x.1.now) result
        choosing_steps tokens.now }
    ensures shorter { IfOk result (λ x. length x.1.now < length tokens.now) }
{
    let (first, test, rest) = boxed_clause(alloc, Mark::OfWord(Word::WIf), tokens)?;
    let (_, this, rest) = boxed_clause(alloc, Mark::OfWord(Word::WThen), rest)?;
    let goes_on = wants_else(&this, rest)?;
    if !goes_on {
        return Ok((build_choice(first, test, this), rest));
    }
    let (_, other, rest) = boxed_clause(alloc, Mark::OfWord(Word::WElse), rest)?;
    Ok((build_choice_of_two(first, test, this, other), rest))
}

#[cycle(descent)]
fn looping(alloc: Global, tokens: &[Spanned]) -> Reading<Exp>
    ensures given { AnswersJob (At UnaryLevel) (λ x. plain x.0) (λ x. x.1.now) result
        looping_steps tokens.now }
    ensures shorter { IfOk result (λ x. length x.1.now < length tokens.now) }
{
    let (first, test, rest) = boxed_clause(alloc, Mark::OfWord(Word::WWhile), tokens)?;
    let (_, body, rest) = boxed_clause(alloc, Mark::OfWord(Word::WDo), rest)?;
    Ok((build_while(first, test, body), rest))
}

#[cycle(descent)]
fn counting(alloc: Global, tokens: &[Spanned]) -> Reading<Exp>
    ensures given { AnswersJob (At UnaryLevel) (λ x. plain x.0) (λ x. x.1.now) result
        counting_steps tokens.now }
    ensures shorter { IfOk result (λ x. length x.1.now < length tokens.now) }
{
    let (first, variable, rest) = counter(tokens)?;
    let (_, low, rest) = boxed_clause(alloc, Mark::OfSign(Sign::Assign), rest)?;
    let (_, high, rest) = boxed_clause(alloc, Mark::OfWord(Word::WTo), rest)?;
    let (_, body, rest) = boxed_clause(alloc, Mark::OfWord(Word::WDo), rest)?;
    Ok((build_for(first, variable, low, high, body), rest))
}

#[cycle(descent)]
fn declaring(alloc: Global, tokens: &[Spanned]) -> Reading<Exp>
    ensures given { AnswersJob (At UnaryLevel) (λ x. plain x.0) (λ x. x.1.now) result
        declaring_steps tokens.now }
    ensures shorter { IfOk result (λ x. length x.1.now < length tokens.now) }
{
    let (first, rest) = take(Mark::OfWord(Word::WLet), tokens)?;
    let (decs, rest) = declarations(alloc, rest)?;
    let (_, rest) = take(Mark::OfWord(Word::WIn), rest)?;
    let (body, last, rest) = listed(alloc, Sign::Semicolon, Mark::OfWord(Word::WEnd), rest)?;
    Ok((build_let(first, decs, body, last), rest))
}

/// What a name begins: a call, a record, an array or an l-value.
#[cycle(descent)]
fn naming(alloc: Global, tokens: &[Spanned]) -> Reading<Exp>
    ensures given { AnswersJob (At UnaryLevel) (λ x. plain x.0) (λ x. x.1.now) result
        (name naming_steps) tokens.now }
    ensures shorter { IfOk result (λ x. length x.1.now < length tokens.now) }
{
    let (name, rest) = take_name(tokens)?;
    if let Some((_, after)) = skip(Mark::OfSign(Sign::LeftParen), rest)? {
        let close = Mark::OfSign(Sign::RightParen);
        let (arguments, last, behind) = listed(alloc, Sign::Comma, close, after)?;
        return Ok((build_call(name, arguments, last), behind));
    }
    if let Some((_, after)) = skip(Mark::OfSign(Sign::LeftBrace), rest)? {
        let (inits, last, behind) = listed_inits(alloc, after)?;
        return Ok((build_record(name, inits, last), behind));
    }
    if let Some((_, after)) = skip(Mark::OfSign(Sign::LeftBracket), rest)? {
        return indexing(alloc, name, after);
    }
    let (span, place, rest) = suffixes(alloc, name.span, Var::Simple(name), rest)?;
    Ok((read(span, place), rest))
}

/// What follows a name and an opening bracket.
#[cycle(descent)]
fn indexing(alloc: Global, name: Ident, tokens: &[Spanned]) -> Reading<Exp>
    ensures given { AnswersJob (At UnaryLevel) (λ x. plain x.0) (λ x. x.1.now) result
        (indexing_steps name) tokens.now }
    ensures shorter { IfOk result (λ x. length x.1.now < length tokens.now) }
{
    let (inside, rest) = boxed_whole(alloc, tokens)?;
    let (last, rest) = take(Mark::OfSign(Sign::RightBracket), rest)?;
    if let Some((_, after)) = skip(Mark::OfWord(Word::WOf), rest)? {
        let (value, behind) = boxed_whole(alloc, after)?;
        return Ok((build_array(name, inside, value), behind));
    }
    let place = build_element(alloc, Var::Simple(name), inside)?;
    let (span, place, rest) = suffixes(alloc, join(name.span, last), place, rest)?;
    Ok((read(span, place), rest))
}

/// What follows an l-value.
#[cycle(descent)]
fn suffixes(
    alloc: Global,
    span: Span,
    place: Var,
    tokens: &[Spanned],
) -> Result<(Span, Var, &[Spanned]), Stop>
    ensures given { AnswersJob (Suffix span (plain_lvalue place)) (λ x. (x.0, plain_lvalue x.1))
        (λ x. x.2.now) result
        (job (Suffix span (plain_lvalue place))) tokens.now }
    ensures shorter { IfOk result (λ x. length x.2.now ≤ length tokens.now) }
{
    if let Some((_, after)) = skip(Mark::OfSign(Sign::Dot), tokens)? {
        let (name, rest) = take_name(after)?;
        let place = field(alloc, place, name)?;
        return suffixes(alloc, join(span, name.span), place, rest);
    }
    if let Some((_, after)) = skip(Mark::OfSign(Sign::LeftBracket), tokens)? {
        let (inside, rest) = boxed_whole(alloc, after)?;
        let (last, rest) = take(Mark::OfSign(Sign::RightBracket), rest)?;
        let place = build_element(alloc, place, inside)?;
        return suffixes(alloc, join(span, last), place, rest);
    }
    Ok((span, place, tokens))
}

/// A mark and the expression after it.
#[cycle(descent)]
fn clause(alloc: Global, mark: Mark, tokens: &[Spanned]) -> Result<(Span, Exp, &[Spanned]), Stop>
    ensures given { BeginsTwo (λ x. x.0) (λ x. plain x.1) (λ x. x.2.now) result
        (λ j f. want mark (λ s. call (At WholeLevel) (λ e. f s e))) tokens.now }
    ensures shorter { IfOk result (λ x. length x.2.now < length tokens.now) }
{
    let (span, rest) = take(mark, tokens)?;
    let (e, rest) = whole(alloc, rest)?;
    Ok((span, e, rest))
}

/// A mark and the expression after it, in a box.
#[cycle(descent)]
fn boxed_clause(
    alloc: Global,
    mark: Mark,
    tokens: &[Spanned],
) -> Result<(Span, Box<Exp>, &[Spanned]), Stop>
    ensures given { BeginsTwo (λ x. x.0) (λ x. plain x.1.value) (λ x. x.2.now) result
        (λ j f. want mark (λ s. call (At WholeLevel) (λ e. f s e))) tokens.now }
    ensures shorter { IfOk result (λ x. length x.2.now < length tokens.now) }
{
    let (span, rest) = take(mark, tokens)?;
    let (e, rest) = boxed_whole(alloc, rest)?;
    Ok((span, e, rest))
}

/// Expressions with a sign between them, up to the mark that ends them.
#[cycle(descent)]
fn listed(
    alloc: Global,
    separator: Sign,
    close: Mark,
    tokens: &[Spanned],
) -> Result<(Vec<Exp>, Span, &[Spanned]), Stop>
    ensures given { AnswersJob (Listed separator close) (λ x. (exps_of x.0.items, x.1))
        (λ x. x.2.now) result
        (job (Listed separator close)) tokens.now }
    ensures shorter { IfOk result (λ x. length x.2.now < length tokens.now) }
{
    if let Some((last, after)) = skip(close, tokens)? {
        return Ok((Vec::new(alloc), last, after));
    }
    let (first, rest) = whole(alloc, tokens)?;
    let (items, rest) = items(alloc, separator, first, rest)?;
    let (last, rest) = take(close, rest)?;
    Ok((items, last, rest))
}

/// An expression and those that follow it.
#[cycle(descent)]
fn items(alloc: Global, separator: Sign, first: Exp, tokens: &[Spanned]) -> Reading<Vec<Exp>>
    ensures given { AnswersJob (Items separator (exp (plain first) no_exps))
        (λ x. exps_of x.0.items)
        (λ x. x.1.now) result
        (job (Items separator (exp (plain first) no_exps))) tokens.now }
    ensures shorter { IfOk result (λ x. length x.1.now ≤ length tokens.now) }
{
    let mut items = list_of_one(alloc, first)?;
    let mut rest = tokens;
    'items: loop {
        let Some((_, after)) = skip(Mark::OfSign(separator), rest)? else {
            return Ok((items, rest));
        };
        let (e, behind) = whole(alloc, after)?;
        items.push(e)?;
        rest = behind;
    }
}

/// A field's value.
#[cycle(descent)]
fn one_init(alloc: Global, tokens: &[Spanned]) -> Reading<Init>
    ensures given { AnswersJob OneInit (λ x. (x.0.field, plain x.0.value)) (λ x. x.1.now) result
        (job OneInit) tokens.now }
    ensures shorter { IfOk result (λ x. length x.1.now < length tokens.now) }
{
    let (field, rest) = take_name(tokens)?;
    let (_, value, rest) = clause(alloc, Mark::OfSign(Sign::Equal), rest)?;
    Ok((Init { field, value }, rest))
}

/// Fields' values, up to the brace that ends them.
#[cycle(descent)]
fn listed_inits(alloc: Global, tokens: &[Spanned]) -> Result<(Vec<Init>, Span, &[Spanned]), Stop>
    ensures given { AnswersJob ListedInits (λ x. (inits_of x.0.items, x.1)) (λ x. x.2.now) result
        (job ListedInits) tokens.now }
    ensures shorter { IfOk result (λ x. length x.2.now < length tokens.now) }
{
    let close = Mark::OfSign(Sign::RightBrace);
    if let Some((last, after)) = skip(close, tokens)? {
        return Ok((Vec::new(alloc), last, after));
    }
    let (first, rest) = one_init(alloc, tokens)?;
    let (inits, rest) = inits(alloc, first, rest)?;
    let (last, rest) = take(close, rest)?;
    Ok((inits, last, rest))
}

/// A field's value and those that follow it.
#[cycle(descent)]
fn inits(alloc: Global, first: Init, tokens: &[Spanned]) -> Reading<Vec<Init>>
    ensures given { AnswersJob (MoreInits (init first.field (plain first.value) no_inits))
        (λ x. inits_of x.0.items) (λ x. x.1.now) result
        (job (MoreInits (init first.field (plain first.value) no_inits))) tokens.now }
    ensures shorter { IfOk result (λ x. length x.1.now ≤ length tokens.now) }
{
    let mut inits = list_of_one(alloc, first)?;
    let mut rest = tokens;
    'inits: loop {
        let Some((_, after)) = skip(Mark::OfSign(Sign::Comma), rest)? else {
            return Ok((inits, rest));
        };
        let (init, behind) = one_init(alloc, after)?;
        inits.push(init)?;
        rest = behind;
    }
}

/// Declarations, as many as follow.
#[cycle(descent)]
fn declarations(alloc: Global, tokens: &[Spanned]) -> Reading<Vec<Dec>>
    ensures given { AnswersJob (MoreDecs no_decs) (λ x. decs_of x.0.items) (λ x. x.1.now) result
        (job (MoreDecs no_decs)) tokens.now }
    ensures shorter { IfOk result (λ x. length x.1.now ≤ length tokens.now) }
{
    let mut decs = Vec::new(alloc);
    let mut rest = tokens;
    'decs: loop {
        let Some((kind, after)) = declared_next(rest)? else {
            return Ok((decs, rest));
        };
        let (more, behind) = one_more(alloc, kind, decs, after)?;
        decs = more;
        rest = behind;
    }
}

/// One more declaration, after its first word.
#[cycle(descent)]
fn one_more(
    alloc: Global,
    kind: DeclarationKind,
    decs: Vec<Dec>,
    tokens: &[Spanned],
) -> Reading<Vec<Dec>>
    ensures given { BeginsJob (λ x. decs_of x.0.items) (λ x. x.1.now) result
        (λ j f. one_of kind j (λ d. f (snoc_dec (decs_of decs.items) d))) tokens.now }
    ensures shorter { IfOk result (λ x. length x.1.now < length tokens.now) }
{
    match kind {
        DeclarationKind::OneType => with_type(alloc, decs, tokens),
        DeclarationKind::OneVariable => with_variable(alloc, decs, tokens),
        DeclarationKind::OneFunction => with_function(alloc, decs, tokens),
    }
}

fn with_type(alloc: Global, mut decs: Vec<Dec>, tokens: &[Spanned]) -> Reading<Vec<Dec>>
    ensures given { BeginsJob (λ x. decs_of x.0.items) (λ x. x.1.now) result
        (λ j f. call TypeDecJob (λ d. f (snoc_dec (decs_of decs.items) d))) tokens.now }
    ensures shorter { IfOk result (λ x. length x.1.now < length tokens.now) }
{
    let (dec, rest) = type_dec(alloc, tokens)?;
    push_type(alloc, &mut decs, dec)?;
    Ok((decs, rest))
}

#[cycle(descent)]
fn with_variable(alloc: Global, mut decs: Vec<Dec>, tokens: &[Spanned]) -> Reading<Vec<Dec>>
    ensures given { BeginsJob (λ x. decs_of x.0.items) (λ x. x.1.now) result
        (λ j f. call VarDec (λ d. f (snoc_dec (decs_of decs.items) d))) tokens.now }
    ensures shorter { IfOk result (λ x. length x.1.now < length tokens.now) }
{
    let (head, rest) = variable_head(tokens)?;
    let (_, value, rest) = clause(alloc, Mark::OfSign(Sign::Assign), rest)?;
    push_variable(&mut decs, head.name, head.kind, value)?;
    Ok((decs, rest))
}

#[cycle(descent)]
fn with_function(alloc: Global, mut decs: Vec<Dec>, tokens: &[Spanned]) -> Reading<Vec<Dec>>
    ensures given { BeginsJob (λ x. decs_of x.0.items) (λ x. x.1.now) result
        (λ j f. call FunDecJob (λ d. f (snoc_dec (decs_of decs.items) d))) tokens.now }
    ensures shorter { IfOk result (λ x. length x.1.now < length tokens.now) }
{
    let (head, rest) = function_head(alloc, tokens)?;
    let (_, body, rest) = clause(alloc, Mark::OfSign(Sign::Equal), rest)?;
    let dec = FunDec {
        name: head.name,
        params: head.params,
        result: head.result,
        body,
    };
    push_function(alloc, &mut decs, dec)?;
    Ok((decs, rest))
}
