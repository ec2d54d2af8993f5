ghost use Rattle.std.specs.Prelude.{◌≡◌};
ghost use Rattle.tg_syntax.specs.Tails.{ends_tail as has_tail, is_short as has_short};
ghost use Rattle.tg_syntax.specs.glue.Plain.{plain};

use tg_syntax::{Exp, Kind};

/// Whether an `if`, a loop or an array's creation stands at the right end, which takes all that
/// follows.
pub(crate) fn ends_tail(e: &Exp) -> bool
    ensures { result ≡ has_tail (plain e.now) }
{
    match &e.kind {
        Kind::Neg(a) => ends_tail(a),
        Kind::Binary(_, _, _, a) => ends_tail(a),
        Kind::Assign(_, a) => ends_tail(a),
        Kind::Fill(_, _, _) | Kind::If(_, _, _) | Kind::While(_, _) | Kind::For(_, _, _, _) => true,
        _ => false,
    }
}

/// Whether an `if` without `else` stands at the right end, so that an `else` after it is its own.
pub(crate) fn is_short(e: &Exp) -> bool
    ensures { result ≡ has_short (plain e.now) }
{
    match &e.kind {
        Kind::Neg(a) => is_short(a),
        Kind::Binary(_, _, _, a) => is_short(a),
        Kind::Fill(_, _, a) => is_short(a),
        Kind::Assign(_, a) => is_short(a),
        Kind::If(_, _, Some(a)) => is_short(a),
        Kind::If(_, _, None) => true,
        Kind::While(_, a) => is_short(a),
        Kind::For(_, _, _, a) => is_short(a),
        _ => false,
    }
}
