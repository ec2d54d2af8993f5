ghost use Rattle.std.specs.Prelude.{◌≡◌, ◌&&◌};
ghost use Rattle.tg_syntax.specs.glue.Plain.{plain, plain_lvalue, plain_exps, plain_inits};
ghost use Rattle.tg_translate.specs.mirror.Purity as purity;

use tg_syntax::{Exp, Exps, Inits, Kind, Var};

/// Whether an expression assigns no variable of the function that it stands in. A call assigns
/// none, since what a nested function assigns escapes.
#[cycle(purity)]
pub(crate) fn assigns_nothing(e: &Exp) -> bool
    ensures { result ≡ purity.assigns_nothing (plain e.now) }
{
    match &e.kind {
        Kind::Nil | Kind::Int(_) | Kind::Text(_) => true,
        Kind::Read(place) => place_assigns_nothing(place),
        Kind::Call(_, items) | Kind::Seq(items) => all_assign_nothing(items),
        Kind::Neg(a) => assigns_nothing(a),
        Kind::Binary(_, _, a, b) | Kind::Fill(_, a, b) => assigns_nothing(a) && assigns_nothing(b),
        Kind::Make(_, inits) => inits_assign_nothing(inits),
        Kind::If(c, a, Some(b)) => {
            assigns_nothing(c) && assigns_nothing(a) && assigns_nothing(b)
        }
        _ => false,
    }
}

#[cycle(purity)]
fn place_assigns_nothing(place: &Var) -> bool
    ensures { result ≡ purity.place_assigns_nothing (plain_lvalue place.now) }
{
    match place {
        Var::Simple(_) => true,
        Var::Field(of, _) => place_assigns_nothing(of),
        Var::Index(of, index) => place_assigns_nothing(of) && assigns_nothing(index),
    }
}

#[cycle(purity)]
fn all_assign_nothing(exps: &Exps) -> bool
    ensures { result ≡ purity.all_assign_nothing (plain_exps exps.now) }
{
    let mut all = true;
    for e in &exps.items {
        let one = assigns_nothing(e);
        all = both(all, one);
    }
    all
}

/// Whether the fields of a creation assign no variable of the function that they stand in.
#[cycle(purity)]
pub(crate) fn inits_assign_nothing(inits: &Inits) -> bool
    ensures { result ≡ purity.inits_assign_nothing (plain_inits inits.now) }
{
    let mut all = true;
    for init in &inits.items {
        let one = assigns_nothing(&init.value);
        all = both(all, one);
    }
    all
}

fn both(one: bool, other: bool) -> bool
    ensures { result ≡ (one && other) }
{
    one && other
}
