ghost use Rattle.std.specs.Prelude.{◌≡◌, ◌==◌, ◌∷◌, length, Bool, true, false, Some, None};
ghost use Rattle.std.specs.Prelude.{OnOk, IfSome, box_value};
ghost use Rattle.std.specs.Option.{option_map};
ghost use Rattle.tg_syntax.specs.glue.Plain.{
  plain,
  plain_lvalue,
  plain_exps,
  plain_inits,
  plain_dec,
  plain_functions,
};
ghost use Rattle.tg_syntax.specs.glue.Lists.{decs_of};
ghost use Rattle.tg_syntax.specs.Tree as tree;
ghost use Rattle.tg_syntax.specs.declared.trees.Kind.{If, Let};
ghost use Rattle.tg_syntax.specs.declared.trees.Exps.{out-Exps};
ghost use Rattle.tg_syntax.specs.declared.trees.Inits.{out-Inits};
ghost use Rattle.tg_syntax.specs.declared.trees.FunDecs.{out-FunDecs};
ghost use Rattle.tg_typecheck.specs.Types.{int_type, none_type};
ghost use Rattle.tg_typecheck.specs.Checks.{Noted};
ghost use Rattle.tg_typecheck.specs.Scopes.{Scope, variable_at};
ghost use Rattle.tg_typecheck.specs.Typing as typing;
ghost use Rattle.tg_typecheck.specs.glue.Selections.{init_count, function_count};
ghost use Rattle.tg_typecheck.specs.glue.Trees.{
  nowhere,
  fitting,
  without_value,
  left_operand,
  right_operand,
  filled,
  second_way,
  choice,
  idle,
  counting,
  one_body,
  IsAmong,
};
ghost use Rattle.tg_syntax.specs.NamesWithin.{NamesWithin, PlaceWithin, ExpsWithin, InitsWithin};
ghost use Rattle.tg_syntax.specs.NamesWithin.{DecsWithin, FunctionsWithin, NameIsWithin};
ghost use Rattle.tg_typecheck.specs.glue.States.{AnswersCheck, MovesOn, Judges, Declares, Keeps, Opens};
ghost use Rattle.tg_typecheck.specs.glue.States.{scope_of, noted_of};

use crate::bindings::{Binding, Signature};
use crate::faults::{TypeFault, TypeRule};
use crate::groups::declare_types;
use crate::headers::{all_fresh, headers, open_functions, open_params};
use crate::kinds::Ty;
use crate::lookups::{function, is_loop_variable, type_named, variable};
use crate::operators::{left_side, right_side};
use crate::records::{element_of, made, selected};
use crate::rules::{body_fits, expected, kept, nothing_expected, own_type};
use crate::states::CheckingState;
use tg_base::{Memory, Names};
use tg_syntax::{Dec, Decs, Exp, Exps, FunDec, FunDecs, Ident, Init, Inits, Kind, Op, Var};

/// The type of an expression. Thousands of operators may stand in one another's left sides, so a
/// level of them leaves little on the stack: all else is typed in a function of its own.
#[cycle(typing)]
#[inline(never)]
pub(crate) fn typed(
    names: &Names,
    state: &mut CheckingState,
    e: &Exp,
    in_loop: bool,
) -> Result<Ty, TypeFault>
    requires { NamesWithin (length names.now) (plain e.now) }
    ensures given { MovesOn names.now state.old state.new in_loop result (λ t. t)
        (typing.typed (plain e.now)) }
    ensures kept { OnOk result (Keeps state.old state.new) }
{
    match &e.kind {
        Kind::Binary(op, at, a, b) => {
            let left = left_operand(names, state, *op, *at, a, in_loop)?;
            right_operand(names, state, *op, left, b, e.span.from, in_loop)
        }
        _ => typed_whole(names, state, e, in_loop),
    }
}

// The type of an expression, whatever it is.
#[cycle(typing)]
#[inline(never)]
fn typed_whole(
    names: &Names,
    state: &mut CheckingState,
    e: &Exp,
    in_loop: bool,
) -> Result<Ty, TypeFault>
    requires { NamesWithin (length names.now) (plain e.now) }
    ensures given { MovesOn names.now state.old state.new in_loop result (λ t. t)
        (typing.typed (plain e.now)) }
    ensures kept { OnOk result (Keeps state.old state.new) }
{
    match &e.kind {
        Kind::Nil => Ok(Ty::nil()),
        Kind::Int(_) => Ok(Ty::int()),
        Kind::Text(_) => Ok(Ty::text()),
        Kind::Break => broken(e.span.from, in_loop),
        Kind::Read(place) => typed_place(names, state, place, in_loop),
        Kind::Call(f, arguments) => called(names, state, *f, arguments, in_loop),
        Kind::Neg(a) => negated(names, state, a, in_loop),
        Kind::Binary(op, at, a, b) => {
            let left = left_operand(names, state, *op, *at, a, in_loop)?;
            right_operand(names, state, *op, left, b, e.span.from, in_loop)
        }
        Kind::Make(x, inits) => made_record(names, state, *x, inits, in_loop),
        Kind::Fill(x, size, value) => {
            let ty = type_named(names, state, *x)?;
            let element = element_of(state, ty, x.span.from)?;
            fitting_int(names, state, size, in_loop)?;
            filled(names, state, ty, element, value, in_loop)
        }
        Kind::Assign(place, value) => {
            let ty = typed_place(names, state, place, in_loop)?;
            assignable(names, state, place)?;
            filled(names, state, Ty::nothing(), ty, value, in_loop)
        }
        Kind::If(test, this, other) => {
            choice_named(names, e, test, this, other);
            fitting_int(names, state, test, in_loop)?;
            match other {
                Some(other) => {
                    let ty = typed(names, state, this, in_loop)?;
                    joined(names, state, ty, other, in_loop)
                }
                None => idle(names, state, this, in_loop),
            }
        }
        Kind::While(test, body) => {
            fitting_int(names, state, test, in_loop)?;
            idle(names, state, body, true)
        }
        Kind::For(x, low, high, body) => {
            fitting_int(names, state, low, in_loop)?;
            fitting_int(names, state, high, in_loop)?;
            counted(names, state, *x, body, in_loop)
        }
        Kind::Let(decs, body) => {
            let_named(names, e, decs, body);
            let bindings = state.bindings.len();
            let types = state.types.len();
            declared(names, state, decs, in_loop)?;
            let ty = typed_last(names, state, body, in_loop)?;
            state.bindings.cut_to(bindings);
            state.types.cut_to(types);
            Ok(ty)
        }
        Kind::Seq(items) => typed_last(names, state, items, in_loop),
    }
}

fn broken(at: u32, in_loop: bool) -> Result<Ty, TypeFault>
    ensures { (scope : Scope) → scope.in_loop ≡ in_loop → (n : Noted) →
        AnswersCheck result (λ t. t) n (typing.typed (tree.Break
        (record { from = at; to = 0 })) scope n) }
{
    kept(TypeRule::T14, at, in_loop)?;
    Ok(Ty::nothing())
}

// A value of a type that fits.
#[cycle(typing)]
fn fitting(
    names: &Names,
    state: &mut CheckingState,
    e: &Exp,
    wanted: Ty,
    in_loop: bool,
) -> Result<(), TypeFault>
    requires { NamesWithin (length names.now) (plain e.now) }
    ensures given { MovesOn names.now state.old state.new in_loop result (λ _. tt)
        (fitting (plain e.now) wanted) }
    ensures kept { OnOk result (Keeps state.old state.new) }
{
    let got = typed(names, state, e, in_loop)?;
    expected(wanted, got, e.span.from)
}

// An int.
#[cycle(typing)]
#[inline(never)]
fn fitting_int(
    names: &Names,
    state: &mut CheckingState,
    e: &Exp,
    in_loop: bool,
) -> Result<(), TypeFault>
    requires { NamesWithin (length names.now) (plain e.now) }
    ensures given { MovesOn names.now state.old state.new in_loop result (λ _. tt)
        (fitting (plain e.now) int_type) }
    ensures kept { OnOk result (Keeps state.old state.new) }
{
    fitting(names, state, e, Ty::int(), in_loop)
}

// What has no value.
#[cycle(typing)]
fn without_value(
    names: &Names,
    state: &mut CheckingState,
    e: &Exp,
    in_loop: bool,
) -> Result<(), TypeFault>
    requires { NamesWithin (length names.now) (plain e.now) }
    ensures given { MovesOn names.now state.old state.new in_loop result (λ _. tt)
        (without_value (plain e.now)) }
    ensures kept { OnOk result (Keeps state.old state.new) }
{
    let got = typed(names, state, e, in_loop)?;
    nothing_expected(got, e.span.from)
}

#[cycle(typing)]
#[inline(never)]
fn typed_place(
    names: &Names,
    state: &mut CheckingState,
    place: &Var,
    in_loop: bool,
) -> Result<Ty, TypeFault>
    requires { PlaceWithin (length names.now) (plain_lvalue place.now) }
    ensures given { MovesOn names.now state.old state.new in_loop result (λ t. t)
        (typing.typed_place (plain_lvalue place.now)) }
    ensures kept { OnOk result (Keeps state.old state.new) }
{
    match place {
        Var::Simple(x) => variable(names, state, *x),
        Var::Field(of, field) => type_field(names, state, of, *field, in_loop),
        Var::Index(of, index) => {
            let ty = typed_place(names, state, of, in_loop)?;
            let element = element_of(state, ty, start_of(of))?;
            fitting_int(names, state, index, in_loop)?;
            Ok(element)
        }
    }
}

// A field of what stands before it.
#[cycle(typing)]
#[inline(never)]
fn type_field(
    names: &Names,
    state: &mut CheckingState,
    of: &Var,
    field: Ident,
    in_loop: bool,
) -> Result<Ty, TypeFault>
    requires { PlaceWithin (length names.now) (plain_lvalue of.now) }
    ensures given { MovesOn names.now state.old state.new in_loop result (λ t. t)
        (typing.typed_place (tree.Field (plain_lvalue of.now) field)) }
    ensures kept { OnOk result (Keeps state.old state.new) }
{
    let ty = typed_place(names, state, of, in_loop)?;
    selected(state, ty, start_of(of), field)
}

// The first byte of an l-value.
fn start_of(place: &Var) -> u32
    ensures { result ≡ typing.place_start (plain_lvalue place.now) }
{
    match place {
        Var::Simple(x) => x.span.from,
        Var::Field(of, _) | Var::Index(of, _) => start_of(of),
    }
}

#[cycle(typing)]
#[inline(never)]
fn called(
    names: &Names,
    state: &mut CheckingState,
    f: Ident,
    arguments: &Exps,
    in_loop: bool,
) -> Result<Ty, TypeFault>
    requires f { NameIsWithin (length names.now) f }
    requires arguments { ExpsWithin (length names.now) (plain_exps arguments.now) }
    ensures given { MovesOn names.now state.old state.new in_loop result (λ t. t)
        (typing.typed (tree.Call nowhere f (plain_exps arguments.now))) }
    ensures kept { OnOk result (Keeps state.old state.new) }
{
    let signature = function(names, state, f)?;
    let params = signature.params();
    kept(TypeRule::T10, f.span.from, are_as_many(arguments, params))?;
    typed_all(names, state, arguments, params, in_loop)?;
    Ok(signature.outcome())
}

fn are_as_many(arguments: &Exps, params: &[Ty]) -> bool
    ensures { result ≡ (typing.expression_count (plain_exps arguments.now) == length params.now) }
{
    arguments.items.len() == params.len()
}

// Arguments, each of its type.
#[cycle(typing)]
fn typed_all(
    names: &Names,
    state: &mut CheckingState,
    arguments: &Exps,
    params: &[Ty],
    in_loop: bool,
) -> Result<(), TypeFault>
    requires names { ExpsWithin (length names.now) (plain_exps arguments.now) }
    requires as_many { typing.expression_count (plain_exps arguments.now) ≡ length params.now }
    ensures given { MovesOn names.now state.old state.new in_loop result (λ _. tt)
        (typing.expect_all (plain_exps arguments.now) params.now) }
    ensures kept { OnOk result (Keeps state.old state.new) }
{
    let mut at = 0;
    for e in &arguments.items {
        exp_named(names, arguments, e);
        fitting(names, state, e, params[at], in_loop)?;
        at += 1;
    }
    Ok(())
}

#[cycle(typing)]
#[inline(never)]
fn negated(
    names: &Names,
    state: &mut CheckingState,
    a: &Exp,
    in_loop: bool,
) -> Result<Ty, TypeFault>
    requires { NamesWithin (length names.now) (plain a.now) }
    ensures given { MovesOn names.now state.old state.new in_loop result (λ t. t)
        (typing.typed (tree.Neg nowhere (plain a.now))) }
    ensures kept { OnOk result (Keeps state.old state.new) }
{
    fitting_int(names, state, a, in_loop)?;
    Ok(Ty::int())
}

// What stands before an operator.
#[cycle(typing)]
#[inline(never)]
fn left_operand(
    names: &Names,
    state: &mut CheckingState,
    op: Op,
    at: u32,
    a: &Exp,
    in_loop: bool,
) -> Result<Ty, TypeFault>
    requires { NamesWithin (length names.now) (plain a.now) }
    ensures given { MovesOn names.now state.old state.new in_loop result (λ t. t)
        (left_operand op at (plain a.now)) }
    ensures kept { OnOk result (Keeps state.old state.new) }
{
    let ty = typed(names, state, a, in_loop)?;
    left_side(state, op, ty, at, a.span.from)
}

// What stands after an operator, whose left side is of a type: the type of the whole.
#[cycle(typing)]
#[inline(never)]
fn right_operand(
    names: &Names,
    state: &mut CheckingState,
    op: Op,
    left: Ty,
    b: &Exp,
    whole: u32,
    in_loop: bool,
) -> Result<Ty, TypeFault>
    requires { NamesWithin (length names.now) (plain b.now) }
    ensures given { MovesOn names.now state.old state.new in_loop result (λ t. t)
        (right_operand op left (plain b.now) whole) }
    ensures kept { OnOk result (Keeps state.old state.new) }
{
    let right = typed(names, state, b, in_loop)?;
    right_side(op, left, right, b.span.from, whole)?;
    Ok(Ty::int())
}

// A value that fits into something: the type of the whole.
#[cycle(typing)]
#[inline(never)]
fn filled(
    names: &Names,
    state: &mut CheckingState,
    whole: Ty,
    wanted: Ty,
    value: &Exp,
    in_loop: bool,
) -> Result<Ty, TypeFault>
    requires { NamesWithin (length names.now) (plain value.now) }
    ensures given { MovesOn names.now state.old state.new in_loop result (λ t. t)
        (filled whole wanted (plain value.now)) }
    ensures kept { OnOk result (Keeps state.old state.new) }
{
    fitting(names, state, value, wanted, in_loop)?;
    Ok(whole)
}

// The second way of a choice, whose first has a type.
#[cycle(typing)]
#[inline(never)]
fn joined(
    names: &Names,
    state: &mut CheckingState,
    ty: Ty,
    other: &Exp,
    in_loop: bool,
) -> Result<Ty, TypeFault>
    requires { NamesWithin (length names.now) (plain other.now) }
    ensures given { MovesOn names.now state.old state.new in_loop result (λ t. t)
        (second_way ty (plain other.now)) }
    ensures kept { OnOk result (Keeps state.old state.new) }
{
    let also = typed(names, state, other, in_loop)?;
    kept(TypeRule::T6, other.span.from, ty.alike(also))?;
    Ok(ty.joined(also))
}

// What has no value, and neither has the whole.
#[cycle(typing)]
#[inline(never)]
fn idle(names: &Names, state: &mut CheckingState, e: &Exp, in_loop: bool) -> Result<Ty, TypeFault>
    requires { NamesWithin (length names.now) (plain e.now) }
    ensures given { MovesOn names.now state.old state.new in_loop result (λ t. t)
        (idle (plain e.now)) }
    ensures kept { OnOk result (Keeps state.old state.new) }
{
    without_value(names, state, e, in_loop)?;
    Ok(Ty::nothing())
}

// The body of a loop that counts.
#[cycle(typing)]
#[inline(never)]
fn counted(
    names: &Names,
    state: &mut CheckingState,
    x: Ident,
    body: &Exp,
    in_loop: bool,
) -> Result<Ty, TypeFault>
    requires { NamesWithin (length names.now) (plain body.now) }
    ensures given { MovesOn names.now state.old state.new in_loop result (λ t. t)
        (counting x (plain body.now)) }
    ensures kept { OnOk result (Keeps state.old state.new) }
{
    let count = state.bindings.len();
    open_counter(state, x)?;
    let ty = idle(names, state, body, true)?;
    state.bindings.cut_to(count);
    Ok(ty)
}

#[cycle(typing)]
#[inline(never)]
fn made_record(
    names: &Names,
    state: &mut CheckingState,
    x: Ident,
    inits: &Inits,
    in_loop: bool,
) -> Result<Ty, TypeFault>
    requires x { NameIsWithin (length names.now) x }
    requires inits { InitsWithin (length names.now) (plain_inits inits.now) }
    ensures given { MovesOn names.now state.old state.new in_loop result (λ t. t)
        (typing.typed (tree.Make nowhere x (plain_inits inits.now))) }
    ensures kept { OnOk result (Keeps state.old state.new) }
{
    let ty = type_named(names, state, x)?;
    let fields = made(state, ty, x.span.from, inits)?;
    typed_fields(names, state, inits, &fields, in_loop)?;
    Ok(ty)
}

// The fields' values of a record, each of its type.
#[cycle(typing)]
fn typed_fields(
    names: &Names,
    state: &mut CheckingState,
    inits: &Inits,
    fields: &[(u32, Ty)],
    in_loop: bool,
) -> Result<(), TypeFault>
    requires names { InitsWithin (length names.now) (plain_inits inits.now) }
    requires as_many { init_count (plain_inits inits.now) ≡ length fields.now }
    ensures given { MovesOn names.now state.old state.new in_loop result (λ _. tt)
        (typing.expect_fields (plain_inits inits.now) fields.now) }
    ensures kept { OnOk result (Keeps state.old state.new) }
{
    let mut at = 0;
    for init in &inits.items {
        init_named(names, inits, init);
        let field = fields[at];
        fitting(names, state, &init.value, field.1, in_loop)?;
        at += 1;
    }
    Ok(())
}

// A loop's variable isn't assigned.
#[inline(never)]
fn assignable(names: &Names, state: &CheckingState, place: &Var) -> Result<(), TypeFault>
    requires { PlaceWithin (length names.now) (plain_lvalue place.now) }
    ensures { Judges names.now state.now result (λ _. tt)
        (typing.assignable (plain_lvalue place.now)) }
{
    match place {
        Var::Simple(x) => kept(
            TypeRule::T15,
            x.span.from,
            !is_loop_variable(names, state, *x),
        ),
        Var::Field(..) => Ok(()),
        Var::Index(..) => Ok(()),
    }
}

// Expressions in order: the type of the last one.
#[cycle(typing)]
#[inline(never)]
fn typed_last(
    names: &Names,
    state: &mut CheckingState,
    items: &Exps,
    in_loop: bool,
) -> Result<Ty, TypeFault>
    requires { ExpsWithin (length names.now) (plain_exps items.now) }
    ensures given { MovesOn names.now state.old state.new in_loop result (λ t. t)
        (typing.typed_last none_type (plain_exps items.now)) }
    ensures kept { OnOk result (Keeps state.old state.new) }
{
    let mut last = Ty::nothing();
    for e in &items.items {
        exp_named(names, items, e);
        last = typed(names, state, e, in_loop)?;
    }
    Ok(last)
}

// The declarations of a `let`, which the rest of it sees.
#[cycle(typing)]
#[inline(never)]
fn declared(
    names: &Names,
    state: &mut CheckingState,
    decs: &Decs,
    in_loop: bool,
) -> Result<(), TypeFault>
    requires { DecsWithin (length names.now) (decs_of decs.now.items.items) }
    ensures given { MovesOn names.now state.old state.new in_loop result
        (λ _. scope_of names.now state.new in_loop)
        (typing.declare (decs_of decs.now.items.items)) }
    ensures opens { OnOk result (Opens state.old state.new) }
{
    for dec in &decs.items {
        dec_named(names, decs, dec);
        declaration(names, state, dec, in_loop)?;
    }
    Ok(())
}

#[cycle(typing)]
fn declaration(
    names: &Names,
    state: &mut CheckingState,
    dec: &Dec,
    in_loop: bool,
) -> Result<(), TypeFault>
    requires { DecsWithin (length names.now) (plain_dec dec.now tree.no_decs) }
    ensures given { Declares names.now state.old state.new in_loop result (plain_dec dec.now) }
    ensures opens { OnOk result (Opens state.old state.new) }
{
    match dec {
        Dec::Types(group) => declare_types(names, state, group.as_slice()),
        Dec::Variable(x, None, value) => own_variable(names, state, *x, value, in_loop),
        Dec::Variable(x, Some(kind), value) => typed_variable(
            names, state, *x, *kind, value, in_loop,
        ),
        Dec::Functions(group) => declare_functions(names, state, group),
    }
}

// A variable that is declared without a type.
#[cycle(typing)]
#[inline(never)]
fn own_variable(
    names: &Names,
    state: &mut CheckingState,
    x: Ident,
    value: &Exp,
    in_loop: bool,
) -> Result<(), TypeFault>
    requires { NamesWithin (length names.now) (plain value.now) }
    ensures given { Declares names.now state.old state.new in_loop result
        (tree.variable x None (plain value.now)) }
    ensures opens { OnOk result (Opens state.old state.new) }
{
    let ty = typed(names, state, value, in_loop)?;
    let ty = own_type(ty, value.span.from)?;
    open_variable(state, x, ty)?;
    Ok(())
}

// A variable that is declared with its type.
#[cycle(typing)]
#[inline(never)]
fn typed_variable(
    names: &Names,
    state: &mut CheckingState,
    x: Ident,
    kind: Ident,
    value: &Exp,
    in_loop: bool,
) -> Result<(), TypeFault>
    requires kind { NameIsWithin (length names.now) kind }
    requires value { NamesWithin (length names.now) (plain value.now) }
    ensures given { Declares names.now state.old state.new in_loop result
        (tree.variable x (Some kind) (plain value.now)) }
    ensures opens { OnOk result (Opens state.old state.new) }
{
    let ty = type_named(names, state, kind)?;
    fitting(names, state, value, ty, in_loop)?;
    open_variable(state, x, ty)?;
    Ok(())
}

// A loop's variable.
fn open_counter(state: &mut CheckingState, x: Ident) -> Result<(), Memory>
    ensures bindings { OnOk result (state.new.bindings
        ≡ (x.name.0, variable_at x.span.from int_type true) ∷ state.old.bindings) }
    ensures types { state.new.types ≡ state.old.types }
    ensures noted { noted_of state.new ≡ noted_of state.old }
{
    let binding = Binding::variable(x.span.from, Ty::int(), true);
    state.bindings.push(x.name.0, binding)
}

fn open_variable(state: &mut CheckingState, x: Ident, ty: Ty) -> Result<(), Memory>
    ensures bindings { OnOk result (state.new.bindings
        ≡ (x.name.0, variable_at x.span.from ty false) ∷ state.old.bindings) }
    ensures types { state.new.types ≡ state.old.types }
    ensures noted { noted_of state.new ≡ noted_of state.old }
{
    let binding = Binding::variable(x.span.from, ty, false);
    state.bindings.push(x.name.0, binding)?;
    Ok(())
}

// Consecutive functions, whose names the rest of the scope sees.
#[cycle(typing)]
#[inline(never)]
fn declare_functions(
    names: &Names,
    state: &mut CheckingState,
    group: &FunDecs,
) -> Result<(), TypeFault>
    requires { FunctionsWithin (length names.now) (plain_functions group.now) }
    ensures given { (in_loop : Bool) → Declares names.now state.old state.new in_loop result
        (tree.functions (plain_functions group.now)) }
    ensures opens { OnOk result (Opens state.old state.new) }
{
    all_fresh(state, group)?;
    let signatures = headers(names, state, group)?;
    open_functions(state, group, &signatures)?;
    bodies(names, state, group, &signatures)
}

#[cycle(typing)]
fn bodies(
    names: &Names,
    state: &mut CheckingState,
    group: &FunDecs,
    signatures: &[Signature],
) -> Result<(), TypeFault>
    requires names { FunctionsWithin (length names.now) (plain_functions group.now) }
    requires as_many { function_count (plain_functions group.now) ≡ length signatures.now }
    ensures given { MovesOn names.now state.old state.new false result (λ _. tt)
        (typing.bodies (plain_functions group.now) signatures.now) }
    ensures kept { OnOk result (Keeps state.old state.new) }
{
    let mut at = 0;
    for function in &group.items {
        function_named(names, group, function);
        body(names, state, function, &signatures[at])?;
        at += 1;
    }
    Ok(())
}

#[cycle(typing)]
fn body(
    names: &Names,
    state: &mut CheckingState,
    function: &FunDec,
    signature: &Signature,
) -> Result<(), TypeFault>
    requires names { NamesWithin (length names.now) (plain function.now.body) }
    ensures given { MovesOn names.now state.old state.new false result (λ _. tt)
        (one_body function.now.params function.now.result (plain function.now.body) signature.now) }
    ensures kept { OnOk result (Keeps state.old state.new) }
{
    let count = state.bindings.len();
    open_params(state, function.params.as_slice(), signature.params())?;
    let got = typed(names, state, &function.body, false)?;
    body_fits(
        function.result,
        signature.outcome(),
        got,
        function.body.span.from,
    )?;
    state.bindings.cut_to(count);
    Ok(())
}

// The parts of a list have the names of the list. These say so where a loop comes to a part.
fn exp_named(names: &Names, all: &Exps, e: &Exp)
    requires all { ExpsWithin (length names.now) (plain_exps all.now) }
    requires among { IsAmong e.now (out-Exps all.now).items.items }
    ensures { NamesWithin (length names.now) (plain e.now) }
{}

fn init_named(names: &Names, all: &Inits, init: &Init)
    requires all { InitsWithin (length names.now) (plain_inits all.now) }
    requires among { IsAmong init.now (out-Inits all.now).items.items }
    ensures { NamesWithin (length names.now) (plain init.now.value) }
{}

fn dec_named(names: &Names, all: &Decs, dec: &Dec)
    requires all { DecsWithin (length names.now) (decs_of all.now.items.items) }
    requires among { IsAmong dec.now all.now.items.items }
    ensures { DecsWithin (length names.now) (plain_dec dec.now tree.no_decs) }
{}

fn function_named(names: &Names, all: &FunDecs, function: &FunDec)
    requires all { FunctionsWithin (length names.now) (plain_functions all.now) }
    requires among { IsAmong function.now (out-FunDecs all.now).items.items }
    ensures { NamesWithin (length names.now) (plain function.now.body) }
{}

// A choice is one with or without a second way, whose parts have its names.
fn choice_named(names: &Names, e: &Exp, test: &Box<Exp>, this: &Box<Exp>, other: &Option<Box<Exp>>)
    requires all { NamesWithin (length names.now) (plain e.now) }
    requires parts { e.now.kind ≡ If test.now this.now other.now }
    ensures whole { plain e.now
        ≡ choice e.now.span (plain (box_value test.now)) (plain (box_value this.now))
        (option_map (λ b. plain (box_value b)) other.now) }
    ensures test { NamesWithin (length names.now) (plain (box_value test.now)) }
    ensures this { NamesWithin (length names.now) (plain (box_value this.now)) }
    ensures other { IfSome other.now (λ b. NamesWithin (length names.now) (plain (box_value b))) }
{}

fn let_named(names: &Names, e: &Exp, decs: &Decs, body: &Exps)
    requires all { NamesWithin (length names.now) (plain e.now) }
    requires parts { e.now.kind ≡ Let decs.now body.now }
    ensures decs { DecsWithin (length names.now) (decs_of decs.now.items.items) }
    ensures body { ExpsWithin (length names.now) (plain_exps body.now) }
{}
