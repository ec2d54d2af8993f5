// Trees with lists of trees (`Exps`, `Inits`, `Decs`, `FunDecs`) are structs with a public
// vector, and contracts see the plain tree.

use crate::tokens::Ident;
use tg_base::{Bytes, ListOf, Span};

/// A program: one expression.
#[derive(Drop)]
pub struct Program {
    pub body: Exp,
}

/// An expression with its place.
#[cycle(ast)]
#[derive(Drop)]
pub struct Exp {
    pub span: Span,
    pub kind: Kind,
}

/// An operator.
#[derive(Clone, Copy)]
pub enum Op {
    Plus,
    Minus,
    Times,
    Divide,
    Equal,
    NotEqual,
    Less,
    LessEqual,
    Greater,
    GreaterEqual,
    And,
    Or,
}

/// What an expression is.
#[cycle(ast)]
#[derive(Drop)]
pub enum Kind {
    Nil,
    Break,
    Int(u32),
    Text(Bytes),
    Read(Var),
    Call(Ident, Exps),
    Neg(Box<Exp>),
    Binary(Op, u32, Box<Exp>, Box<Exp>),
    Make(Ident, Inits),
    Fill(Ident, Box<Exp>, Box<Exp>),
    Assign(Var, Box<Exp>),
    If(Box<Exp>, Box<Exp>, Option<Box<Exp>>),
    While(Box<Exp>, Box<Exp>),
    For(Ident, Box<Exp>, Box<Exp>, Box<Exp>),
    Let(Decs, Exps),
    Seq(Exps),
}

/// An l-value.
#[cycle(ast)]
#[derive(Drop)]
pub enum Var {
    Simple(Ident),
    Field(Box<Var>, Ident),
    Index(Box<Var>, Box<Exp>),
}

/// A field's value.
#[cycle(ast)]
#[derive(Drop)]
pub struct Init {
    pub field: Ident,
    pub value: Exp,
}

/// Expressions.
#[cycle(ast)]
#[derive(Drop)]
pub struct Exps {
    pub items: Vec<Exp>,
}

/// Fields' values.
#[cycle(ast)]
#[derive(Drop)]
pub struct Inits {
    pub items: Vec<Init>,
}

/// Declarations.
#[cycle(ast)]
#[derive(Drop)]
pub struct Decs {
    pub items: Vec<Dec>,
}

/// Functions that may call each other.
#[cycle(ast)]
#[derive(Drop)]
pub struct FunDecs {
    pub items: Vec<FunDec>,
}

/// A declaration.
#[cycle(ast)]
#[derive(Drop)]
pub enum Dec {
    Types(TypeDecs),
    Variable(Ident, Option<Ident>, Exp),
    Functions(FunDecs),
}

/// A function's declaration.
#[cycle(ast)]
#[derive(Drop)]
pub struct FunDec {
    pub name: Ident,
    pub params: Params,
    pub result: Option<Ident>,
    pub body: Exp,
}

/// Types that may name each other.
pub type TypeDecs = ListOf<TypeDec>;

/// A type's declaration.
#[derive(Drop)]
pub struct TypeDec {
    pub name: Ident,
    pub form: Form,
}

/// A type's form.
#[derive(Drop)]
pub enum Form {
    Alias(Ident),
    Fields(Params),
    Array(Ident),
}

/// Parameters, or a record's fields.
pub type Params = ListOf<Param>;

/// A parameter, or a record's field.
#[derive(Clone, Copy)]
pub struct Param {
    pub name: Ident,
    pub kind: Ident,
}
