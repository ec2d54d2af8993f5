use tg_base::Span;
use tg_syntax::Ident;

/// What a name is declared as.
#[derive(Clone, Copy)]
pub enum Sort {
    Variable,
    LoopVariable,
    /// A function with so many parameters.
    Function(usize),
    TypeName,
}

/// A declaration, and the bytes of the text from which it can be seen unless another hides it.
#[derive(Clone, Copy)]
pub struct Declaration {
    pub ident: Ident,
    pub sort: Sort,
    pub seen: Span,
}

/// A part of a program that explanations speak of.
#[derive(Clone, Copy)]
pub enum Part {
    Declared(Declaration),
    /// A call by this name, with so many arguments.
    Called(Ident, usize),
}
