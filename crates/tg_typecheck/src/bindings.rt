ghost use Rattle.std.specs.Prelude.{◌≡◌, IfOk, Some};
ghost use Rattle.std.specs.Option.{option_map};
ghost use Rattle.tg_typecheck.specs.Typing.{is_loop_variable};
ghost use Rattle.tg_typecheck.specs.glue.Bindings.{variable_in, function_in, IsDeclared};
ghost use Rattle.tg_typecheck.specs.Scopes as scopes;

use crate::kinds::Ty;
use std::marker::Model;
use tg_base::Memory;

/// The types of a function, which contracts see as the definition's signature.
#[derive(Drop)]
pub(crate) struct Signature {
    params: Vec<Ty>,
    result: Ty,
}

impl Model for Signature {
    ghost use Rattle.tg_typecheck.specs.Scopes.{Signature as PlainSignature};

    ghost Value = { PlainSignature };

    ghost view = { λ s. record { params = s.params.items; result = s.result } };
}

impl Signature {
    pub(crate) fn new(params: Vec<Ty>, outcome: Ty) -> Signature
        ensures { result ≡ record { params = params.items; result = outcome } }
    {
        Signature {
            params,
            result: outcome,
        }
    }

    pub(crate) fn params(&self) -> &[Ty]
        ensures { result.now ≡ self.now.params }
    {
        &self.params
    }

    pub(crate) fn outcome(&self) -> Ty
        ensures { result ≡ self.now.result }
    {
        self.result
    }

    /// The same signature.
    pub(crate) fn copy(&self) -> Result<Signature, Memory>
        ensures { IfOk result (λ s. s ≡ self.now) }
    {
        let params = Vec::from_slice(*self.params.allocator(), &self.params)?;
        Ok(Signature {
            params,
            result: self.result,
        })
    }
}

/// What a name of variables and functions is declared as.
#[derive(Drop)]
pub(crate) enum Meaning {
    Variable(u32, Ty, bool),
    Function(u32, Signature),
}

/// A name's declaration, which contracts see as the definition's binding.
#[derive(Drop)]
pub(crate) struct Binding {
    meaning: Meaning,
}

impl Model for Binding {
    ghost use Rattle.tg_typecheck.specs.Scopes.{Binding as PlainBinding};

    ghost Value = { PlainBinding };

    ghost use Rattle.tg_typecheck.specs.glue.Bindings.{binding_of};

    ghost view = { λ b. binding_of b.meaning };
}

impl Binding {
    pub(crate) fn variable(at: u32, ty: Ty, is_loop: bool) -> Binding
        ensures { result ≡ scopes.variable_at at ty is_loop }
    {
        Binding {
            meaning: Meaning::Variable(at, ty, is_loop),
        }
    }

    pub(crate) fn function(at: u32, signature: Signature) -> Binding
        ensures { result ≡ scopes.function_at at signature }
    {
        Binding {
            meaning: Meaning::Function(at, signature),
        }
    }

    /// The byte of its declaration and its type, of a variable.
    pub(crate) fn as_variable(&self) -> Option<(u32, Ty)>
        ensures { result ≡ variable_in self.now }
    {
        match &self.meaning {
            Meaning::Variable(at, ty, _) => Some((*at, *ty)),
            Meaning::Function(..) => None,
        }
    }

    pub(crate) fn is_loop_variable(&self) -> bool
        ensures { result ≡ is_loop_variable (Some self.now) }
    {
        match &self.meaning {
            Meaning::Variable(_, _, is_loop) => *is_loop,
            Meaning::Function(..) => false,
        }
    }

    /// The byte of its declaration and its signature, of a function.
    pub(crate) fn as_function(&self) -> Option<(u32, &Signature)>
        ensures value { option_map (λ p. (p.0, p.1.now)) result ≡ function_in self.now }
        ensures declared { IsDeclared self.now }
    {
        match &self.meaning {
            Meaning::Variable(..) => None,
            Meaning::Function(at, signature) => Some((*at, signature)),
        }
    }
}
