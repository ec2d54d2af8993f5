ghost use Rattle.std.specs.Prelude.{◌≡◌};
ghost use Rattle.tg_escape.specs.Uses.{a_variable, a_function};
ghost use Rattle.tg_escape.specs.Links.{level_of};
ghost use Rattle.tg_escape.specs.glue.Declarations.{variable_outside};

use std::marker::Model;

/// What a name is declared to be: a variable, with the byte of its declaring identifier, or a
/// function; each with the level of the text that declares it.
#[derive(Drop)]
pub(crate) enum Meaning {
    Variable(u32, usize),
    Function(usize),
}

/// A name's declaration, which contracts see as the definition's.
#[derive(Drop)]
pub(crate) struct Declaration {
    meaning: Meaning,
}

impl Model for Declaration {
    ghost use Rattle.tg_escape.specs.Uses.{DeclaredAs};

    ghost Value = { DeclaredAs };

    ghost use Rattle.tg_escape.specs.glue.Declarations.{declared_as};

    ghost view = { λ d. declared_as d.meaning };
}

impl Declaration {
    pub(crate) fn variable(at: u32, level: usize) -> Declaration
        ensures { result ≡ a_variable at level }
    {
        Declaration {
            meaning: Meaning::Variable(at, level),
        }
    }

    pub(crate) fn function(level: usize) -> Declaration
        ensures { result ≡ a_function level }
    {
        Declaration {
            meaning: Meaning::Function(level),
        }
    }

    /// The level of the text that declares the name.
    pub(crate) fn level(&self) -> usize
        ensures { result ≡ level_of self.now }
    {
        match self.meaning {
            Meaning::Variable(_, own) | Meaning::Function(own) => own,
        }
    }

    /// The byte of a variable that belongs to a function outside of those of a level.
    pub(crate) fn outside(&self, level: usize) -> Option<u32>
        ensures { result ≡ variable_outside level self.now }
    {
        match self.meaning {
            Meaning::Variable(at, own) if own < level => Some(at),
            _ => None,
        }
    }
}
