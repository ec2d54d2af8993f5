ghost use Rattle.std.specs.Prelude.{◌≡◌};

use tg_escape::{Escapes, Links};
use tg_typecheck::{Means, Notes};

/// What the passes before found of a program: what its uses mean, which variables escape, and
/// through the static links of which functions nested ones go.
#[derive(Drop)]
pub(crate) struct Findings<'a> {
    pub(crate) notes: &'a Notes,
    pub(crate) escapes: &'a Escapes,
    pub(crate) links: &'a Links,
}

impl Findings<'_> {
    ghost use Rattle.tg_translate.specs.mirror.Scopes.{findings_of};

    /// What is noted at a byte.
    pub(crate) fn meaning(&self, at: u32) -> Option<Means>
        ensures { result ≡ (findings_of self.now).meaning at }
    {
        self.notes.find(at)
    }

    /// Whether the variable that is declared at a byte escapes.
    pub(crate) fn escapes(&self, at: u32) -> bool
        ensures { result ≡ (findings_of self.now).escapes at }
    {
        self.escapes.has(at)
    }

    /// Whether the function that is declared at a byte keeps its static link in a slot.
    pub(crate) fn keeps_link(&self, at: u32) -> bool
        ensures { result ≡ (findings_of self.now).keeps_link at }
    {
        self.links.has(at)
    }
}
