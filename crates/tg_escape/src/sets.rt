ghost use Rattle.std.specs.Prelude.{◌≡◌, OnOk, OnErr};
ghost use Rattle.std.specs.FinSet as set;

use std::alloc::Global;
use std::collections::HashSet;
use std::marker::Model;
use tg_base::Memory;

/// A set of bytes of a program's text.
#[derive(Drop)]
pub(crate) struct Bytes {
    bytes: HashSet<u32>,
}

impl Model for Bytes {
    ghost use Rattle.std.specs.Ordering.{nat_cmp};
    ghost use Rattle.std.specs.FinSet.{FinSet, code, from_list};
    ghost use Rattle.std.specs.Coded.{coded_ℕ};

    ghost Value = { FinSet nat_cmp };

    ghost coded = { code coded_ℕ };

    ghost view = { λ e. from_list e.bytes.keys };
}

impl Bytes {
    fn new(alloc: Global) -> Bytes
        ensures { result ≡ set.empty }
    {
        Bytes {
            bytes: HashSet::new(alloc),
        }
    }

    fn add(&mut self, at: u32) -> Result<(), Memory>
        ensures { OnOk result (self.new ≡ set.insert self.old at) }
    {
        self.bytes.insert(at)?;
        Ok(())
    }

    fn has(&self, at: u32) -> bool
        ensures { result ≡ set.contains self.now at }
    {
        self.bytes.contains(&at)
    }
}

/// The variables of a program that escape, each by the byte of its declaring identifier.
#[derive(Drop)]
pub struct Escapes {
    variables: Bytes,
}

impl Model for Escapes {
    ghost use Rattle.std.specs.Ordering.{nat_cmp};
    ghost use Rattle.std.specs.FinSet.{FinSet, code};
    ghost use Rattle.std.specs.Coded.{coded_ℕ};

    ghost Value = { FinSet nat_cmp };

    ghost coded = { code coded_ℕ };

    ghost view = { λ e. e.variables };
}

impl Escapes {
    pub(crate) fn new(alloc: Global) -> Escapes
        ensures { result ≡ set.empty }
    {
        Escapes {
            variables: Bytes::new(alloc),
        }
    }

    pub(crate) fn add(&mut self, at: u32) -> Result<(), Memory>
        ensures { OnOk result (self.new ≡ set.insert self.old at) }
    {
        self.variables.add(at)
    }

    /// Whether the variable that is declared at a byte escapes. It takes no memory, and one
    /// look-up in a hash set.
    pub fn has(&self, at: u32) -> bool
        ensures { result ≡ set.contains self.now at }
    {
        self.variables.has(at)
    }
}

/// The functions of a program through whose static links functions nested in them go, each by the
/// byte of its declaring identifier.
#[derive(Drop)]
pub struct Links {
    functions: Bytes,
}

impl Model for Links {
    ghost use Rattle.std.specs.Ordering.{nat_cmp};
    ghost use Rattle.std.specs.FinSet.{FinSet, code};
    ghost use Rattle.std.specs.Coded.{coded_ℕ};

    ghost Value = { FinSet nat_cmp };

    ghost coded = { code coded_ℕ };

    ghost view = { λ l. l.functions };
}

impl Links {
    pub(crate) fn new(alloc: Global) -> Links
        ensures { result ≡ set.empty }
    {
        Links {
            functions: Bytes::new(alloc),
        }
    }

    pub(crate) fn add(&mut self, at: u32) -> Result<(), Memory>
        ensures { OnOk result (self.new ≡ set.insert self.old at) }
    {
        self.functions.add(at)
    }

    /// Whether a function nested in the one that is declared at a byte, at any depth, goes through
    /// that function's static link. It takes no memory, and one look-up in a hash set.
    pub fn has(&self, at: u32) -> bool
        ensures { result ≡ set.contains self.now at }
    {
        self.functions.has(at)
    }
}
