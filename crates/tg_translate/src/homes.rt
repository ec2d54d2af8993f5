use tg_base::Label;
use tg_frame::Access;
use tg_symbols::Table;
use tg_tree::Fragments;

/// The home of a variable, and the level of the function that declares it.
#[derive(Clone, Copy)]
pub struct Home {
    pub level: u32,
    pub access: Access,
}

/// A function's label, and the level of the function that declares it.
#[derive(Clone, Copy)]
pub struct Callee {
    pub level: u32,
    pub label: Label,
}

/// Where a part of a text stands: the level of its function, whether that function keeps its static
/// link in a slot, and how many loops a `break` leaves before the one that it ends.
#[derive(Clone, Copy)]
pub struct Within {
    pub level: u32,
    pub link_in_slot: bool,
    pub leave: u32,
}

/// A program's trees, and what was declared: the homes of its variables and parameters, and the
/// labels of its functions, each by the byte of the identifier that declares it, the newest first.
/// The static link of a declared function is the first parameter of its frame.
#[derive(Drop)]
pub struct TranslatedProgram {
    pub fragments: Fragments,
    pub homes: Table<Home>,
    pub callees: Table<Callee>,
}
