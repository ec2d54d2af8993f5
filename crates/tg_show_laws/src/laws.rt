ghost use Rattle.tg_show_laws.specs.laws.Laws.{
  BlocksAreTold,
  CanonicalAreTold,
  FoldedAreTold,
  InstructionsAreTold,
  TracesAreTold,
  TreesAreTold,
};

/// The laws that the text of a tree tells the tree: no two trees, or folded trees, have one text,
/// where their numbers are words and no name has a comma. They do nothing.
pub fn trees_are_told()
    ensures tree { TreesAreTold }
    ensures folded { FoldedAreTold }
{}

/// The laws that the texts of canonical statements, of blocks and of flat code tell these, where
/// numbers are words, no name has a comma, and blocks and flat code are of flat statements. They do
/// nothing.
pub fn codes_are_told()
    ensures canonical { CanonicalAreTold }
    ensures blocks { BlocksAreTold }
    ensures traces { TracesAreTold }
{}

/// The law that the text of instructions tells them, whatever the names of temporaries are, where
/// numbers, fields and registers are such as their types have. It does nothing.
pub fn instructions_are_told()
    ensures { InstructionsAreTold }
{}
