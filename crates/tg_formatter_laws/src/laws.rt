ghost use Rattle.tg_formatter_laws.specs.laws.Laws.{
  FormattingAgain,
  LexedAreWritable,
  SameNesting,
  SameTokens,
  SameTree,
};

/// The law that the tokens of a text can be written. It does nothing.
pub fn lexed_are_writable()
    ensures { LexedAreWritable }
{}

/// The law that the canonical text of tokens has the same tokens. It does nothing.
pub fn same_tokens()
    ensures { SameTokens }
{}

/// The law that the canonical text of the tokens of a canonical text is that text. It does nothing.
pub fn formatting_again()
    ensures { FormattingAgain }
{}

/// The laws that the same tokens elsewhere are the same tree but for its places, and nest as deep.
/// They do nothing.
pub fn same_tree()
    ensures tree { SameTree }
    ensures nesting { SameNesting }
{}
