ghost use Rattle.tg_syntax_laws.specs.laws.Places.{
  SpansExpressions,
  SpansPlaces,
  TokensStand,
  ProgramsInOrder,
  ProgramsApart,
  ProgramsNamed,
};
ghost use Rattle.tg_syntax_laws.specs.laws.Laws.{
  HasOneTree,
  GroupsLongest,
  ReadsEach,
  ReadsPrograms,
  RefusesFirst,
  WantsMore,
  EndsAlways,
};

/// A law: each list of tokens is the program of at most one tree.
pub fn one_tree()
    ensures { HasOneTree }
{}

/// A law: neighbouring declarations of types, and of functions, are one group (Appel, appendix
/// A.2).
pub fn groups_are_longest()
    ensures { GroupsLongest }
{}

/// The laws of descent: it reads each program and nothing else, and stops at the first token that
/// can't stand.
pub fn descent_is_exact()
    ensures each { ReadsEach }
    ensures programs { ReadsPrograms }
    ensures first { RefusesFirst }
    ensures more { WantsMore }
    ensures ends { EndsAlways }
{}

/// Laws of spans: an expression's runs from its first token to its last.
pub fn spans_are_exact()
    ensures expressions { SpansExpressions }
    ensures places { SpansPlaces }
{}

/// Laws of places: tokens stand in order, so identifiers and operators begin at bytes of their own,
/// and each name is known.
pub fn places_are_apart()
    ensures tokens { TokensStand }
    ensures order { ProgramsInOrder }
    ensures apart { ProgramsApart }
    ensures names { ProgramsNamed }
{}
