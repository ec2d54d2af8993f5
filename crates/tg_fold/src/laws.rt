ghost use Rattle.tg_fold.specs.laws.Laws.{
  ClosedStays,
  ConditionsShrink,
  ExpressionsShrink,
  FlatStays,
  FlatTestsStay,
  FoldingIsFolded,
  FunctionsShrink,
  NamesStay,
  StatementsShrink,
  TempsStay,
  WordsStay,
};
ghost use Rattle.tg_fold.specs.laws.Meaning.{BodiesAreCarried, CallsAreCarried, FoldIsCorrect};

/// The law that nothing is left to fold in a folded body.
pub fn folding_is_folded()
    ensures { FoldingIsFolded }
{}

/// The laws of shapes: a folded body is closed if the body was, its constants are words if those
/// of the body were, and else it names nothing that the body didn't.
pub fn shapes_stay()
    ensures closed { ClosedStays }
    ensures names { NamesStay }
    ensures temps { TempsStay }
    ensures words { WordsStay }
{}

/// The laws of sizes: a folded function is no longer and needs no more, part by part, and what
/// was flat is flat.
pub fn fold_is_bounded()
    ensures expressions { ExpressionsShrink }
    ensures conditions { ConditionsShrink }
    ensures statements { StatementsShrink }
    ensures functions { FunctionsShrink }
    ensures flat { FlatStays }
    ensures flat_tests { FlatTestsStay }
{}

/// The laws of runs: a folded body does what the body did, with no more work, wherever calls do
/// what they did. So calls of the functions of a code do, and programs.
pub fn fold_is_correct()
    ensures bodies { BodiesAreCarried }
    ensures calls { CallsAreCarried }
    ensures programs { FoldIsCorrect }
{}
