ghost use Rattle.std.specs.Prelude.{◌≡◌, ℕ, List};
ghost use Rattle.tg_syntax.specs.declared.tokens.Spanned.{Spanned};
ghost use Rattle.tg_syntax.specs.Tree.{Exp};
ghost use Rattle.tg_syntax.specs.Grammar.{IsProgram};
ghost use Rattle.tg_syntax.specs.SyntaxFaults.{IsShallow};
ghost use Rattle.tg_parser.specs.declared.faults.SyntaxRule.{SyntaxRule};
ghost use Rattle.tg_parser.specs.Answers.{HasSyntaxFault};

/// The law that a list of tokens has at most one first fault of syntax. It does nothing.
pub fn faults_once()
    ensures { (tokens : List Spanned) (rule other : SyntaxRule) (at to : ℕ)
        → HasSyntaxFault tokens rule at → HasSyntaxFault tokens other to
        → (rule ≡ other) × (at ≡ to) }
{}

/// The law that a list of tokens with a fault of syntax is no program whose nesting stays within
/// 256. It does nothing.
pub fn fault_excludes_program()
    ensures { (tokens : List Spanned) (rule : SyntaxRule) (at : ℕ) → HasSyntaxFault tokens rule at
        → (tree : Exp) → IsProgram tokens tree → IsShallow tokens → ⊥ }
{}
