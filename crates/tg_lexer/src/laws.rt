ghost use Rattle.std.specs.Prelude.{◌≡◌, ◌≤◌, ℕ, List, length};
ghost use Rattle.tg_base.specs.Interned.{AreDistinct};
ghost use Rattle.tg_syntax.specs.declared.faults.LexRule.{LexRule};
ghost use Rattle.tg_syntax.specs.declared.tokens.Spanned.{Spanned};
ghost use Rattle.tg_syntax.specs.Lexing.{Lexes};
ghost use Rattle.tg_syntax.specs.LexicalFaults.{HasLexicalFault};
ghost use Rattle.tg_lexer.specs.laws.Spelled.{SpansTokens};

/// The law that a text has at most one list of tokens, where no name stands twice. It does nothing.
pub fn lexes_once()
    ensures { (names : List (List ℕ)) (text : List ℕ) (one other : List Spanned) → AreDistinct names
        → Lexes names 0 text one → Lexes names 0 text other → one ≡ other }
{}

/// The law that a text of at most 262144 bytes with a lexical fault has no tokens. It does nothing.
pub fn fault_excludes_tokens()
    ensures { (text : List ℕ) (rule : LexRule) (at : ℕ) → HasLexicalFault text rule at
        → length text ≤ 262144 → (names : List (List ℕ)) (tokens : List Spanned)
        → Lexes names 0 text tokens → ⊥ }
{}

/// The law that a text has at most one first lexical fault. It does nothing.
pub fn faults_once()
    ensures { (text : List ℕ) (rule other : LexRule) (at to : ℕ) → HasLexicalFault text rule at
        → HasLexicalFault text other to → (rule ≡ other) × (at ≡ to) }
{}

/// The law that the span of each token covers the bytes that spell it. It does nothing.
pub fn spans_cover_bytes()
    ensures { SpansTokens }
{}
