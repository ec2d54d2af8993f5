ghost use Rattle.std.specs.Prelude.{◌≡◌, ℕ, List};
ghost use Rattle.tg_command.specs.Commands.{Ask, Asked, IsUsageFault};

/// The law that words ask for at most one command, and for none where they have a usage fault. It
/// does nothing.
pub fn asks_once()
    ensures once { (words : List (List ℕ)) (a b : Asked) → Ask words a → Ask words b → a ≡ b }
    ensures none { (words : List (List ℕ)) (a : Asked) → Ask words a → IsUsageFault words → ⊥ }
{}
