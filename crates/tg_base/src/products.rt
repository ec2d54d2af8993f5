ghost use Rattle.std.specs.Prelude.{ℕ, ◌<◌, ◌^◌};
ghost use Rattle.tg_base.specs.laws.ProductLaw.{IsExactBySign};

/// A law about words: a product is in range exactly where its upper word is the sign of its lower
/// one. It does nothing when it runs.
pub fn product_in_range()
    ensures { (a b : ℕ) → a < 2 ^ 32 → b < 2 ^ 32 → IsExactBySign a b }
{}
