ghost use Rattle.std.specs.Prelude.{◌≡◌, ◌<◌, ◌/◌, ◌==◌, ◌||◌, ℕ, length, OnOk};
ghost use Rattle.tg_graph.specs.glue.Bits.{bit, area};

use tg_base::Memory;

/// How many pairs a tile has.
pub(crate) const AREA: usize = 16384;

/// Whether the bit at a place is 1.
pub(crate) fn has_bit(words: &[u32], at: usize) -> bool
    ensures { result ≡ bit words.now at }
{
    at / 32 < words.len() && (words[at / 32] >> (at % 32)) & 1 == 1
}

/// Takes all words of a tile, where that of a place isn't there.
pub(crate) fn reach(words: &mut Vec<u32>, at: usize) -> Result<(), Memory>
    requires { at < area }
    ensures within { OnOk result (at / 32 < length words.new.items) }
    ensures bits { (k : ℕ) → bit words.new.items k ≡ bit words.old.items k }
{
    if at / 32 >= words.len() {
        words.resize(AREA / 32, 0)?;
    }
    Ok(())
}

/// Makes the bit at a place 1.
pub(crate) fn set_bit(words: &mut Vec<u32>, at: usize)
    requires { at / 32 < length words.old.items }
    ensures { (k : ℕ) → bit words.new.items k ≡ ((k == at) || bit words.old.items k) }
{
    words[at / 32] |= 1 << (at % 32);
}
