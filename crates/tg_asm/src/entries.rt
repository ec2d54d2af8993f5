ghost use Rattle.std.specs.Prelude.{◌≡◌, slice_index_or};
ghost use Rattle.tg_asm.specs.glue.Fronts.{front_number};

use crate::spots::LabelTarget;

/// A label of a text: its name after the name's front, its line, and what it stands for. By the
/// front most comparisons are decided without a look at the text.
#[derive(Clone, Copy)]
pub(crate) struct Entry<'a> {
    pub(crate) key: (u64, &'a [u8]),
    pub(crate) line: u64,
    pub(crate) spot: LabelTarget,
    ghost fronted: { key.0 ≡ front_number key.1.now },
}

/// A byte of a name, or 0 after its end.
fn byte_at(name: &[u8], at: usize) -> u8
    ensures { result ≡ slice_index_or name.now at 0 }
{
    if at < name.len() { name[at] } else { 0 }
}

/// The first eight bytes of a name as a number, in which the first weighs most.
#[tactic(auto, unfolding(crate::specs::glue::Fronts::front_number))]
pub(crate) fn front(name: &[u8]) -> u64
    ensures { result ≡ front_number name.now }
{
    u64::from_be_bytes([
        byte_at(name, 0),
        byte_at(name, 1),
        byte_at(name, 2),
        byte_at(name, 3),
        byte_at(name, 4),
        byte_at(name, 5),
        byte_at(name, 6),
        byte_at(name, 7),
    ])
}
