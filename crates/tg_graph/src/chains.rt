ghost use Rattle.std.specs.Prelude.{◌≡◌, ◌≢◌, ◌<◌, ◌≤◌, ◌-◌, [], ◌∷◌, ℕ, List, length, slice_index};
ghost use Rattle.std.specs.List.{range_with_len};
ghost use Rattle.tg_graph.specs.Lists.{without};
ghost use Rattle.tg_graph.specs.glue.Chains.{AreAlone, AreInverse, Relinks, joined_to};

/// Takes a node out of its list and links it to itself.
pub(crate) fn unlink(next: &mut [u32], prev: &mut [u32], node: u32)
    requires inverse { AreInverse next.old prev.old }
    requires within { node < length next.old }
    ensures inverse { AreInverse next.new prev.new }
    ensures alone { slice_index next.new node ≡ node }
    ensures lists { (n : ℕ) → node < n → Relinks next.old next.new n (λ xs _. without node xs) }
{
    let behind = next[node as usize];
    let before = prev[node as usize];
    next[before as usize] = behind;
    prev[behind as usize] = before;
    next[node as usize] = node;
    prev[node as usize] = node;
}

/// Puts a node that is linked to itself last in the list of an end.
pub(crate) fn link_last(next: &mut [u32], prev: &mut [u32], node: u32, end: u32)
    requires inverse { AreInverse next.old prev.old }
    requires order { node < end }
    requires within { end < length next.old }
    requires alone { slice_index next.old node ≡ node }
    ensures inverse { AreInverse next.new prev.new }
    ensures others { (y : ℕ) → y < end → y ≢ node → slice_index next.old y ≡ y →
        slice_index next.new y ≡ y }
    ensures lists { (n : ℕ) → node < n → n ≤ end →
        Relinks next.old next.new n (joined_to end (node ∷ [])) }
{
    let last = prev[end as usize];
    next[last as usize] = node;
    prev[node as usize] = last;
    next[node as usize] = end;
    prev[end as usize] = node;
}

/// Puts nodes that are linked to themselves last in the list of an end, in rising order.
pub(crate) fn link_range(next: &mut [u32], prev: &mut [u32], from: u32, to: u32, end: u32)
    requires inverse { AreInverse next.old prev.old }
    requires nodes { from ≤ to }
    requires order { to ≤ end }
    requires within { end < length next.old }
    requires alone { AreAlone next.old from to }
    ensures inverse { AreInverse next.new prev.new }
    ensures others { (y : ℕ) → to ≤ y → y < end → slice_index next.old y ≡ y →
        slice_index next.new y ≡ y }
    ensures lists { (n : ℕ) → to ≤ n → n ≤ end →
        Relinks next.old next.new n (joined_to end (range_with_len from (to - from))) }
{
    for node in from..to {
        link_last(next, prev, node, end);
    }
}
