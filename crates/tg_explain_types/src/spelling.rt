ghost use Rattle.std.specs.Prelude.{◌≡◌, ◌==◌, ◌<◌, drop, length, slice_index};
ghost use Rattle.std.specs.List.{common_prefix_len};
ghost use Rattle.tg_explain_types.specs.Spelling as spelling;

/// Whether one text becomes another by one edit at most.
pub(crate) fn is_one_edit(one: &[u8], other: &[u8]) -> bool
    ensures { result ≡ spelling.is_one_edit one.now other.now }
{
    let skip = alike_length(one, other);
    let (one, other) = (rest_from(one, skip), rest_from(other, skip));
    let (less, fewer) = (rest_from(one, 1), rest_from(other, 1));
    less == other || one == fewer || less == fewer
}

/// Whether one text becomes another by two edits at most.
pub(crate) fn is_two_edits(one: &[u8], other: &[u8]) -> bool
    ensures { result ≡ spelling.is_two_edits one.now other.now }
{
    let skip = alike_length(one, other);
    let (one, other) = (rest_from(one, skip), rest_from(other, skip));
    let (less, fewer) = (rest_from(one, 1), rest_from(other, 1));
    is_one_edit(less, other) || is_one_edit(one, fewer) || is_one_edit(less, fewer)
}

/// How many bytes two texts begin with alike.
fn alike_length(one: &[u8], other: &[u8]) -> usize
    ensures { result ≡ common_prefix_len (λ a b. a == b) one.now other.now }
{
    let end = one.len().min(other.len());
    for at in 0..end {
        if !is_alike(one, other, at) {
            return at;
        }
    }
    end
}

/// Whether two texts have one byte at a place.
fn is_alike(one: &[u8], other: &[u8], at: usize) -> bool
    requires in_one { at < length one.now }
    requires in_other { at < length other.now }
    ensures { result ≡ (slice_index one.now at == slice_index other.now at) }
{
    one[at] == other[at]
}

/// A text from a byte on.
pub(crate) fn rest_from(text: &[u8], at: usize) -> &[u8]
    ensures { result.now ≡ drop at text.now }
{
    if at <= text.len() { &text[at..] } else { &[] }
}
