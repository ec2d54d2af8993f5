// A label belongs to the segment in force where it stands, and waits for that segment's next
// item. `.text`, `.data` and `.globl` have no place, so labels before them wait on. A label at
// the end of the statics names the end before any padding.
//
// Labels are sorted once, when all lines are laid out, in at most n log n comparisons, so no
// choice of names makes the sort or a search long. Before a name stands the number that its
// first eight bytes make: most comparisons are decided by it, without a look at the text. Labels
// with one name are neighbours then. The least line at which one stands again is told before any
// other fault, since lines are laid out no further than to the first other one. A search for
// each label as it came, in a tree of millions of names, took up to six times as long. No more
// than 2^24 labels are kept, so that a text of labels that are all the same takes no more memory
// than others: where a text has more, one of those stands again, and wherever memory runs out,
// those so far are sorted all the same. A line's labels aren't listed: the line is cut again
// when they are added.
//
// A search for a label begins at signposts, every 1,024th name, which stand close together in
// memory. After the last that isn't after the name 32 marks are looked through, every 32nd name,
// and then 32 labels. A plain search among four million labels reads memory that is far away
// some twenty times. No answer rests on signposts and marks: where the 32 don't have the label,
// all are searched, which a text asks for once, since an unknown label ends it.

ghost use Rattle.std.specs.Prelude.{◌≡◌, [], IfSome, Some, MatchResult, map};
ghost use Rattle.tg_asm_text.specs.Assembly.{spot_among};
ghost use Rattle.tg_asm.specs.glue.Entries.{
  Finds,
  Rises,
  again_among,
  by_entry,
  by_key,
  by_name,
  first_again,
  lined_of,
  next_again,
  sooner,
};
ghost use Rattle.tg_asm.specs.glue.Fronts.{front_number};
ghost use Rattle.tg_asm.specs.glue.Spots.{found_spot, spot_of};

use crate::entries::{Entry, front};
use crate::spots::LabelTarget;
use std::alloc::Global;
use std::cmp::Ordering;
use std::marker::Model;

/// How many labels a mark stands for, at most, and how many marks a signpost: so few that the
/// processor reads them all at once.
const STRETCH: usize = 32;

/// The labels of a text, which contracts see as a list of names and spots. They stand in the order
/// of their names, so that no choice of names makes a search long.
#[derive(Drop)]
pub(crate) struct Labels<'a> {
    entries: Vec<Entry<'a>>,
    /// The name of the first label of each stretch, and of the first mark of each. They tell where a
    /// label stands if it is there, mostly without a look at memory that is far away. No answer
    /// rests on them.
    marks: Vec<(u64, &'a [u8])>,
    signposts: Vec<(u64, &'a [u8])>,
}

impl<'a> Model for Labels<'a> {
    ghost use Rattle.std.specs.Prelude.{ℕ, List, map};
    ghost use Rattle.std.specs.List.Sorted.{IsStrictlySortedBy};
    ghost use Rattle.tg_asm_text.specs.Assembly as assembly;
    ghost use Rattle.tg_asm.specs.glue.Entries.{by_key, key_of, label_of};

    ghost Value = { List (List ℕ × assembly.LabelTarget) };

    ghost view = { λ l. map label_of l.entries.items };

    ghost invariant = { λ l. IsStrictlySortedBy by_key (map key_of l.entries.items) };
}

/// The order of two names, each after its front.
fn compare(one: (u64, &[u8]), other: (u64, &[u8])) -> Ordering
    ensures { result ≡ by_key one.entry other.entry }
{
    match one.0.cmp(&other.0) {
        Ordering::Equal => one.1.cmp(other.1),
        order => order,
    }
}

/// The order of two labels with one front: by their names, and where those are the same by their
/// lines.
fn compare_names(one: &Entry<'_>, other: &Entry<'_>) -> Ordering
    ensures { result ≡ by_name one.now other.now }
{
    match one.key.1.cmp(other.key.1) {
        Ordering::Equal => one.line.cmp(&other.line),
        order => order,
    }
}

/// The order of two labels by their names, and of those with the same name by their lines.
fn compare_entries(one: &Entry<'_>, other: &Entry<'_>) -> Ordering
    ensures { result ≡ by_entry one.now other.now }
{
    match one.key.0.cmp(&other.key.0) {
        Ordering::Equal => compare_names(one, other),
        order => order,
    }
}

/// The line of a label that has the name of the one before it; none where it has another.
fn again(before: &Entry<'_>, entry: &Entry<'_>) -> Option<u64>
    ensures { result ≡ next_again before.now entry.now }
{
    if compare(before.key, entry.key).is_eq() {
        Some(entry.line)
    } else {
        None
    }
}

/// The lesser of two lines, where there are two.
fn earlier(one: Option<u64>, other: Option<u64>) -> Option<u64>
    ensures { result ≡ sooner one other }
{
    match (one, other) {
        (Some(one), Some(other)) => Some(one.min(other)),
        (Some(one), None) => Some(one),
        (None, other) => other,
    }
}

/// The first line with the name of a label before it, of labels in the order of their names and
/// lines.
fn first_line_again(entries: &[Entry<'_>]) -> Option<u64>
    ensures { result ≡ again_among entries.now }
{
    let mut first = None;
    for at in 1..entries.len() {
        first = earlier(first, again(&entries[at - 1], &entries[at]));
    }
    first
}

/// The names of the first labels of all stretches, or of some where memory runs out.
fn marks_of<'a>(alloc: Global, entries: &[Entry<'a>]) -> Vec<(u64, &'a [u8])> {
    let mut marks = Vec::new(alloc);
    for entry in entries.iter().step_by(STRETCH) {
        if marks.push(entry.key).is_err() {
            break;
        }
    }
    marks
}

/// The first marks of all stretches, or of some where memory runs out.
fn signposts_of<'a>(alloc: Global, marks: &[(u64, &'a [u8])]) -> Vec<(u64, &'a [u8])> {
    let mut signposts = Vec::new(alloc);
    for mark in marks.iter().step_by(STRETCH) {
        if signposts.push(*mark).is_err() {
            break;
        }
    }
    signposts
}

/// Where the marks begin of a signpost, the last that isn't after a name.
fn first_mark(signposts: &[(u64, &[u8])], key: (u64, &[u8])) -> usize {
    let passed = signposts.partition_point(|signpost| compare(*signpost, key).is_le());
    passed.saturating_sub(1).saturating_mul(STRETCH)
}

/// Where the stretch begins in which a name stands if it is a label: that of the last mark from a
/// place on that isn't after the name.
fn stretch_of(marks: &[(u64, &[u8])], place: usize, key: (u64, &[u8])) -> usize {
    let from = place.min(marks.len());
    let mut last = from;
    for at in from..from + (marks.len() - from).min(STRETCH) {
        if compare(marks[at], key).is_gt() {
            break;
        }
        last = at;
    }
    last.saturating_mul(STRETCH)
}

impl<'a> Labels<'a> {
    /// The labels of a text, which are given in its order; or the first line at which a label stands
    /// again.
    pub(crate) fn sorted(alloc: Global, mut entries: Vec<Entry<'a>>) -> Result<Labels<'a>, u64>
        requires { Rises 0 (map lined_of entries.items) }
        ensures { MatchResult result (Finds (map lined_of entries.entry.items))
            (λ line. first_again [] (map lined_of entries.entry.items) ≡ Some line) }
    {
        entries.sort_unstable_by(|one, other| compare_entries(one, other));
        match first_line_again(&entries) {
            Some(line) => Err(line),
            None => {
                let marks = marks_of(alloc, &entries);
                let signposts = signposts_of(alloc, &marks);
                Ok(Labels {
                    entries,
                    marks,
                    signposts,
                })
            }
        }
    }

    /// The spot of a label that stands in the stretch from a place on.
    fn find_behind(&self, place: usize, key: (u64, &'a [u8])) -> Option<LabelTarget>
        requires { key.0 ≡ front_number key.1.now }
        ensures { IfSome result (λ spot. spot_among self.now key.entry.1.now ≡ Some (spot_of spot)) }
    {
        let from = place.min(self.entries.len());
        let to = from + (self.entries.len() - from).min(STRETCH);
        for entry in &self.entries[from..to] {
            if compare(entry.key, key).is_eq() {
                return Some(entry.spot);
            }
        }
        None
    }

    /// The spot of a label, by a search among all.
    fn find_among_all(&self, key: (u64, &'a [u8])) -> Option<LabelTarget>
        requires { key.0 ≡ front_number key.1.now }
        ensures { found_spot result ≡ spot_among self.now key.entry.1.now }
    {
        match self
            .entries
            .binary_search_by(|entry| compare(entry.key, key))
        {
            Ok(at) => Some(self.entries[at].spot),
            Err(_) => None,
        }
    }

    /// The spot of a label.
    pub(crate) fn find(&self, name: &'a [u8]) -> Option<LabelTarget>
        ensures { found_spot result ≡ spot_among self.now name.now }
    {
        let key = (front(name), name);
        let mark = first_mark(&self.signposts, key);
        match self.find_behind(stretch_of(&self.marks, mark, key), key) {
            Some(spot) => Some(spot),
            None => self.find_among_all(key),
        }
    }
}
