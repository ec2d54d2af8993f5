// What operands of `.word` and `.byte` put into the statics is read where it is wanted, four
// times over two passes. A list of it would take more memory than all else.

ghost use Rattle.std.specs.Prelude.{
  ◌≡◌,
  ◌≤◌,
  ◌++◌,
  ◌∷◌,
  [],
  map,
  min,
  length,
  OnErr,
  OnOk,
  IfNone,
  IfOk,
  Ok,
};
ghost use Rattle.tg_machine_state.specs.State.{most_bytes};
ghost use Rattle.tg_asm_text.specs.Assembly as assembly;
ghost use Rattle.tg_asm_text.specs.Items as items;
ghost use Rattle.tg_asm.specs.glue.Cuts.{labels_of, operand_of};
ghost use Rattle.tg_asm.specs.glue.Entries.{AreFirst, Rises, first_again};
ghost use Rattle.tg_asm.specs.glue.Layouts.{
  GivesLayout,
  IsSmall,
  TellsAgain,
  UnlessMemory,
  ended,
  laid_of,
  layout_of,
  lined_at,
  lined_labels,
  lined_of_line,
  lined_of_reading,
  put_labels,
  put_line,
  put_reading,
  told,
};
ghost use Rattle.tg_asm.specs.glue.Readings.{reading_of};
ghost use Rattle.tg_asm_text.specs.Lines.{lines};
ghost use Rattle.tg_asm.specs.glue.Means.{
  Leaves,
  bytes_of,
  data_of,
  datum_of,
  datum_stored,
  item_of,
  words_of,
};
ghost use Rattle.tg_asm.specs.glue.Spots.{spot_of};

use crate::bytes::{skip, split_line};
use crate::cuts::{Operand, label_at};
use crate::entries::{Entry, front};
use crate::faults::{AsmFault, Refused};
use crate::items::{Align, Contents, Datum, Item, Words, stored_datum};
use crate::labels::Labels;
use crate::readings::{Reading, read_line};
use crate::spots::LabelTarget;
use std::alloc::Global;
use tg_asm_text::{AsmRule, Keyword, Segment};
use tg_base::Memory;
use tg_machine_state::{MOST_BYTES, MOST_WORDS};

/// More bytes than any segment takes.
const CAP: u64 = 1099511627776;

/// How many labels are kept, at most. No text of 64 MiB has so many that differ, so where it has
/// more labels, one of those that are kept stands again.
const MOST_LABELS: usize = 16777216;

/// Where items and labels stand, as far as the lines were read.
#[derive(Drop)]
struct Draft<'a> {
    segment: Segment,
    words: u32,
    /// Where each item of the statics begins.
    starts: Vec<u32>,
    size: u32,
    /// The labels in the order of the text. None was compared to another.
    entries: Vec<Entry<'a>>,
}

/// Where the items and labels of a text stand.
#[derive(Drop)]
pub(crate) struct Layout<'a> {
    pub(crate) words: u32,
    /// Where each item of the statics begins.
    pub(crate) starts: Vec<u32>,
    pub(crate) size: u32,
    pub(crate) labels: Labels<'a>,
}

/// How many bytes a datum takes.
fn width(datum: &Datum<'_>) -> u64
    ensures value { result ≡ items.width (datum_of datum.now) }
    ensures bound { result ≤ 4 }
{
    match datum {
        Datum::Value(_) => 4,
        Datum::AddressOfLabel(_) => 4,
        Datum::Single(_) => 1,
    }
}

/// How many bytes operands of `.word` or `.byte` take, or the cap where that is less.
fn widths(keyword: Keyword, operands: &[Operand<'_>]) -> u64
    ensures { result ≡ min (items.widths (map (datum_stored keyword) (map operand_of operands.now)))
        1099511627776 }
{
    let mut total = 0;
    for operand in operands {
        total = (total + width(&stored_datum(keyword, *operand))).min(CAP);
    }
    total
}

/// How many bytes data take, or the cap where that is less.
fn extent(contents: &Contents<'_>) -> u64
    ensures { result ≡ min (items.widths (data_of contents.now)) 1099511627776 }
{
    match contents {
        Contents::Nothing => 0,
        Contents::Bytes(bytes) => (bytes.len() as u64).min(CAP),
        Contents::Zeros(count) => u64::from(*count),
        Contents::Operands(keyword, operands) => widths(*keyword, operands),
    }
}

/// The first multiple of a number from a place on.
pub(crate) fn round_up(place: u32, align: Align) -> u32
    requires { place ≤ most_bytes }
    ensures value { result ≡ assembly.round_up place (bytes_of align) }
    ensures bound { result ≤ 16711688 }
{
    let multiple = align.bytes();
    place + (multiple - place % multiple) % multiple
}

impl<'a> Draft<'a> {
    /// Nothing is laid out yet.
    fn blank(alloc: Global) -> Draft<'a>
        ensures laid { laid_of result ≡ assembly.blank }
        ensures lined { lined_labels result ≡ [] }
    {
        Draft {
            segment: Segment::Code,
            words: 0,
            starts: Vec::new(alloc),
            size: 0,
            entries: Vec::new(alloc),
        }
    }

    /// The place of the next item of the segment in force.
    fn next_spot(&self) -> Result<LabelTarget, Memory>
        ensures { IfOk result (λ spot. spot_of spot
            ≡ assembly.next_spot (laid_of self.now) self.now.segment) }
    {
        match self.segment {
            Segment::Code => Ok(LabelTarget::InCode(self.words)),
            Segment::Statics => {
                let items = u32::try_from(self.starts.len()).map_err(|_| Memory)?;
                Ok(LabelTarget::InStatics(items))
            }
        }
    }

    /// Adds a label of a line.
    fn add_label(&mut self, number: u64, name: &'a [u8]) -> Result<(), Memory>
        ensures laid { OnOk result (laid_of self.new
            ≡ assembly.add_label (laid_of self.old) name.now) }
        ensures lined { OnOk result (lined_labels self.new ≡ lined_labels self.old
            ++ lined_at number (laid_of self.old) name.now ∷ []) }
        ensures kept { OnErr result (lined_labels self.new ≡ lined_labels self.old) }
    {
        if self.entries.len() >= MOST_LABELS {
            return Err(Memory);
        }
        let entry = Entry {
            key: (front(name), name),
            line: number,
            spot: self.next_spot()?,
        };
        self.entries.push(entry)?;
        Ok(())
    }

    /// Adds the labels in front of a line, in order.
    fn add_labels(&mut self, number: u64, line: &'a [u8]) -> Result<(), Memory>
        ensures laid { OnOk result (laid_of self.new
            ≡ put_labels (laid_of self.old) (labels_of line.now)) }
        ensures lined { OnOk result (lined_labels self.new ≡ lined_labels self.old
            ++ map (lined_at number (laid_of self.old)) (labels_of line.now)) }
        ensures begun { OnErr result (AreFirst (lined_labels self.new) (lined_labels self.old
            ++ map (lined_at number (laid_of self.old)) (labels_of line.now))) }
    {
        let mut rest = skip(line);
        while let Some((name, more)) = label_at(rest) {
            self.add_label(number, name)?;
            rest = skip(more);
        }
        Ok(())
    }

    /// Adds words to the code.
    fn add_words(&mut self, words: &Words<'_>) -> Result<(), Refused>
        requires { IsSmall (laid_of self.old) }
        ensures added { Leaves (assembly.add_words (laid_of self.old)
            (length (words_of words.now))) result (laid_of self.new) }
        ensures small { OnOk result (IsSmall (laid_of self.new)) }
        ensures lined { lined_labels self.new ≡ lined_labels self.old }
    {
        let count = match words {
            Words::One(_) => 1,
            Words::Two(_, _) => 2,
        };
        if self.words + count > MOST_WORDS {
            return Err(Refused::Rule(AsmRule::A8));
        }
        self.words += count;
        Ok(())
    }

    /// Adds data to the statics.
    fn add_data(&mut self, align: Align, contents: &Contents<'_>) -> Result<(), Refused>
        requires { IsSmall (laid_of self.old) }
        ensures added { Leaves (assembly.add_item
            (items.Data' (bytes_of align) (data_of contents.now)) (laid_of self.old))
            result (laid_of self.new) }
        ensures small { OnOk result (IsSmall (laid_of self.new)) }
        ensures lined { lined_labels self.new ≡ lined_labels self.old }
    {
        let start = round_up(self.size, align);
        let end = u64::from(start) + extent(contents);
        if end > u64::from(MOST_BYTES) {
            return Err(Refused::Rule(AsmRule::A8));
        }
        self.starts.push(start)?;
        self.size = end as u32;
        Ok(())
    }

    /// Adds an item.
    fn add_item(&mut self, item: &Item<'_>) -> Result<(), Refused>
        requires { IsSmall (laid_of self.old) }
        ensures added { Leaves (assembly.add_item (item_of item.now) (laid_of self.old)) result
            (laid_of self.new) }
        ensures small { OnOk result (IsSmall (laid_of self.new)) }
        ensures lined { lined_labels self.new ≡ lined_labels self.old }
    {
        match item {
            Item::Nothing => Ok(()),
            Item::Section(segment) => {
                self.segment = *segment;
                Ok(())
            }
            Item::Code(words) => self.add_words(words),
            Item::Data(align, contents) => self.add_data(*align, contents),
        }
    }
}

impl<'a> Draft<'a> {
    /// Adds a line's labels and item.
    fn add_reading(&mut self, number: u64, reading: &Reading<'a>) -> Result<(), Refused>
        requires { IsSmall (laid_of self.old) }
        ensures added { Leaves (put_reading (laid_of self.old) (Ok (reading_of reading.now))) result
            (laid_of self.new) }
        ensures lined { UnlessMemory result (lined_labels self.new ≡ lined_labels self.old
            ++ lined_of_reading number (laid_of self.old) (Ok (reading_of reading.now))) }
        ensures begun { AreFirst (lined_labels self.new) (lined_labels self.old
            ++ lined_of_reading number (laid_of self.old) (Ok (reading_of reading.now))) }
        ensures small { OnOk result (IsSmall (laid_of self.new)) }
    {
        self.add_labels(number, reading.line)?;
        self.add_item(&reading.item)
    }

    /// Adds a line.
    fn add_line(&mut self, alloc: Global, number: u64, line: &'a [u8]) -> Result<(), Refused>
        requires { IsSmall (laid_of self.old) }
        ensures added { Leaves (put_line (laid_of self.old) line.now) result (laid_of self.new) }
        ensures lined { UnlessMemory result (lined_labels self.new ≡ lined_labels self.old
            ++ lined_of_line number (laid_of self.old) line.now) }
        ensures begun { AreFirst (lined_labels self.new) (lined_labels self.old
            ++ lined_of_line number (laid_of self.old) line.now) }
        ensures small { OnOk result (IsSmall (laid_of self.new)) }
    {
        let reading = read_line(alloc, self.segment, line)?;
        self.add_reading(number, &reading)
    }

    /// Adds all lines of a text, up to the first that has a fault of A1, A2, A3, A7 and A8, which is
    /// told with its number. Where memory runs out, the labels so far are a prefix of all.
    #[tactic(auto, using(crate::proofs::LinePass::laid_first, crate::proofs::LinePass::laid_more, crate::proofs::LinePass::laid_last, crate::proofs::LinePass::laid_bad, crate::proofs::LinePass::laid_rises))]
    fn add_lines(&mut self, alloc: Global, text: &'a [u8]) -> Result<Option<(AsmRule, u64)>, Memory>
        requires laid { laid_of self.old ≡ assembly.blank }
        requires lined { lined_labels self.old ≡ [] }
        ensures told { IfOk result (λ fault. assembly.layout 1 assembly.blank (lines text.now)
            ≡ told (first_again [] (lined_labels self.new)) (ended fault (laid_of self.new))) }
        ensures again { OnErr result (TellsAgain (assembly.layout 1 assembly.blank (lines text.now))
            (lined_labels self.new)) }
        ensures rises { Rises 0 (lined_labels self.new) }
        ensures small { IfOk result (λ fault. IfNone fault (IsSmall (laid_of self.new))) }
    {
        let mut rest = text;
        let mut number = 1;
        loop {
            let (line, more) = split_line(rest);
            match self.add_line(alloc, number, line) {
                Ok(()) => {}
                Err(Refused::Rule(rule)) => return Ok(Some((rule, number))),
                Err(Refused::Memory) => return Err(Memory),
            }
            match more {
                Some(more) => {
                    rest = more;
                    number += 1;
                }
                None => return Ok(None),
            }
        }
    }
}

/// The layout of a text, or its first fault of A1, A2, A3, A7, A4 and A8. Labels are compared when
/// all lines are laid out, or as many as memory was found for: one that stands again is a fault
/// before any other that was found.
pub(crate) fn lay_out<'a>(alloc: Global, text: &'a [u8]) -> Result<Layout<'a>, AsmFault>
    ensures laid_out { GivesLayout (assembly.layout 1 assembly.blank (lines text.now)) result }
    ensures small { IfOk result (λ l. IsSmall (layout_of l)) }
{
    let mut draft = Draft::blank(alloc);
    let ended = draft.add_lines(alloc, text);
    let Draft {
        segment: _,
        words,
        starts,
        size,
        entries,
    } = draft;
    let labels = match Labels::sorted(alloc, entries) {
        Ok(labels) => labels,
        Err(line) => {
            return Err(AsmFault::Bad {
                rule: AsmRule::A4,
                at: line,
            });
        }
    };
    match ended? {
        Some((rule, at)) => Err(AsmFault::Bad { rule, at }),
        None => Ok(Layout {
            words,
            starts,
            size,
            labels,
        }),
    }
}
