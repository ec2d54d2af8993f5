ghost use Rattle.std.specs.Prelude.{◌≡◌, ◌++◌, ◌∷◌, [], map, replicate, IfOk, OnOk, Ok};
ghost use Rattle.tg_asm_text.specs.Assembly as assembly;
ghost use Rattle.tg_asm_text.specs.Lines.{lines};
ghost use Rattle.tg_asm.specs.Images.{GivesMade, made_of};
ghost use Rattle.tg_asm.specs.glue.Cuts.{operand_of};
ghost use Rattle.tg_asm.specs.glue.Layouts.{IsSmall, layout_of};
ghost use Rattle.tg_asm.specs.glue.Means.{
  Leaves,
  bytes_of,
  coded_of,
  data_of,
  datum_of,
  item_of,
  datum_stored,
  words_of,
};

use crate::bytes::split_line;
use crate::cuts::Operand;
use crate::faults::{AsmFault, Refused};
use crate::items::{Align, Coded, Contents, Datum, Item, Words, stored_datum};
use crate::layouts::Layout;
use crate::makers::{place_of, word};
use crate::readings::read_line;
use byteorder::{ByteOrder, LittleEndian};
use std::alloc::Global;
use tg_asm_text::{Keyword, Segment};
use tg_base::Memory;

/// The code and the statics, as far as the lines were made.
#[derive(Drop)]
pub(crate) struct Made {
    segment: Segment,
    pub(crate) code: Vec<u32>,
    pub(crate) statics: Vec<u8>,
}

impl Made {
    /// Nothing is made yet, but there is room for all that a layout has.
    fn unmade(alloc: Global, layout: &Layout<'_>) -> Result<Made, Memory>
        ensures { IfOk result (λ m. made_of m ≡ assembly.unmade) }
    {
        Ok(Made {
            segment: Segment::Code,
            code: Vec::with_capacity(alloc, layout.words as usize)?,
            statics: Vec::with_capacity(alloc, layout.size as usize)?,
        })
    }

    /// Adds a word of the code.
    fn add_word<'a>(&mut self, layout: &Layout<'a>, coded: &Coded<'a>) -> Result<(), Refused>
        requires { IsSmall (layout_of layout.now) }
        ensures { Leaves (assembly.make_words (layout_of layout.now) (made_of self.old)
            (coded_of coded.now ∷ [])) result (made_of self.new) }
    {
        match word(layout, self.code.len(), coded) {
            Ok(word) => {
                self.code.push(word)?;
                Ok(())
            }
            Err(rule) => Err(Refused::Rule(rule)),
        }
    }

    /// Adds the words of an item.
    #[tactic(auto, using(crate::proofs::MakingLoops::word_made, crate::proofs::MakingLoops::word_bad))]
    fn add_words<'a>(&mut self, layout: &Layout<'a>, words: &Words<'a>) -> Result<(), Refused>
        requires { IsSmall (layout_of layout.now) }
        ensures { Leaves (assembly.make_words (layout_of layout.now) (made_of self.old)
            (words_of words.now)) result (made_of self.new) }
    {
        match words {
            Words::One(only) => self.add_word(layout, only),
            Words::Two(first, second) => {
                self.add_word(layout, first)?;
                self.add_word(layout, second)
            }
        }
    }

    /// Adds bytes to the statics.
    fn add_bytes(&mut self, bytes: &[u8]) -> Result<(), Refused>
        ensures { Leaves (Ok (record (made_of self.old) {
          statics = self.old.statics.items ++ bytes.now;
        })) result (made_of self.new) }
    {
        self.statics.extend_from_slice(bytes)?;
        Ok(())
    }

    /// Adds zeros to the statics.
    fn add_zeros(&mut self, count: u32) -> Result<(), Refused>
        ensures { Leaves (Ok (record (made_of self.old) {
          statics = self.old.statics.items ++ replicate count 0;
        })) result (made_of self.new) }
    {
        let size = self.statics.len() + count as usize;
        self.statics.resize(size, 0)?;
        Ok(())
    }

    /// Adds a datum to the statics.
    fn add_datum<'a>(&mut self, layout: &Layout<'a>, datum: &Datum<'a>) -> Result<(), Refused>
        ensures { Leaves (assembly.make_data (layout_of layout.now) (made_of self.old)
            (datum_of datum.now ∷ [])) result (made_of self.new) }
    {
        match datum {
            Datum::Value(number) => self.add_bytes(&word_bytes(number.field32())),
            Datum::AddressOfLabel(label) => match place_of(layout, *label) {
                Ok(place) => self.add_bytes(&word_bytes(place)),
                Err(rule) => Err(Refused::Rule(rule)),
            },
            Datum::Single(number) => self.add_bytes(&[number.field8()]),
        }
    }

    /// Adds what an operand of `.word` or `.byte` says to the statics.
    fn add_value<'a>(
        &mut self,
        layout: &Layout<'a>,
        keyword: Keyword,
        operand: Operand<'a>,
    ) -> Result<(), Refused>
        ensures { Leaves (assembly.make_data (layout_of layout.now) (made_of self.old)
            (datum_stored keyword (operand_of operand.entry) ∷ [])) result (made_of self.new) }
    {
        self.add_datum(layout, &stored_datum(keyword, operand))
    }

    /// Adds what operands of `.word` or `.byte` say to the statics, in order.
    #[tactic(auto, using(crate::proofs::MakingLoops::data_made, crate::proofs::MakingLoops::data_end))]
    fn add_values<'a>(
        &mut self,
        layout: &Layout<'a>,
        keyword: Keyword,
        operands: &[Operand<'a>],
    ) -> Result<(), Refused>
        ensures { Leaves (assembly.make_data (layout_of layout.now) (made_of self.old)
            (map (datum_stored keyword) (map operand_of operands.now))) result (made_of self.new) }
    {
        for operand in operands {
            self.add_value(layout, keyword, *operand)?;
        }
        Ok(())
    }

    /// Adds data to the statics.
    fn add_data<'a>(&mut self, layout: &Layout<'a>, contents: &Contents<'a>) -> Result<(), Refused>
        ensures { Leaves (assembly.make_data (layout_of layout.now) (made_of self.old)
            (data_of contents.now)) result (made_of self.new) }
    {
        match contents {
            Contents::Nothing => Ok(()),
            Contents::Bytes(bytes) => self.add_bytes(bytes),
            Contents::Zeros(count) => self.add_zeros(*count),
            Contents::Operands(keyword, operands) => self.add_values(layout, *keyword, operands),
        }
    }

    /// Pads the statics with zeros.
    fn pad(&mut self, align: Align) -> Result<(), Refused>
        ensures { Leaves (Ok (assembly.pad (made_of self.old) (bytes_of align))) result
            (made_of self.new) }
    {
        let multiple = align.bytes();
        let past = (self.statics.len() % multiple as usize) as u32;
        self.add_zeros((multiple - past) % multiple)
    }

    /// Adds an item.
    fn add_item<'a>(&mut self, layout: &Layout<'a>, item: &Item<'a>) -> Result<(), Refused>
        requires { IsSmall (layout_of layout.now) }
        ensures { Leaves (assembly.make_item (layout_of layout.now) (made_of self.old)
            (item_of item.now)) result (made_of self.new) }
    {
        match item {
            Item::Nothing => Ok(()),
            Item::Section(segment) => {
                self.segment = *segment;
                Ok(())
            }
            Item::Code(words) => self.add_words(layout, words),
            Item::Data(align, contents) => {
                self.pad(*align)?;
                self.add_data(layout, contents)
            }
        }
    }

    /// Adds what a line makes.
    fn add_line<'a>(
        &mut self,
        alloc: Global,
        layout: &Layout<'a>,
        line: &'a [u8],
    ) -> Result<(), Refused>
        requires { IsSmall (layout_of layout.now) }
        ensures { Leaves (assembly.make_line (layout_of layout.now) (made_of self.old) line.now)
            result (made_of self.new) }
    {
        let reading = read_line(alloc, self.segment, line)?;
        self.add_item(layout, &reading.item)
    }
}

/// The bytes of a word, the lowest first.
fn word_bytes(word: u32) -> [u8; 4]
    ensures { result ≡ assembly.word_bytes word }
{
    let mut bytes = [0; 4];
    LittleEndian::write_u32(&mut bytes, word);
    bytes
}

/// What the lines of a text make, or the first fault of A5 and A6.
#[tactic(auto, using(crate::proofs::MakingPass::made_first, crate::proofs::MakingPass::made_more, crate::proofs::MakingPass::made_last, crate::proofs::MakingPass::made_bad))]
pub(crate) fn make<'a>(alloc: Global, layout: &Layout<'a>, text: &'a [u8]) -> Result<Made, AsmFault>
    requires { IsSmall (layout_of layout.now) }
    ensures { GivesMade (assembly.make 1 (layout_of layout.now) assembly.unmade
        (lines text.now)) result }
{
    let mut made = Made::unmade(alloc, layout)?;
    let mut rest = text;
    let mut number = 1;
    loop {
        let (line, more) = split_line(rest);
        match made.add_line(alloc, layout, line) {
            Ok(()) => {}
            Err(Refused::Rule(rule)) => return Err(AsmFault::Bad { rule, at: number }),
            Err(Refused::Memory) => return Err(AsmFault::Memory),
        }
        match more {
            Some(more) => {
                rest = more;
                number += 1;
            }
            None => return Ok(made),
        }
    }
}
