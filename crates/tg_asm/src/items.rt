ghost use Rattle.std.specs.Prelude.{
  ◌≡◌,
  ◌<◌,
  ◌≤◌,
  ◌^◌,
  ◌∷◌,
  [],
  ◌&&◌,
  ◌==◌,
  not,
  if◌then◌else◌,
  map,
  IfOk,
  MatchOption,
  Some,
  None,
  false,
};
ghost use Rattle.tg_asm_text.specs.Items as items;
ghost use Rattle.tg_asm_text.specs.declared.keywords.Keyword.{Keyword};
ghost use Rattle.tg_asm_text.specs.Operands as strings;
ghost use Rattle.tg_asm.specs.glue.Cuts.{operand_of};
ghost use Rattle.tg_asm.specs.glue.Means.{
  GivesMeant,
  all_values,
  bytes_of,
  datum_found,
  datum_of,
  item_of,
  meant_by,
  datum_stored,
  words_of,
};
ghost use Rattle.tg_asm.specs.glue.Numbers.{signed_of};
ghost use Rattle.tg_asm.specs.glue.Registers.{fields_of};

use crate::cuts::Operand;
use crate::faults::Refused;
use crate::fields::{Fields, fill_all, is_label};
use crate::numbers::{Signed, number};
use crate::rows::row;
use crate::words::{slots, takes};
use std::alloc::Global;
use tg_asm_text::{AsmRule, Keyword, Segment};
use tg_base::Memory;
use tg_isa::{Bits, Mips, Reg};

/// A word of code, which may wait for a label's place.
#[derive(Clone, Copy)]
pub(crate) enum Coded<'a> {
    /// A row as it stands.
    Fixed(Mips),
    /// A branch to a label.
    Branch(Mips, &'a [u8]),
    /// A jump to a label.
    Jump(Mips, &'a [u8]),
    /// The upper half of a label's place for a register.
    Upper(Reg, &'a [u8]),
    /// The lower half.
    Lower(Reg, &'a [u8]),
}

/// The words of an item of the code.
#[derive(Clone, Copy)]
pub(crate) enum Words<'a> {
    One(Coded<'a>),
    Two(Coded<'a>, Coded<'a>),
}

/// What an operand puts into the statics.
#[derive(Clone, Copy)]
pub(crate) enum Datum<'a> {
    /// A number in four bytes.
    Value(Signed),
    /// A label's place in four bytes.
    AddressOfLabel(&'a [u8]),
    /// A number in one byte.
    Single(Signed),
}

/// What an item puts into the statics.
#[derive(Drop)]
pub(crate) enum Contents<'a> {
    Nothing,
    /// Bytes.
    Bytes(Vec<u8>),
    /// So many zeros.
    Zeros(u32),
    /// The operands of `.word` or `.byte`, each a number or a label. What they put there is read
    /// where it is wanted, since a list of it would be many times as long as the text.
    Operands(Keyword, Vec<Operand<'a>>),
}

/// What the statics are padded to a multiple of.
#[derive(Clone, Copy)]
pub(crate) enum Align {
    One,
    Two,
    Four,
    Eight,
}

impl Align {
    /// The number of bytes.
    pub(crate) fn bytes(self) -> u32
        ensures value { result ≡ bytes_of self }
        ensures some { 0 < result }
        ensures few { result ≤ 8 }
    {
        match self {
            Align::One => 1,
            Align::Two => 2,
            Align::Four => 4,
            Align::Eight => 8,
        }
    }
}

/// What an item does.
#[derive(Drop)]
pub(crate) enum Item<'a> {
    Nothing,
    /// It goes on in a segment.
    Section(Segment),
    /// It puts words into the code.
    Code(Words<'a>),
    /// It pads the statics and puts data there.
    Data(Align, Contents<'a>),
}

/// A number for a register, by the fewest instructions.
fn load_number<'a>(rt: Reg, number: Signed) -> Words<'a>
    ensures { words_of result ≡ items.load_number rt (signed_of number) }
{
    if number.is_within(32768, 32767) {
        return Words::One(Coded::Fixed(Mips::Addiu(rt, Reg::ZERO, number.field16())));
    }
    if number.is_within(0, 65535) {
        return Words::One(Coded::Fixed(Mips::Ori(rt, Reg::ZERO, number.field16())));
    }
    let value = number.field32();
    let upper = Mips::Lui(rt, Bits::new(value / 65536));
    let lower = Mips::Ori(rt, rt, Bits::new(value % 65536));
    Words::Two(Coded::Fixed(upper), Coded::Fixed(lower))
}

/// The words of an instruction.
fn code_words<'a>(keyword: Keyword, fields: &Fields<'a>) -> Words<'a>
    ensures { words_of result ≡ items.coded keyword (fields_of fields.now) }
{
    match keyword {
        Keyword::Beq => Words::One(Coded::Branch(row(keyword, fields), fields.label)),
        Keyword::Bne => Words::One(Coded::Branch(row(keyword, fields), fields.label)),
        Keyword::Blez => Words::One(Coded::Branch(row(keyword, fields), fields.label)),
        Keyword::Bgtz => Words::One(Coded::Branch(row(keyword, fields), fields.label)),
        Keyword::Bltz => Words::One(Coded::Branch(row(keyword, fields), fields.label)),
        Keyword::Bgez => Words::One(Coded::Branch(row(keyword, fields), fields.label)),
        Keyword::J => Words::One(Coded::Jump(row(keyword, fields), fields.label)),
        Keyword::Jal => Words::One(Coded::Jump(row(keyword, fields), fields.label)),
        Keyword::Li => load_number(fields.rt, fields.number),
        Keyword::La => Words::Two(
            Coded::Upper(fields.rt, fields.label),
            Coded::Lower(fields.rt, fields.label),
        ),
        _ => Words::One(Coded::Fixed(row(keyword, fields))),
    }
}

/// An instruction.
fn instruction<'a>(keyword: Keyword, operands: &[Operand<'a>]) -> Result<Item<'a>, Refused>
    ensures { GivesMeant item_of (items.instruction keyword (map operand_of operands.now)) result }
{
    match fill_all(slots(keyword, operands.len()), operands) {
        Some(fields) => {
            if takes(keyword, fields.number) {
                Ok(Item::Code(code_words(keyword, &fields)))
            } else {
                Err(Refused::Rule(AsmRule::A7))
            }
        }
        None => Err(Refused::Rule(AsmRule::A3)),
    }
}

/// An operand of `.word` or `.byte`.
fn read_datum<'a>(keyword: Keyword, operand: Operand<'a>) -> Option<Datum<'a>>
    ensures { datum_found result ≡ items.datum keyword (operand_of operand.entry) }
{
    let text = match operand {
        Operand::Plain(text) => text,
        Operand::Quoted(_) => return None,
    };
    match (keyword, number(text)) {
        (Keyword::Byte, Some(number)) => Some(Datum::Single(number)),
        (Keyword::Byte, None) => None,
        (_, Some(number)) => Some(Datum::Value(number)),
        (_, None) => {
            if is_label(text) {
                Some(Datum::AddressOfLabel(text))
            } else {
                None
            }
        }
    }
}

/// What an operand of `.word` or `.byte` puts into the statics. For one of another kind, which no
/// item has, that is a byte of 0.
pub(crate) fn stored_datum<'a>(keyword: Keyword, operand: Operand<'a>) -> Datum<'a>
    ensures { datum_of result ≡ datum_stored keyword (operand_of operand.entry) }
{
    match read_datum(keyword, operand) {
        Some(datum) => datum,
        None => Datum::Single(Signed::NOTHING),
    }
}

/// Whether all operands of `.word` or `.byte` are of its kind.
fn are_values(keyword: Keyword, operands: &[Operand<'_>]) -> bool
    ensures { result ≡ all_values keyword (map operand_of operands.now) }
{
    for operand in operands {
        match read_datum(keyword, *operand) {
            Some(_) => {}
            None => return false,
        }
    }
    true
}

/// Whether a number of the statics is in its range.
fn datum_fits(keyword: Keyword, datum: &Datum<'_>) -> bool
    ensures { result ≡ items.datum_fits keyword (datum_of datum.now) }
{
    match datum {
        Datum::Value(number) => takes(keyword, *number),
        Datum::Single(number) => takes(keyword, *number),
        Datum::AddressOfLabel(_) => true,
    }
}

/// Whether all numbers of the statics are in their range.
fn data_fit(keyword: Keyword, operands: &[Operand<'_>]) -> bool
    ensures { result
        ≡ items.data_fit keyword (map (datum_stored keyword) (map operand_of operands.now)) }
{
    for operand in operands {
        if !datum_fits(keyword, &stored_datum(keyword, *operand)) {
            return false;
        }
    }
    true
}

/// An item of `.word` or `.byte`.
#[tactic(auto, using(crate::proofs::DataLoops::values_bad, crate::proofs::DataLoops::values_unfit, crate::proofs::DataLoops::values_made))]
fn values<'a>(
    keyword: Keyword,
    align: Align,
    operands: Vec<Operand<'a>>,
) -> Result<Item<'a>, Refused>
    ensures { GivesMeant item_of
        (items.values keyword (bytes_of align) (map operand_of operands.entry.items)) result }
{
    if operands.is_empty() {
        return Err(Refused::Rule(AsmRule::A3));
    }
    if !are_values(keyword, &operands) {
        return Err(Refused::Rule(AsmRule::A3));
    }
    if !data_fit(keyword, &operands) {
        return Err(Refused::Rule(AsmRule::A7));
    }
    Ok(Item::Data(align, Contents::Operands(keyword, operands)))
}

/// The byte of an escape, after its `\`.
fn escape(byte: u8) -> Option<u8>
    ensures { result ≡ strings.escape byte }
{
    match byte {
        b'n' => Some(b'\n'),
        b't' => Some(b'\t'),
        b'"' => Some(b'"'),
        b'\\' => Some(b'\\'),
        b'0' => Some(0),
        _ => None,
    }
}

/// A byte that stands for itself in a string.
fn plain(byte: u8) -> Option<u8>
    ensures { result ≡ strings.plain byte }
{
    if 32 <= byte && byte <= 126 || 128 <= byte {
        Some(byte)
    } else {
        None
    }
}

/// Whether a byte begins an escape.
fn opens(escaped: bool, byte: u8) -> bool
    ensures { result ≡ (not escaped && byte == 92) }
{
    !escaped && byte == b'\\'
}

/// The byte that a byte of a string means.
fn meant(escaped: bool, byte: u8) -> Option<u8>
    ensures { result ≡ meant_by escaped byte }
{
    if escaped { escape(byte) } else { plain(byte) }
}

/// The bytes of a string from between its quotes; none where it has another byte or escape.
fn string(alloc: Global, text: &[u8]) -> Result<Option<Vec<u8>>, Memory>
    ensures { IfOk result (λ found. MatchOption found (strings.string false text.now ≡ None)
        (λ bytes. strings.string false text.now ≡ Some bytes.items)) }
{
    let mut bytes = Vec::with_capacity(alloc, text.len())?;
    let mut escaped = false;
    for byte in text {
        if opens(escaped, *byte) {
            escaped = true;
        } else {
            match meant(escaped, *byte) {
                Some(meant) => bytes.push(meant)?,
                None => return Ok(None),
            }
            escaped = false;
        }
    }
    if escaped {
        return Ok(None);
    }
    Ok(Some(bytes))
}

/// The bytes of `.ascii`, or of `.asciiz`, which end with 0.
fn text<'a>(alloc: Global, operands: &[Operand<'a>], ended: bool) -> Result<Item<'a>, Refused>
    ensures { GivesMeant item_of
        (items.text_of (if ended then 0 ∷ [] else []) (map operand_of operands.now)) result }
{
    let inside = match operands {
        [Operand::Quoted(inside)] => *inside,
        _ => return Err(Refused::Rule(AsmRule::A3)),
    };
    match string(alloc, inside)? {
        Some(bytes) => text_item(bytes, ended),
        None => Err(Refused::Rule(AsmRule::A3)),
    }
}

/// Bytes as an item, with a 0 after them where they are ended.
fn text_item<'a>(bytes: Vec<u8>, ended: bool) -> Result<Item<'a>, Refused>
    ensures { GivesMeant item_of
        (items.text_item (if ended then 0 ∷ [] else []) (Some bytes.items)) result }
{
    let mut bytes = bytes;
    if ended {
        bytes.push(0)?;
    }
    Ok(Item::Data(Align::One, Contents::Bytes(bytes)))
}

/// The number of `.space` or `.align`.
fn size(keyword: Keyword, operands: &[Operand<'_>]) -> Result<u32, Refused>
    requires least { items.least keyword ≡ 0 }
    requires greatest { items.greatest keyword < 2 ^ 32 }
    ensures size { GivesMeant (λ n. n) (items.size_of keyword
        (map operand_of operands.now)) result }
    ensures bound { IfOk result (λ n. n ≤ items.greatest keyword) }
{
    let text = match operands {
        [Operand::Plain(text)] => *text,
        _ => return Err(Refused::Rule(AsmRule::A3)),
    };
    match number(text) {
        Some(number) => {
            if takes(keyword, number) {
                Ok(number.size as u32)
            } else {
                Err(Refused::Rule(AsmRule::A7))
            }
        }
        None => Err(Refused::Rule(AsmRule::A3)),
    }
}

/// `.space`.
fn space<'a>(operands: &[Operand<'a>]) -> Result<Item<'a>, Refused>
    ensures { GivesMeant item_of
        (items.zeros (items.size_of Keyword.Space (map operand_of operands.now))) result }
{
    let size = size(Keyword::Space, operands)?;
    Ok(Item::Data(Align::One, Contents::Zeros(size)))
}

/// `.align`.
fn alignment<'a>(operands: &[Operand<'a>]) -> Result<Item<'a>, Refused>
    ensures { GivesMeant item_of
        (items.aligned (items.size_of Keyword.Align (map operand_of operands.now))) result }
{
    let align = power(size(Keyword::Align, operands)?);
    Ok(Item::Data(align, Contents::Nothing))
}

/// A power of 2.
fn power(exponent: u32) -> Align
    requires { exponent ≤ 3 }
    ensures { bytes_of result ≡ 2 ^ exponent }
{
    match exponent {
        0 => Align::One,
        1 => Align::Two,
        2 => Align::Four,
        3 => Align::Eight,
        _ => unreachable!(),
    }
}

/// An item without operands.
fn alone<'a>(operands: &[Operand<'a>], item: Item<'a>) -> Result<Item<'a>, Refused>
    ensures { GivesMeant item_of
        (items.without_operands (map operand_of operands.now) (item_of item.entry)) result }
{
    if operands.is_empty() {
        Ok(item)
    } else {
        Err(Refused::Rule(AsmRule::A3))
    }
}

/// `.globl`.
fn named<'a>(operands: &[Operand<'a>]) -> Result<Item<'a>, Refused>
    ensures { GivesMeant item_of (items.globl_item (map operand_of operands.now)) result }
{
    match operands {
        [Operand::Plain(text)] if is_label(text) => Ok(Item::Nothing),
        _ => Err(Refused::Rule(AsmRule::A3)),
    }
}

/// What an item is, or its first fault of A3 and A7.
pub(crate) fn read_item<'a>(
    alloc: Global,
    keyword: Keyword,
    operands: Vec<Operand<'a>>,
) -> Result<Item<'a>, Refused>
    ensures { GivesMeant item_of (items.item keyword (map operand_of operands.entry.items)) result }
{
    match keyword {
        Keyword::Text => alone(&operands, Item::Section(Segment::Code)),
        Keyword::Data => alone(&operands, Item::Section(Segment::Statics)),
        Keyword::Globl => named(&operands),
        Keyword::Word => values(Keyword::Word, Align::Four, operands),
        Keyword::Byte => values(Keyword::Byte, Align::One, operands),
        Keyword::Ascii => text(alloc, &operands, false),
        Keyword::Asciiz => text(alloc, &operands, true),
        Keyword::Space => space(&operands),
        Keyword::Align => alignment(&operands),
        _ => instruction(keyword, &operands),
    }
}
