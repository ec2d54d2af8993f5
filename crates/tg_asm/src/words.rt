ghost use Rattle.std.specs.Prelude.{◌≡◌, ◌≢◌, MatchOption};
ghost use Rattle.tg_asm_text.specs.Items as items;
ghost use Rattle.tg_asm_text.specs.Items.{keyword_text};
ghost use Rattle.tg_asm_text.specs.Operands.{is_within};
ghost use Rattle.tg_asm_text.specs.declared.keywords.Keyword.{Keyword};
ghost use Rattle.tg_asm.specs.glue.Numbers.{signed_of};

use crate::numbers::Signed;
use tg_asm_text::{Keyword, Segment, Slot};
use tg_machine_state::MOST_BYTES;

/// The item that a word is spelled as.
fn spelled(text: &[u8]) -> Option<Keyword>
    ensures { MatchOption result ((k : Keyword) → text.now ≢ keyword_text k)
        (λ k. text.now ≡ keyword_text k) }
{
    match text {
        b"sll" => Some(Keyword::Sll),
        b"srl" => Some(Keyword::Srl),
        b"sra" => Some(Keyword::Sra),
        b"jr" => Some(Keyword::Jr),
        b"jalr" => Some(Keyword::Jalr),
        b"syscall" => Some(Keyword::Syscall),
        b"break" => Some(Keyword::Break),
        b"mfhi" => Some(Keyword::Mfhi),
        b"mflo" => Some(Keyword::Mflo),
        b"mult" => Some(Keyword::Mult),
        b"div" => Some(Keyword::Div),
        b"add" => Some(Keyword::Add),
        b"sub" => Some(Keyword::Sub),
        b"addu" => Some(Keyword::Addu),
        b"subu" => Some(Keyword::Subu),
        b"and" => Some(Keyword::And),
        b"or" => Some(Keyword::Or),
        b"xor" => Some(Keyword::Xor),
        b"nor" => Some(Keyword::Nor),
        b"slt" => Some(Keyword::Slt),
        b"sltu" => Some(Keyword::Sltu),
        b"j" => Some(Keyword::J),
        b"jal" => Some(Keyword::Jal),
        b"beq" => Some(Keyword::Beq),
        b"bne" => Some(Keyword::Bne),
        b"blez" => Some(Keyword::Blez),
        b"bgtz" => Some(Keyword::Bgtz),
        b"bltz" => Some(Keyword::Bltz),
        b"bgez" => Some(Keyword::Bgez),
        b"addi" => Some(Keyword::Addi),
        b"addiu" => Some(Keyword::Addiu),
        b"slti" => Some(Keyword::Slti),
        b"sltiu" => Some(Keyword::Sltiu),
        b"andi" => Some(Keyword::Andi),
        b"ori" => Some(Keyword::Ori),
        b"xori" => Some(Keyword::Xori),
        b"lui" => Some(Keyword::Lui),
        b"lb" => Some(Keyword::Lb),
        b"lbu" => Some(Keyword::Lbu),
        b"lw" => Some(Keyword::Lw),
        b"sb" => Some(Keyword::Sb),
        b"sw" => Some(Keyword::Sw),
        b"nop" => Some(Keyword::Nop),
        b"move" => Some(Keyword::Move),
        b"li" => Some(Keyword::Li),
        b"la" => Some(Keyword::La),
        b".text" => Some(Keyword::Text),
        b".data" => Some(Keyword::Data),
        b".globl" => Some(Keyword::Globl),
        b".word" => Some(Keyword::Word),
        b".byte" => Some(Keyword::Byte),
        b".ascii" => Some(Keyword::Ascii),
        b".asciiz" => Some(Keyword::Asciiz),
        b".space" => Some(Keyword::Space),
        b".align" => Some(Keyword::Align),
        _ => None,
    }
}

/// The item that a word names.
pub(crate) fn keyword(text: &[u8]) -> Option<Keyword>
    ensures { result ≡ items.keyword text.now }
{
    match spelled(text) {
        Some(keyword) => Some(keyword),
        None => None,
    }
}

/// What the operands of an instruction are, in order, where there are so many.
pub(crate) fn slots(keyword: Keyword, count: usize) -> &'static [Slot]
    ensures { result.now ≡ items.slots keyword count }
{
    match keyword {
        Keyword::Sll | Keyword::Srl | Keyword::Sra => &[Slot::Rd, Slot::Rt, Slot::Number],
        Keyword::Jr => &[Slot::Rs],
        Keyword::Mfhi | Keyword::Mflo => &[Slot::Rd],
        Keyword::Mult | Keyword::Div => &[Slot::Rs, Slot::Rt],
        Keyword::Add
        | Keyword::Sub
        | Keyword::Addu
        | Keyword::Subu
        | Keyword::And
        | Keyword::Or
        | Keyword::Xor
        | Keyword::Nor
        | Keyword::Slt
        | Keyword::Sltu => &[Slot::Rd, Slot::Rs, Slot::Rt],
        Keyword::J | Keyword::Jal => &[Slot::Label],
        Keyword::Beq | Keyword::Bne => &[Slot::Rs, Slot::Rt, Slot::Label],
        Keyword::Blez | Keyword::Bgtz | Keyword::Bltz | Keyword::Bgez => &[Slot::Rs, Slot::Label],
        Keyword::Addi
        | Keyword::Addiu
        | Keyword::Slti
        | Keyword::Sltiu
        | Keyword::Andi
        | Keyword::Ori
        | Keyword::Xori => &[Slot::Rt, Slot::Rs, Slot::Number],
        Keyword::Lui | Keyword::Li => &[Slot::Rt, Slot::Number],
        Keyword::Lb | Keyword::Lbu | Keyword::Lw | Keyword::Sb | Keyword::Sw => &[
            Slot::Rt,
            Slot::Based,
        ],
        Keyword::Move => &[Slot::Rd, Slot::Rs],
        Keyword::La => &[Slot::Rt, Slot::Label],
        Keyword::Jalr if count == 1 => &[Slot::Rs],
        Keyword::Jalr => &[Slot::Rd, Slot::Rs],
        Keyword::Break if count != 0 => &[Slot::Number],
        _ => &[],
    }
}

/// The numbers that an item takes: minus the least one, and the greatest one.
fn bounds(keyword: Keyword) -> (u64, u64)
    ensures { result ≡ (items.least keyword, items.greatest keyword) }
{
    match keyword {
        Keyword::Sll | Keyword::Srl | Keyword::Sra => (0, 31),
        Keyword::Break => (0, 1048575),
        Keyword::Addi
        | Keyword::Addiu
        | Keyword::Slti
        | Keyword::Sltiu
        | Keyword::Lb
        | Keyword::Lbu
        | Keyword::Lw
        | Keyword::Sb
        | Keyword::Sw => (32768, 32767),
        Keyword::Andi | Keyword::Ori | Keyword::Xori | Keyword::Lui => (0, 65535),
        Keyword::Li | Keyword::Word => (2147483648, 4294967295),
        Keyword::Byte => (128, 255),
        Keyword::Space => (0, u64::from(MOST_BYTES)),
        Keyword::Align => (0, 3),
        _ => (0, 0),
    }
}

/// Whether an item takes a number.
pub(crate) fn takes(keyword: Keyword, number: Signed) -> bool
    ensures { result
        ≡ is_within (items.least keyword) (items.greatest keyword) (signed_of number) }
{
    let (least, greatest) = bounds(keyword);
    number.is_within(least, greatest)
}

/// Whether an item may stand in a segment.
pub(crate) fn stands_in(keyword: Keyword, segment: Segment) -> bool
    ensures { result ≡ items.may_stand_in keyword segment }
{
    match keyword {
        Keyword::Text | Keyword::Data | Keyword::Globl => true,
        Keyword::Word
        | Keyword::Byte
        | Keyword::Ascii
        | Keyword::Asciiz
        | Keyword::Space
        | Keyword::Align => match segment {
            Segment::Code => false,
            Segment::Statics => true,
        },
        _ => match segment {
            Segment::Code => true,
            Segment::Statics => false,
        },
    }
}
