// `decode_of` is a function in `specs/`, although a relation would be shorter: the definition of
// a run has to compute. The contract of `decode` and `encode` ties it to the table.

ghost use Rattle.std.specs.Prelude.{◌≡◌, ◌≢◌, ◌/◌, ◌^◌, IfSome, IfNone};
ghost use Rattle.tg_isa.specs.Table.{
  decode_compared_form,
  decode_of,
  decode_register_form,
  word_of,
};
ghost use Rattle.tg_isa.specs.Rows.{IsRow};
ghost use Rattle.tg_isa.specs.declared.mips.Mips.{Mips};

use crate::bits::Bits;
use crate::mips::Mips;
use crate::registers::Reg;

/// The instruction of a word, where the table has one. It takes no memory.
#[inline(always)]
pub fn decode(word: u32) -> Option<Mips>
    ensures row { result ≡ decode_of word }
    ensures found { IfSome result (λ one. IsRow one × (word_of one ≡ word)) }
    ensures none { IfNone result ((one : Mips) → IsRow one → word_of one ≢ word) }
{
    let rs = Reg::new((word / 2097152 % 32) as u8);
    let rt = Reg::new((word / 65536 % 32) as u8);
    let number = Bits::<16>::new(word % 65536);
    match word / 67108864 {
        0x00 => decode_register_form(word),
        0x01 => decode_compared_form(word),
        0x02 => Some(Mips::J(Bits::new(word % 67108864))),
        0x03 => Some(Mips::Jal(Bits::new(word % 67108864))),
        0x04 => Some(Mips::Beq(rs, rt, number)),
        0x05 => Some(Mips::Bne(rs, rt, number)),
        0x06 if word / 65536 % 32 == 0 => Some(Mips::Blez(rs, number)),
        0x07 if word / 65536 % 32 == 0 => Some(Mips::Bgtz(rs, number)),
        0x08 => Some(Mips::Addi(rt, rs, number)),
        0x09 => Some(Mips::Addiu(rt, rs, number)),
        0x0A => Some(Mips::Slti(rt, rs, number)),
        0x0B => Some(Mips::Sltiu(rt, rs, number)),
        0x0C => Some(Mips::Andi(rt, rs, number)),
        0x0D => Some(Mips::Ori(rt, rs, number)),
        0x0E => Some(Mips::Xori(rt, rs, number)),
        0x0F if word / 2097152 % 32 == 0 => Some(Mips::Lui(rt, number)),
        0x20 => Some(Mips::Lb(rt, number, rs)),
        0x24 => Some(Mips::Lbu(rt, number, rs)),
        0x23 => Some(Mips::Lw(rt, number, rs)),
        0x28 => Some(Mips::Sb(rt, number, rs)),
        0x2B => Some(Mips::Sw(rt, number, rs)),
        _ => None,
    }
}

/// The instruction of a word with opcode 1.
#[inline(always)]
fn decode_compared_form(word: u32) -> Option<Mips>
    requires { word / 2 ^ 26 ≡ 1 }
    ensures row { result ≡ decode_compared_form word }
    ensures found { IfSome result (λ one. IsRow one × (word_of one ≡ word)) }
{
    let rs = Reg::new((word / 2097152 % 32) as u8);
    let number = Bits::<16>::new(word % 65536);
    match word / 65536 % 32 {
        0x00 => Some(Mips::Bltz(rs, number)),
        0x01 => Some(Mips::Bgez(rs, number)),
        _ => None,
    }
}

/// The instruction of a word with opcode 0.
#[inline(always)]
fn decode_register_form(word: u32) -> Option<Mips>
    requires { word / 2 ^ 26 ≡ 0 }
    ensures row { result ≡ decode_register_form word }
    ensures found { IfSome result (λ one. IsRow one × (word_of one ≡ word)) }
{
    let rs = Reg::new((word / 2097152 % 32) as u8);
    let rt = Reg::new((word / 65536 % 32) as u8);
    let rd = Reg::new((word / 2048 % 32) as u8);
    let shamt = Bits::<5>::new(word / 64 % 32);
    match word % 64 {
        0x00 if word / 2097152 % 32 == 0 => Some(Mips::Sll(rd, rt, shamt)),
        0x02 if word / 2097152 % 32 == 0 => Some(Mips::Srl(rd, rt, shamt)),
        0x03 if word / 2097152 % 32 == 0 => Some(Mips::Sra(rd, rt, shamt)),
        0x08 if word / 65536 % 32 == 0 && word / 2048 % 32 == 0 && word / 64 % 32 == 0 => Some(
            Mips::Jr(rs),
        ),
        0x09 if word / 65536 % 32 == 0 && word / 64 % 32 == 0 => Some(Mips::Jalr(rd, rs)),
        0x0C if word / 64 == 0 => Some(Mips::Syscall),
        0x0D => Some(Mips::Break(Bits::new(word / 64 % 1048576))),
        0x10 if word / 65536 == 0 && word / 64 % 32 == 0 => Some(Mips::Mfhi(rd)),
        0x12 if word / 65536 == 0 && word / 64 % 32 == 0 => Some(Mips::Mflo(rd)),
        0x18 if word / 2048 % 32 == 0 && word / 64 % 32 == 0 => Some(Mips::Mult(rs, rt)),
        0x1A if word / 2048 % 32 == 0 && word / 64 % 32 == 0 => Some(Mips::Div(rs, rt)),
        0x20 if word / 64 % 32 == 0 => Some(Mips::Add(rd, rs, rt)),
        0x22 if word / 64 % 32 == 0 => Some(Mips::Sub(rd, rs, rt)),
        0x21 if word / 64 % 32 == 0 => Some(Mips::Addu(rd, rs, rt)),
        0x23 if word / 64 % 32 == 0 => Some(Mips::Subu(rd, rs, rt)),
        0x24 if word / 64 % 32 == 0 => Some(Mips::And(rd, rs, rt)),
        0x25 if word / 64 % 32 == 0 => Some(Mips::Or(rd, rs, rt)),
        0x26 if word / 64 % 32 == 0 => Some(Mips::Xor(rd, rs, rt)),
        0x27 if word / 64 % 32 == 0 => Some(Mips::Nor(rd, rs, rt)),
        0x2A if word / 64 % 32 == 0 => Some(Mips::Slt(rd, rs, rt)),
        0x2B if word / 64 % 32 == 0 => Some(Mips::Sltu(rd, rs, rt)),
        _ => None,
    }
}
