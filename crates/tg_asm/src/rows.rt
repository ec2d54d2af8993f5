ghost use Rattle.std.specs.Prelude.{◌≡◌};
ghost use Rattle.tg_asm_text.specs.Items as items;
ghost use Rattle.tg_asm.specs.glue.Registers.{fields_of};

use crate::fields::Fields;
use tg_asm_text::Keyword;
use tg_isa::{Bits, Mips, Reg};

/// The row of the table that an instruction is. A label's field is 0 in it.
pub(crate) fn row(keyword: Keyword, fields: &Fields<'_>) -> Mips
    ensures { result ≡ items.row_of keyword (fields_of fields.now) }
{
    let number = fields.number;
    match keyword {
        Keyword::Sll => Mips::Sll(fields.rd, fields.rt, number.field5()),
        Keyword::Srl => Mips::Srl(fields.rd, fields.rt, number.field5()),
        Keyword::Sra => Mips::Sra(fields.rd, fields.rt, number.field5()),
        Keyword::Jr => Mips::Jr(fields.rs),
        Keyword::Jalr => Mips::Jalr(fields.rd, fields.rs),
        Keyword::Syscall => Mips::Syscall,
        Keyword::Break => Mips::Break(number.field20()),
        Keyword::Mfhi => Mips::Mfhi(fields.rd),
        Keyword::Mflo => Mips::Mflo(fields.rd),
        Keyword::Mult => Mips::Mult(fields.rs, fields.rt),
        Keyword::Div => Mips::Div(fields.rs, fields.rt),
        Keyword::Add => Mips::Add(fields.rd, fields.rs, fields.rt),
        Keyword::Sub => Mips::Sub(fields.rd, fields.rs, fields.rt),
        Keyword::Addu => Mips::Addu(fields.rd, fields.rs, fields.rt),
        Keyword::Subu => Mips::Subu(fields.rd, fields.rs, fields.rt),
        Keyword::And => Mips::And(fields.rd, fields.rs, fields.rt),
        Keyword::Or => Mips::Or(fields.rd, fields.rs, fields.rt),
        Keyword::Xor => Mips::Xor(fields.rd, fields.rs, fields.rt),
        Keyword::Nor => Mips::Nor(fields.rd, fields.rs, fields.rt),
        Keyword::Slt => Mips::Slt(fields.rd, fields.rs, fields.rt),
        Keyword::Sltu => Mips::Sltu(fields.rd, fields.rs, fields.rt),
        Keyword::J => Mips::J(Bits::new(0)),
        Keyword::Jal => Mips::Jal(Bits::new(0)),
        Keyword::Beq => Mips::Beq(fields.rs, fields.rt, Bits::new(0)),
        Keyword::Bne => Mips::Bne(fields.rs, fields.rt, Bits::new(0)),
        Keyword::Blez => Mips::Blez(fields.rs, Bits::new(0)),
        Keyword::Bgtz => Mips::Bgtz(fields.rs, Bits::new(0)),
        Keyword::Bltz => Mips::Bltz(fields.rs, Bits::new(0)),
        Keyword::Bgez => Mips::Bgez(fields.rs, Bits::new(0)),
        Keyword::Addi => Mips::Addi(fields.rt, fields.rs, number.field16()),
        Keyword::Addiu => Mips::Addiu(fields.rt, fields.rs, number.field16()),
        Keyword::Slti => Mips::Slti(fields.rt, fields.rs, number.field16()),
        Keyword::Sltiu => Mips::Sltiu(fields.rt, fields.rs, number.field16()),
        Keyword::Andi => Mips::Andi(fields.rt, fields.rs, number.field16()),
        Keyword::Ori => Mips::Ori(fields.rt, fields.rs, number.field16()),
        Keyword::Xori => Mips::Xori(fields.rt, fields.rs, number.field16()),
        Keyword::Lui => Mips::Lui(fields.rt, number.field16()),
        Keyword::Lb => Mips::Lb(fields.rt, number.field16(), fields.rs),
        Keyword::Lbu => Mips::Lbu(fields.rt, number.field16(), fields.rs),
        Keyword::Lw => Mips::Lw(fields.rt, number.field16(), fields.rs),
        Keyword::Sb => Mips::Sb(fields.rt, number.field16(), fields.rs),
        Keyword::Sw => Mips::Sw(fields.rt, number.field16(), fields.rs),
        Keyword::Move => Mips::Addu(fields.rd, Reg::ZERO, fields.rs),
        _ => Mips::Sll(Reg::ZERO, Reg::ZERO, Bits::new(0)),
    }
}
