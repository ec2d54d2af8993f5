/// What the word of an item in assembly text names: an instruction of the table, by its row, a
/// pseudo-instruction or a directive (SPIM manual, assembler syntax).
#[derive(Clone, Copy)]
pub enum Keyword {
    Sll,
    Srl,
    Sra,
    Jr,
    Jalr,
    Syscall,
    Break,
    Mfhi,
    Mflo,
    Mult,
    Div,
    Add,
    Sub,
    Addu,
    Subu,
    And,
    Or,
    Xor,
    Nor,
    Slt,
    Sltu,
    J,
    Jal,
    Beq,
    Bne,
    Blez,
    Bgtz,
    Bltz,
    Bgez,
    Addi,
    Addiu,
    Slti,
    Sltiu,
    Andi,
    Ori,
    Xori,
    Lui,
    Lb,
    Lbu,
    Lw,
    Sb,
    Sw,
    Nop,
    Move,
    Li,
    La,
    Text,
    Data,
    Globl,
    Word,
    Byte,
    Ascii,
    Asciiz,
    Space,
    Align,
}

/// What an operand of an instruction is, and which fields of the word it fills.
#[derive(Clone, Copy)]
pub enum Slot {
    /// A register for rd.
    Rd,
    /// A register for rs.
    Rs,
    /// A register for rt.
    Rt,
    /// A number, for the shift amount, the code or the immediate.
    Number,
    /// `number(register)`, for the immediate and rs.
    Based,
    /// A label, for the offset of a branch or the target of a jump.
    Label,
}

/// A part of an image that items go to.
#[derive(Clone, Copy)]
pub enum Segment {
    Code,
    Statics,
}

/// What is wrong with an assembly text.
#[derive(Clone, Copy, Debug, PartialEq, Eq)]
pub enum AsmRule {
    /// Bad line.
    A1,
    /// Unknown instruction.
    A2,
    /// Bad operand.
    A3,
    /// Label twice.
    A4,
    /// Unknown label.
    A5,
    /// Out of reach.
    A6,
    /// Number out of range.
    A7,
    /// Segment too large.
    A8,
    /// No main.
    A9,
}
