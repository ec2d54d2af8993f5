ghost use Rattle.std.specs.Prelude.{◌≡◌, ◌<◌, ◌≤◌, [], length, slice_index_or};
ghost use Rattle.tg_asm_text.specs.Items.{keyword_text};
ghost use Rattle.tg_asm_text.specs.Writing.{keyword_of};
ghost use Rattle.tg_isa.specs.Table.{decode_of};
ghost use Rattle.tg_profiler.specs.Reports.{counted_names, row_text};

use tg_isa::{Mips, decode};

/// The number under which a word is counted: that of its row in the order of the instruction table,
/// from 0, and 42 for a word outside it.
#[inline(always)]
#[tactic(auto, unfolding(crate::specs::Reports::counted_names))]
pub(crate) fn row_number(word: u32) -> usize
    ensures below { result < 43 }
    ensures name { slice_index_or counted_names result [] ≡ row_text (decode_of word) }
{
    match decode(word) {
        Some(one) => number_of(one),
        None => 42,
    }
}

/// The number of an instruction's row.
#[inline(always)]
#[tactic(auto, unfolding(crate::specs::Reports::counted_names))]
fn number_of(one: Mips) -> usize
    ensures below { result < 43 }
    ensures name { slice_index_or counted_names result [] ≡ keyword_text (keyword_of one) }
{
    match one {
        Mips::Sll(_, _, _) => 0,
        Mips::Srl(_, _, _) => 1,
        Mips::Sra(_, _, _) => 2,
        Mips::Jr(_) => 3,
        Mips::Jalr(_, _) => 4,
        Mips::Syscall => 5,
        Mips::Break(_) => 6,
        Mips::Mfhi(_) => 7,
        Mips::Mflo(_) => 8,
        Mips::Mult(_, _) => 9,
        Mips::Div(_, _) => 10,
        Mips::Add(_, _, _) => 11,
        Mips::Sub(_, _, _) => 12,
        Mips::Addu(_, _, _) => 13,
        Mips::Subu(_, _, _) => 14,
        Mips::And(_, _, _) => 15,
        Mips::Or(_, _, _) => 16,
        Mips::Xor(_, _, _) => 17,
        Mips::Nor(_, _, _) => 18,
        Mips::Slt(_, _, _) => 19,
        Mips::Sltu(_, _, _) => 20,
        Mips::J(_) => 21,
        Mips::Jal(_) => 22,
        Mips::Beq(_, _, _) => 23,
        Mips::Bne(_, _, _) => 24,
        Mips::Blez(_, _) => 25,
        Mips::Bgtz(_, _) => 26,
        Mips::Bltz(_, _) => 27,
        Mips::Bgez(_, _) => 28,
        Mips::Addi(_, _, _) => 29,
        Mips::Addiu(_, _, _) => 30,
        Mips::Slti(_, _, _) => 31,
        Mips::Sltiu(_, _, _) => 32,
        Mips::Andi(_, _, _) => 33,
        Mips::Ori(_, _, _) => 34,
        Mips::Xori(_, _, _) => 35,
        Mips::Lui(_, _) => 36,
        Mips::Lb(_, _, _) => 37,
        Mips::Lbu(_, _, _) => 38,
        Mips::Lw(_, _, _) => 39,
        Mips::Sb(_, _, _) => 40,
        Mips::Sw(_, _, _) => 41,
    }
}

/// The name of the row with a number.
#[tactic(auto, unfolding(crate::specs::Reports::counted_names))]
pub(crate) fn row_name(number: usize) -> &'static str
    requires { number < 43 }
    ensures name { result.now ≡ slice_index_or counted_names number [] }
    ensures short { length result.now ≤ 8 }
{
    match number {
        0 => "sll",
        1 => "srl",
        2 => "sra",
        3 => "jr",
        4 => "jalr",
        5 => "syscall",
        6 => "break",
        7 => "mfhi",
        8 => "mflo",
        9 => "mult",
        10 => "div",
        11 => "add",
        12 => "sub",
        13 => "addu",
        14 => "subu",
        15 => "and",
        16 => "or",
        17 => "xor",
        18 => "nor",
        19 => "slt",
        20 => "sltu",
        21 => "j",
        22 => "jal",
        23 => "beq",
        24 => "bne",
        25 => "blez",
        26 => "bgtz",
        27 => "bltz",
        28 => "bgez",
        29 => "addi",
        30 => "addiu",
        31 => "slti",
        32 => "sltiu",
        33 => "andi",
        34 => "ori",
        35 => "xori",
        36 => "lui",
        37 => "lb",
        38 => "lbu",
        39 => "lw",
        40 => "sb",
        41 => "sw",
        _ => "bad",
    }
}
