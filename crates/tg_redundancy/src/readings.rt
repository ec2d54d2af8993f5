ghost use Rattle.std.specs.Prelude.{◌≡◌, ◌&&◌, ◌==◌, ◌∷◌, []};
ghost use Rattle.tg_instr.specs.Operands.{is_same};
ghost use Rattle.tg_redundancy.specs.declared.readings.Reading.TheVariants.{InSlot};
ghost use Rattle.tg_redundancy.specs.mirror.Readings as readings;
ghost use Rattle.tg_redundancy.specs.mirror.Facts.{names_one};

use tg_instr::{Instr, Opnd};
use tg_isa::Bits;

/// What an instruction reads that gives a temporary a word and does nothing else.
#[derive(Clone, Copy)]
pub enum Reading {
    /// What an operand holds.
    Moved(Opnd),
    /// The word of memory at so many bytes after what an operand holds, with the sign of 16 bits.
    Loaded(Bits<16>, Opnd),
    /// What a slot of the frame holds, by its number.
    InSlot(u32),
    /// The wrapping sum of two operands.
    Sum(Opnd, Opnd),
    /// The wrapping sum of an operand and a number of 16 bits with its sign.
    Plus(Opnd, Bits<16>),
    /// The sum of two operands, which ends the run by overflow where it is out of 32 bits.
    ExactSum(Opnd, Opnd),
    /// The sum of an operand and a number of 16 bits with its sign, which ends the run so too.
    ExactPlus(Opnd, Bits<16>),
    /// An operand, shifted to the left by so many bits.
    Shifted(Opnd, Bits<5>),
    /// Whether the first is below the second, without sign.
    Lower(Opnd, Opnd),
}

/// Whether two operands are one.
pub(crate) fn is_same(one: Opnd, other: Opnd) -> bool
    ensures { result ≡ is_same one other }
{
    match one {
        Opnd::Temp(temp) => match other {
            Opnd::Temp(second) => temp.0 == second.0,
            Opnd::Reg(_) => false,
        },
        Opnd::Reg(reg) => match other {
            Opnd::Temp(_) => false,
            Opnd::Reg(second) => reg.number() == second.number(),
        },
    }
}

fn given(to: Opnd, reading: Reading) -> Option<(u32, Reading)>
    ensures { result ≡ readings.given to reading }
{
    match to {
        Opnd::Temp(temp) => Some((temp.0, reading)),
        Opnd::Reg(_) => None,
    }
}

/// The number of the temporary that an instruction gives what it reads, and the reading.
pub(crate) fn reading_of(one: &Instr) -> Option<(u32, Reading)>
    ensures { result ≡ readings.reading_of one.now }
{
    match one {
        Instr::Lw(to, bytes, base) => given(*to, Reading::Loaded(*bytes, *base)),
        Instr::FrameLoad(to, slot) => given(*to, Reading::InSlot(*slot)),
        Instr::Addu(to, left, right) => given(*to, Reading::Sum(*left, *right)),
        Instr::Addiu(to, left, number) => given(*to, Reading::Plus(*left, *number)),
        Instr::Add(to, left, right) => given(*to, Reading::ExactSum(*left, *right)),
        Instr::Addi(to, left, number) => given(*to, Reading::ExactPlus(*left, *number)),
        Instr::Sll(to, left, by) => given(*to, Reading::Shifted(*left, *by)),
        Instr::Sltu(to, left, right) => given(*to, Reading::Lower(*left, *right)),
        _ => None,
    }
}

/// Whether a reading reads memory or the frame.
pub(crate) fn reads_memory(reading: Reading) -> bool
    ensures { result ≡ readings.reads_memory reading }
{
    match reading {
        Reading::Loaded(_, _) | Reading::InSlot(_) => true,
        Reading::Moved(_) | Reading::Sum(_, _) | Reading::Plus(_, _) => false,
        Reading::ExactSum(_, _) | Reading::ExactPlus(_, _) => false,
        Reading::Shifted(_, _) | Reading::Lower(_, _) => false,
    }
}

fn is_that(operand: &Opnd, x: &Opnd) -> bool
    ensures { result ≡ names_one operand.now (x.now ∷ []) }
{
    is_same(*x, *operand)
}

/// Whether an operand is one of two.
pub(crate) fn is_one_of(operand: &Opnd, x: &Opnd, y: &Opnd) -> bool
    ensures { result ≡ names_one operand.now (x.now ∷ y.now ∷ []) }
{
    is_same(*x, *operand) || is_same(*y, *operand)
}

/// Whether a reading reads an operand.
pub(crate) fn reads(operand: &Opnd, reading: &Reading) -> bool
    ensures { result ≡ names_one operand.now (readings.read_by reading.now) }
{
    match reading {
        Reading::Moved(x) => is_that(operand, x),
        Reading::Loaded(_, x) => is_that(operand, x),
        Reading::InSlot(_) => false,
        Reading::Sum(x, y) => is_one_of(operand, x, y),
        Reading::Plus(x, _) => is_that(operand, x),
        Reading::ExactSum(x, y) => is_one_of(operand, x, y),
        Reading::ExactPlus(x, _) => is_that(operand, x),
        Reading::Shifted(x, _) => is_that(operand, x),
        Reading::Lower(x, y) => is_one_of(operand, x, y),
    }
}

fn same_two(x: Opnd, y: Opnd, u: Opnd, v: Opnd) -> bool
    ensures { result ≡ (is_same x u && is_same y v) }
{
    is_same(x, u) && is_same(y, v)
}

fn same_with(n: u32, x: Opnd, m: u32, y: Opnd) -> bool
    ensures { result ≡ (n == m && is_same x y) }
{
    n == m && is_same(x, y)
}

fn is_slot(slot: u32, other: Reading) -> bool
    ensures { result ≡ readings.same_reading (InSlot slot) other }
{
    match other {
        Reading::InSlot(number) => slot == number,
        _ => false,
    }
}

/// Whether two readings are one.
pub(crate) fn same_reading(one: Reading, other: Reading) -> bool
    ensures { result ≡ readings.same_reading one other }
{
    match one {
        Reading::Moved(x) => match other {
            Reading::Moved(y) => is_same(x, y),
            _ => false,
        },
        Reading::Loaded(n, x) => match other {
            Reading::Loaded(m, y) => same_with(n.get(), x, m.get(), y),
            _ => false,
        },
        Reading::InSlot(slot) => is_slot(slot, other),
        Reading::Sum(x, y) => match other {
            Reading::Sum(u, v) => same_two(x, y, u, v),
            _ => false,
        },
        Reading::Plus(x, n) => match other {
            Reading::Plus(y, m) => same_with(n.get(), x, m.get(), y),
            _ => false,
        },
        Reading::ExactSum(x, y) => match other {
            Reading::ExactSum(u, v) => same_two(x, y, u, v),
            _ => false,
        },
        Reading::ExactPlus(x, n) => match other {
            Reading::ExactPlus(y, m) => same_with(n.get(), x, m.get(), y),
            _ => false,
        },
        Reading::Shifted(x, n) => match other {
            Reading::Shifted(y, m) => same_with(n.get(), x, m.get(), y),
            _ => false,
        },
        Reading::Lower(x, y) => match other {
            Reading::Lower(u, v) => same_two(x, y, u, v),
            _ => false,
        },
    }
}
