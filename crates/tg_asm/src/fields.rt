ghost use Rattle.std.specs.Prelude.{◌≡◌, map};
ghost use Rattle.tg_asm_text.specs.Operands as spec;
ghost use Rattle.tg_asm.specs.glue.Cuts.{operand_of};
ghost use Rattle.tg_asm.specs.glue.Numbers.{found_number};
ghost use Rattle.tg_asm.specs.glue.Registers.{fields_of, found_address, found_fields};

use crate::bytes::{Class, begins_label, split};
use crate::cuts::Operand;
use crate::numbers::{Signed, number};
use crate::registers::register;
use tg_asm_text::Slot;
use tg_isa::Reg;

/// What the operands of an instruction fill.
#[derive(Clone, Copy)]
pub(crate) struct Fields<'a> {
    pub(crate) rd: Reg,
    pub(crate) rs: Reg,
    pub(crate) rt: Reg,
    pub(crate) number: Signed,
    pub(crate) label: &'a [u8],
}

/// Whether a text is a label's name.
pub(crate) fn is_label(text: &[u8]) -> bool
    ensures { result ≡ spec.is_label text.now }
{
    match text.split_first() {
        Some((first, more)) => begins_label(*first) && split(more, Class::PastLabel).1.is_empty(),
        None => false,
    }
}

/// The number that a text is, or 0 for none.
fn number_or_nothing(text: &[u8]) -> Option<Signed>
    ensures { found_number result ≡ spec.or_nothing text.now }
{
    if text.is_empty() {
        Some(Signed::NOTHING)
    } else {
        number(text)
    }
}

/// A number with the register of what follows a `(`.
fn in_parens(number: Option<Signed>, inside: &[u8]) -> Option<(Signed, Reg)>
    ensures { found_address result
        ≡ spec.closed_address (found_number number) inside.now }
{
    let (inner, end) = split(inside, Class::Close);
    if end.len() != 1 {
        return None;
    }
    let number = number?;
    let base = register(inner)?;
    Some((number, base))
}

/// The number and the register of `number(register)`.
fn based(text: &[u8]) -> Option<(Signed, Reg)>
    ensures { found_address result ≡ spec.based text.now }
{
    let (before, rest) = split(text, Class::Open);
    let number = number_or_nothing(before);
    match rest.split_first() {
        Some((_, inside)) => in_parens(number, inside),
        None => None,
    }
}

/// Fields with one operand more; none where it is of another kind.
fn fill<'a>(slot: Slot, operand: Operand<'a>, fields: Fields<'a>) -> Option<Fields<'a>>
    ensures { found_fields result
        ≡ spec.fill slot (operand_of operand.entry) (fields_of fields.entry) }
{
    let text = match operand {
        Operand::Plain(text) => text,
        Operand::Quoted(_) => return None,
    };
    match slot {
        Slot::Rd => match register(text) {
            Some(rd) => Some(Fields { rd, ..fields }),
            None => None,
        },
        Slot::Rs => match register(text) {
            Some(rs) => Some(Fields { rs, ..fields }),
            None => None,
        },
        Slot::Rt => match register(text) {
            Some(rt) => Some(Fields { rt, ..fields }),
            None => None,
        },
        Slot::Number => match number(text) {
            Some(number) => Some(Fields { number, ..fields }),
            None => None,
        },
        Slot::Based => match based(text) {
            Some((number, rs)) => Some(Fields {
                number,
                rs,
                ..fields
            }),
            None => None,
        },
        Slot::Label => {
            if is_label(text) {
                Some(Fields {
                    label: text,
                    ..fields
                })
            } else {
                None
            }
        }
    }
}

/// What all operands fill, in order; none where one is of another kind, or their number is another.
pub(crate) fn fill_all<'a>(slots: &[Slot], operands: &[Operand<'a>]) -> Option<Fields<'a>>
    ensures { found_fields result
        ≡ spec.fill_all slots.now (map operand_of operands.now) spec.unfilled }
{
    if slots.len() != operands.len() {
        return None;
    }
    let mut fields = Fields {
        rd: Reg::RA,
        rs: Reg::ZERO,
        rt: Reg::ZERO,
        number: Signed::NOTHING,
        label: &[],
    };
    for (at, slot) in slots.iter().enumerate() {
        match fill(*slot, operands[at], fields) {
            Some(more) => fields = more,
            None => return None,
        }
    }
    Some(fields)
}
