// A number above 2^33 is outside every range. The definition lets it stand for 2^33, so that one
// word holds a number of any length.

ghost use Rattle.std.specs.Prelude.{◌≡◌, ◌≤◌, ◌<◌, ◌^◌, ◌-◌, ◌%◌, if◌then◌else◌};
ghost use Rattle.tg_asm_text.specs.Operands as operands;
ghost use Rattle.tg_asm.specs.glue.Numbers.{found_number, signed_of};

use tg_isa::Bits;

/// One more than any number of a text that counts exactly.
const CAP: u64 = 8589934592;

/// A number with its sign. One that is too great for every range stands for the cap.
#[derive(Clone, Copy)]
pub(crate) struct Signed {
    pub(crate) negative: bool,
    pub(crate) size: u64,
}

impl Signed {
    /// 0.
    pub(crate) const NOTHING: Signed = Signed {
        negative: false,
        size: 0,
    };

    /// Whether the number is from minus `least` to `greatest`.
    pub(crate) fn is_within(self, least: u64, greatest: u64) -> bool
        ensures { result ≡ operands.is_within least greatest (signed_of self) }
    {
        if self.negative {
            self.size <= least
        } else {
            self.size <= greatest
        }
    }

    /// What the number is modulo so many values.
    fn residue(self, values: u64) -> u64
        requires { 0 < values }
        ensures value { result
            ≡ (if self.negative then (values - self.size % values) % values
            else self.size % values) }
        ensures bound { result < values }
    {
        let low = self.size % values;
        if self.negative {
            (values - low) % values
        } else {
            low
        }
    }

    /// The number's bits in a field of 5.
    pub(crate) fn field5(self) -> Bits<5>
        ensures { result ≡ operands.field 5 (signed_of self) }
    {
        Bits::new(self.residue(32) as u32)
    }

    /// The number's bits in a field of 8.
    pub(crate) fn field8(self) -> u8
        ensures { result ≡ operands.field 8 (signed_of self) }
    {
        self.residue(256) as u8
    }

    /// The number's bits in a field of 16.
    pub(crate) fn field16(self) -> Bits<16>
        ensures { result ≡ operands.field 16 (signed_of self) }
    {
        Bits::new(self.residue(65536) as u32)
    }

    /// The number's bits in a field of 20.
    pub(crate) fn field20(self) -> Bits<20>
        ensures { result ≡ operands.field 20 (signed_of self) }
    {
        Bits::new(self.residue(1048576) as u32)
    }

    /// The number's bits in a word.
    pub(crate) fn field32(self) -> u32
        ensures { result ≡ operands.field 32 (signed_of self) }
    {
        self.residue(4294967296) as u32
    }
}

/// The value of a digit, where it is one of the base.
fn digit(base: u64, byte: u8) -> Option<u64>
    ensures value { result ≡ operands.digit base byte }
{
    let value = match byte {
        b'0'..=b'9' => byte - b'0',
        b'A'..=b'F' => byte - 55,
        b'a'..=b'f' => byte - 87,
        _ => return None,
    };
    if (value as u64) < base {
        Some(value as u64)
    } else {
        None
    }
}

/// The number that digits are.
fn digits(base: u64, text: &[u8]) -> Option<u64>
    requires { base ≤ 16 }
    ensures { result ≡ operands.digits base 0 text.now }
{
    let mut value = 0;
    for byte in text {
        match digit(base, *byte) {
            Some(digit) => value = (base * value + digit).min(CAP),
            None => return None,
        }
    }
    Some(value)
}

fn some_digits(base: u64, text: &[u8]) -> Option<u64>
    requires { base ≤ 16 }
    ensures { result ≡ operands.some_digits base text.now }
{
    if text.is_empty() {
        return None;
    }
    digits(base, text)
}

fn magnitude(text: &[u8]) -> Option<u64>
    ensures { result ≡ operands.magnitude text.now }
{
    match text.split_first() {
        Some((b'0', more)) => match more.split_first() {
            Some((b'x', more)) => some_digits(16, more),
            _ => some_digits(10, text),
        },
        Some(_) => some_digits(10, text),
        None => None,
    }
}

/// The number that a text is.
pub(crate) fn number(text: &[u8]) -> Option<Signed>
    ensures { found_number result ≡ operands.number text.now }
{
    match text.split_first() {
        Some((b'-', more)) => match magnitude(more) {
            Some(size) => Some(Signed {
                negative: true,
                size,
            }),
            None => None,
        },
        Some(_) => match magnitude(text) {
            Some(size) => Some(Signed {
                negative: false,
                size,
            }),
            None => None,
        },
        None => None,
    }
}
