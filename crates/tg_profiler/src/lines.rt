ghost use Rattle.std.specs.Prelude.{◌≡◌, ◌≤◌, ◌<◌, ◌+◌, ◌%◌, ◌++◌, length, take, drop};
ghost use Rattle.std.specs.Fmt.{decimal};
ghost use Rattle.tg_profiler.specs.Words.{hex_digit, word_in_hex};

/// A digit of base 16, in lower case.
fn hex_digit(number: u32) -> u8
    ensures { result ≡ hex_digit (number % 16) }
{
    let digit = (number % 16) as u8;
    if digit < 10 { digit + 48 } else { digit + 87 }
}

/// A word as `0x` and eight digits of base 16.
pub fn word_in_hex(word: u32) -> [u8; 10]
    ensures { result ≡ word_in_hex word }
{
    [
        b'0',
        b'x',
        hex_digit(word / 0x1000_0000),
        hex_digit(word / 0x100_0000),
        hex_digit(word / 0x10_0000),
        hex_digit(word / 0x1_0000),
        hex_digit(word / 0x1000),
        hex_digit(word / 0x100),
        hex_digit(word / 0x10),
        hex_digit(word),
    ]
}

/// Puts bytes after the first `size` of a line, and answers how many there are then.
pub(crate) fn put(into: &mut [u8; 64], size: usize, text: &[u8]) -> usize
    requires { size + length text.now ≤ 64 }
    ensures size { result ≡ size + length text.now }
    ensures text { take result into.new ≡ take size into.old ++ text.now }
{
    let end = size + text.len();
    into[size..end].copy_from_slice(text);
    end
}

/// Puts a number after the first `size` bytes of a line, and answers how many there are then.
pub(crate) fn put_decimal(into: &mut [u8; 64], size: usize, number: u64) -> usize
    requires { size ≤ 40 }
    ensures size { result ≤ size + 20 }
    ensures text { take result into.new ≡ take size into.old ++ decimal number }
{
    let mut buffer = itoa::Buffer::new();
    put(into, size, buffer.format(number).as_bytes())
}
