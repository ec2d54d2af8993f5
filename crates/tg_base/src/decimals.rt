// Decimal texts are made with `itoa`, whose contract names the same text as the definition of
// service 1.

ghost use Rattle.std.specs.Prelude.{◌≡◌, ◌≤◌, take};
ghost use Rattle.std.specs.Fmt.{signed_decimal};

/// Writes the decimal text of an int at the front of `into`, and answers its length, which is 1 to
/// 11 bytes.
pub fn decimal(value: i32, into: &mut [u8; 11]) -> usize
    ensures fits { result ≤ 11 }
    ensures text { take result into.new ≡ signed_decimal value }
{
    let mut buffer = itoa::Buffer::new();
    let text = buffer.format(value).as_bytes();
    into[..text.len()].copy_from_slice(text);
    text.len()
}

#[cfg(test)]
mod tests {
    use super::*;

    #[test]
    fn texts_of_ints(rt: HostRuntime) {
        let cases = [
            (0, "0"),
            (-1, "-1"),
            (2147483647, "2147483647"),
            (-2147483648, "-2147483648"),
        ];
        for (value, text) in cases {
            let mut into = [0; 11];
            let count = decimal(value, &mut into);
            assert_eq!(rt; &into[..count], text.as_bytes());
        }
    }
}
