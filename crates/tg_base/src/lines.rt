ghost use Rattle.std.specs.Prelude.{◌≡◌, ◌≤◌, ◌<◌, ◌^◌, length};
ghost use Rattle.tg_base.specs.Lines.{place_of};

use crate::places::Place;

/// The place of a byte of a text, or of the text's end.
pub fn place(text: &[u8], at: u32) -> Place
    requires within { at ≤ length text.now }
    requires small { at < 2 ^ 31 }
    ensures { result ≡ place_of text.now at }
{
    let mut line = 1;
    let mut column = 1;
    for byte in &text[..at as usize] {
        if *byte == b'\n' {
            line += 1;
            column = 1;
        } else {
            column += 1;
        }
    }
    Place { line, column }
}

#[cfg(test)]
mod tests {
    use super::*;

    #[test]
    fn a_return_is_a_byte_of_its_line(rt: HostRuntime) {
        let text = b"a\r\nbc\n";
        let cases = [(0, 1, 1), (2, 1, 3), (3, 2, 1), (4, 2, 2), (6, 3, 1)];
        for (at, line, column) in cases {
            assert_eq!(rt; place(text, at), Place { line, column }, "at {at}");
        }
    }
}
