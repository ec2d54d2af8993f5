ghost use Rattle.std.specs.Prelude.{◌≡◌, ◌<◌, ◌≤◌, length, is_err, IfOk};
ghost use Rattle.std.specs.declared.option.Option.TheVariants.{None};
ghost use Rattle.std.specs.Io.KnownBytes.{WriteAppends};
ghost use Rattle.tg_base.specs.Causes.{HasCause};
ghost use Rattle.tg_cli.specs.glue.Faults.{faults_after};

use crate::counted::Counted;
use crate::interrupts::write_again;
use std::io::Write;
use tg_base::{Failed, Sink};

/// A writer is a sink, to which each piece is handed on at once. Each of its errors is a fault, but
/// for writes that are made again, and so is a write of nothing.
impl<W: Write> Sink for Counted<W> {
    ghost taken = { λ _. None };

    ghost faults = { λ s. s };

    fn write(&mut self, piece: &[u8]) -> Result<usize, Failed>
        ensures some { IfOk result (λ n. (0 < n) × (n ≤ length piece.now)) }
        ensures bytes { WriteAppends None None result piece.now }
        ensures cause { HasCause self.old self.new result }
        ensures counted { self.new ≡ faults_after self.old (is_err result) }
    {
        let count = write_again(&mut self.part, piece).unwrap_or(0);
        if count == 0 || self.part.flush().is_err() {
            self.faults = self.faults.saturating_add(1);
            return Err(Failed);
        }
        Ok(count)
    }
}

#[cfg(test)]
mod tests {
    use super::*;
    use std::io::{self, Cursor, ErrorKind};

    /// A writer whose flush fails.
    #[derive(Drop)]
    struct Unflushed;

    impl Write for Unflushed {
        fn write(&mut self, buf: &[u8]) -> io::Result<usize> {
            Ok(buf.len())
        }

        fn flush(&mut self) -> io::Result<()> {
            Err(io::Error::from(ErrorKind::BrokenPipe))
        }
    }

    #[test]
    fn writes_count_their_faults(rt: HostRuntime) {
        let mut sink = Counted::new(Cursor::new([0; 2]));
        assert_eq!(rt; sink.write(b"abc"), Ok(2));
        assert_eq!(rt; sink.faults, 0);
        assert_eq!(rt; sink.write(b"c"), Err(Failed));
        assert_eq!(rt; sink.faults, 1);
        assert_eq!(rt; sink.part.get_ref(), b"ab");

        let mut sink = Counted::new(Unflushed);
        assert_eq!(rt; sink.write(b"a"), Err(Failed));
        assert_eq!(rt; sink.faults, 1);
    }
}
