// A read or a write that a signal interrupts is made again, 100 times in a row at most, so that
// one signal ends no run, and each call returns whatever the system answers. The kit makes an
// interrupted `open` again by itself.

ghost use Rattle.std.specs.Io.{ReadsAtMost, WritesAtMost};
ghost use Rattle.std.specs.Io.KnownBytes.{ReadConsumes, WriteAppends};

use std::io::{self, ErrorKind, Read, Write};

/// How often in a row an interrupted call is made again.
const MOST_AGAIN: u32 = 100;

/// Reads once. A read that a signal interrupts is made again, 100 times in a row at most; after
/// these its error is the answer.
pub(crate) fn read_again<R: Read>(reader: &mut R, into: &mut [u8]) -> io::Result<usize>
    ensures bound { ReadsAtMost result into.new }
    ensures bytes { ReadConsumes (R.remaining reader.old) (R.remaining reader.new) result into.new }
{
    for _ in 0..MOST_AGAIN {
        match reader.read(into) {
            Err(error) if error.kind() == ErrorKind::Interrupted => {}
            done => return done,
        }
    }
    reader.read(into)
}

/// Writes once. A write that a signal interrupts is made again, 100 times in a row at most; after
/// these its error is the answer.
pub(crate) fn write_again<W: Write>(writer: &mut W, piece: &[u8]) -> io::Result<usize>
    ensures bound { WritesAtMost result piece.now }
    ensures bytes { WriteAppends (W.contents writer.old) (W.contents writer.new) result piece.now }
{
    for _ in 0..MOST_AGAIN {
        match writer.write(piece) {
            Err(error) if error.kind() == ErrorKind::Interrupted => {}
            done => return done,
        }
    }
    writer.write(piece)
}

#[cfg(test)]
mod tests {
    use super::*;
    use crate::counted::Counted;
    use tg_base::{Failed, Sink, Source};

    /// A reader and a writer whose next calls are interrupted, so many times.
    #[derive(Drop)]
    struct Interrupted {
        times: u32,
    }

    impl Interrupted {
        fn next(&mut self) -> io::Result<()> {
            if self.times == 0 {
                return Ok(());
            }
            self.times -= 1;
            Err(io::Error::from(ErrorKind::Interrupted))
        }
    }

    impl Read for Interrupted {
        fn read(&mut self, buf: &mut [u8]) -> io::Result<usize> {
            self.next()?;
            Ok(buf.len())
        }
    }

    impl Write for Interrupted {
        fn write(&mut self, buf: &[u8]) -> io::Result<usize> {
            self.next()?;
            Ok(buf.len())
        }

        fn flush(&mut self) -> io::Result<()> {
            Ok(())
        }
    }

    #[test]
    fn interrupted_calls_are_made_again(rt: HostRuntime) {
        let table = [(0, Ok(1)), (1, Ok(1)), (100, Ok(1)), (101, Err(Failed))];
        for (times, answer) in table {
            let mut into = [0; 1];
            let mut source = Counted::new(Interrupted { times });
            assert_eq!(rt; source.read(&mut into), answer, "a read after {times}");
            let mut sink = Counted::new(Interrupted { times });
            assert_eq!(rt; sink.write(b"a"), answer, "a write after {times}");
            assert_eq!(rt;
                (source.faults, sink.faults),
                if times > 100 { (1, 1) } else { (0, 0) }
            );
        }
    }
}
