ghost use Rattle.std.specs.Prelude.{◌≡◌, is_err};
ghost use Rattle.std.specs.declared.option.Option.TheVariants.{None};
ghost use Rattle.std.specs.Io.{ReadsAtMost};
ghost use Rattle.std.specs.Io.KnownBytes.{ReadConsumes};
ghost use Rattle.tg_base.specs.Causes.{HasCause};
ghost use Rattle.tg_cli.specs.glue.Faults.{faults_after};

use crate::counted::Counted;
use crate::interrupts::read_again;
use std::io::Read;
use tg_base::{Failed, Source};

/// A reader is a source, each of whose errors is a fault, but for reads that are made again.
impl<R: Read> Source for Counted<R> {
    ghost left = { λ _. None };

    ghost faults = { λ s. s };

    fn read(&mut self, into: &mut [u8]) -> Result<usize, Failed>
        ensures bound { ReadsAtMost result into.new }
        ensures bytes { ReadConsumes None None result into.new }
        ensures cause { HasCause self.old self.new result }
        ensures counted { self.new ≡ faults_after self.old (is_err result) }
    {
        match read_again(&mut self.part, into) {
            Ok(count) => Ok(count),
            Err(_) => {
                self.faults = self.faults.saturating_add(1);
                Err(Failed)
            }
        }
    }
}

#[cfg(test)]
mod tests {
    use super::*;
    use std::io::{self, ErrorKind};

    /// A reader whose reads fail.
    #[derive(Drop)]
    struct Closed;

    impl Read for Closed {
        fn read(&mut self, _buf: &mut [u8]) -> io::Result<usize> {
            Err(io::Error::from(ErrorKind::NotConnected))
        }
    }

    #[test]
    fn reads_count_their_faults(rt: HostRuntime) {
        let mut into = [0; 2];
        let mut source = Counted::new(b"abc".as_slice());
        assert_eq!(rt; source.read(&mut into), Ok(2));
        assert_eq!(rt; into, *b"ab");
        assert_eq!(rt; source.read(&mut into), Ok(1));
        assert_eq!(rt; into[0], b'c');
        assert_eq!(rt; source.read(&mut into), Ok(0));
        assert_eq!(rt; source.faults, 0);

        let mut source = Counted::new(Closed);
        assert_eq!(rt; source.read(&mut into), Err(Failed));
        assert_eq!(rt; source.faults, 1);
    }
}
