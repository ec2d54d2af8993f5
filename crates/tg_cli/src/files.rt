ghost use Rattle.std.specs.Prelude.{◌≡◌, ◌≢◌, ◌≤◌, ℕ, List, length, IfOk, IsErrOf};
ghost use Rattle.std.specs.declared.option.Option.TheVariants.{None};
ghost use Rattle.tg_base.specs.Causes.{Rose};
ghost use Rattle.tg_base.specs.Counts.{counted};
ghost use Rattle.tg_base.specs.Files.{IsFilePrefix};

use crate::counted::Counted;
use crate::interrupts::read_again;
use std::alloc::Global;
use std::fs;
use std::io::Read;
use std::rt::Files;
use tg_base::{Shelf, ShelfFault};

/// The files of the system are a shelf, whose count of faults is for every name that of all. Each
/// error in opening or reading a file is a fault, but for reads that are made again.
impl<'a, R: Files> Shelf for Counted<&'a R>
where
    R::File: Read + Drop,
{
    ghost files = { λ _. None };

    ghost faults = { λ s _. s };

    fn read_file(&mut self, alloc: Global, name: &str, most: usize) -> Result<Vec<u8>, ShelfFault>
        ensures later { self.old ≤ self.new }
        ensures cause { IsErrOf result ShelfFault.Failed → Rose self.old self.new }
        ensures bound { IfOk result (λ v. length v.items ≤ most) }
        ensures front { IfOk result (λ v. IsFilePrefix None name.now most v.items) }
        ensures failed { result ≡ Err ShelfFault.Failed → self.new ≡ counted self.old }
        ensures unfailed { result ≢ Err ShelfFault.Failed → self.new ≡ self.old }
    {
        let front = match fs::open(self.part, name) {
            Ok(mut file) => read_front(alloc, &mut file, most),
            Err(_) => Err(ShelfFault::Failed),
        };
        if let Err(ShelfFault::Failed) = front {
            self.faults = self.faults.saturating_add(1);
        }
        front
    }
}

/// The first `most` bytes that a reader gives, or all where it ends before.
fn read_front<F: Read>(alloc: Global, file: &mut F, most: usize) -> Result<Vec<u8>, ShelfFault>
    ensures { IfOk result (λ v. length v.items ≤ most) }
{
    let mut front = Vec::new(alloc);
    let mut piece = [0; 4096];
    while front.len() < most {
        let room = (most - front.len()).min(piece.len());
        match read_again(file, &mut piece[..room]) {
            Ok(0) => break,
            Ok(count) => {
                if front.extend_from_slice(&piece[..count]).is_err() {
                    return Err(ShelfFault::Memory);
                }
            }
            Err(_) => return Err(ShelfFault::Failed),
        }
    }
    Ok(front)
}

#[cfg(test)]
mod tests {
    use super::*;
    use std::process;
    use std::test::Fail;

    /// The path of a file in a new folder, of which nobody has made anything before.
    fn fresh(rt: &HostRuntime) -> Result<(String, String), Fail> {
        let alloc = rt.alloc();
        let id = process::id(rt.process());
        for n in 0..1000 {
            let folder = format!(in alloc; "/tmp/tiger_{id}_{n}")?;
            if fs::create_dir(rt, folder.as_str()).is_ok() {
                let name = format!(in alloc; "{folder}/exit.tig")?;
                return Ok((folder, name));
            }
        }
        Err(Fail::from("no new folder"))
    }

    #[test]
    fn files_count_their_faults(rt: HostRuntime) -> Result<(), Fail> {
        let alloc = rt.alloc();
        let (folder, name) = fresh(&rt)?;
        fs::write(&rt, name.as_str(), b"exit(3)".as_slice())?;
        let mut shelf = Counted::new(&rt);
        let Ok(front) = shelf.read_file(alloc, &name, 4) else {
            return Err(Fail::from("the front of a file"));
        };
        let Ok(all) = shelf.read_file(alloc, &name, 8) else {
            return Err(Fail::from("a whole file"));
        };
        fs::remove_file(&rt, name.as_str())?;
        fs::remove_dir(&rt, folder.as_str())?;
        assert_eq!(rt; front.as_slice(), b"exit".as_slice());
        assert_eq!(rt; all.as_slice(), b"exit(3)".as_slice());
        assert_eq!(rt; shelf.faults, 0);

        let missing = shelf.read_file(alloc, &name, 8);
        assert!(rt; matches!(missing, Err(ShelfFault::Failed)));
        assert_eq!(rt; shelf.faults, 1);
        Ok(())
    }
}
