ghost use Rattle.std.specs.Prelude.{
  ◌≡◌,
  ◌≤◌,
  ◌↔◌,
  ◌||◌,
  ℕ,
  List,
  length,
  take,
  not,
  is_err,
  is_some,
  false,
  IsTrue,
  IfOk,
  IsErrOf,
  OnErr,
  if◌then◌else◌,
};
ghost use Rattle.std.specs.declared.option.Option.TheVariants.{Some};
ghost use Rattle.tg_base.specs.Causes.{Rose};
ghost use Rattle.tg_base.specs.Counts.{counted, none_so_far, next_fails, after_call};
ghost use Rattle.tg_base.specs.Files.{IsFilePrefix};
ghost use Rattle.tg_base.specs.InMemory.{
  as_files,
  is_missing,
  read_fails,
  named_files,
  faults_after,
};

use crate::outside::{Shelf, ShelfFault};
use crate::tallies::Tally;
use std::alloc::Global;
use std::collections::BTreeMap;
use std::marker::Model;

/// The first `most` bytes of a file, or all where it is shorter.
fn front(alloc: Global, file: &[u8], most: usize) -> Result<Vec<u8>, ShelfFault>
    ensures ok { IfOk result (λ v. v.items ≡ take most file.now) }
    ensures err { OnErr result (result ≡ Err ShelfFault.Memory) }
{
    match file[..file.len().min(most)].to_vec(alloc) {
        Ok(front) => Ok(front),
        Err(_) => Err(ShelfFault::Memory),
    }
}

/// Files in memory, which fail for a missing name alone.
///
/// Its count of faults for a name that it holds is always 0, and for another name that of all.
#[derive(Drop)]
pub struct PlainShelf {
    files: BTreeMap<String, Vec<u8>>,
    calls: u64,
    faults: u64,
}

impl Model for PlainShelf {
    ghost use Rattle.tg_base.specs.InMemory.{PlainFiles, named_files};

    ghost Value = { PlainFiles };

    ghost view = { λ s. record { held = named_files s.files; calls = s.calls; faults = s.faults } };
}

impl PlainShelf {
    /// A shelf of these files, by their names, none of them read so far.
    pub fn new(files: BTreeMap<String, Vec<u8>>) -> PlainShelf
        ensures { result ≡ record { held = named_files files; calls = 0; faults = 0 } }
    {
        PlainShelf {
            files,
            calls: 0,
            faults: 0,
        }
    }

    /// The count of faults, at most the greatest u64.
    pub fn faults(&self) -> u64
        ensures { result ≡ self.now.faults }
    {
        self.faults
    }

    /// The number of calls of `read_file` so far, at most the greatest u64.
    pub fn calls(&self) -> u64
        ensures { result ≡ self.now.calls }
    {
        self.calls
    }
}

impl Shelf for PlainShelf {
    ghost files = { λ s. as_files s.held };

    ghost faults = { λ s name. if is_missing s.held name then s.faults else 0 };

    #[tactic(auto, using(crate::proofs::FileLemmas::file_of_named))]
    fn read_file(&mut self, alloc: Global, name: &str, most: usize) -> Result<Vec<u8>, ShelfFault>
        ensures same { self.new.held ≡ self.old.held }
        ensures later { self.old.faults ≤ self.new.faults }
        ensures cause { IsErrOf result ShelfFault.Failed → Rose self.old.faults self.new.faults }
        ensures bound { IfOk result (λ v. length v.items ≤ most) }
        ensures front { IfOk result (λ v.
            IsFilePrefix (as_files self.old.held) name.now most v.items) }
        ensures missing { (result ≡ Err ShelfFault.Failed)
            ↔ IsTrue (is_missing self.old.held name.now) }
        ensures calls { self.new.calls ≡ counted self.old.calls }
        ensures faults { self.new.faults ≡ faults_after self.old name.now }
    {
        self.calls = self.calls.saturating_add(1);
        match self.files.get(name) {
            Some(file) => front(alloc, file, most),
            None => {
                self.faults = self.faults.saturating_add(1);
                Err(ShelfFault::Failed)
            }
        }
    }
}

/// Files in memory, which fail at the listed calls and for a missing name. Calls are numbered from
/// 1.
///
/// Its count of faults for every name is that of all.
#[derive(Drop)]
pub struct MapShelf {
    files: BTreeMap<String, Vec<u8>>,
    tally: Tally,
}

impl Model for MapShelf {
    ghost use Rattle.tg_base.specs.InMemory.{ListedFiles, named_files};

    ghost Value = { ListedFiles };

    ghost view = { λ s. record { held = named_files s.files; counts = s.tally } };
}

impl MapShelf {
    /// A shelf of these files, by their names, whose reads fail at the listed calls.
    pub fn new(files: BTreeMap<String, Vec<u8>>, fails: Vec<u64>) -> MapShelf
        ensures { result ≡ record { held = named_files files; counts = none_so_far fails.items } }
    {
        MapShelf {
            files,
            tally: Tally::new(fails),
        }
    }

    /// The count of faults, at most the greatest u64.
    pub fn faults(&self) -> u64
        ensures { result ≡ self.now.counts.faults }
    {
        self.tally.faults()
    }

    /// The number of calls of `read_file` so far, at most the greatest u64.
    pub fn calls(&self) -> u64
        ensures { result ≡ self.now.counts.calls }
    {
        self.tally.calls()
    }
}

impl Shelf for MapShelf {
    ghost files = { λ s. as_files s.held };

    ghost faults = { λ s _. s.counts.faults };

    #[tactic(auto, using(crate::proofs::FileLemmas::file_of_named))]
    fn read_file(&mut self, alloc: Global, name: &str, most: usize) -> Result<Vec<u8>, ShelfFault>
        ensures same { self.new.held ≡ self.old.held }
        ensures later { self.old.counts.faults ≤ self.new.counts.faults }
        ensures cause { IsErrOf result ShelfFault.Failed →
            Rose self.old.counts.faults self.new.counts.faults }
        ensures bound { IfOk result (λ v. length v.items ≤ most) }
        ensures front { IfOk result (λ v.
            IsFilePrefix (as_files self.old.held) name.now most v.items) }
        ensures failed { (result ≡ Err ShelfFault.Failed) ↔ IsTrue (read_fails self.old name.now) }
        ensures counted { self.new.counts
            ≡ after_call self.old.counts (read_fails self.old name.now) }
    {
        let failing = self.tally.next_fails();
        match self.files.get(name) {
            Some(file) if !failing => {
                self.tally.count_call();
                front(alloc, file, most)
            }
            _ => {
                self.tally.count_fault();
                Err(ShelfFault::Failed)
            }
        }
    }
}

#[cfg(test)]
mod tests {
    use super::*;
    use std::test::Fail;

    fn one_file(alloc: Global) -> Result<BTreeMap<String, Vec<u8>>, Fail> {
        let mut files = BTreeMap::new(alloc);
        let name = String::from_str(alloc, "a")?;
        files.insert(name, vec![in alloc; 7, 8]?)?;
        Ok(files)
    }

    #[test]
    fn plain_files(rt: HostRuntime) -> Result<(), Fail> {
        let mut shelf = PlainShelf::new(one_file(rt.alloc())?);
        let Ok(all) = shelf.read_file(rt.alloc(), "a", 3) else {
            return Err(Fail::from("memory"));
        };
        assert_eq!(rt; all.as_slice(), [7, 8].as_slice());
        assert_eq!(rt; shelf.faults(), 0);
        let missing = shelf.read_file(rt.alloc(), "b", 3);
        assert!(rt; matches!(missing, Err(ShelfFault::Failed)));
        assert_eq!(rt; shelf.calls(), 2);
        assert_eq!(rt; shelf.faults(), 1);
        Ok(())
    }

    #[test]
    fn a_listed_file_fails(rt: HostRuntime) -> Result<(), Fail> {
        let mut shelf = MapShelf::new(one_file(rt.alloc())?, vec![in rt.alloc(); 1]?);
        let listed = shelf.read_file(rt.alloc(), "a", 1);
        assert!(rt; matches!(listed, Err(ShelfFault::Failed)));
        assert_eq!(rt; shelf.faults(), 1);
        let Ok(front) = shelf.read_file(rt.alloc(), "a", 1) else {
            return Err(Fail::from("memory"));
        };
        assert_eq!(rt; front.as_slice(), [7].as_slice());
        let missing = shelf.read_file(rt.alloc(), "b", 1);
        assert!(rt; matches!(missing, Err(ShelfFault::Failed)));
        assert_eq!(rt; shelf.calls(), 3);
        assert_eq!(rt; shelf.faults(), 2);
        Ok(())
    }
}
