ghost use Rattle.std.specs.Prelude.{◌≡◌, ◌≤◌, [], ◌∷◌, ◌++◌, drop, length, List, OnOk, OnErr, IfOk};
ghost use Rattle.std.specs.Option.{option_copied};
ghost use Rattle.tg_symbols.specs.Tables.{looked_up};
ghost use Rattle.tg_symbols.specs.Links.{placed_at};

use std::alloc::Global;
use std::collections::HashMap;
use std::marker::Model;
use tg_base::Memory;

/// What a name has, with the place of the entry of the same name that it hides.
#[derive(Drop)]
struct Entry<V> {
    name: u32,
    hidden: Option<u32>,
    value: V,
}

/// A scoped symbol table: names, which are numbers, with what they have, the newest first. A newer
/// entry hides the older ones of its name until it is taken away. A look-up and an entry's end take
/// a bounded number of look-ups in a hash map, and don't walk over what is open; only an entry
/// pushed takes memory.
#[derive(Drop)]
pub struct Table<V> {
    top: HashMap<u32, u32>,
    entries: Vec<Entry<V>>,
}

impl<V> Model for Table<V> {
    ghost use Rattle.std.specs.Prelude.{List, ℕ};

    ghost Value = { List (ℕ × V) };

    ghost use Rattle.tg_symbols.specs.Links.{entries_of, IsLinked};

    ghost view = { λ t. entries_of t.entries.items };

    ghost invariant = { λ t. IsLinked t.top t.entries.items };
}

impl<V: Drop> Table<V> {
    /// No entries. It takes no memory.
    pub fn new(alloc: Global) -> Table<V>
        ensures { result ≡ [] }
    {
        Table {
            top: HashMap::new(alloc),
            entries: Vec::new(alloc),
        }
    }

    /// How many entries are open, hidden ones too. A scope remembers it at its beginning and cuts
    /// to it at its end.
    pub fn len(&self) -> usize
        ensures { result ≡ length self.now }
    {
        self.entries.len()
    }

    /// What a name has, by its newest entry.
    pub fn get(&self, name: u32) -> Option<&V>
        ensures { option_copied result ≡ looked_up name self.now }
    {
        // (the slice tells the proof how many entries there may be)
        let _ = self.entries.as_slice();
        match self.top.get(&name) {
            Some(at) => Some(&self.entries[*at as usize].value),
            None => None,
        }
    }

    /// The place of a name's newest entry, counted from the newest of all on.
    pub fn find(&self, name: u32) -> Option<u32>
        ensures { result ≡ placed_at name 0 self.now }
    {
        // (the slice tells the proof how many entries there may be)
        let _ = self.entries.as_slice();
        match self.top.get(&name) {
            Some(at) => Some(self.entries.len() as u32 - 1 - *at),
            None => None,
        }
    }

    /// A name's entry before the others. It fails where memory runs out, for which 2^32 - 1 open
    /// entries stand too.
    pub fn push(&mut self, name: u32, value: V) -> Result<(), Memory>
        ensures ok { OnOk result (self.new ≡ (name, value) ∷ self.old) }
        ensures err { OnErr result (self.new ≡ self.old) }
    {
        let at = self.entries.len();
        if at >= 4294967295 {
            return Err(Memory);
        }
        let hidden = self.top.get(&name).copied();
        self.entries.push(Entry {
            name,
            hidden,
            value,
        })?;
        match self.top.insert(name, at as u32) {
            Ok(_) => Ok(()),
            Err(_) => {
                self.entries.pop();
                Err(Memory)
            }
        }
    }

    /// Takes the newest entries away, so many that this many are left.
    pub fn cut_to(&mut self, len: usize)
        requires { len ≤ length self.old }
        ensures { (front back : List _) → self.old ≡ front ++ back → length back ≡ len →
            self.new ≡ back }
    {
        while self.len() > len {
            self.pop();
        }
    }

    // Takes the newest entry away.
    fn pop(&mut self)
        ensures { self.new ≡ drop 1 self.old }
    {
        let Some(entry) = self.entries.pop() else {
            return;
        };
        let Entry {
            name,
            hidden,
            value: _,
        } = entry;
        match hidden {
            Some(at) => {
                let _ = self.top.insert(name, at);
            }
            None => {
                self.top.remove(&name);
            }
        }
    }
}

impl<V: Copy> Table<V> {
    /// The entries, the newest first.
    pub fn to_vec(&self, alloc: Global) -> Result<Vec<(u32, V)>, Memory>
        ensures { IfOk result (λ v. v.items ≡ self.now) }
    {
        let mut entries = Vec::new(alloc);
        let mut at = self.entries.len();
        while at > 0 {
            at -= 1;
            let entry = &self.entries[at];
            entries.push((entry.name, entry.value))?;
        }
        Ok(entries)
    }
}
