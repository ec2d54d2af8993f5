// Lists are one generic type `ListOf<T>` with names for its instances (`Bytes`, `Words`), since
// a macro of a repository may not write the `impl Model` of each.

ghost use Rattle.std.specs.Prelude.{◌≡◌, List};
ghost use Rattle.std.specs.Cmp.Lexicographic.{pointwise, lists_per, lists_equiv};

use std::marker::Model;

/// A list of items, which contracts see as the list alone. No call of it takes memory.
#[derive(Clone, Debug, Drop)]
pub struct ListOf<T> {
    items: Vec<T>,
}

impl<T> Model for ListOf<T> {
    ghost Value = { List T };

    ghost view = { λ b. b.items.items };
}

impl<T> ListOf<T> {
    /// The list of a vector's items.
    pub fn from_vec(items: Vec<T>) -> Self
        ensures { result ≡ items.items }
    {
        ListOf { items }
    }

    /// The items.
    pub fn as_slice(&self) -> &[T]
        ensures { result.now ≡ self.now }
    {
        &self.items
    }

    /// The vector of the items.
    pub fn into_vec(self) -> Vec<T>
        ensures { result.items ≡ self }
    {
        self.items
    }
}

impl<T: PartialEq> PartialEq for ListOf<T> {
    ghost eq = { pointwise T.eq };

    ghost laws = { lists_per T.laws };

    fn eq(&self, other: &Self) -> bool {
        self.items == other.items
    }
}

impl<T: Eq> Eq for ListOf<T> {
    ghost laws = { lists_equiv T.Eq.laws };
}

/// Bytes.
pub type Bytes = ListOf<u8>;

/// Words of 32 bits.
pub type Words = ListOf<u32>;
