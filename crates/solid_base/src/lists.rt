ghost use Rattle.std.specs.Prelude.{◌≡◌, ◌↔◌, [], ◌∷◌, ◌++◌, length, take, IsTrue, OnOk, OnErr};

use std::alloc::{AllocError, Global};
use std::marker::Model;

/// A `Vec` that contracts see as the list of its items.
#[derive(Debug, Drop, Clone)]
pub struct List<T> {
    items: Vec<T>,
}

/// A text: its bytes.
pub type Bytes = List<u8>;

/// Lines, without their line ends.
pub type Lines = List<Bytes>;

/// Numbers of rows, or of calls.
pub type Numbers = List<u32>;

impl<T> Model for List<T> {
    ghost use Rattle.std.specs.Prelude.{List as list};
    ghost use Rattle.std.specs.Coded.{coded_list};

    ghost Value = { list T };

    ghost coded = { coded_list T.code };

    ghost view = { λ it. it.items.items };
}

impl<T: PartialEq> PartialEq for List<T> {
    ghost use Rattle.std.specs.Cmp.Lexicographic.{pointwise, lists_per};

    ghost eq = { λ x y. pointwise T.eq x y };

    ghost laws = { lists_per T.laws };

    fn eq(&self, other: &Self) -> bool {
        self.items == other.items
    }
}

impl<T: Eq> Eq for List<T> {
    ghost use Rattle.std.specs.Cmp.Lexicographic.{lists_equiv};

    ghost laws = { lists_equiv T.Eq.laws };
}

impl<T> List<T> {
    /// The empty list, which takes no memory yet.
    pub fn new(alloc: Global) -> List<T>
        ensures { result ≡ [] }
    {
        List {
            items: Vec::new(alloc),
        }
    }

    /// The list of these items.
    pub fn from_vec(items: Vec<T>) -> List<T>
        ensures { result ≡ items.items }
    {
        List { items }
    }

    /// The items, in order.
    pub fn as_slice(&self) -> &[T]
        ensures { result.now ≡ self.now }
    {
        self.items.as_slice()
    }

    /// How many items there are.
    pub fn len(&self) -> usize
        ensures { result ≡ length self.now }
    {
        self.items.len()
    }

    /// Whether there is no item.
    pub fn is_empty(&self) -> bool
        ensures { IsTrue result ↔ (self.now ≡ []) }
    {
        self.items.is_empty()
    }
}

impl<T: Drop> List<T> {
    /// Adds an item at the end. When out of memory the list is unchanged.
    pub fn push(&mut self, item: T) -> Result<(), AllocError>
        ensures ok { OnOk result (self.new ≡ self.old ++ item ∷ []) }
        ensures err { OnErr result (self.new ≡ self.old) }
    {
        self.items.push(item)?;
        Ok(())
    }

    /// Sets room aside for so many items more. The list is unchanged, also when out of memory.
    pub fn reserve(&mut self, more: usize) -> Result<(), AllocError>
        ensures { self.new ≡ self.old }
    {
        self.items.reserve(more)
    }

    /// Keeps so many items of the front, or all where there are no more.
    pub fn truncate(&mut self, size: usize)
        ensures { self.new ≡ take size self.old }
    {
        self.items.truncate(size);
    }
}

impl<T: Copy> List<T> {
    /// Adds items at the end. When out of memory the list is unchanged.
    pub fn extend_from_slice(&mut self, items: &[T]) -> Result<(), AllocError>
        ensures ok { OnOk result (self.new ≡ self.old ++ items.now) }
        ensures err { OnErr result (self.new ≡ self.old) }
    {
        self.items.extend_from_slice(items)
    }
}

#[cfg(test)]
mod tests {
    use super::*;

    #[test]
    fn grows_at_the_end(rt: HostRuntime) -> Result<(), AllocError> {
        let mut numbers = Numbers::new(rt.alloc());
        assert!(rt; numbers.is_empty());
        numbers.push(7)?;
        numbers.extend_from_slice(&[1, 2])?;
        numbers.extend_from_slice(&[])?;
        numbers.push(9)?;
        numbers.reserve(3)?;
        assert!(rt; !numbers.is_empty());
        assert_eq!(rt; numbers.len(), 4);
        assert_eq!(rt; numbers.as_slice(), [7, 1, 2, 9].as_slice());
        numbers.truncate(5);
        assert_eq!(rt; numbers.len(), 4);
        numbers.truncate(2);
        assert_eq!(rt; numbers.as_slice(), [7, 1].as_slice());
        Ok(())
    }
}
