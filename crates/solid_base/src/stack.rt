ghost use Rattle.std.specs.Prelude.{◌≡◌, ◌<◌, ◌+◌, [], ◌∷◌, ◌++◌, length, max, OnOk, OnErr, IsOk};
ghost use Rattle.std.specs.Prelude.{MatchOption, IsTrue, ◌↔◌};

use crate::classes::Verdict;
use std::alloc::{AllocError, Global};
use std::marker::Model;

/// A list with room that was set aside. Contracts see the items and the spare room: how many more
/// can be pushed before memory is taken.
#[derive(Debug, Drop)]
pub struct Stack<T> {
    items: Vec<T>,
    spare: usize,
}

/// Verdicts, with room that was set aside.
pub type Verdicts = Stack<Verdict>;

impl<T> Model for Stack<T> {
    ghost use Rattle.std.specs.Prelude.{◌+◌, ◌≤◌, vec_len, vec_capacity};
    ghost use Rattle.solid_base.specs.Stack.{Stack as stack, stack_code};

    ghost Value = { stack T };

    ghost coded = { stack_code T.code };

    ghost view = { λ v. record { list = v.items.items; spare = v.spare } };

    ghost invariant = { λ v. v.spare + vec_len v.items ≤ vec_capacity v.items };
}

impl<T> Stack<T> {
    /// No items and no room, which take no memory yet.
    pub fn new(alloc: Global) -> Stack<T>
        ensures list { result.list ≡ [] }
        ensures spare { result.spare ≡ 0 }
    {
        Stack {
            items: Vec::new(alloc),
            spare: 0,
        }
    }

    /// The list of these items, with no spare room.
    pub fn from_vec(items: Vec<T>) -> Stack<T>
        ensures list { result.list ≡ items.items }
        ensures spare { result.spare ≡ 0 }
    {
        Stack { items, spare: 0 }
    }

    /// The items, in order.
    pub fn as_slice(&self) -> &[T]
        ensures { result.now ≡ self.now.list }
    {
        self.items.as_slice()
    }

    /// How many items there are.
    pub fn len(&self) -> usize
        ensures { result ≡ length self.now.list }
    {
        self.items.len()
    }

    /// Whether there is no item.
    pub fn is_empty(&self) -> bool
        ensures { IsTrue result ↔ (self.now.list ≡ []) }
    {
        self.items.is_empty()
    }
}

impl<T: Drop> Stack<T> {
    /// Makes the spare room at least `n`. When out of memory nothing is changed.
    pub fn reserve(&mut self, n: usize) -> Result<(), AllocError>
        ensures list { self.new.list ≡ self.old.list }
        ensures ok { OnOk result (self.new.spare ≡ max self.old.spare n) }
        ensures err { OnErr result (self.new ≡ self.old) }
    {
        self.items.reserve(n)?;
        if self.spare < n {
            self.spare = n;
        }
        Ok(())
    }

    /// Adds an item at the end. Where there is spare room it can't fail, and there is one less of
    /// it. When out of memory nothing is changed.
    pub fn push(&mut self, item: T) -> Result<(), AllocError>
        ensures room { 0 < self.old.spare → IsOk result }
        ensures ok { OnOk result (self.new.list ≡ self.old.list ++ item ∷ []) }
        ensures spare { OnOk result (0 < self.old.spare → self.new.spare + 1 ≡ self.old.spare) }
        ensures full { OnOk result (self.old.spare ≡ 0 → self.new.spare ≡ 0) }
        ensures err { OnErr result (self.new ≡ self.old) }
    {
        self.items.push(item)?;
        if self.spare > 0 {
            self.spare -= 1;
        }
        Ok(())
    }

    /// Takes the last item off, and there is room for one more. None where there is no item.
    pub fn pop(&mut self) -> Option<T>
        ensures { MatchOption result ((self.old.list ≡ []) × (self.new ≡ self.old))
            (λ last. (self.old.list ≡ self.new.list ++ last ∷ [])
            × (self.new.spare ≡ self.old.spare + 1)) }
    {
        let last = self.items.pop();
        if last.is_some() {
            self.spare += 1;
        }
        last
    }

    /// Takes all items off, and there is room for as many more. No memory is taken.
    pub fn clear(&mut self)
        ensures list { self.new.list ≡ [] }
        ensures spare { self.new.spare ≡ self.old.spare + length self.old.list }
    {
        self.spare += self.items.len();
        self.items.clear();
    }
}

#[cfg(test)]
mod tests {
    use super::*;
    use crate::classes::Class;

    #[test]
    fn takes_off_what_was_put_on(rt: HostRuntime) -> Result<(), AllocError> {
        let open = Verdict {
            class: Class::Mixed,
            leaf: 7,
        };
        let inside = Verdict {
            class: Class::Inside,
            leaf: 0,
        };
        let mut verdicts = Verdicts::new(rt.alloc());
        assert!(rt; verdicts.is_empty());
        verdicts.reserve(2)?;
        verdicts.push(open)?;
        verdicts.push(inside)?;
        assert_eq!(rt; verdicts.len(), 2);
        assert_eq!(rt; verdicts.as_slice(), [open, inside].as_slice());
        assert_eq!(rt; verdicts.pop(), Some(inside));
        assert_eq!(rt; verdicts.pop(), Some(open));
        assert_eq!(rt; verdicts.pop(), None);
        verdicts.push(inside)?;
        verdicts.clear();
        assert!(rt; verdicts.is_empty());
        Ok(())
    }
}
