ghost use Rattle.std.specs.Prelude.{◌≡◌, ◌<◌, ◌+◌, [], ◌∷◌, ◌++◌, length, max};
ghost use Rattle.std.specs.Prelude.{OnOk, OnErr, MatchOption};
ghost use Rattle.solid_eval.specs.LevelStack.{outer};

use fixed_enclosure::Box3;
use std::alloc::{AllocError, Global};
use std::marker::Model;

/// A tree, an assembly or an instance on the way to a use: the box, in steps, after its own matrix,
/// and the place, counted from 0, after the operand or item that the walk is in.
#[derive(Clone, Copy, Debug)]
pub struct Level {
    pub e: u32,
    pub at: Box3,
    pub index: usize,
}

/// Levels, of which the innermost stands last, with room that was set aside. Contracts see the
/// levels and the spare room: how many more can be pushed.
#[derive(Debug, Drop)]
pub struct Levels {
    levels: Vec<Level>,
    spare: usize,
}

impl Model for Levels {
    ghost use Rattle.std.specs.Prelude.{◌+◌, ◌≤◌, vec_len, vec_capacity};
    ghost use Rattle.solid_base.specs.Stack.{Stack as stack};
    ghost use Rattle.solid_eval.specs.declared.level_stack.Level.{Level as level};

    ghost Value = { stack level };

    ghost view = { λ v. record { list = v.levels.items; spare = v.spare } };

    ghost invariant = { λ v. v.spare + vec_len v.levels ≤ vec_capacity v.levels };
}

impl Levels {
    /// No levels and no room, which take no memory yet.
    pub fn new(alloc: Global) -> Levels
        ensures list { result.list ≡ [] }
        ensures spare { result.spare ≡ 0 }
    {
        Levels {
            levels: Vec::new(alloc),
            spare: 0,
        }
    }

    /// Makes the spare room at least `n`. When out of memory nothing is changed.
    pub fn reserve(&mut self, n: usize) -> Result<(), AllocError>
        ensures list { self.new.list ≡ self.old.list }
        ensures ok { OnOk result (self.new.spare ≡ max self.old.spare n) }
        ensures err { OnErr result (self.new ≡ self.old) }
    {
        self.levels.reserve(n)?;
        if self.spare < n {
            self.spare = n;
        }
        Ok(())
    }

    /// The innermost level. None where there is no level.
    pub fn last(&self) -> Option<&Level>
        ensures { MatchOption result (self.now.list ≡ [])
            (λ l. self.now.list ≡ outer self.now.list ++ l.now ∷ []) }
    {
        self.levels.last()
    }

    /// Adds a level inside the others, where there is room.
    pub fn push(&mut self, level: Level)
        requires room { 0 < self.old.spare }
        ensures list { self.new.list ≡ self.old.list ++ level ∷ [] }
        ensures spare { self.new.spare + 1 ≡ self.old.spare }
    {
        self.levels.push_reserved(level);
        self.spare -= 1;
    }

    /// Sets the place in the innermost level. There is such a level.
    pub fn set_index(&mut self, index: usize)
        requires some { 0 < length self.old.list }
        ensures list { (l : Level) → self.old.list ≡ outer self.old.list ++ l ∷ [] →
            self.new.list ≡ outer self.old.list ++ record l { index = index } ∷ [] }
        ensures spare { self.new.spare ≡ self.old.spare }
    {
        let last = self.levels.len() - 1;
        self.levels[last].index = index;
    }

    /// Takes the innermost level off, and there is room for one more. There is such a level.
    pub fn leave(&mut self)
        requires some { 0 < length self.old.list }
        ensures list { self.new.list ≡ outer self.old.list }
        ensures spare { self.new.spare ≡ self.old.spare + 1 }
    {
        self.levels.pop();
        self.spare += 1;
    }

    /// Takes all levels off, and there is room for as many more. No memory is taken.
    pub fn clear(&mut self)
        ensures list { self.new.list ≡ [] }
        ensures spare { self.new.spare ≡ self.old.spare + length self.old.list }
    {
        self.spare += self.levels.len();
        self.levels.clear();
    }
}
