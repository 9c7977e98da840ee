ghost use Rattle.std.specs.Prelude.{◌≡◌, ◌<◌, [], ◌∷◌, ◌++◌, length, map, slice_get, OnOk, OnErr};
ghost use Rattle.std.specs.Prelude.{IfOk, MatchOption};
ghost use Rattle.std.specs.Arc.{arc_value};
ghost use Rattle.solid_base.specs.declared.solids.Row.TheVariants as row;
ghost use Rattle.solid_base.specs.References.{at_number, row_of, row_at};

use crate::entities::Entity;
use crate::solids::Row;
use std::alloc::{AllocError, Global};
use std::marker::Model;
use std::sync::Arc;

/// Shared entities, that contracts see as the list of the entities.
#[derive(Debug, Drop)]
pub struct Rows {
    items: Vec<Arc<Entity>>,
}

impl Model for Rows {
    ghost use Rattle.std.specs.Prelude.{List, map};
    ghost use Rattle.std.specs.Arc.{arc_value};
    ghost use Rattle.solid_base.specs.declared.entities.Entity.{Entity};

    ghost Value = { List Entity };

    ghost view = { λ r. map arc_value r.items.items };
}

impl Rows {
    /// No rows, which take no memory yet.
    pub fn new(alloc: Global) -> Rows
        ensures { result ≡ [] }
    {
        Rows {
            items: Vec::new(alloc),
        }
    }

    /// The rows of these entities.
    pub fn from_vec(items: Vec<Arc<Entity>>) -> Rows
        ensures { result ≡ map arc_value items.items }
    {
        Rows { items }
    }

    /// The entities, in order.
    pub fn as_slice(&self) -> &[Arc<Entity>]
        ensures { map arc_value result.now ≡ self.now }
    {
        self.items.as_slice()
    }

    /// How many rows there are.
    pub fn len(&self) -> usize
        ensures { result ≡ length self.now }
    {
        self.items.len()
    }

    /// The entity at a place, counted from 0.
    pub fn get(&self, at: usize) -> &Entity
        requires { at < length self.now }
        ensures { slice_get self.now at ≡ Some result.now }
    {
        &self.items[at]
    }

    /// The entity with a number. The entity at place `i` has the number `2 i + 1`; None exactly
    /// where no entity has the number.
    pub fn entity(&self, number: u32) -> Option<&Entity>
        ensures { MatchOption result (at_number self.now number ≡ None)
            (λ e. at_number self.now number ≡ Some e.now) }
    {
        let place = (number / 2) as usize;
        if number % 2 == 1 && place < self.len() {
            Some(self.get(place))
        } else {
            None
        }
    }

    /// The row of the entity with a number, a Null row too; None exactly where no entity has the
    /// number.
    #[tactic(auto, unfolding(crate::specs::References::row_at))]
    pub fn row(&self, number: u32) -> Option<&Row>
        ensures row { MatchOption result (row_of self.now number ≡ None)
            (λ r. row_of self.now number ≡ Some r.now) }
        ensures or_null { MatchOption result (row_at self.now number ≡ row.Null)
            (λ r. row_at self.now number ≡ r.now) }
    {
        match self.entity(number) {
            Some(entity) => Some(&entity.row),
            None => None,
        }
    }

    /// Adds an entity at the end. When out of memory the rows are unchanged.
    pub fn push(&mut self, item: Arc<Entity>) -> Result<(), AllocError>
        ensures ok { OnOk result (self.new ≡ self.old ++ arc_value item ∷ []) }
        ensures err { OnErr result (self.new ≡ self.old) }
    {
        self.items.push(item)?;
        Ok(())
    }

    /// The same entities, shared.
    pub fn share(&self, alloc: Global) -> Result<Rows, AllocError>
        ensures { IfOk result (λ rows. rows ≡ self.now) }
    {
        let mut items = Vec::with_capacity(alloc, self.items.len())?;
        for item in &self.items {
            items.push(item.clone()?)?;
        }
        Ok(Rows { items })
    }
}

#[cfg(test)]
mod tests {
    use super::*;
    use crate::lists::{Bytes, List};

    fn null_entity(alloc: Global) -> Entity {
        Entity {
            row: Row::Null,
            attrs: Bytes::new(alloc),
            tail: List::new(alloc),
        }
    }

    #[test]
    fn shares_the_same_entities_in_order(rt: HostRuntime) -> Result<(), AllocError> {
        let alloc = rt.alloc();
        let mut rows = Rows::new(alloc);
        for kind in [0, 158, 180] {
            let row = Row::Opaque {
                kind,
                form: 0,
                matrix: 0,
                text: Bytes::new(alloc),
            };
            let entity = Entity {
                row,
                attrs: Bytes::new(alloc),
                tail: List::new(alloc),
            };
            rows.push(Arc::new(alloc, entity)?)?;
        }
        rows.push(Arc::new(alloc, null_entity(alloc))?)?;
        assert!(rt; matches!(rows.row(5), Some(Row::Opaque { kind: 180, .. })));
        assert!(rt; matches!(rows.row(7), Some(Row::Null)));
        for number in [0, 2, 4, 6, 8, 9] {
            assert!(rt; rows.row(number).is_none(), "number {number}");
        }
        let shared = rows.share(alloc)?;
        assert_eq!(rt; shared.len(), rows.len());
        assert!(rt; shared.as_slice() == rows.as_slice());
        Ok(())
    }
}
