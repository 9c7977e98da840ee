use solid_base::RowText;

/// A change that is staged for a number: the entity with the number takes the row of a record, or
/// a new entity does, or the entity becomes a null one.
#[derive(Debug, Drop, Clone, PartialEq, Eq)]
pub enum Change {
    Replace(RowText),
    Add(RowText),
    Drop,
}
