use fixed_enclosure::Box3;

/// What a verdict is kept under: an entity, the state of what it reaches, and a box of places.
#[derive(Clone, Copy, Debug, PartialEq, Eq)]
pub struct Key {
    /// The number of the entity: that of its first line in the directory.
    pub de: u32,
    /// The entity's stamp: the version with which something that it reaches last changed.
    pub stamp: u64,
    /// The box, in steps.
    pub at: Box3,
}
