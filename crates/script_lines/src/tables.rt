/// What a word of a command must be. A place is that of an earlier word of the command, counted
/// from 0 after the command's name.
#[derive(Clone, Copy, Debug, PartialEq, Eq)]
pub enum Rule {
    /// The number of an entity: a whole number above 0.
    Entity,
    /// A whole number of one to nine digits, without a sign.
    Whole,
    /// A coordinate: a real number of at most 100,000 units.
    Coordinate,
    /// A coordinate that isn't below the one in this place.
    AtLeast(usize),
    /// A coordinate with at most five decimals.
    Grid,
    /// Such a coordinate that is above the one in this place.
    GridAbove(usize),
    /// The side of a section's cells, above 0.
    Step,
    /// How many cells a section has along an axis, at least 1. Its first coordinate stands in the
    /// first place, its step in the second.
    Extent(usize, usize),
}

/// Which command a line is.
#[derive(Clone, Copy, Debug, PartialEq, Eq)]
pub enum Kind {
    Point,
    Cell,
    Items,
    Section,
    Volume,
    Bounds,
    Export,
    Newest,
    Replace,
    Add,
    Drop,
    Commit,
}
