/// Where a point or a closed box lies: outside a solid, inside it, or neither is shown.
#[derive(Clone, Copy, Debug, PartialEq, Eq)]
pub enum Class {
    Outside,
    Mixed,
    Inside,
}

/// The class of a solid over a box, and the number of the primitive that leaves it `Mixed`: 0 where
/// the class isn't `Mixed`.
#[derive(Clone, Copy, Debug, PartialEq, Eq)]
pub struct Verdict {
    pub class: Class,
    pub leaf: u32,
}
