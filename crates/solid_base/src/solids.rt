use crate::geometry::{Affine, Vec3};
use crate::lists::{Bytes, List};

/// A primitive solid (IGES 5.3, types 150 to 160 and 168). Lengths, places and directions in steps.
#[derive(Clone, Copy, Debug, PartialEq, Eq)]
pub enum Primitive {
    /// Type 150: lengths along the local axes, the corner, the local X axis `u` and Z axis `w`.
    Block {
        size: Vec3,
        corner: Vec3,
        u: Vec3,
        w: Vec3,
    },
    /// Type 152: as a block, and the length `ltx` along X at the distance `size.y`.
    Wedge {
        size: Vec3,
        ltx: i128,
        corner: Vec3,
        u: Vec3,
        w: Vec3,
    },
    /// Type 154: height, radius, the centre of the first face and the axis `w`.
    Cylinder {
        h: i128,
        r: i128,
        foot: Vec3,
        w: Vec3,
    },
    /// Type 156: height, the larger and the smaller radius, the centre of the larger face, the axis
    /// `w`.
    Cone {
        h: i128,
        r1: i128,
        r2: i128,
        foot: Vec3,
        w: Vec3,
    },
    /// Type 158.
    Sphere {
        r: i128,
        centre: Vec3,
    },
    /// Type 160: the radius of the centre circle, that of the tube, the centre and the axis `w`.
    Torus {
        r1: i128,
        r2: i128,
        centre: Vec3,
        w: Vec3,
    },
    /// Type 168: semi-axes, the centre, the local X axis `u` and Z axis `w`.
    Ellipsoid {
        size: Vec3,
        centre: Vec3,
        u: Vec3,
        w: Vec3,
    },
}

/// One item of a Boolean tree in post-order (IGES 5.3, type 180).
#[derive(Clone, Copy, Debug, PartialEq, Eq)]
pub enum Item {
    Operand(u32),
    Join,
    Meet,
    Less,
}

/// The items of a Boolean tree, in order.
pub type Items = List<Item>;

/// An item of an assembly and the matrix that places it, 0 for none (IGES 5.3, type 184).
#[derive(Clone, Copy, Debug, PartialEq, Eq)]
pub struct Placed {
    pub item: u32,
    pub matrix: u32,
}

/// The items of an assembly, in order.
pub type PlacedList = List<Placed>;

/// What one directory entry and its record say. References are row numbers, 0 for none.
#[derive(Debug, Drop, Clone, PartialEq, Eq)]
pub enum Row {
    /// Type 0, or a place that holds nothing.
    Null,
    /// An entity that isn't read: type, form and record as they stand in the file.
    Opaque {
        kind: u32,
        form: u32,
        matrix: u32,
        text: Bytes,
    },
    /// A transformation matrix, and the one that is applied after it (type 124).
    Matrix {
        form: u32,
        affine: Affine,
        next: u32,
    },
    Prim {
        prim: Primitive,
        matrix: u32,
    },
    Tree {
        items: Items,
        matrix: u32,
    },
    Assembly {
        items: PlacedList,
        matrix: u32,
    },
    Instance {
        child: u32,
        matrix: u32,
    },
}
