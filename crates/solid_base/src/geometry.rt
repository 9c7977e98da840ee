ghost use Rattle.std.specs.Prelude.{◌≡◌};
ghost use Rattle.solid_base.specs.Ranges.{column1, column2, column3};

/// A point or a direction: three coordinates in steps.
#[derive(Clone, Copy, Debug, PartialEq, Eq)]
pub struct Vec3 {
    pub x: i128,
    pub y: i128,
    pub z: i128,
}

/// A closed box whose sides are parallel to the axes, from its least corner `lo` to its greatest
/// `hi`, in steps.
#[derive(Clone, Copy, Debug, PartialEq, Eq)]
pub struct Cube {
    pub lo: Vec3,
    pub hi: Vec3,
}

/// A map of space: an input is multiplied by the three rows, in steps, and then moved by the shift
/// (IGES 5.3, type 124).
#[derive(Clone, Copy, Debug, PartialEq, Eq)]
pub struct Affine {
    pub row1: Vec3,
    pub row2: Vec3,
    pub row3: Vec3,
    pub shift: Vec3,
}

impl Affine {
    /// The first column of the rotation: the image of the X axis.
    pub fn column1(&self) -> Vec3
        ensures { result ≡ column1 self.now }
    {
        Vec3 {
            x: self.row1.x,
            y: self.row2.x,
            z: self.row3.x,
        }
    }

    /// The second column of the rotation: the image of the Y axis.
    pub fn column2(&self) -> Vec3
        ensures { result ≡ column2 self.now }
    {
        Vec3 {
            x: self.row1.y,
            y: self.row2.y,
            z: self.row3.y,
        }
    }

    /// The third column of the rotation: the image of the Z axis.
    pub fn column3(&self) -> Vec3
        ensures { result ≡ column3 self.now }
    {
        Vec3 {
            x: self.row1.z,
            y: self.row2.z,
            z: self.row3.z,
        }
    }
}
