ghost use Rattle.std.specs.Prelude.{◌≡◌};
ghost use Rattle.solid_base.specs.Ranges.{IsLawfulMatrix};
ghost use Rattle.fixed_enclosure.specs.Spans.{IsBox};
ghost use Rattle.fixed_enclosure.specs.Places.{spans_of};
ghost use Rattle.affine_pull.specs.Matrices.{pulled_spans};

use fixed_enclosure::{Box3, along, offset};
use solid_base::Affine;

/// The places of a box, in steps, carried back through a matrix whose parameters are in their
/// ranges: the shift is taken off, and then each coordinate is the scalar product with a column.
#[tactic(auto, unfolding(crate::specs::Matrices::pulled_spans))]
pub fn pull(matrix: &Affine, at: &Box3) -> Box3
    requires matrix { IsLawfulMatrix matrix.now }
    requires at { IsBox at.now }
    ensures value { spans_of result ≡ pulled_spans matrix.now (spans_of at.now) }
    ensures within { IsBox result }
{
    let way = offset(at, &matrix.shift);
    Box3 {
        x: along(&way, &matrix.column1()),
        y: along(&way, &matrix.column2()),
        z: along(&way, &matrix.column3()),
    }
}
