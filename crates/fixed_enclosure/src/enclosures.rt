ghost use Rattle.std.specs.Prelude.{◌≡◌};
ghost use Rattle.solid_base.specs.Range.{IsWithin, IsCube};
ghost use Rattle.fixed_enclosure.specs.Spans.{enc_span, enc_bound, box_of, IsEnc, IsBox};
ghost use Rattle.fixed_enclosure.specs.Values.{point_of};

use solid_base::Cube;

/// A length in steps, or a pure number in millionths of a millionth: `All` where nothing is known
/// of it, else from `lo` to `hi`, which are in order and within 10^18.
#[derive(Clone, Copy, Debug, PartialEq, Eq)]
pub enum Enc {
    All,
    Span { lo: i128, hi: i128 },
}

/// An area in square steps: `All` where nothing is known of it, else from `lo` to `hi`, which are
/// in order and within 10^37.
#[derive(Clone, Copy, Debug, PartialEq, Eq)]
pub enum Area {
    All,
    Span { lo: i128, hi: i128 },
}

/// The sign of each number that an enclosure holds: `Open` where that is not one sign, or may be 0.
#[derive(Clone, Copy, Debug, PartialEq, Eq)]
pub enum Sign {
    Negative,
    Positive,
    Open,
}

/// A place whose three coordinates are enclosed, in steps.
#[derive(Clone, Copy, Debug, PartialEq, Eq)]
pub struct Box3 {
    pub x: Enc,
    pub y: Enc,
    pub z: Enc,
}

impl Enc {
    /// The length `v`, in steps.
    pub fn point(v: i128) -> Enc
        requires { IsWithin enc_bound v }
        ensures value { enc_span result ≡ point_of v }
        ensures within { IsEnc result }
    {
        Enc::Span { lo: v, hi: v }
    }
}

impl Box3 {
    /// The places of a closed box.
    pub fn of(cube: &Cube) -> Box3
        requires { IsCube cube.now }
        ensures value { result ≡ box_of cube.now }
        ensures within { IsBox result }
    {
        let (lo, hi) = (&cube.lo, &cube.hi);
        Box3 {
            x: Enc::Span { lo: lo.x, hi: hi.x },
            y: Enc::Span { lo: lo.y, hi: hi.y },
            z: Enc::Span { lo: lo.z, hi: hi.z },
        }
    }
}
