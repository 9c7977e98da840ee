ghost use Rattle.std.specs.Prelude.{◌≡◌};
ghost use Rattle.fixed_enclosure.specs.Spans.{IsEnc, IsBox};
ghost use Rattle.memo_graph.specs.PackedKeys.{enc_of, ends_of, box_of, key_of};

use fixed_enclosure::{Box3, Enc};

/// The ends of a coordinate, in steps, of 64 bits each: half the room of an `Enc`.
#[derive(Clone, Copy, Debug, PartialEq, Eq)]
pub(crate) enum Ends {
    All,
    Span { lo: i64, hi: i64 },
}

/// A key whose box takes half the room, so that it is moved in less time.
#[derive(Clone, Copy, Debug, PartialEq, Eq)]
pub(crate) struct PackedKey {
    pub(crate) de: u32,
    pub(crate) stamp: u64,
    x: Ends,
    y: Ends,
    z: Ends,
}

impl Ends {
    /// The ends of a coordinate, which are within 10^18.
    fn of(enc: Enc) -> Ends
        requires within { IsEnc enc }
        ensures { result ≡ ends_of enc }
    {
        match enc {
            Enc::All => Ends::All,
            Enc::Span { lo, hi } => Ends::Span {
                lo: lo as i64,
                hi: hi as i64,
            },
        }
    }

    /// The coordinate.
    fn enc(self) -> Enc
        ensures { result ≡ enc_of self }
    {
        match self {
            Ends::All => Enc::All,
            Ends::Span { lo, hi } => Enc::Span {
                lo: lo as i128,
                hi: hi as i128,
            },
        }
    }
}

impl PackedKey {
    /// The key of an entity's number, its stamp and a box.
    pub(crate) fn new(de: u32, stamp: u64, at: &Box3) -> PackedKey
        requires at { IsBox at.now }
        ensures { key_of result ≡ record { de = de; stamp = stamp; at = at.now } }
    {
        PackedKey {
            de,
            stamp,
            x: Ends::of(at.x),
            y: Ends::of(at.y),
            z: Ends::of(at.z),
        }
    }

    /// The box, in steps.
    pub(crate) fn at(&self) -> Box3
        ensures { result ≡ box_of self.now }
    {
        Box3 {
            x: self.x.enc(),
            y: self.y.enc(),
            z: self.z.enc(),
        }
    }
}
