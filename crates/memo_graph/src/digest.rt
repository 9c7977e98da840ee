//! One number for a key. The parts of a key are multiplied side by side, and not one after the
//! other.
ghost use Rattle.std.specs.Prelude.{◌≡◌};
ghost use Rattle.memo_graph.specs.Digests.{key_digest, box_digest, ends_digest, low_word, folded};

use fixed_enclosure::{Box3, Enc};

// One number for a key, by its parts.
#[tactic(auto, unfolding(crate::specs::Digests::key_digest))]
pub(crate) fn of_key(de: u32, stamp: u64, at: &Box3) -> u64
    ensures { result ≡ key_digest (record { de = de; stamp = stamp; at = at.now }) }
{
    let entity = de as u64 ^ 0x1319_8a2e_0370_7344;
    folded(entity, stamp ^ 0xa409_3822_299f_31d0) ^ of_box(at)
}

// One number for a box: each coordinate has numbers of its own.
#[tactic(auto, unfolding(crate::specs::Digests::box_digest))]
fn of_box(at: &Box3) -> u64
    ensures { result ≡ box_digest at.now }
{
    of_ends(at.x, 0x082e_fa98_ec4e_6c89, 0x4528_21e6_38d0_1377)
        ^ of_ends(at.y, 0xbe54_66cf_34e9_0c6c, 0xc0ac_29b7_c97c_50dd)
        ^ of_ends(at.z, 0x3f84_d5b5_b547_0917, 0x9216_d5d9_8979_fb1b)
}

// One number for the two ends of a coordinate.
fn of_ends(enc: Enc, first: u64, last: u64) -> u64
    ensures { result ≡ ends_digest enc first last }
{
    match enc {
        Enc::All => first,
        Enc::Span { lo, hi } => folded(low_word(lo) ^ first, low_word(hi) ^ last),
    }
}

// The low 64 bits of a number.
#[tactic(auto, unfolding(crate::specs::Digests::low_word))]
fn low_word(x: i128) -> u64
    ensures { result ≡ low_word x }
{
    (x.cast_unsigned() & 0xffff_ffff_ffff_ffff) as u64
}

// The two halves of a product of 128 bits, joined.
#[tactic(auto, unfolding(crate::specs::Digests::folded))]
fn folded(a: u64, b: u64) -> u64
    ensures { result ≡ folded a b }
{
    let product = a as u128 * b as u128;
    (product & 0xffff_ffff_ffff_ffff) as u64 ^ (product >> 64) as u64
}
