ghost use Rattle.std.specs.Prelude.{◌≡◌, [], ◌∷◌};
ghost use Rattle.csg_primitives.specs.WrittenMargins.{both_signs, sign_class};

use fixed_enclosure::Sign;
use solid_base::Class;

/// The sign that two margins tell together: `Negative` where one of them is, `Positive` where both
/// are.
#[tactic(auto, unfolding(crate::specs::WrittenMargins::both_signs))]
pub(crate) fn both(a: Sign, b: Sign) -> Sign
    ensures { result ≡ both_signs a b }
{
    match (a, b) {
        (Sign::Negative, _) | (_, Sign::Negative) => Sign::Negative,
        (Sign::Positive, Sign::Positive) => Sign::Positive,
        _ => Sign::Open,
    }
}

/// The class that a sign tells.
#[tactic(auto, unfolding(crate::specs::WrittenMargins::sign_class))]
pub(crate) fn class_of(sign: Sign) -> Class
    ensures { result ≡ sign_class (sign ∷ []) }
{
    match sign {
        Sign::Negative => Class::Outside,
        Sign::Positive => Class::Inside,
        Sign::Open => Class::Mixed,
    }
}
