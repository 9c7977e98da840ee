ghost use Rattle.std.specs.Prelude.{◌≡◌};
ghost use Rattle.iges_parameters.specs.Tables.{block_rules, wedge_rules, cylinder_rules};
ghost use Rattle.iges_parameters.specs.Tables.{cone_rules, sphere_rules, torus_rules};
ghost use Rattle.iges_parameters.specs.Tables.{ellipsoid_rules, is_read};

use solid_base::U;

/// Which numbers a parameter may have. Reals are in steps; other parameters are named by their
/// indexes, counted from 1.
#[derive(Clone, Copy, Debug, PartialEq, Eq)]
pub enum Values {
    /// Any real number.
    Real,
    /// A real number above 0.
    Size,
    /// A real number above 0 and below another parameter.
    SizeBelow(usize),
    /// A real number from 0 on and below another parameter.
    Below(usize),
    /// A whole number above 0: how many items follow.
    Count,
    /// The number of an entity, or 0.
    Number,
}

/// The rule of a parameter: what it is where its field is empty, if it may be, and which numbers it
/// may have.
#[derive(Clone, Copy, Debug, PartialEq, Eq)]
pub struct Rule {
    pub default: Option<i128>,
    pub values: Values,
}

/// The rules of a type's parameters, in the order of their indexes.
#[derive(Clone, Copy, Debug)]
pub struct ParamTable<const N: usize> {
    pub rules: [Rule; N],
}

/// A length or a radius.
const SIZE: Rule = Rule {
    default: None,
    values: Values::Size,
};

/// A number that must be given.
const NEEDED: Rule = Rule {
    default: None,
    values: Values::Real,
};

/// A number, 0 where it is empty.
const ZERO_OR: Rule = Rule {
    default: Some(0),
    values: Values::Real,
};

/// A number, 1 where it is empty.
const ONE_OR: Rule = Rule {
    default: Some(U),
    values: Values::Real,
};

/// How many items follow.
const COUNT: Rule = Rule {
    default: None,
    values: Values::Count,
};

/// The number of an entity, or 0.
pub const NUMBER: Rule = Rule {
    default: None,
    values: Values::Number,
};

/// The number of a matrix, 0 where it is empty.
pub const NUMBER_OR_NONE: Rule = Rule {
    default: Some(0),
    values: Values::Number,
};

/// Type 150: LX, LY, LZ, the corner, the local X axis, the local Z axis.
const BLOCK: ParamTable<12> = ParamTable {
    rules: [
        SIZE, SIZE, SIZE, ZERO_OR, ZERO_OR, ZERO_OR, ONE_OR, ZERO_OR, ZERO_OR, ZERO_OR, ZERO_OR,
        ONE_OR,
    ],
};

/// Type 152: LX, LY, LZ, LTX, the corner, the local X axis, the local Z axis.
const WEDGE: ParamTable<13> = ParamTable {
    rules: [
        SIZE,
        SIZE,
        SIZE,
        Rule {
            default: None,
            values: Values::Below(1),
        },
        ZERO_OR,
        ZERO_OR,
        ZERO_OR,
        ONE_OR,
        ZERO_OR,
        ZERO_OR,
        ZERO_OR,
        ZERO_OR,
        ONE_OR,
    ],
};

/// Type 154: height, radius, the centre of the first face, the axis.
const CYLINDER: ParamTable<8> = ParamTable {
    rules: [
        SIZE, SIZE, ZERO_OR, ZERO_OR, ZERO_OR, ZERO_OR, ZERO_OR, ONE_OR,
    ],
};

/// Type 156: height, R1, R2, the centre of the larger face, the axis.
const CONE: ParamTable<9> = ParamTable {
    rules: [
        SIZE,
        SIZE,
        Rule {
            default: Some(0),
            values: Values::Below(2),
        },
        ZERO_OR,
        ZERO_OR,
        ZERO_OR,
        ZERO_OR,
        ZERO_OR,
        ONE_OR,
    ],
};

/// Type 158: radius, centre.
const SPHERE: ParamTable<4> = ParamTable {
    rules: [SIZE, ZERO_OR, ZERO_OR, ZERO_OR],
};

/// Type 160: R1, R2, centre, the axis.
const TORUS: ParamTable<8> = ParamTable {
    rules: [
        SIZE,
        Rule {
            default: None,
            values: Values::SizeBelow(1),
        },
        ZERO_OR,
        ZERO_OR,
        ZERO_OR,
        ZERO_OR,
        ZERO_OR,
        ONE_OR,
    ],
};

/// Type 168: LX, LY, LZ, the centre, the local X axis, the local Z axis.
const ELLIPSOID: ParamTable<12> = ParamTable {
    rules: [
        SIZE, SIZE, SIZE, ZERO_OR, ZERO_OR, ZERO_OR, ONE_OR, ZERO_OR, ZERO_OR, ZERO_OR, ZERO_OR,
        ONE_OR,
    ],
};

/// Type 124: R11 R12 R13 T1 R21 R22 R23 T2 R31 R32 R33 T3.
pub const MATRIX_TABLE: ParamTable<12> = ParamTable {
    rules: [NEEDED; 12],
};

/// Type 430: the number of the solid.
pub const INSTANCE_TABLE: ParamTable<1> = ParamTable { rules: [NUMBER] };

/// Types 180 and 184: how many items follow.
pub const LIST_TABLE: ParamTable<1> = ParamTable { rules: [COUNT] };

#[tactic(auto, unfolding(crate::specs::Tables::block_rules))]
pub fn block_table() -> ParamTable<12>
    ensures { result.rules ≡ block_rules }
{
    BLOCK
}

#[tactic(auto, unfolding(crate::specs::Tables::wedge_rules))]
pub fn wedge_table() -> ParamTable<13>
    ensures { result.rules ≡ wedge_rules }
{
    WEDGE
}

#[tactic(auto, unfolding(crate::specs::Tables::cylinder_rules))]
pub fn cylinder_table() -> ParamTable<8>
    ensures { result.rules ≡ cylinder_rules }
{
    CYLINDER
}

#[tactic(auto, unfolding(crate::specs::Tables::cone_rules))]
pub fn cone_table() -> ParamTable<9>
    ensures { result.rules ≡ cone_rules }
{
    CONE
}

#[tactic(auto, unfolding(crate::specs::Tables::sphere_rules))]
pub fn sphere_table() -> ParamTable<4>
    ensures { result.rules ≡ sphere_rules }
{
    SPHERE
}

#[tactic(auto, unfolding(crate::specs::Tables::torus_rules))]
pub fn torus_table() -> ParamTable<8>
    ensures { result.rules ≡ torus_rules }
{
    TORUS
}

#[tactic(auto, unfolding(crate::specs::Tables::ellipsoid_rules))]
pub fn ellipsoid_table() -> ParamTable<12>
    ensures { result.rules ≡ ellipsoid_rules }
{
    ELLIPSOID
}

/// Whether entities of this type and form are read: form 0 of the primitives (types 150, 152, 154,
/// 156, 158, 160, 168), of the Boolean tree (180), the solid assembly (184) and the solid instance
/// (430), and forms 0 and 1 of the transformation matrix (124).
#[tactic(auto, unfolding(crate::specs::Tables::is_read))]
pub fn is_read(kind: u32, form: u32) -> bool
    ensures { result ≡ is_read kind form }
{
    match kind {
        150 | 152 | 154 | 156 | 158 | 160 | 168 | 180 | 184 | 430 => form == 0,
        124 => form <= 1,
        _ => false,
    }
}
