//! Remarks.

use vcm_num::Axis;

/// What is remarked of a statement. Features go by their indexes, FEATs by their source lines.
#[derive(Clone, Copy)]
pub enum What {
    /// The feature is measured so far from its FEAT, farther than the approach distance; no length where that has no 64 bits.
    Far {
        feature: u16,
        declared: u32,
        far: Option<i64>,
        approach: u32,
    },
    /// The feature is measured along another direction than its FEAT has.
    Turned {
        feature: u16,
        along: Axis,
        declared: u32,
        has: Axis,
    },
    /// The feature was measured since its FEAT already.
    Again {
        declared: u32,
    },
    /// The feature was never measured before its next FEAT or the end.
    Never {
        feature: u16,
    },
    /// The DO never had a round.
    NoRound,
}

/// A remark, with the source line of the statement that it is of.
#[derive(Clone, Copy)]
pub struct Remark {
    pub line: u32,
    pub what: What,
}
