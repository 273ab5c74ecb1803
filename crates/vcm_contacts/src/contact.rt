//! A contact.

use vcm_num::Point;
use vcm_spec::{Feature, Hit, MovePhase, Stop};

/// A contact behind which a run goes on: in which part of its motion the statement met a block, the block and the thousandths of that part before it, and the
/// number of the statement with its source line.
#[derive(Clone, Copy)]
pub struct Contact {
    pub phase: MovePhase,
    pub hit: Hit,
    pub number: u32,
    pub line: u32,
}

/// A contact, and the backtrace of its statement, in lines.
#[derive(Drop)]
pub struct FoundContact {
    pub contact: Contact,
    pub backtrace: Vec<u8>,
}

/// How a run goes on behind a contact. Points are those of the tip's centre.
#[derive(Clone, Copy)]
pub enum Lead {
    /// The probe is put at this point, and the next statement is the one behind.
    On(Point),
    /// The probe is put at this point, and the same statement is carried out from there.
    Again(Point),
    /// The probe is put at this point, the feature with this index is measured so, and the next statement is the one behind.
    Back(Point, u16, Feature),
    /// It doesn't: it stops there.
    Stops(Stop),
}
