//! The marks of a way: pieces that the probe goes, points that it touches, and where it meets a block. Lengths are whole micrometres.
//! Points are those of the tip's centre, in machine coordinates, where nothing else is said.

use vcm_num::Point;

/// How the probe goes a piece.
#[derive(Clone, Copy)]
pub enum Going {
    /// GOTO or GOHOME.
    Move,
    /// A measurement's way to its approach point.
    Approach,
    /// From there down, to the touch or to the end of the search.
    Search,
    /// Back from the touch.
    Retract,
    /// Not at all: what it did not reach.
    Rest,
}

/// A straight piece of the way, and where it was to end.
#[derive(Clone, Copy)]
pub struct Leg {
    pub going: Going,
    pub from: Point,
    pub to: Point,
    pub aim: Point,
}

/// A point that was touched, on the middle of the tip's face, and the index of its feature.
#[derive(Clone, Copy)]
pub struct Touched {
    pub at: Point,
    pub feature: u16,
}

/// Where the centre of the tip stands as the tip meets a block on a straight way, with the block's number, the first being 1.
#[derive(Clone, Copy)]
pub struct Contact {
    pub at: Point,
    pub block: u32,
    pub from: Point,
    pub aim: Point,
}

/// A mark of the way.
#[derive(Clone, Copy)]
pub enum Mark {
    Goes(Leg),
    Touches(Touched),
    Meets(Contact),
}

/// A step of a run, counted from 1, and the number and the source line of its statement.
#[derive(Clone, Copy)]
pub struct Moment {
    pub step: u64,
    pub number: u32,
    pub line: u32,
}

/// A mark with its step, counted from 1, and the number and the source line of its statement; and whether it is a piece that begins elsewhere than on the machine,
/// since something of a whole program wasn't tried before it.
#[derive(Clone, Copy)]
pub struct PlacedMark {
    pub mark: Mark,
    pub step: u64,
    pub number: u32,
    pub line: u32,
    pub is_elsewhere: bool,
}
