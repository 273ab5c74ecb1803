//! What is known of the machine at a statement.

/// A point in machine coordinates, in micrometres.
#[derive(Clone, Copy)]
pub struct Position {
    pub x: i64,
    pub y: i64,
    pub z: i64,
}

/// The frame at a statement.
#[derive(Clone, Copy)]
pub enum Frame {
    /// It hangs on what isn't tried.
    Unknown,
    /// It is the one that vcm has there too; two with one number are the same.
    Known(u32),
}

/// What is known of the machine at a statement.
#[derive(Clone, Copy)]
pub struct Flow {
    pub frame: Frame,
    // Where the frame's origin lies, where it isn't turned and that stands in the text.
    pub origin: Option<Position>,
    // The distance of SNSET/APPRCH, in micrometres, where it stands in the text.
    pub approach: Option<i64>,
    pub is_manual: bool,
}

/// The origin of the machine's frame.
pub const ZERO: Position = Position { x: 0, y: 0, z: 0 };

/// The frame of the machine.
pub const MACHINE: u32 = 0;

impl Flow {
    /// At the beginning: 2 mm are the approach that vcm has there.
    pub fn at_start() -> Flow {
        Flow {
            frame: Frame::Known(MACHINE),
            origin: Some(ZERO),
            approach: Some(2000),
            is_manual: false,
        }
    }

    /// Whether the frame is known.
    pub fn is_known(self) -> bool {
        matches!(self.frame, Frame::Known(_))
    }

    /// Whether the frame is the one with this number.
    pub fn is_in(self, number: u32) -> bool {
        match self.frame {
            Frame::Known(own) => own == number,
            Frame::Unknown => false,
        }
    }

    /// Where two ways come together: what is known on both, and alike. A frame that differs has this number.
    pub fn joined(self, other: Flow, number: u32) -> Flow {
        let frame = match (self.frame, other.frame) {
            (Frame::Known(own), Frame::Known(theirs)) => {
                Frame::Known(if own == theirs { own } else { number })
            }
            _ => Frame::Unknown,
        };
        let is_same = matches!(frame, Frame::Known(shared) if shared != number);
        Flow {
            frame,
            origin: if is_same { self.origin } else { None },
            approach: same(self.approach, other.approach),
            is_manual: self.is_manual || other.is_manual,
        }
    }
}

/// What two ways have alike.
pub fn same(own: Option<i64>, other: Option<i64>) -> Option<i64> {
    match (own, other) {
        (Some(own), Some(other)) if own == other => Some(own),
        _ => None,
    }
}
