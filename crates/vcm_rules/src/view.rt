//! What a rule knows of a statement.

use std::alloc::Global;
use vcm_classes::{Flow, Frame, MACHINE, Options, Outlook, Position, ZERO};
use vcm_sentences::{Parts, Sentence, Table};
use vcm_spelling::Naming;
use vcm_standard::Reason;

/// What the reading stands on.
#[derive(Clone, Copy)]
pub(crate) struct Ground<'a> {
    pub(crate) alloc: Global,
    pub(crate) options: &'a Options,
    pub(crate) naming: &'a Naming<'a>,
    pub(crate) sentences: &'a [Sentence],
    pub(crate) outlooks: &'a [Outlook],
    // Statements whose numbers with exponents are spelled out; nothing where there are none.
    pub(crate) plains: &'a [Vec<u8>],
    // The names of points that are touched; nothing where there are none.
    pub(crate) points: &'a [Vec<u8>],
    // What new names begin with.
    pub(crate) front: &'a [u8],
    pub(crate) traits: Traits,
}

/// What a text has.
#[derive(Clone, Copy)]
pub(crate) struct Traits {
    /// Lengths in inches.
    pub(crate) is_inch: bool,
    /// Lengths that can be followed: in one unit, and where that is the inch, in no variable.
    pub(crate) is_followed: bool,
    /// Angles.
    pub(crate) has_angles: bool,
    /// Jumps.
    pub(crate) has_jumps: bool,
}

/// A statement, and what the reading stands on.
#[derive(Clone, Copy)]
pub(crate) struct Said<'s, 'a> {
    pub(crate) ground: &'s Ground<'a>,
    pub(crate) line: u32,
    pub(crate) row: usize,
    pub(crate) bytes: &'a [u8],
    pub(crate) parts: Parts<'a>,
    // The fields behind the word.
    pub(crate) fields: &'s [&'a [u8]],
    // Whether the readers take it.
    pub(crate) is_taken: bool,
}

impl<'s, 'a> Said<'s, 'a> {
    /// What is known of the statement's block.
    pub(crate) fn outlook(self) -> Option<Outlook> {
        self.ground.outlooks.get(self.row).copied()
    }
}

/// What a MEAS is taken for.
#[derive(Clone, Copy)]
pub(crate) enum Measuring {
    Nothing,
    /// A point along an axis, which stays.
    Point,
    /// Its points are approached.
    Approached,
    /// It isn't tried.
    Untried(Reason),
}

/// A macro that is open: what was known in front of it, and whether its quoted arguments are points.
#[derive(Clone, Copy)]
pub(crate) struct Body<'a> {
    pub(crate) title: &'a [u8],
    pub(crate) outside: Flow,
    pub(crate) has_points: bool,
    pub(crate) is_lost: bool,
    pub(crate) left: Left,
}

/// Where the probe was left.
#[derive(Clone, Copy)]
pub(crate) struct Left {
    /// The line of the last way that is tried, 0 where there is none yet.
    pub(crate) line: u32,
    /// Whether the machine's probe stands elsewhere.
    pub(crate) is_elsewhere: bool,
}

/// What is known of the machine at a statement, and of the blocks around it.
#[derive(Clone, Copy)]
pub(crate) struct Here<'a> {
    pub(crate) flow: Flow,
    pub(crate) last_frame: u32,
    pub(crate) body: Option<Body<'a>>,
    // The MEAS that is open: what it is taken for, its feature and its row.
    pub(crate) measuring: Measuring,
    pub(crate) feature: &'a [u8],
    pub(crate) begun: usize,
    pub(crate) target: Option<&'a [u8]>,
    pub(crate) left: Left,
    // Whether the statement is carried out once, whatever else is.
    pub(crate) is_outside: bool,
    // Whether it may be carried out behind a later one.
    pub(crate) is_repeated: bool,
    pub(crate) is_turned: bool,
    pub(crate) has_tool: bool,
}

impl<'a> Here<'a> {
    /// At the beginning of a text.
    pub(crate) fn at_start() -> Here<'a> {
        Here {
            flow: Flow::at_start(),
            last_frame: MACHINE,
            body: None,
            measuring: Measuring::Nothing,
            feature: &[],
            begun: 0,
            target: None,
            left: Left {
                line: 0,
                is_elsewhere: false,
            },
            is_outside: true,
            is_repeated: false,
            is_turned: false,
            has_tool: false,
        }
    }

    /// The number of a frame that no other one has.
    pub(crate) fn new_frame(&mut self) -> u32 {
        self.last_frame = self.last_frame.saturating_add(1);
        self.last_frame
    }

    /// The frame isn't known from here on.
    pub(crate) fn lose_frame(&mut self) {
        self.flow.frame = Frame::Unknown;
        self.flow.origin = None;
    }

    /// A frame that no other one is, at this origin, is current from here on.
    pub(crate) fn enter_new(&mut self, origin: Option<Position>) {
        self.flow.frame = Frame::Known(self.new_frame());
        self.flow.origin = origin;
    }

    /// The frame of the machine, at its origin.
    pub(crate) fn enter_machine(&mut self) {
        self.flow.frame = Frame::Known(MACHINE);
        self.flow.origin = Some(ZERO);
    }
}

/// Where a feature was measured: in which frame, and at which row.
#[derive(Clone, Copy)]
pub(crate) struct Measured {
    pub(crate) frame: u32,
    pub(crate) row: usize,
}

/// What is known of the features.
#[derive(Drop)]
pub(crate) struct Features<'a> {
    // Whether they are points along an axis.
    pub(crate) along: Table<'a, bool>,
    pub(crate) measured: Table<'a, Measured>,
    // The rows of the MEAS and the ENDMES of those whose points are touched one by one.
    pub(crate) touched: Table<'a, (usize, usize)>,
    // The names in quotes of the macro that is open.
    pub(crate) parameters: Vec<&'a [u8]>,
}

impl<'a> Features<'a> {
    /// None yet.
    pub(crate) fn new(alloc: Global) -> Features<'a> {
        Features {
            along: Table::new(alloc),
            measured: Table::new(alloc),
            touched: Table::new(alloc),
            parameters: Vec::new(alloc),
        }
    }

    // Whether a name is a parameter of the macro that stands for a feature.
    fn is_parameter(&self, label: &[u8]) -> bool {
        self.parameters.iter().any(|name| *name == label)
    }

    /// Whether a feature is a point along an axis: in a macro, a parameter in quotes is, where it is at all calls.
    pub(crate) fn is_along(&self, body: Option<Body<'a>>, label: &'a [u8]) -> bool {
        match body {
            Some(body) if self.is_parameter(label) => body.has_points,
            _ => self.along.get(label).unwrap_or(false),
        }
    }

    /// Whether a feature was measured above, where that is tried.
    pub(crate) fn is_measured(&self, body: Option<Body<'a>>, label: &'a [u8]) -> bool {
        body.is_some() && self.is_parameter(label) || self.measured.get(label).is_some()
    }
}
