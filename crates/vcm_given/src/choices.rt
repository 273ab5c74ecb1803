//! What a command line says of the machine and of the course of a run.

ghost use Rattle.std.specs.Prelude.{◌≡◌};
ghost use Rattle.vcm_given.specs.Chosen.{no_choices, is_unsaid, is_silent};

use std::alloc::Global;
use vcm_items::{Name, VariableName};
use vcm_lines::OwnedBytes;
use vcm_num::Items;
use vcm_spec::{FrameAxis, Quarters};

/// A value that is given.
#[derive(Drop)]
pub enum Value {
    /// A whole number.
    Int(i32),
    /// A number with digits behind its point, in thousandths.
    Real(i32),
    /// A truth value.
    Truth(bool),
    /// A text, for a variable of texts.
    Text(OwnedBytes),
}

/// Where a frame lies: the machine coordinates of its origin, in micrometres, and how it is turned about an axis of the machine.
#[derive(Drop)]
pub struct GivenFrame {
    pub name: Name,
    pub x: i32,
    pub y: i32,
    pub z: i32,
    pub turn: Option<(FrameAxis, Quarters)>,
}

/// What the operator answers wherever the text asks for a variable.
#[derive(Drop)]
pub struct Answer {
    pub variable: VariableName,
    pub value: Value,
}

/// A probe of a file of several: its name, as the text has it, its number, and half the width of its tip in micrometres.
#[derive(Drop)]
pub struct GivenProbe {
    pub name: Items<u8>,
    pub number: u32,
    pub tip: i32,
}

/// What a command line says. Lengths are in micrometres.
#[derive(Drop)]
pub struct Choices {
    /// The approach, the way back and the search, where the text says nothing of them.
    pub approach: Option<i32>,
    pub retract: Option<i32>,
    pub search: Option<i32>,
    /// Frames that the text doesn't make of its own.
    pub frames: Items<GivenFrame>,
    /// Answers.
    pub answers: Items<Answer>,
    /// Whether MODE/AUTO is a programmed mode, in which the machine takes no points of its own.
    pub is_auto: bool,
    /// Whether points along an axis are approached and left, and not touched.
    pub is_approached: bool,
    /// Half the width of the tip.
    pub tip: i32,
    /// Words that move nothing and set nothing, of statements that go by them and of CALLs that name them.
    pub harmless: Items<Name>,
    /// Where the rotary table stands at the start, in millionths of a degree.
    pub table: Option<u64>,
    /// The probes of a file of several, one of which SNSLCT puts on; without such a file there are none.
    pub probes: Items<GivenProbe>,
}

impl Choices {
    // Whether they say nothing of a text that is read in one way, but for probes.
    fn is_unsaid(&self) -> bool
        ensures { result ≡ is_unsaid self.now }
    {
        self.approach.is_none()
            && self.retract.is_none()
            && self.search.is_none()
            && self.frames.as_slice().is_empty()
            && self.answers.as_slice().is_empty()
            && !self.is_approached
            && self.harmless.as_slice().is_empty()
            && self.table.is_none()
    }

    /// Whether they say nothing of a text that is read in one way.
    pub fn is_silent(&self) -> bool
        ensures { result ≡ is_silent self.now }
    {
        self.is_unsaid() && self.probes.as_slice().is_empty()
    }

    /// Choices that leave everything as the text says it, for a tip that is a point.
    pub fn none(alloc: Global) -> Choices
        ensures { result ≡ no_choices }
    {
        Choices {
            approach: None,
            retract: None,
            search: None,
            frames: Items::new(alloc),
            answers: Items::new(alloc),
            is_auto: false,
            is_approached: false,
            tip: 0,
            harmless: Items::new(alloc),
            table: None,
            probes: Items::new(alloc),
        }
    }
}
