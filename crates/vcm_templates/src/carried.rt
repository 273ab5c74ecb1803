//! The variables that carry what is known of the machine.

ghost use Rattle.std.specs.Prelude.{◌≡◌, ◌-◌};
ghost use Rattle.vcm_templates.specs.Carried.{carried_name, item_name, carried_target, carried_term, item_target, item_term};

use vcm_expr::Term;
use vcm_forms::Target;
use vcm_items::{Name, VariableName};

/// The expansion of variables that carry what is known: no text reaches it.
pub const IMPLICIT: u32 = 4_294_967_295;

/// What is added where no value of a feature is known any more: more than there are frames.
pub const FEATURES_STEP: i64 = 1_099_511_627_776;

/// The number of a sensor that isn't known: no line has it.
pub const UNKNOWN_SENSOR: i64 = 4_294_967_296;

/// A variable that carries what is known of the machine. Where nothing else is said it is a whole number: that of the epoch in which it came to be known.
#[derive(Clone, Copy)]
pub enum Carried {
    /// The number of the current frame, 0 where it isn't known.
    Frame,
    /// The number that a frame was given last.
    Latest,
    /// The machine is in a programmed mode.
    Mode,
    /// No rotary table was turned.
    Table,
    /// The machine doesn't scan.
    Scanning,
    /// Lengths are in millimetres.
    Unit,
    /// Where the probe stands: 0 not known, 1 where the machine's does, 2 at home, before any motion.
    Place,
    /// The approach of touches.
    Approach,
    /// The search.
    Search,
    /// The way back.
    Retract,
    /// Whether what is asked for is known: a truth value.
    Asked,
    /// The number of the epoch: another one where nothing is known any more.
    Epoch,
    /// The machine takes the points of the text, and none of its own.
    OwnPoints,
    /// There are no ways over a clearance surface.
    Clearance,
    /// Points are compensated.
    Compensation,
    /// Points are those of a measurement, not of a qualification.
    Qualification,
    /// GOHOME goes to the home of the part file.
    Home,
    /// Frames with numbers up to this aren't known any more.
    Floor,
    /// 1 where a frame is saved by its definition, 0 where it may be kept elsewhere.
    Saving,
    /// The number of the epoch of values of variables.
    Values,
    /// What is added to numbers of frames: another one where no value of a feature is known any more.
    Features,
    /// How many points the measurement has so far.
    Points,
    /// How many points it is said to have.
    Wanted,
    /// 1 where the measurement is of a single point that was tried.
    Single,
    /// Which sensor is selected, by a line that selects it; 0 none so far.
    Sensor,
    /// The number of the frame in which the last point was touched.
    Touched,
    /// The number of the frame of the place that GOHOME goes to, 0 where it isn't known.
    HomeFrame,
    /// The number of the frame of the place that ENDGO goes to.
    TargetFrame,
    /// The number of the frame of the probe's place.
    ProbeFrame,
    /// Angles are in decimal degrees.
    Angle,
    /// Polar places are in the plane of X and Y.
    Plane,
    /// 1 where the axes of the current frame are the machine's.
    Straight,
    /// 1 where all origins of the frame that is made are known so far.
    Origins,
}

impl Carried {
    /// Its name.
    pub fn name(self) -> &'static [u8]
        ensures { result.now ≡ carried_name self }
    {
        match self {
            Carried::Frame => b"FRAME",
            Carried::Latest => b"LATEST",
            Carried::Mode => b"MODE",
            Carried::Table => b"TABLE",
            Carried::Scanning => b"SCANNING",
            Carried::Unit => b"UNIT",
            Carried::Place => b"PLACE",
            Carried::Approach => b"APPROACH",
            Carried::Search => b"SEARCH",
            Carried::Retract => b"RETRACT",
            Carried::Asked => b"ASKED",
            Carried::Epoch => b"EPOCH",
            Carried::OwnPoints => b"OWNPOINTS",
            Carried::Clearance => b"CLEARANCE",
            Carried::Compensation => b"COMPENSATION",
            Carried::Qualification => b"QUALIFICATION",
            Carried::Home => b"HOME",
            Carried::Floor => b"FLOOR",
            Carried::Saving => b"SAVING",
            Carried::Values => b"VALUES",
            Carried::Features => b"FEATURES",
            Carried::Points => b"POINTS",
            Carried::Wanted => b"WANTED",
            Carried::Single => b"SINGLE",
            Carried::Sensor => b"SENSOR",
            Carried::Touched => b"TOUCHED",
            Carried::HomeFrame => b"HOMEFRAME",
            Carried::TargetFrame => b"TARGETFRAME",
            Carried::ProbeFrame => b"PROBEFRAME",
            Carried::Angle => b"ANGLE",
            Carried::Plane => b"PLANE",
            Carried::Straight => b"STRAIGHT",
            Carried::Origins => b"ORIGINS",
        }
    }

    /// As the target of an assignment.
    pub fn target(self) -> Target
        ensures { result ≡ carried_target self }
    {
        Target {
            name: Name::new(self.name()),
            expansion: IMPLICIT,
        }
    }

    /// In an expression.
    pub fn term(self) -> Term
        ensures { result ≡ carried_term self }
    {
        Term::Variable(Name::new(self.name()), IMPLICIT)
    }

    /// Its name as a variable's.
    pub fn variable(self) -> VariableName
        ensures { result ≡ carried_name self }
    {
        VariableName::new(self.name())
    }
}

/// What is carried of each variable, frame, feature and SELECT of the text.
#[derive(Clone, Copy)]
pub enum Item {
    /// The epoch in which a variable's value came to be known.
    Known,
    /// The number of a frame that is saved.
    Saved,
    /// The number of the frame in which a feature was measured.
    Measured,
    /// The number of the frame in which it was declared.
    Nominal,
    /// The components of the direction in which it was declared, in thousandths.
    AlongX,
    AlongY,
    AlongZ,
    /// How far a variable's value may lie from the machine's.
    Beside,
    /// The number of the frame in which a feature was measured when it became a datum last, 0 where it was measured since.
    Bound,
    /// 1 where the axes of a frame that is saved are the machine's.
    Axes,
    /// The value of a SELECT within so many blocks.
    Chosen,
    /// 1 where no block of that SELECT was taken yet.
    Open,
    /// 1 where a frame was kept elsewhere: what its name recalls isn't known once it is made again.
    Stored,
}

impl Item {
    /// Its name.
    pub fn name(self) -> &'static [u8]
        ensures { result.now ≡ item_name self }
    {
        match self {
            Item::Known => b"KNOWN",
            Item::Saved => b"SAVED",
            Item::Measured => b"MEASURED",
            Item::Nominal => b"NOMINAL",
            Item::AlongX => b"ALONGX",
            Item::AlongY => b"ALONGY",
            Item::AlongZ => b"ALONGZ",
            Item::Beside => b"BESIDE",
            Item::Bound => b"BOUND",
            Item::Axes => b"AXES",
            Item::Chosen => b"CHOSEN",
            Item::Open => b"OPEN",
            Item::Stored => b"STORED",
        }
    }

    /// The one of an index, as the target of an assignment.
    pub fn target(self, index: u16) -> Target
        ensures { result ≡ item_target self index }
    {
        Target {
            name: Name::new(self.name()),
            expansion: IMPLICIT - u32::from(index),
        }
    }

    /// In an expression.
    pub fn term(self, index: u16) -> Term
        ensures { result ≡ item_term self index }
    {
        Term::Variable(Name::new(self.name()), IMPLICIT - u32::from(index))
    }

    /// Its name as a variable's.
    pub fn variable(self) -> VariableName
        ensures { result ≡ item_name self }
    {
        VariableName::new(self.name())
    }
}
