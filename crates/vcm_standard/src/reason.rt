//! Why a statement is left out, put otherwise or not tried.

/// Why a statement is left out, put otherwise or not tried; `Plain` where it is neither.
#[derive(Clone, Copy)]
pub enum Reason {
    Plain,
    /// Tolerances and evaluation.
    Tolerances,
    /// Reports and files.
    Reports,
    /// Who and what is measured.
    Identity,
    /// Fitting and compensation.
    Fitting,
    /// Datums.
    Datums,
    /// Constructed features.
    Constructed,
    /// Speed.
    Speed,
    /// Parts of sensors.
    SensorParts,
    /// Settings of scanning.
    ScanSettings,
    /// Features other than points.
    OtherFeatures,
    /// Directions that aren't along an axis.
    OtherDirections,
    /// Output of what isn't measured here.
    OtherOutput,
    /// Texts and questions to the operator.
    Questions,
    /// Settings that are off.
    SettingsOff,
    /// Text variables.
    TextVariables,
    /// Flow behind faults.
    FaultFlow,
    /// Corners.
    Corners,
    /// Home, which stands in the part file.
    Home,
    /// Scanned.
    Scans,
    /// Relative points.
    RelativePoints,
    /// Calibration.
    Calibration,
    /// Rotary table.
    RotaryTable,
    /// Other programs.
    OtherPrograms,
    /// Zones of the machine.
    Zones,
    /// Values from outside.
    OutsideValues,
    /// Carriages.
    Carriages,
    /// Best fit of frames.
    BestFit,
    /// Motion in a frame that isn't known.
    UnknownFrame,
    /// Measured by hand.
    ByHand,
    /// Moved by hand.
    MovedByHand,
    /// Frames by datums.
    DatumFrames,
    /// SNSET/CLRSRF: the machine adds moves of its own.
    ClearanceMoves,
    /// Settings that aren't known here.
    OtherSettings,
    /// Turns that aren't quarter turns.
    OddTurns,
    /// Frames that aren't known.
    UnknownFrames,
    /// Units.
    Units,
    /// Not a word of DMIS that is known here.
    UnknownWord,
    /// Kinds of variables.
    OtherKinds,
    /// Functions and texts in a test.
    TestFunctions,
    /// Functions in expressions.
    Functions,
    /// Points without a place or direction.
    NoDirection,
    /// Values that aren't known here.
    UnknownValues,
    /// Other forms of GOTO.
    OtherGoto,
    /// Approach distances that aren't known.
    UnknownApproach,
    /// GOTARG and ENDGO without each other.
    Unpaired,
    /// Lengths in inches that aren't written out.
    LengthExpressions,
    /// Digits finer than a micrometre, and --exact.
    FineDigits,
    /// The machine's frame.
    MachineFrame,
    /// A frame given with --frame.
    GivenFrame,
    /// Features of several points, approached.
    Approached,
    /// Directions that aren't along an axis, approached.
    Slanted,
    /// Frames by measured points.
    PointFrames,
    /// GOTARG.
    Targets,
    /// OUTPUT with tolerances.
    OutputTolerances,
    /// ABS in a test.
    Absolute,
    /// Digits finer than a micrometre.
    Digits,
    /// Names over 16 characters.
    LongNames,
    /// Inches.
    Inches,
    /// A word of the standard that isn't known here.
    OtherWord,
    /// Features of several points, touched.
    Touched,
    /// Numbers with exponents.
    Exponents,
}

// Why statements are left out.
const LEFT_OUT: &[(Reason, &str)] = &[
    (Reason::Tolerances, "tolerances and evaluation"),
    (Reason::Reports, "reports and files"),
    (Reason::Identity, "who and what is measured"),
    (Reason::Fitting, "fitting and compensation"),
    (Reason::Datums, "datums"),
    (Reason::Constructed, "constructed features"),
    (Reason::Speed, "speed"),
    (Reason::SensorParts, "parts of sensors"),
    (Reason::ScanSettings, "settings of scanning"),
    (Reason::OtherFeatures, "features other than points"),
    (
        Reason::OtherDirections,
        "directions that aren't along an axis",
    ),
    (Reason::OtherOutput, "output of what isn't measured here"),
    (Reason::Questions, "texts and questions to the operator"),
    (Reason::SettingsOff, "settings that are off"),
    (Reason::TextVariables, "text variables"),
    (Reason::FaultFlow, "flow behind faults"),
    (Reason::Corners, "corners"),
    (Reason::Home, "home, which stands in the part file"),
];

// Why statements are not tried.
const NOT_TRIED: &[(Reason, &str)] = &[
    (Reason::Scans, "scanned"),
    (Reason::RelativePoints, "relative points"),
    (Reason::Calibration, "calibration"),
    (Reason::RotaryTable, "rotary table"),
    (Reason::OtherPrograms, "other programs"),
    (Reason::Zones, "zones of the machine"),
    (Reason::OutsideValues, "values from outside"),
    (Reason::Carriages, "carriages"),
    (Reason::BestFit, "best fit of frames"),
    (Reason::UnknownFrame, "motion in a frame that isn't known"),
    (Reason::ByHand, "measured by hand"),
    (Reason::MovedByHand, "moved by hand"),
    (Reason::DatumFrames, "frames by datums"),
    (
        Reason::ClearanceMoves,
        "SNSET/CLRSRF: the machine adds moves of its own",
    ),
    (Reason::OtherSettings, "settings that aren't known here"),
    (Reason::OddTurns, "turns that aren't quarter turns"),
    (Reason::UnknownFrames, "frames that aren't known"),
    (Reason::Units, "units"),
    (Reason::UnknownWord, "not a word of DMIS that is known here"),
    (
        Reason::OtherWord,
        "a word of the standard that isn't known here",
    ),
    (Reason::OtherKinds, "kinds of variables"),
    (Reason::TestFunctions, "functions and texts in a test"),
    (Reason::Functions, "functions in expressions"),
    (Reason::NoDirection, "points without a place or direction"),
    (Reason::UnknownValues, "values that aren't known here"),
    (Reason::OtherGoto, "other forms of GOTO"),
    (
        Reason::UnknownApproach,
        "approach distances that aren't known",
    ),
    (Reason::Unpaired, "GOTARG and ENDGO without each other"),
    (
        Reason::LengthExpressions,
        "lengths in inches that aren't written out",
    ),
    (
        Reason::FineDigits,
        "digits finer than a micrometre, and --exact",
    ),
];

// Why statements are put otherwise.
const PUT_OTHERWISE: &[(Reason, &str)] = &[
    (Reason::MachineFrame, "the machine's frame"),
    (Reason::GivenFrame, "a frame given with --frame"),
    (Reason::Approached, "features of several points, approached"),
    (
        Reason::Slanted,
        "directions that aren't along an axis, approached",
    ),
    (Reason::PointFrames, "frames by measured points"),
    (Reason::Targets, "GOTARG"),
    (Reason::OutputTolerances, "OUTPUT with tolerances"),
    (Reason::Absolute, "ABS in a test"),
    (Reason::Digits, "digits finer than a micrometre"),
    (Reason::LongNames, "names over 16 characters"),
    (Reason::Inches, "inches"),
    (Reason::Touched, "features of several points, touched"),
    (Reason::Exponents, "numbers with exponents"),
];

// The words that are beside a reason, if it is in the table.
fn beside(rows: &[(Reason, &'static str)], reason: Reason) -> Option<&'static str> {
    for row in rows {
        if row.0.is(reason) {
            return Some(row.1);
        }
    }
    None
}

impl Reason {
    /// Whether it is this one.
    pub fn is(self, other: Reason) -> bool {
        self as u8 == other as u8
    }

    /// The reason in words.
    pub fn words(self) -> &'static str {
        if let Some(words) = beside(LEFT_OUT, self) {
            return words;
        }
        if let Some(words) = beside(NOT_TRIED, self) {
            return words;
        }
        beside(PUT_OTHERWISE, self).unwrap_or("")
    }
}
