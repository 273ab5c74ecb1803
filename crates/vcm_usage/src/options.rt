//! The options of commands.

use crate::Files;

/// An option of a command.
#[derive(Clone, Copy, PartialEq, Eq)]
pub enum Choice {
    /// `--talk`: as much is told as at a terminal. Commands that take it tell through a pipe what they always told.
    Talk,
    /// `--quiet`: no notices are told.
    Quiet,
    /// `--all`.
    All,
    /// `--steps N`.
    Steps,
    /// `--show NAMES`.
    Show,
    /// `--close`.
    Close,
    /// `--sheet`.
    Sheet,
    /// `--lines A-B`.
    Stretch,
    /// `--paper a4|a3`.
    Paper,
    /// `--probe PROBE`.
    Probe,
    /// `--tip N`.
    Tip,
    /// `--part PART`.
    Part,
    /// `--frame L=X,Y,Z`.
    Frame,
    /// `--exact`.
    Exact,
    /// `--lines`.
    Lines,
    /// `--touch`.
    Touch,
    /// `--machine`.
    Machine,
    /// `--whole`.
    Whole,
    /// `--given V=VALUE`.
    Given,
    /// `--apprch MM`.
    Approach,
    /// `--retrct MM`.
    Retract,
    /// `--search MM`.
    Search,
    /// `--auto`.
    Auto,
    /// `--approach`.
    Approached,
    /// `--harmless WORD`.
    Harmless,
    /// `--table ANGLE`.
    Table,
    /// `--unit UNIT`.
    Unit,
    /// `--turn TURNS`.
    Turn,
    /// `--at X,Y,Z`.
    At,
    /// `--within MM`.
    Within,
    /// `--most N`.
    Most,
    /// `--near POINTS`.
    Near,
    /// `--into PART`.
    Into,
    /// `--name NAME`.
    Name,
    /// `--place X,Y,Z`.
    Place,
    /// `--strict`.
    Strict,
    /// `--by MM`.
    By,
    /// `--from-line N`.
    FromLine,
    /// `--part PART`, of `judge`.
    Beside,
    /// `--csv`.
    Csv,
    /// `--junit FILE`.
    JUnit,
    /// `--report FILE`.
    Report,
}

/// What stands behind an option.
#[derive(Clone, Copy)]
pub enum Behind {
    Nothing,
    Value,
    /// A value that may begin with a minus.
    Signed,
    /// A value; the option may stand several times.
    Values,
}

/// An option as it is spelled and told: its name after two dashes, what stands after that, and what it does, in short and as a sentence. Its value has a name and
/// may be one of some files; an option without a value has an empty name there.
#[derive(Clone, Copy)]
pub struct Spelled {
    pub name: &'static str,
    pub behind: Behind,
    pub value: &'static str,
    pub files: Files,
    pub brief: &'static str,
    pub help: &'static str,
}

// One with nothing after it.
fn flag(name: &'static str, brief: &'static str, help: &'static str) -> Spelled {
    Spelled {
        name,
        behind: Behind::Nothing,
        value: "",
        files: Files::None,
        brief,
        help,
    }
}

// One with a value after it that is no file.
fn valued(
    name: &'static str,
    value: &'static str,
    brief: &'static str,
    help: &'static str,
) -> Spelled {
    Spelled {
        name,
        behind: Behind::Value,
        value,
        files: Files::None,
        brief,
        help,
    }
}

// One with a file after it.
fn filed(
    name: &'static str,
    value: &'static str,
    files: Files,
    brief: &'static str,
    help: &'static str,
) -> Spelled {
    Spelled {
        name,
        behind: Behind::Value,
        value,
        files,
        brief,
        help,
    }
}

impl Choice {
    /// How it is spelled and told.
    pub fn spelled(self) -> Spelled {
        match self {
            Choice::Talk => flag(
                "talk",
                "tell more, as at a terminal",
                "Tells on standard error what it tells at a terminal, also through a pipe",
            ),
            Choice::Quiet => flag("quiet", "tell no notices", "Tells no notices"),
            Choice::All => flag(
                "all",
                "tell all faults",
                "Tells all faults of lines and statements, with what stands there",
            ),
            Choice::Steps => valued(
                "steps",
                "N",
                "the most steps",
                "The most steps, 0 to 1000000000; 1000000 if not given",
            ),
            Choice::Show => valued(
                "show",
                "NAMES",
                "show variables at the end",
                "Variables whose values are printed at the end, with commas between them, as I,R#2",
            ),
            Choice::Close => flag(
                "close",
                "show the blocks large",
                "Shows the blocks as large as they are, and of the way what lies beside them",
            ),
            Choice::Sheet => flag(
                "sheet",
                "draw a sheet to be filed",
                "Draws a sheet to be filed, with millimetres, the numbers of the points, and tables",
            ),
            Choice::Stretch => valued(
                "lines",
                "A-B",
                "the source lines of the way",
                "Draws a sheet with the way of the statements on these source lines alone, as 80-115",
            ),
            Choice::Paper => valued(
                "paper",
                "a4|a3",
                "the paper of the sheet",
                "Draws a sheet on paper, a4 or a3 with the longer side across: true to scale, with letters of 2.5 mm, a frame and a title block",
            ),
            Choice::Probe => filed(
                "probe",
                "PROBE",
                Files::Tables,
                "the probe, or several",
                "The probe, or several of which the program chooses, a TOML text: with several the head turns between steps, and view shows what they meet",
            ),
            Choice::Tip => valued(
                "tip",
                "N",
                "half the width of the tip",
                "Half the width of the tip, in micrometres, 0 to 50000",
            ),
            Choice::Part => filed(
                "part",
                "PART",
                Files::Tables,
                "the part file",
                "The workpiece whose tip is taken",
            ),
            Choice::Frame => Spelled {
                name: "frame",
                behind: Behind::Values,
                value: "LABEL=X,Y,Z",
                files: Files::None,
                brief: "where a frame lies",
                help: "Where the origin of a frame that the text doesn't tell the place of lies in machine coordinates: LABEL=X,Y,Z, or LABEL=X,Y,Z,Z90",
            },
            Choice::Exact => flag(
                "exact",
                "round nothing",
                "Rounds nothing: what has digits behind the micrometre isn't tried",
            ),
            Choice::Lines => flag(
                "lines",
                "a line for each statement",
                "A line for each statement that neither fits nor has a notice",
            ),
            Choice::Touch => flag(
                "touch",
                "touch points one by one",
                "Touches each point along an axis of a feature of several, in lines of its own",
            ),
            Choice::Machine => flag(
                "machine",
                "machine coordinates",
                "Prints the points in machine coordinates, as vcm blocks --near reads them",
            ),
            Choice::Whole => flag(
                "whole",
                "a producer's text as it stands",
                "Runs a producer's text as it stands: what isn't followed isn't tried, and is reported with status 7",
            ),
            Choice::Given => Spelled {
                name: "given",
                behind: Behind::Values,
                value: "V=VALUE",
                files: Files::None,
                brief: "what the operator answers",
                help: "What the operator answers where the text asks for a variable: V=5, V=2.5 or V=.TRUE.",
            },
            Choice::Approach => valued(
                "apprch",
                "MM",
                "the approach of points",
                "The approach of points in millimetres, where no SNSET above a point says it",
            ),
            Choice::Retract => valued(
                "retrct",
                "MM",
                "the way back from points",
                "The way back from points in millimetres, where no SNSET above a point says it",
            ),
            Choice::Search => valued(
                "search",
                "MM",
                "the search behind points",
                "How far a point is searched for in millimetres, where no SNSET above it says it",
            ),
            Choice::Auto => flag(
                "auto",
                "no points of the machine's own",
                "Takes it that the machine takes no points of its own under MODE/AUTO",
            ),
            Choice::Approached => flag(
                "approach",
                "points are approached and left, and not touched",
                "Approaches points and leaves them without a touch, for parts whose blocks are coarser than their features",
            ),
            Choice::Harmless => Spelled {
                name: "harmless",
                behind: Behind::Values,
                value: "WORD",
                files: Files::None,
                brief: "a word that moves nothing and sets nothing",
                help: "Takes it that statements that go by this word, and calls of a program of this name, move nothing and set nothing",
            },
            Choice::Table => valued(
                "table",
                "ANGLE",
                "where the rotary table stands at the start",
                "Where the rotary table stands at the start, in degrees: turned back to it, motions are tried again",
            ),
            Choice::Unit => valued(
                "unit",
                "UNIT",
                "the unit of the model",
                "What a length of the model is, mm or inch; mm if not given",
            ),
            Choice::Turn => valued(
                "turn",
                "TURNS",
                "how the model is turned",
                "Quarter turns of the model about axes of the machine, from left to right, as x90,z-90",
            ),
            Choice::At => Spelled {
                name: "at",
                behind: Behind::Signed,
                value: "X,Y,Z",
                files: Files::None,
                brief: "where the model lies",
                help: "Where the origin of the turned model lies on the machine, in millimetres; 0,0,0 if not given",
            },
            Choice::Within => valued(
                "within",
                "MM",
                "how far blocks reach beyond the model",
                "How far a block may reach beyond the model on each axis, in millimetres; the finest of round lengths that fits if not given",
            ),
            Choice::Most => valued(
                "most",
                "N",
                "the most blocks of the model",
                "The most blocks of the model, 1 to 4096; with those of the part file never more than 4096",
            ),
            Choice::Near => filed(
                "near",
                "POINTS",
                Files::Points,
                "finer where these points are measured",
                "Points that are measured, as vcm points --machine prints them; near them the blocks are finer",
            ),
            Choice::Into => filed(
                "into",
                "PART",
                Files::Tables,
                "the part file that the blocks are added to",
                "The part file that the blocks are added to; without it the limits and home lie round the model, and there is no tip",
            ),
            Choice::Name => valued(
                "name",
                "NAME",
                "the name of the blocks",
                "The name of each block, 1 to 32 printable characters; the name of the model's file if not given",
            ),
            Choice::Place => Spelled {
                name: "place",
                behind: Behind::Signed,
                value: "X,Y,Z",
                files: Files::None,
                brief: "how far the part lies off its place",
                help: "How far the workpiece lies off its place, in millimetres: all blocks are moved, but those with fixture = true",
            },
            Choice::Strict => flag(
                "strict",
                "refuse keys that nothing uses",
                "Refuses a part file with keys that nothing uses",
            ),
            Choice::By => valued(
                "by",
                "MM",
                "how far off its place",
                "How far the workpiece is moved along each axis, either way, in millimetres",
            ),
            Choice::FromLine => valued(
                "from-line",
                "N",
                "points are looked at from this line on",
                "Deviations are looked at from where this source line is come to; each run must come to it as at the part's own place, or that is told",
            ),
            Choice::Beside => filed(
                "part",
                "PART",
                Files::Tables,
                "the workpiece of all programs",
                "The workpiece of all programs; without it the one of a/b.dmi is a/b.toml",
            ),
            Choice::Csv => flag(
                "csv",
                "a line of CSV for each program",
                "Prints a line of CSV for each program, and no counts",
            ),
            Choice::JUnit => filed(
                "junit",
                "FILE",
                Files::Any,
                "a report for continuous integration",
                "Writes a report in the XML of JUnit to this file",
            ),
            Choice::Report => filed(
                "report",
                "FILE",
                Files::Any,
                "a page to be filed",
                "Writes a page to be filed to this file, in HTML, with a row for each program and the digests of all files",
            ),
        }
    }
}
