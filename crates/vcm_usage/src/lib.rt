//! The commands of the command line: one table, by which it is read, its help printed and its completions judged.
#![tactic(auto)]

mod options;

pub use options::{Behind, Choice, Spelled};

/// The version that `vcm --version` prints. What a version promises stands in `docs/VERSIONS.md`.
pub const VERSION: &str = "0.5.0";

/// The files that a word of the command line may name, by the ends of their names.
#[derive(Clone, Copy, PartialEq, Eq)]
pub enum Files {
    /// No file.
    None,
    /// Programs.
    Programs,
    /// Programs and images.
    Inputs,
    /// Part files, probe files and descriptions of what hangs on the head.
    Tables,
    /// Triangle meshes.
    Models,
    /// Tables of measured points.
    Points,
    /// Any file.
    Any,
}

impl Files {
    /// The ends of their names, after the point, with blanks between them; nothing of any file, and of none.
    pub fn ends(self) -> &'static str {
        match self {
            Files::None | Files::Any => "",
            Files::Programs => "dmi dmis",
            Files::Inputs => "dmi dmis vcmi",
            Files::Tables => "toml",
            Files::Models => "stl",
            Files::Points => "csv",
        }
    }
}

/// A word after a command: its name, what it is, and which files it may be.
#[derive(Clone, Copy)]
pub struct Word {
    pub name: &'static str,
    pub help: &'static str,
    pub files: Files,
}

const PROGRAM: Word = Word {
    name: "PROGRAM",
    help: "The measuring program, a DMIS text",
    files: Files::Programs,
};

const INPUT: Word = Word {
    name: "INPUT",
    help: "The measuring program, a DMIS text, or its image",
    files: Files::Inputs,
};

const PART: Word = Word {
    name: "PART",
    help: "The workpiece, a TOML text",
    files: Files::Tables,
};

const PROBE: Word = Word {
    name: "PROBE",
    help: "The boxes that are fixed to the tip, a TOML text",
    files: Files::Tables,
};

const PRODUCED: Word = Word {
    name: "PROGRAM",
    help: "The text of a producer, as its system writes it",
    files: Files::Programs,
};

const LISTING: Word = Word {
    name: "LISTING",
    help: "The listing of a code",
    files: Files::Any,
};

const MODEL: Word = Word {
    name: "MODEL",
    help: "The model, a triangle mesh in STL",
    files: Files::Models,
};

const HARDWARE: Word = Word {
    name: "HARDWARE",
    help: "What hangs on the head, a TOML text",
    files: Files::Tables,
};

const IMAGE: Word = Word {
    name: "IMAGE",
    help: "The file that the image is written to",
    files: Files::Any,
};

/// A command of the command line.
#[derive(Clone, Copy, PartialEq, Eq)]
pub enum Verb {
    Check,
    Survey,
    Adapt,
    Build,
    Run,
    Why,
    Contacts,
    Trace,
    Margin,
    Points,
    Clearance,
    Picture,
    View,
    Part,
    Blocks,
    Probe,
    Debug,
    Dap,
    List,
    Asm,
    Explain,
    Place,
    Judge,
}

/// Which words a command takes besides those that all have to be there.
#[derive(Clone, Copy, PartialEq, Eq)]
pub enum Rest {
    Nothing,
    /// Any words.
    Words,
    /// Programs, one at least.
    Programs,
}

/// A command, its name, what it does, in short and as a sentence, an example, the words after it, which all have to be there, further ones, and its options.
#[derive(Clone, Copy)]
pub struct Usage {
    pub verb: Verb,
    pub name: &'static str,
    pub brief: &'static str,
    pub about: &'static str,
    pub example: &'static str,
    pub words: &'static [Word],
    pub rest: Rest,
    pub choices: &'static [Choice],
}

// All commands.
const USAGES: &[Usage] = &[
    Usage {
        verb: Verb::Check,
        name: "check",
        brief: "tell whether a program is accepted",
        about: "Tells whether programs are accepted, and how many statements each has",
        example: "For example: vcm check square.dmi",
        words: &[],
        rest: Rest::Programs,
        choices: &[
            Choice::Talk,
            Choice::Quiet,
            Choice::All,
            Choice::Whole,
            Choice::Frame,
            Choice::Given,
            Choice::Approach,
            Choice::Retract,
            Choice::Search,
            Choice::Auto,
            Choice::Approached,
            Choice::Harmless,
            Choice::Table,
        ],
    },
    Usage {
        verb: Verb::Survey,
        name: "survey",
        brief: "tell what of the text of a producer fits",
        about: "Tells of a producer's text what fits, what vcm adapt puts otherwise, and what isn't tried",
        example: "For example: vcm survey camio.dmi --tip 1000",
        words: &[PRODUCED],
        rest: Rest::Nothing,
        choices: &[
            Choice::Tip,
            Choice::Part,
            Choice::Frame,
            Choice::Exact,
            Choice::Lines,
        ],
    },
    Usage {
        verb: Verb::Adapt,
        name: "adapt",
        brief: "write the program that the text of a producer comes to",
        about: "Writes the program that a producer's text is adapted to, line by line",
        example: "For example: vcm adapt camio.dmi --tip 1000 > adapted.dmi",
        words: &[PRODUCED],
        rest: Rest::Nothing,
        choices: &[
            Choice::Tip,
            Choice::Part,
            Choice::Frame,
            Choice::Exact,
            Choice::Touch,
        ],
    },
    Usage {
        verb: Verb::Build,
        name: "build",
        brief: "write the image of a program",
        about: "Writes the image of a program",
        example: "For example: vcm build grid.dmi grid.vcmi",
        words: &[PROGRAM, IMAGE],
        rest: Rest::Nothing,
        choices: &[Choice::Talk, Choice::Quiet],
    },
    Usage {
        verb: Verb::Run,
        name: "run",
        brief: "run a program or an image beside a workpiece",
        about: "Runs a program or an image beside a workpiece, and prints the result",
        example: "For example: vcm run above.dmi part-a.toml",
        words: &[INPUT, PART],
        rest: Rest::Nothing,
        choices: &[
            Choice::Talk,
            Choice::Quiet,
            Choice::Steps,
            Choice::Place,
            Choice::Strict,
            Choice::Show,
            Choice::Probe,
            Choice::Whole,
            Choice::Frame,
            Choice::Given,
            Choice::Approach,
            Choice::Retract,
            Choice::Search,
            Choice::Auto,
            Choice::Approached,
            Choice::Harmless,
            Choice::Table,
        ],
    },
    Usage {
        verb: Verb::Why,
        name: "why",
        brief: "tell why a run stops where it does",
        about: "Tells why a run stops where it does: the line, its calls and loops, the way, what is met, and where it would be free",
        example: "For example: vcm why above.dmi part-a.toml",
        words: &[INPUT, PART],
        rest: Rest::Nothing,
        choices: &[
            Choice::Quiet,
            Choice::Steps,
            Choice::Place,
            Choice::Strict,
            Choice::Probe,
            Choice::Whole,
            Choice::Frame,
            Choice::Given,
            Choice::Approach,
            Choice::Retract,
            Choice::Search,
            Choice::Auto,
            Choice::Approached,
            Choice::Harmless,
            Choice::Table,
        ],
    },
    Usage {
        verb: Verb::Contacts,
        name: "contacts",
        brief: "tell all contacts of a run in one go",
        about: "Tells all contacts of a run in one go: behind each the motion is taken as done, so what stands behind the first is a guess",
        example: "For example: vcm contacts into.dmi part-a.toml",
        words: &[INPUT, PART],
        rest: Rest::Nothing,
        choices: &[
            Choice::Quiet,
            Choice::Steps,
            Choice::Place,
            Choice::Strict,
            Choice::Probe,
            Choice::Whole,
            Choice::Frame,
            Choice::Given,
            Choice::Approach,
            Choice::Retract,
            Choice::Search,
            Choice::Auto,
            Choice::Approached,
            Choice::Harmless,
            Choice::Table,
        ],
    },
    Usage {
        verb: Verb::Trace,
        name: "trace",
        brief: "print what each step of a run did",
        about: "Runs a program or an image beside a workpiece, and prints what each step did, a line of CSV for each",
        example: "For example: vcm trace touch.dmi part-a.toml",
        words: &[INPUT, PART],
        rest: Rest::Nothing,
        choices: &[
            Choice::Quiet,
            Choice::Steps,
            Choice::Place,
            Choice::Strict,
            Choice::Probe,
            Choice::Whole,
            Choice::Frame,
            Choice::Given,
            Choice::Approach,
            Choice::Retract,
            Choice::Search,
            Choice::Auto,
            Choice::Approached,
            Choice::Harmless,
            Choice::Table,
        ],
    },
    Usage {
        verb: Verb::Margin,
        name: "margin",
        brief: "tell how wide the tip may be",
        about: "Tells how wide the tip of the probe may be for the run to go as it does, and what a wider one meets",
        example: "For example: vcm margin square.dmi part-a.toml",
        words: &[INPUT, PART],
        rest: Rest::Nothing,
        choices: &[
            Choice::Quiet,
            Choice::Steps,
            Choice::Place,
            Choice::Strict,
            Choice::Whole,
            Choice::Frame,
            Choice::Given,
            Choice::Approach,
            Choice::Retract,
            Choice::Search,
            Choice::Auto,
            Choice::Approached,
            Choice::Harmless,
            Choice::Table,
        ],
    },
    Usage {
        verb: Verb::Points,
        name: "points",
        brief: "print the measured points",
        about: "Runs a program or an image beside a workpiece, and prints the measured points with their deviation, a line of CSV for each",
        example: "For example: vcm points grid.dmi part-a.toml",
        words: &[INPUT, PART],
        rest: Rest::Nothing,
        choices: &[
            Choice::Quiet,
            Choice::Steps,
            Choice::Place,
            Choice::Strict,
            Choice::Machine,
            Choice::Probe,
            Choice::Whole,
            Choice::Frame,
            Choice::Given,
            Choice::Approach,
            Choice::Retract,
            Choice::Search,
            Choice::Auto,
            Choice::Approached,
            Choice::Harmless,
            Choice::Table,
        ],
    },
    Usage {
        verb: Verb::Clearance,
        name: "clearance",
        brief: "tell which boxes of the probe meet a block",
        about: "Tells which boxes of the probe, its shaft or head, meet a block in a run, and how much room the others have",
        example: "For example: vcm clearance square.dmi part-a.toml stylus.toml",
        words: &[INPUT, PART, PROBE],
        rest: Rest::Nothing,
        choices: &[
            Choice::Quiet,
            Choice::Steps,
            Choice::Place,
            Choice::Strict,
            Choice::Whole,
            Choice::Frame,
            Choice::Given,
            Choice::Approach,
            Choice::Retract,
            Choice::Search,
            Choice::Auto,
            Choice::Approached,
            Choice::Harmless,
            Choice::Table,
        ],
    },
    Usage {
        verb: Verb::Picture,
        name: "picture",
        brief: "draw the workpiece and the way of the probe",
        about: "Runs a program or an image beside a workpiece, and draws the workpiece and the way of the probe as SVG",
        example: "For example: vcm picture square.dmi part-a.toml --close > square.svg",
        words: &[INPUT, PART],
        rest: Rest::Nothing,
        choices: &[
            Choice::Quiet,
            Choice::Steps,
            Choice::Place,
            Choice::Strict,
            Choice::Close,
            Choice::Sheet,
            Choice::Stretch,
            Choice::Paper,
            Choice::Probe,
            Choice::Whole,
            Choice::Frame,
            Choice::Given,
            Choice::Approach,
            Choice::Retract,
            Choice::Search,
            Choice::Auto,
            Choice::Approached,
            Choice::Harmless,
            Choice::Table,
        ],
    },
    Usage {
        verb: Verb::View,
        name: "view",
        brief: "write a page that shows each step",
        about: "Runs a program or an image beside a workpiece, and writes a page for a browser that shows each step",
        example: "For example: vcm view square.dmi part-a.toml > square.html",
        words: &[INPUT, PART],
        rest: Rest::Nothing,
        choices: &[
            Choice::Quiet,
            Choice::Steps,
            Choice::Place,
            Choice::Strict,
            Choice::Probe,
            Choice::Whole,
            Choice::Frame,
            Choice::Given,
            Choice::Approach,
            Choice::Retract,
            Choice::Search,
            Choice::Auto,
            Choice::Approached,
            Choice::Harmless,
            Choice::Table,
        ],
    },
    Usage {
        verb: Verb::Place,
        name: "place",
        brief: "try a workpiece off its place",
        about: "Runs a program with the workpiece at 27 places: off its own by a length or not, either way, along each axis",
        example: "For example: vcm place grid.dmi part-a.toml --by 2.5",
        words: &[INPUT, PART],
        rest: Rest::Nothing,
        choices: &[
            Choice::Quiet,
            Choice::Steps,
            Choice::Strict,
            Choice::By,
            Choice::FromLine,
        ],
    },
    Usage {
        verb: Verb::Judge,
        name: "judge",
        brief: "try many programs in one go",
        about: "Tries programs, each beside its workpiece: a line for each tells how it ends, and one at the end how many did so",
        example: "For example: vcm judge square.dmi grid.dmi --part part-a.toml",
        words: &[],
        rest: Rest::Programs,
        choices: &[
            Choice::Steps,
            Choice::Beside,
            Choice::Probe,
            Choice::Place,
            Choice::Strict,
            Choice::Whole,
            Choice::Frame,
            Choice::Given,
            Choice::Approach,
            Choice::Retract,
            Choice::Search,
            Choice::Auto,
            Choice::Approached,
            Choice::Harmless,
            Choice::Table,
            Choice::Csv,
            Choice::JUnit,
            Choice::Report,
        ],
    },
    Usage {
        verb: Verb::Part,
        name: "part",
        brief: "print a workpiece as it was read",
        about: "Prints a workpiece as it was read, and tells which keys of its file nothing uses",
        example: "For example: vcm part part-a.toml",
        words: &[PART],
        rest: Rest::Nothing,
        choices: &[Choice::Quiet, Choice::Place, Choice::Strict],
    },
    Usage {
        verb: Verb::Blocks,
        name: "blocks",
        brief: "write a part file whose blocks cover a model",
        about: "Writes a part file whose blocks cover a model from CAD: what is free of the blocks is free of the model",
        example: "For example: vcm blocks housing.stl --into machine.toml --at 40,25,60 > part.toml",
        words: &[MODEL],
        rest: Rest::Nothing,
        choices: &[
            Choice::Talk,
            Choice::Quiet,
            Choice::Unit,
            Choice::Turn,
            Choice::At,
            Choice::Within,
            Choice::Most,
            Choice::Near,
            Choice::Into,
            Choice::Name,
        ],
    },
    Usage {
        verb: Verb::Probe,
        name: "probe",
        brief: "write the probe file of a head, its module and styli",
        about: "Writes the probe file of what hangs on the head: boxes that hold it as it is turned, at each A and B that is asked for",
        example: "For example: vcm probe head.toml > probes.toml",
        words: &[HARDWARE],
        rest: Rest::Nothing,
        choices: &[],
    },
    Usage {
        verb: Verb::Debug,
        name: "debug",
        brief: "answer commands on a program or an image",
        about: "Answers the commands of standard input, a line each, on a program or an image",
        example: "For example: vcm debug lines.dmi part-a.toml",
        words: &[INPUT, PART],
        rest: Rest::Nothing,
        choices: &[
            Choice::Talk,
            Choice::Quiet,
            Choice::Probe,
            Choice::Place,
            Choice::Strict,
            Choice::Whole,
            Choice::Frame,
            Choice::Given,
            Choice::Approach,
            Choice::Retract,
            Choice::Search,
            Choice::Auto,
            Choice::Approached,
            Choice::Harmless,
            Choice::Table,
        ],
    },
    Usage {
        verb: Verb::Dap,
        name: "dap",
        brief: "speak with an editor that debugs",
        about: "Speaks the Debug Adapter Protocol on standard input and output, for editors",
        example: "For example, as the adapter of an editor: vcm dap",
        words: &[],
        rest: Rest::Nothing,
        choices: &[],
    },
    Usage {
        verb: Verb::List,
        name: "list",
        brief: "print the listing of a program or an image",
        about: "Prints the listing of a program or an image",
        example: "For example: vcm list above.dmi",
        words: &[INPUT],
        rest: Rest::Nothing,
        choices: &[Choice::Talk, Choice::Quiet],
    },
    Usage {
        verb: Verb::Asm,
        name: "asm",
        brief: "write the image of a listing",
        about: "Writes the image of a listing",
        example: "For example: vcm asm above.lst above.vcmi",
        words: &[LISTING, IMAGE],
        rest: Rest::Nothing,
        choices: &[Choice::Talk],
    },
    Usage {
        verb: Verb::Explain,
        name: "explain",
        brief: "tell what a code or a message means",
        about: "Tells what a code or a message means and what to do; without words, which there are",
        example: "For example: vcm explain E14",
        words: &[],
        rest: Rest::Words,
        choices: &[],
    },
];

/// All commands.
pub fn usages() -> &'static [Usage] {
    USAGES
}

/// The command of this name.
pub fn usage_of(name: &str) -> Option<Usage> {
    for usage in usages() {
        if usage.name == name {
            return Some(*usage);
        }
    }
    None
}

impl Usage {
    /// Whether the command takes this option.
    pub fn takes(&self, choice: Choice) -> bool {
        for taken in self.choices {
            if *taken == choice {
                return true;
            }
        }
        false
    }

    /// The option of the command that has this name after its two dashes.
    pub fn choice_of(&self, name: &str) -> Option<Choice> {
        for choice in self.choices {
            if choice.spelled().name == name {
                return Some(*choice);
            }
        }
        None
    }
}
