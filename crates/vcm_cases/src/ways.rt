//! That a run comes to the same by whatever way it is asked for: among blocks in strips, for the box that is the tip, from the image of its program, in the last line of
//! its trace, in the debugger on the program and on its image, and as a job.

use crate::asking::heard_of;
use crate::stage::Heard;
use crate::strips::{is_printed_by_strips, tip_file};
use crate::texts::{Asked, Texts, joined, put, text_of};
use crate::tips::are_of_the_tip;

// The steps of a job.
const STEPS_OF_JOBS: &str = "1000000";

// The most steps that one command of the debugger takes.
const MOST: u64 = 1_000_000;

// Runs whose number of steps has more digits are not asked for again.
const FEW_DIGITS: usize = 3;

/// A run that was asked for: the texts, the steps that it may have at most, and what it did.
#[derive(Clone, Copy)]
pub(crate) struct Ran<'a> {
    pub(crate) texts: &'a Texts,
    pub(crate) steps: &'a str,
    pub(crate) heard: &'a Heard,
}

/// Another way to ask for it.
#[derive(Clone, Copy)]
enum Way {
    Strips,
    Tip,
    Image,
    ImageInDebugger,
    Trace,
    Debugger,
    Job,
}

const WAYS: &[Way] = &[
    Way::Strips,
    Way::Tip,
    Way::Image,
    Way::ImageInDebugger,
    Way::Trace,
    Way::Debugger,
    Way::Job,
];

impl Way {
    // How it is told.
    fn words(self) -> &'static str {
        match self {
            Way::Strips => "otherwise with the blocks in strips\n",
            Way::Tip => "otherwise for the box that is the tip\n",
            Way::Image => "otherwise from the image\n",
            Way::ImageInDebugger => "otherwise in the debugger on the image\n",
            Way::Trace => "otherwise in the trace\n",
            Way::Debugger => "otherwise in the debugger\n",
            Way::Job => "otherwise as a job\n",
        }
    }

    // Whether a run comes to the same by it.
    fn holds(self, ran: &Ran<'_>) -> bool {
        match self {
            Way::Strips => is_printed_by_strips(ran.texts, ran.most(), &ran.heard.written),
            Way::Tip => ran.is_told_by_the_tip(),
            Way::Image => ran.has_many_steps() || ran.is_that_of_its_image(),
            Way::ImageInDebugger => ran.has_many_steps()
                || ran.is_debugged(&image_of(ran.texts), "made"),
            Way::Trace => ran.has_many_steps() || ran.is_that_of_its_trace(),
            Way::Debugger => ran.has_many_steps() || ran.is_debugged(&[], "t.dmi"),
            Way::Job => ran.has_many_steps()
                || ran.steps != STEPS_OF_JOBS
                || ran.is_that_of_its_job(),
        }
    }
}

/// What is asked by a command line, with this as the file `made` and this on standard input.
pub(crate) fn asked_with<'x>(
    texts: &'x Texts,
    line: &'x str,
    made: &'x [u8],
    input: &'x [u8],
) -> Asked<'x> {
    Asked {
        texts,
        line,
        made,
        input,
        is_typed: false,
    }
}

/// What a command does that is asked this.
pub(crate) fn heard_with<'x>(
    texts: &'x Texts,
    line: &'x str,
    made: &'x [u8],
    input: &'x [u8],
) -> Heard {
    let asked = asked_with(texts, line, made, input);
    heard_of(&asked)
}

/// The image that `vcm build` writes of the program; nothing where it writes none.
pub(crate) fn image_of(texts: &Texts) -> Vec<u8> {
    heard_with(texts, "vcm build t.dmi image", &[], &[]).written
}

/// The job of the part file and the program.
pub(crate) fn job_of(texts: &Texts) -> String {
    joined(texts.alloc, &[&texts.part, "%%\n", &texts.program])
}

// The line that stands so many lines before the end of a text, whose lines all end with a line feed.
fn line_from_end(text: &str, back: usize) -> &str {
    let count = text.split('\n').count();
    for (index, line) in text.split('\n').enumerate() {
        if index.saturating_add(back).saturating_add(1) == count {
            return line;
        }
    }
    ""
}

// What stands behind a word at the front of a line.
fn behind<'a>(line: &'a str, word: &str) -> &'a str {
    line.strip_prefix(word).unwrap_or("")
}

// The number of steps that a run printed at its end.
fn steps_in(output: &str) -> &str {
    behind(line_from_end(output, 1), "steps ")
}

// The line of its stop, or of the steps that were done where there is none.
fn stop_in(output: &str) -> &str {
    line_from_end(output, 3)
}

// Its last position, in millimetres, with blanks between the three.
fn position_in(output: &str) -> &str {
    behind(line_from_end(output, 2), "position ")
}

impl Ran<'_> {
    // What it printed.
    fn output(&self) -> &str {
        text_of(&self.heard.written)
    }

    // The steps that it may have at most.
    fn most(&self) -> u64 {
        self.steps.parse::<u64>().unwrap_or(0)
    }

    // Whether it has too many steps to be asked for again.
    fn has_many_steps(&self) -> bool {
        steps_in(self.output()).len() > FEW_DIGITS
    }

    // What a command does, beside a file.
    fn heard_beside(&self, front: &str, made: &[u8]) -> Heard {
        let line = joined(self.texts.alloc, &[front, " --steps ", self.steps]);
        heard_with(self.texts, &line, made, &[])
    }

    // Whether the box that is the tip meets what the tip does.
    fn is_told_by_the_tip(&self) -> bool {
        let points = self.heard_beside("vcm points t.dmi t.toml", &[]);
        let contacts = self.heard_beside(
            "vcm clearance t.dmi t.toml made",
            tip_file(self.texts).as_bytes(),
        );
        are_of_the_tip(
            text_of(&contacts.written),
            text_of(&points.written),
            self.output(),
        )
    }

    // Whether the run of the program's image prints the same, with the same status and nothing besides.
    fn is_that_of_its_image(&self) -> bool {
        let again = self.heard_beside("vcm run made t.toml", &image_of(self.texts));
        again.status == self.heard.status
            && again.told.is_empty()
            && again.written.as_slice() == self.heard.written.as_slice()
    }

    // Whether the last line of its trace tells its end.
    fn is_that_of_its_trace(&self) -> bool {
        let trace = self.heard_beside("vcm trace t.dmi t.toml", &[]);
        self.is_told_in(line_from_end(text_of(&trace.written), 1))
    }

    // Whether a line of a trace tells its end.
    fn is_told_in(&self, line: &str) -> bool {
        let output = self.output();
        let alloc = self.texts.alloc;
        let front = joined(alloc, &[steps_in(output), ","]);
        let mut back = joined(alloc, &[","]);
        for coordinate in position_in(output).split(' ') {
            put(&mut back, coordinate);
            put(&mut back, ",");
        }
        put(&mut back, stop_in(output));
        line.starts_with(front.as_str()) && line.ends_with(back.as_str())
    }

    // What the debugger's `run` has to answer first.
    fn reply(&self) -> String {
        let output = self.output();
        let stop = stop_in(output);
        let alloc = self.texts.alloc;
        if stop.starts_with("stop ") {
            joined(alloc, &["step ", steps_in(output), " ", stop, "\n"])
        } else {
            joined(alloc, &["count step ", steps_in(output), " next "])
        }
    }

    // Whether the debugger's `run` on a file tells its end. No run of no step is asked of it, and none of more than it takes at once.
    fn is_debugged(&self, made: &[u8], name: &str) -> bool {
        if self.most() == 0 || self.most() > MOST {
            return true;
        }
        let alloc = self.texts.alloc;
        let line = joined(alloc, &["vcm debug ", name, " t.toml"]);
        let commands = joined(alloc, &["run ", self.steps, "\n"]);
        let replies = heard_with(self.texts, &line, made, commands.as_bytes());
        text_of(&replies.written).starts_with(self.reply().as_str())
    }

    // Whether the job of the part file and the program prints and tells the same.
    fn is_that_of_its_job(&self) -> bool {
        let job = job_of(self.texts);
        let again = heard_with(self.texts, "vcm", &[], job.as_bytes());
        again.status == self.heard.status
            && again.told.as_str() == self.heard.told.as_str()
            && again.written.as_slice() == self.heard.written.as_slice()
    }
}

/// Adds a line for each way by which a run doesn't come to the same.
pub(crate) fn put_ways(ran: &Ran<'_>, found: &mut String) {
    for way in WAYS {
        if !way.holds(ran) {
            put(found, way.words());
        }
    }
}
