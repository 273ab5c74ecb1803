//! The examples of explanations: each gives what it says.

use crate::shapes::{answer_of, first_line};
use crate::tally::Tally;
use crate::texts::{Texts, copied, joined, program_of, put_all};
use crate::ways::heard_with;
use std::alloc::Global;
use vcm_explain::{Entry, explanations};
use vcm_test_tools::{BOUNDS, ONE_BLOCK};

// What stands before the place and the kind of an example, and before what it gives.
const BEGINS: &str = "For example, ";

const GIVES: &str = "gives: ";

// The statements of `lines.dmi` of the examples.
const LINES: &str = "DECL/INTGR,I\nDO/I,1,3,1\nTEXT/OPER,'A'\nENDDO\n";

// The command line of a kind of examples; none of a command where there is no such kind.
fn line_for(kind: &str) -> &'static str {
    match kind {
        "from line 3 on" | "a program" => "vcm check made",
        "from line 3 on, beside part-a.toml of the examples" => "vcm run made t.toml",
        "a part file" => "vcm run t.dmi made",
        "a probe file" => "vcm clearance t.dmi t.toml made",
        "a description" => "vcm probe made",
        "a listing" => "vcm asm made image",
        "a model" => "vcm blocks made",
        "in a session on lines.dmi of the examples" => "vcm debug made t.toml",
        _ => "vcm no-such-kind",
    }
}

/// An example as far as it is read: of what kind it is, and the texts that its command is asked with.
#[derive(Drop)]
struct Example {
    kind: String,
    lines: String,
    texts: Texts,
}

impl Example {
    // None yet, beside the workpiece of the examples.
    fn new(alloc: Global) -> Example {
        let mut texts = Texts::new(alloc);
        texts.part = joined(alloc, &[BOUNDS, ONE_BLOCK]);
        texts.program = program_of(alloc, "");
        Example {
            kind: String::new(alloc),
            lines: String::new(alloc),
            texts,
        }
    }

    // The file `made` that its command is given.
    fn made(&self) -> String {
        let alloc = self.texts.alloc;
        if self.kind.starts_with("from line 3 on") {
            program_of(alloc, &self.lines)
        } else if self.kind.starts_with("in a session") {
            program_of(alloc, LINES)
        } else {
            copied(alloc, &self.lines)
        }
    }

    // What vcm answers to the lines of the example.
    fn answer(&self) -> String {
        let made = self.made();
        let line = line_for(&self.kind);
        let heard = heard_with(&self.texts, line, made.as_bytes(), self.lines.as_bytes());
        answer_of(self.texts.alloc, &heard)
    }

    // Begins an example of this kind.
    fn begin(&mut self, kind: &str) {
        self.kind = copied(self.texts.alloc, kind.strip_suffix(":").unwrap_or(kind));
        self.lines = String::new(self.texts.alloc);
    }

    // Judges the example, of which this is wanted.
    fn judge(&self, title: &str, wanted: &str, tally: &mut Tally) {
        let found = self.answer();
        tally.judge(title, &self.lines, wanted, first_line(&found));
    }

    // Reads one more line of an explanation, and judges the example that ends with it.
    fn take(&mut self, title: &str, line: &str, tally: &mut Tally) {
        if let Some(kind) = line.strip_prefix(BEGINS) {
            self.begin(kind);
        }
        if let Some(line) = line.strip_prefix("  ") {
            put_all(&mut self.lines, &[line, "\n"]);
        }
        if let Some(wanted) = line.strip_prefix(GIVES) {
            self.judge(title, wanted, tally);
        }
    }
}

// Judges the examples of an explanation.
fn judge_entry(alloc: Global, entry: &Entry, tally: &mut Tally) {
    let mut example = Example::new(alloc);
    for line in entry.text().lines() {
        example.take(entry.title(), line, tally);
    }
}

// Judges those of some explanations.
fn judge_entries(alloc: Global, entries: &[Entry], tally: &mut Tally) {
    for entry in entries {
        judge_entry(alloc, entry, tally);
    }
}

/// Judges the examples of all explanations.
pub(crate) fn judge_examples(alloc: Global, tally: &mut Tally) {
    for entries in explanations() {
        judge_entries(alloc, entries, tally);
    }
}
