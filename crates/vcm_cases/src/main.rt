//! Worked examples: reads workpieces, programs and commands from standard input, with what vcm answers to each, and tells where it answers
//! something else. `docs/CASES.md` has the form of the text. The examples of `vcm explain` are tried, too.
#![tactic(auto)]

mod asking;
mod explained;
mod failing;
mod faults;
mod headings;
mod messages;
mod script;
mod shapes;
mod stage;
mod strips;
mod talks;
mod tally;
mod texts;
mod tips;
mod ways;

use crate::script::Script;
use std::process::ExitCode;
use std::rt::Files;

// What a line begins with that names a file which launches of the debug adapter open.
const FILE: &str = "=== file ";

// Reads one more line, and says whether the file that it names could be read, if it names one.
fn take<R: Files + AllocGlobal>(rt: &R, script: &mut Script, line: &str) -> bool {
    let Some(name) = line.strip_prefix(FILE) else {
        script.take(line);
        return true;
    };
    match std::fs::read(rt, name) {
        Ok(bytes) => {
            script.add_file(name, bytes);
            true
        }
        Err(_) => false,
    }
}

fn main(rt: HostRuntime) -> ExitCode {
    let mut script = Script::new(rt.alloc());
    for line in rt.lines(rt.alloc()) {
        let is_read = match line {
            Ok(line) => take(&rt, &mut script, line.as_str()),
            Err(_) => false,
        };
        if !is_read {
            return ExitCode::FAILURE;
        }
    }
    script.finish();
    let (wrong, right) = (script.tally().wrong(), script.tally().right());
    match print!(rt; "{wrong}{right} answers as they are wanted\n") {
        Ok(()) => ExitCode::SUCCESS,
        Err(_) => ExitCode::FAILURE,
    }
}
