//! A virtual coordinate measuring machine: tries a measuring program offline. Without words it reads a job from standard input: the part
//! text, a line that is exactly `%%`, and the program text; it writes the result of the run on standard output.
#![tactic(auto)]

use std::io::IsTerminal;
use std::process::ExitCode;
use vcm_command::{Terminals, status};

fn main(rt: HostRuntime) -> ExitCode {
    let terminals = Terminals {
        input: rt.stdin().is_terminal(),
        errors: rt.stderr().is_terminal(),
    };
    ExitCode::from(status(&rt, terminals))
}
