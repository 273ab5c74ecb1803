//! How vcm is used from a program of one's own: it reads a job from standard input, runs it, and writes the result on standard output. A refusal and the
//! lines without effect are told on standard error, and the exit status is that of `vcm` without words.
#![tactic(auto)]

use std::process::ExitCode;
use vcm_job::job;
use vcm_messages::{message_of, notice_line, status_of};

fn main(rt: HostRuntime) -> ExitCode {
    match job(rt.alloc(), &mut rt.stdin(), &mut rt.stdout()) {
        Ok(done) => {
            for notice in &done.notices {
                let _ = eprintln!(rt; "{}", notice_line(notice));
            }
            ExitCode::from(done.status)
        }
        Err(fault) => {
            let message = message_of(fault, "standard input");
            let _ = eprintln!(rt; "{message}");
            ExitCode::from(status_of(message))
        }
    }
}
