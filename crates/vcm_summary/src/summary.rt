//! Runs that are summed up.

ghost use Rattle.std.specs.Prelude.{◌≡◌, IfOk, IfErr};
ghost use Rattle.vcm_trace.specs.Framed.{no_frames};
ghost use Rattle.vcm_summary.specs.Findings.{nothing_found};
ghost use Rattle.vcm_summary.specs.Summary.{IsSummed, IsNotSummed};

use crate::findings::{Finder, Findings, NOTHING_FOUND, Progress};
use std::alloc::Global;
use vcm_loader::Loaded;
use vcm_machine::{End, Machine};
use vcm_motion::Part;
use vcm_num::NoMemory;
use vcm_spec::StopPlace;
use vcm_steps::{Unfinished, follow_run};
use vcm_trace::no_frames;

/// What a run came to: its stop, if it came to one, how many steps were taken, and what was found.
#[derive(Clone, Copy)]
pub struct Summary {
    pub stop: Option<StopPlace>,
    pub done: u64,
    pub findings: Findings,
}

// What is known before the first step of a machine.
fn opening<P: Part>(alloc: Global, machine: &Machine<'_, P>) -> Result<Progress, NoMemory>
    ensures found { IfOk result (λ p. p.found ≡ nothing_found) }
    ensures frames { IfOk result (λ p. p.frames ≡ no_frames machine.now.code.tables) }
{
    let frames = no_frames(alloc, machine.world().tables().features().len())?;
    Ok(Progress {
        found: NOTHING_FOUND,
        frames,
    })
}

/// Runs a loaded code for at most so many steps beside a workpiece, and sums the run up. Points are looked for from a source line on: from where its first statement
/// is taken, or from the start where it is 0.
///
/// # Errors
///
/// See `Unfinished`; nothing is written here.
pub fn summarize<P: Part>(
    alloc: Global,
    part: &P,
    loaded: &Loaded<'_>,
    steps: u64,
    from: u32,
) -> Result<Summary, Unfinished>
    ensures summed { IfOk result (λ x. IsSummed (P.part part.now) loaded.now steps from x) }
    ensures fault { IfErr result (λ f. IsNotSummed (P.part part.now) loaded.now steps f) }
{
    let mut machine = match Machine::new(alloc, loaded, part) {
        Ok(machine) => machine,
        Err(_) => return Err(Unfinished::NoMemory),
    };
    let mut progress = match opening(alloc, &machine) {
        Ok(progress) => progress,
        Err(_) => return Err(Unfinished::NoMemory),
    };
    let ran = match follow_run(
        alloc,
        loaded,
        &mut machine,
        steps,
        &Finder { from },
        &mut progress,
    ) {
        Ok(ran) => ran,
        Err(fault) => return Err(fault),
    };
    let done = ran.done;
    let findings = progress.found;
    match ran.end {
        End::NoMemory => Err(Unfinished::Memory { done }),
        End::Count => Ok(Summary {
            stop: machine.world().stop(),
            done,
            findings,
        }),
        End::Stopped => Ok(Summary {
            stop: machine.world().stop(),
            done,
            findings,
        }),
    }
}
