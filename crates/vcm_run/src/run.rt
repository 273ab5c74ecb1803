//! What a run shows, and a run of a loaded code.

ghost use Rattle.std.specs.Prelude.{◌≡◌, IfOk};
ghost use Rattle.vcm_run.specs.Images.{IsCodeRun};

use std::alloc::Global;
use std::marker::Model;
use std::mem::forget;
use vcm_lines::SourceFault;
use vcm_loader::Loaded;
use vcm_machine::{Machine, Ran};
use vcm_motion::Part;
use vcm_num::NoMemory;
use vcm_part::PartFault;
use vcm_program::Noticed;
use vcm_state::World;

/// Why a program isn't run.
#[derive(Clone, Copy, PartialEq, Eq)]
pub enum Refusal {
    /// The program's text is refused.
    Source(SourceFault),
    /// The part file is refused.
    Part(PartFault),
    /// A growth of memory was refused.
    NoMemory,
}

/// What a run shows. Contracts see it as a `Shown`.
#[derive(Drop)]
pub struct Summary {
    world: World,
    next: u32,
    ran: Ran,
    notices: Vec<Noticed>,
}

impl Model for Summary {
    ghost use Rattle.vcm_run.specs.Summaries.{Shown};

    ghost Value = { Shown };

    ghost view = { λ s. record { held = s.world; next = s.next; ran = s.ran; notices = s.notices.items } };
}

impl Summary {
    ghost use Rattle.std.specs.Prelude.{◌≡◌};

    /// The state of the machine, with the tables of its names.
    pub fn world(&self) -> &World
        ensures { result.now ≡ self.now.held }
    {
        &self.world
    }

    /// The number of the next statement: at a stop that of the statement which stopped.
    pub fn next(&self) -> u32
        ensures { result ≡ self.now.next }
    {
        self.next
    }

    /// How many steps were done, and how the run ended.
    pub fn ran(&self) -> Ran
        ensures { result ≡ self.now.ran }
    {
        self.ran
    }

    /// The lines of the program that have no effect.
    pub fn notices(&self) -> &[Noticed]
        ensures { result.now ≡ self.now.notices }
    {
        &self.notices
    }

    /// The lines of the program that have no effect, alone. The memory of the state isn't given back one block after the other: it is kept until the
    /// process ends.
    pub fn into_notices(self) -> Vec<Noticed>
        ensures { result.items ≡ self.notices }
    {
        let Summary { world, notices, .. } = self;
        forget(world);
        notices
    }
}

/// Runs a loaded code for at most n steps, beside a workpiece.
///
/// Errors: want of memory before the run.
pub(crate) fn run_loaded<P: Part>(
    alloc: Global,
    part: &P,
    loaded: &Loaded<'_>,
    n: u64,
    notices: Vec<Noticed>,
) -> Result<Summary, NoMemory>
    ensures run { IfOk result (IsCodeRun (P.part part.now) loaded.now n) }
    ensures notices { IfOk result (λ s. s.notices ≡ notices.items) }
{
    let mut machine = Machine::new(alloc, loaded, part)?;
    let ran = machine.run(alloc, n);
    let next = machine.next();
    let world = machine.into_world();
    Ok(Summary {
        world,
        next,
        ran,
        notices,
    })
}
