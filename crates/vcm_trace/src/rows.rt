//! Runs that are told row by row.

ghost use Rattle.std.specs.Prelude.{◌≡◌, slice_get, refl, IfOk, IfErr};
ghost use Rattle.vcm_num.specs.Written.{Wrote};
ghost use Rattle.vcm_num.proofs.KnownWrites.{appends_nothing};
ghost use Rattle.vcm_spec.specs.World.{World as State};
ghost use Rattle.vcm_machine.specs.Running.{started, HasRun};
ghost use Rattle.vcm_steps.specs.Passages.{passage, passages, IsBroken};
ghost use Rattle.vcm_trace.specs.Framed.{framed_step, frames_behind, no_frames};
ghost use Rattle.vcm_trace.specs.Rows.{RunRows, open_row, IsWritten, IsNotWritten};
ghost use Rattle.vcm_trace.specs.inner.Going.{HasRows, HasBroken};

use crate::framed::{Frames, keep_frame, no_frames};
use std::alloc::Global;
use std::io::Write;
use vcm_fields::BorrowedStatement;
use vcm_loader::Loaded;
use vcm_machine::{End, Machine, Ran};
use vcm_motion::Part;
use vcm_num::WriteFault;
use vcm_spec::StopPlace;
use vcm_state::World;
use vcm_steps::{Follows, Unfinished, follow_run};

/// What tells a run row by row.
pub trait WritesRows<W: Write> {
    /// What it tells.
    ghost Rows: { Self → RunRows };

    /// Writes what stands before the steps.
    fn write_before(&self, writer: &mut W) -> Result<(), WriteFault>
        ensures { Wrote (W.contents writer.old) (W.contents writer.new) (Rows self.now).before result };

    /// Writes the row of a step: features were declared in these frames before it, with it so many were taken, the statement has this number, and the state and
    /// the number of the next statement are those after it.
    fn write_row(
        &self,
        frames: &Frames,
        count: u64,
        number: u32,
        statement: &BorrowedStatement<'_>,
        world: &World,
        next: u32,
        writer: &mut W,
    ) -> Result<(), WriteFault>
        ensures { (w : State) → Wrote (W.contents writer.old) (W.contents writer.new)
            ((Rows self.now).row world.now.tables (framed_step frames.now (passage count number statement.now w world.now.state next))) result };

    /// Writes what stands after so many steps of a run that has not stopped, before the statement with this number and source line.
    fn write_open(
        &self,
        count: u64,
        next: u32,
        line: u32,
        world: &World,
        writer: &mut W,
    ) -> Result<(), WriteFault>
        ensures { Wrote (W.contents writer.old) (W.contents writer.new) ((Rows self.now).after count next line world.now.state) result };
}

/// Where rows are written, and the frames in which features were declared so far.
#[derive(Drop)]
struct Progress<'a, W: Write> {
    writer: &'a mut W,
    frames: &'a mut Frames,
}

/// Follows a run, and writes the row of each step.
#[derive(Clone, Copy)]
struct RowWriter<'a, F> {
    by: &'a F,
}

impl<'a, W: Write, F: WritesRows<W>> Follows<Progress<'a, W>> for RowWriter<'_, F> {
    type Before = ();

    type Fault = Unfinished;

    ghost Fits = { λ s part c. Unit {0} };

    ghost Looked = { λ s b w statement. Unit {0} };

    ghost Has = { λ s tables from to ps. (to.writer.ghost_name ≡ from.writer.ghost_name) × (to.frames.ghost_name ≡ from.frames.ghost_name)
        × (to.frames.now ≡ frames_behind from.frames.now ps)
        × HasRows ((F.Rows s.by.now).row tables) from.frames.now (W.contents from.writer.now) (W.contents to.writer.now) ps };

    ghost Broke = { λ s tables from to ps p f. (to.writer.ghost_name ≡ from.writer.ghost_name) × (to.frames.ghost_name ≡ from.frames.ghost_name)
        × HasBroken ((F.Rows s.by.now).row tables) from.frames.now (W.contents from.writer.now) (W.contents to.writer.now) ps p f };

    ghost nothing = { λ s tables x. (refl, refl, refl, appends_nothing (W.contents x.writer.now)) };

    fn look(&self, _world: &World, _statement: &BorrowedStatement<'_>) {}

    fn see(
        &self,
        _before: (),
        count: u64,
        number: u32,
        statement: &BorrowedStatement<'_>,
        world: &World,
        next: u32,
        to: &mut Progress<'a, W>,
    ) -> Result<(), Unfinished> {
        match self.by.write_row(to.frames, count, number, statement, world, next, to.writer) {
            Ok(()) => {
                keep_frame(to.frames, statement, world);
                Ok(())
            }
            Err(_) => Err(Unfinished::Write { done: count }),
        }
    }
}

// Writes the row of each step of a machine that stands at the start, where no feature was declared before.
fn follow_rows<P: Part, W: Write, F: WritesRows<W>>(
    alloc: Global,
    loaded: &Loaded<'_>,
    machine: &mut Machine<'_, P>,
    steps: u64,
    by: &F,
    frames: &mut Frames,
    writer: &mut W,
) -> Result<Ran, Unfinished>
    requires { machine.old ≡ started machine.old.part loaded.now }
    ensures run { IfOk result (λ ran. HasRun steps machine.old machine.new ran) }
    ensures has { IfOk result (λ ran. HasRows ((F.Rows by.now).row loaded.now.tables) frames.old (W.contents writer.old) (W.contents writer.new)
        (passages machine.old.part loaded.now ran.done)) }
    ensures err { IfErr result (λ f. IsBroken steps machine.old.part loaded.now
        (λ ps p. HasBroken ((F.Rows by.now).row loaded.now.tables) frames.old (W.contents writer.old) (W.contents writer.new) ps p f)) }
{
    let mut progress = Progress { writer, frames };
    match follow_run(
        alloc,
        loaded,
        machine,
        steps,
        &RowWriter { by },
        &mut progress,
    ) {
        Ok(ran) => Ok(ran),
        Err(fault) => Err(fault),
    }
}

// Writes what stands after so many steps of a machine that has not stopped.
fn write_rest<P: Part, W: Write, F: WritesRows<W>>(
    loaded: &Loaded<'_>,
    machine: &Machine<'_, P>,
    done: u64,
    by: &F,
    writer: &mut W,
) -> Result<(), WriteFault>
    requires { machine.now.code ≡ loaded.now }
    ensures { Wrote (W.contents writer.old) (W.contents writer.new)
        (open_row (F.Rows by.now) done machine.now.state (slice_get loaded.now.statements machine.now.state.next)) result }
{
    let next = machine.next();
    let line = loaded.line(next as usize);
    match by.write_open(done, next, line, machine.world(), writer) {
        Ok(()) => Ok(()),
        Err(fault) => Err(fault),
    }
}

// Tells the run of a machine that stands at the start, where no feature was declared before.
fn write_from_start<P: Part, W: Write, F: WritesRows<W>>(
    alloc: Global,
    loaded: &Loaded<'_>,
    machine: &mut Machine<'_, P>,
    steps: u64,
    by: &F,
    frames: &mut Frames,
    writer: &mut W,
) -> Result<Option<StopPlace>, Unfinished>
    requires start { machine.old ≡ started machine.old.part loaded.now }
    requires frames { frames.old ≡ no_frames loaded.now.tables }
    ensures written { IfOk result (λ stop. IsWritten (F.Rows by.now) machine.old.part loaded.now steps stop (W.contents writer.old) (W.contents writer.new)) }
    ensures fault { IfErr result (λ f. IsNotWritten (F.Rows by.now) machine.old.part loaded.now steps f (W.contents writer.old) (W.contents writer.new)) }
{
    let Ok(()) = by.write_before(writer) else {
        return Err(Unfinished::Write { done: 0 });
    };
    match follow_rows(alloc, loaded, machine, steps, by, frames, writer) {
        Ok(ran) => match ran.end {
            End::Count => match write_rest(loaded, machine, ran.done, by, writer) {
                Ok(()) => Ok(None),
                Err(_) => Err(Unfinished::Write { done: ran.done }),
            },
            End::Stopped => Ok(machine.world().stop()),
            End::NoMemory => Err(Unfinished::Memory { done: ran.done }),
        },
        Err(fault) => Err(fault),
    }
}

/// Runs a loaded code for at most so many steps beside a workpiece, and tells it as the steps are taken: what stands before them, the row of each, that of
/// one that stopped included, and, where it has not stopped, what stands after them. It answers the stop, if it came to one.
///
/// Errors: see `Unfinished`. Where memory is refused to a step, what stands there of the steps before it was written; after a failed write the writer has taken
/// all before the row of the last step, and a front of the rest that is not all.
pub fn write_rows<P: Part, W: Write, F: WritesRows<W>>(
    alloc: Global,
    loaded: &Loaded<'_>,
    part: &P,
    steps: u64,
    by: &F,
    writer: &mut W,
) -> Result<Option<StopPlace>, Unfinished>
    ensures written { IfOk result (λ stop. IsWritten (F.Rows by.now) (P.part part.now) loaded.now steps stop (W.contents writer.old) (W.contents writer.new)) }
    ensures fault { IfErr result (λ f. IsNotWritten (F.Rows by.now) (P.part part.now) loaded.now steps f (W.contents writer.old) (W.contents writer.new)) }
{
    let mut machine = match Machine::new(alloc, loaded, part) {
        Ok(machine) => machine,
        Err(_) => return Err(Unfinished::NoMemory),
    };
    let count = machine.world().tables().features().len();
    let mut frames = match no_frames(alloc, count) {
        Ok(frames) => frames,
        Err(_) => return Err(Unfinished::NoMemory),
    };
    write_from_start(alloc, loaded, &mut machine, steps, by, &mut frames, writer)
}
