//! What the steps of a run measure, for its sheet.

ghost use Rattle.std.specs.Prelude.{◌≡◌, ◌++◌, [], refl, IfOk, OnOk};
ghost use Rattle.vcm_trace.specs.Lines.{told_of};
ghost use Rattle.vcm_trace.specs.Framed.{no_frames, frames_behind, framed};
ghost use Rattle.vcm_trace.specs.Rows.{framed_steps};
ghost use Rattle.vcm_views.specs.Readings.{reading_with, told_reading, step_reading, read_with, readings_behind, first_step};

use std::alloc::Global;
use vcm_fields::BorrowedStatement;
use vcm_frame::Frame;
use vcm_loader::Loaded;
use vcm_machine::{End, Machine};
use vcm_marks::PlacedMark;
use vcm_motion::Part;
use vcm_num::NoMemory;
use vcm_sheet::Reading;
use vcm_spec::Feature;
use vcm_state::World;
use vcm_steps::{Follows, follow_run};
use vcm_trace::{
    Frames, Told, feature_at, frame_of, keep_frame, no_frames, told_deviation, told_of,
};

// Appends what a step measured in the current frame of a feature that was declared so, in such a frame, if its point is there.
fn push_reading(
    readings: &mut Vec<Reading>,
    step: u64,
    declared: Option<Frame>,
    current: Frame,
    nominal: Option<Feature>,
    actual: Option<Feature>,
) -> Result<(), NoMemory>
    ensures { OnOk result (readings.new.items ≡ readings.old.items ++ reading_with step declared current nominal actual) }
{
    match actual {
        Some(actual) => {
            readings.push(Reading {
                step,
                at: actual.at,
                deviation: told_deviation(declared, current, nominal, actual),
            })?;
            Ok(())
        }
        None => Ok(()),
    }
}

// Appends what a step measured that tells this, in the state after it, where features were declared in these frames.
fn push_told(
    readings: &mut Vec<Reading>,
    frames: &Frames,
    world: &World,
    told: Told,
    step: u64,
) -> Result<(), NoMemory>
    ensures { OnOk result (readings.new.items ≡ readings.old.items ++ told_reading frames.now step world.now.state told) }
{
    match told {
        Told::Measured(index) => {
            let nominal = feature_at(world.nominal(), index);
            let actual = feature_at(world.actual(), index);
            let declared = frame_of(frames, index);
            push_reading(readings, step, declared, world.frame(), nominal, actual)
        }
        _ => Ok(()),
    }
}

// Appends what a step measured.
fn push_step(
    readings: &mut Vec<Reading>,
    frames: &Frames,
    statement: &BorrowedStatement<'_>,
    world: &World,
    step: u64,
) -> Result<(), NoMemory>
    ensures { OnOk result (readings.new.items ≡ readings.old.items ++ step_reading frames.now step statement.now.op world.now.state world.now.state.stop) }
{
    match world.stop() {
        Some(_) => Ok(()),
        None => push_told(readings, frames, world, told_of(&statement.op), step),
    }
}

// The same, where the step isn't before this one.
fn read_step(
    readings: &mut Vec<Reading>,
    from: u64,
    frames: &Frames,
    statement: &BorrowedStatement<'_>,
    world: &World,
    step: u64,
) -> Result<(), NoMemory>
    ensures { OnOk result (readings.new.items ≡ read_with from readings.old.items frames.now step statement.now.op world.now.state world.now.state.stop) }
{
    if from <= step {
        push_step(readings, frames, statement, world, step)
    } else {
        Ok(())
    }
}

// What was measured so far, and the frames in which features were declared.
#[derive(Drop)]
struct Progress {
    readings: Vec<Reading>,
    frames: Frames,
}

// Reads what the steps of a run measure, from one of them on.
#[derive(Clone, Copy)]
struct Reader {
    from: u64,
}

impl Follows<Progress> for Reader {
    type Before = ();

    type Fault = NoMemory;

    ghost Fits = { λ s part c. Unit {0} };

    ghost Looked = { λ s b w statement. Unit {0} };

    ghost Has = { λ s tables from to ps. (to.frames ≡ frames_behind from.frames ps)
        × (to.readings.items ≡ readings_behind s.from from.readings.items (framed from.frames ps)) };

    ghost Broke = { λ s tables from to ps p f. Unit {0} };

    ghost nothing = { λ s tables x. (refl, refl) };

    fn look(&self, _world: &World, _statement: &BorrowedStatement<'_>) {}

    fn see(
        &self,
        _before: (),
        count: u64,
        _number: u32,
        statement: &BorrowedStatement<'_>,
        world: &World,
        _next: u32,
        to: &mut Progress,
    ) -> Result<(), NoMemory> {
        read_step(
            &mut to.readings,
            self.from,
            &to.frames,
            statement,
            world,
            count,
        )?;
        keep_frame(&mut to.frames, statement, world);
        Ok(())
    }
}

/// The step of the first of some marks, or 0.
pub(crate) fn first_step(marks: &[PlacedMark]) -> u64
    ensures { result ≡ first_step marks.now }
{
    match marks.first() {
        Some(placed) => placed.step,
        None => 0,
    }
}

// What is known before the first step of a machine.
fn opening<P: Part>(alloc: Global, machine: &Machine<'_, P>) -> Result<Progress, NoMemory>
    ensures readings { IfOk result (λ p. p.readings.items ≡ []) }
    ensures frames { IfOk result (λ p. p.frames ≡ no_frames machine.now.code.tables) }
{
    let frames = no_frames(alloc, machine.world().tables().features().len())?;
    let readings = Vec::new(alloc);
    Ok(Progress { readings, frames })
}

/// What the steps measure of a run of a loaded code for at most so many steps, from one of them on.
///
/// Errors: want of memory.
pub(crate) fn readings_of<P: Part>(
    alloc: Global,
    loaded: &Loaded<'_>,
    part: &P,
    steps: u64,
    from: u64,
) -> Result<Vec<Reading>, NoMemory>
    ensures { IfOk result (λ v. v.items ≡ readings_behind from [] (framed_steps (P.part part.now) loaded.now steps)) }
{
    let mut machine = Machine::new(alloc, loaded, part)?;
    let mut progress = opening(alloc, &machine)?;
    let reader = Reader { from };
    let ran = follow_run(alloc, loaded, &mut machine, steps, &reader, &mut progress)?;
    match ran.end {
        End::NoMemory => Err(NoMemory),
        End::Count => Ok(progress.readings),
        End::Stopped => Ok(progress.readings),
    }
}
