//! The points that are measured while a run is followed.

ghost use Rattle.std.specs.Prelude.{◌≡◌, refl};
ghost use Rattle.vcm_trace.specs.Framed.{frames_behind, framed};
ghost use Rattle.vcm_summary.specs.Findings.{size_of, greater, with_off, with_point, told_with, found_with, begun_with, found_after, found_behind};

use vcm_fields::BorrowedStatement;
use vcm_frame::Frame;
use vcm_spec::Feature;
use vcm_state::World;
use vcm_steps::{Follows, Unfinished};
use vcm_trace::{Frames, Told, feature_at, frame_of, keep_frame, told_deviation, told_of};

/// A measured point that lies off its nominal place: how far along the direction that it was measured in, either way, in micrometres; its feature by its index; how
/// many steps were taken with its touch, and the source line of that.
#[derive(Clone, Copy)]
pub struct Deviation {
    pub size: u64,
    pub feature: u16,
    pub step: u64,
    pub line: u32,
}

/// What was found from a source line on: how many steps were taken with the first statement of that line, if it was come to; how many points were measured then, and
/// the first of those that lie farthest off, if one has a nominal place.
#[derive(Clone, Copy)]
pub struct Findings {
    pub begun: Option<u64>,
    pub points: u64,
    pub greatest: Option<Deviation>,
}

// Before the first step.
pub(crate) const NOTHING_FOUND: Findings = Findings {
    begun: None,
    points: 0,
    greatest: None,
};

// How long a length is, either way, if there is one.
fn size_of(length: Option<i64>) -> Option<u64>
    ensures { result ≡ size_of length }
{
    match length {
        Some(length) => Some(length.unsigned_abs()),
        None => None,
    }
}

// The greater of two, the first of equals.
fn greater(before: Option<Deviation>, now: Deviation) -> Option<Deviation>
    ensures { result ≡ greater before now }
{
    match before {
        Some(first) if now.size <= first.size => before,
        _ => Some(now),
    }
}

// The greatest with one point more, which lies so far off.
fn with_off(
    before: Option<Deviation>,
    off: Option<u64>,
    feature: u16,
    step: u64,
    line: u32,
) -> Option<Deviation>
    ensures { result ≡ with_off before off feature step line }
{
    match off {
        Some(size) => greater(
            before,
            Deviation {
                size,
                feature,
                step,
                line,
            },
        ),
        None => before,
    }
}

// What was found with one point more that was measured in the current frame, of a feature that was declared in such a one.
fn with_point(
    found: Findings,
    declared: Option<Frame>,
    current: Frame,
    nominal: Option<Feature>,
    actual: Option<Feature>,
    feature: u16,
    step: u64,
    line: u32,
) -> Findings
    ensures { result ≡ with_point found declared current nominal actual feature step line }
{
    match actual {
        Some(actual) => {
            let off = size_of(told_deviation(declared, current, nominal, actual));
            Findings {
                begun: found.begun,
                points: found.points.saturating_add(1),
                greatest: with_off(found.greatest, off, feature, step, line),
            }
        }
        None => found,
    }
}

// What was found with a statement that tells this, in the state after it, where features were declared in these frames.
fn told_with(
    found: Findings,
    frames: &Frames,
    world: &World,
    told: Told,
    step: u64,
    line: u32,
) -> Findings
    ensures { result ≡ told_with found frames.now world.now.state told step line }
{
    match told {
        Told::Measured(index) => {
            let nominal = feature_at(world.nominal(), index);
            let actual = feature_at(world.actual(), index);
            let declared = frame_of(frames, index);
            with_point(
                found,
                declared,
                world.frame(),
                nominal,
                actual,
                index,
                step,
                line,
            )
        }
        _ => found,
    }
}

// What was found with a step that came to this stop, if it came to one.
fn found_with(
    found: Findings,
    frames: &Frames,
    statement: &BorrowedStatement<'_>,
    world: &World,
    step: u64,
) -> Findings
    ensures { result ≡ found_with found frames.now statement.now.op statement.now.line world.now.state world.now.state.stop step }
{
    match world.stop() {
        Some(_) => found,
        None => told_with(
            found,
            frames,
            world,
            told_of(&statement.op),
            step,
            statement.line,
        ),
    }
}

// The same after a statement of this line, where what is found begins at another one, or at any where that is 0.
fn begun_with(found: Findings, from: u32, line: u32, step: u64) -> Findings
    ensures { result ≡ begun_with found from line step }
{
    match found.begun {
        Some(_) => found,
        None if from == 0 || from == line => Findings {
            begun: Some(step),
            points: found.points,
            greatest: found.greatest,
        },
        None => found,
    }
}

// What was found with one step more, in the state after it, where it begins at this source line.
fn found_one(
    found: Findings,
    from: u32,
    frames: &Frames,
    statement: &BorrowedStatement<'_>,
    world: &World,
    step: u64,
) -> Findings
    ensures { result ≡ found_after (begun_with found from statement.now.line step) frames.now statement.now.op statement.now.line world.now.state world.now.state.stop step }
{
    let begun = begun_with(found, from, statement.line, step);
    match begun.begun {
        Some(_) => found_with(begun, frames, statement, world, step),
        None => begun,
    }
}

/// What was found so far, and the frames in which features were declared.
#[derive(Drop)]
pub(crate) struct Progress {
    pub(crate) found: Findings,
    pub(crate) frames: Frames,
}

/// Finds the measured points of a run from a source line on, or all where that is 0.
#[derive(Clone, Copy)]
pub(crate) struct Finder {
    pub(crate) from: u32,
}

impl Follows<Progress> for Finder {
    type Before = ();

    type Fault = Unfinished;

    ghost Fits = { λ s part c. Unit {0} };

    ghost Looked = { λ s b w statement. Unit {0} };

    ghost Has = { λ s tables from to ps. (to.frames ≡ frames_behind from.frames ps) × (to.found ≡ found_behind s.from from.found (framed from.frames ps)) };

    ghost Broke = { λ s tables from to ps p f. ⊥ };

    ghost nothing = { λ s tables x. (refl, refl) };

    fn look(&self, _world: &World, _statement: &BorrowedStatement<'_>) {}

    fn see(
        &self,
        _before: (),
        count: u64,
        _number: u32,
        statement: &BorrowedStatement<'_>,
        world: &World,
        _next: u32,
        to: &mut Progress,
    ) -> Result<(), Unfinished> {
        to.found = found_one(to.found, self.from, &to.frames, statement, world, count);
        keep_frame(&mut to.frames, statement, world);
        Ok(())
    }
}
