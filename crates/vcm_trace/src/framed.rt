//! The frames in which features were declared.

ghost use Rattle.std.specs.Prelude.{◌≡◌, replicate, Some, None, IfOk};
ghost use Rattle.vcm_spec.specs.Effect.{at_index};
ghost use Rattle.vcm_trace.specs.Lines.{told_of};
ghost use Rattle.vcm_trace.specs.Framed.{put_at, frames_told, frames_after};

use crate::told::{Told, told_of};
use std::alloc::Global;
use vcm_fields::BorrowedStatement;
use vcm_frame::Frame;
use vcm_num::{Items, NoMemory};
use vcm_state::World;

/// The frames in which features were declared, by their indexes: of each that of its last FEAT.
pub type Frames = Items<Option<Frame>>;

/// Before the first step, for so many features.
///
/// Errors: want of memory.
pub fn no_frames(alloc: Global, count: usize) -> Result<Frames, NoMemory>
    ensures { IfOk result (λ frames. frames ≡ replicate count None) }
{
    let places = vec![in alloc; None; count]?;
    Ok(Items::from_vec(places))
}

// Puts the frame of a feature at its place.
fn put_frame(frames: &mut Frames, feature: u16, frame: Frame)
    ensures { frames.new ≡ put_at frames.old feature (Some frame) }
{
    if usize::from(feature) < frames.len() {
        frames.set(usize::from(feature), Some(frame));
    }
}

// Keeps the current frame, where a statement that tells this declares a feature.
fn keep_told(frames: &mut Frames, world: &World, told: Told)
    ensures { frames.new ≡ frames_told frames.old world.now.state told }
{
    match told {
        Told::Declared(feature) => put_frame(frames, feature, world.frame()),
        _ => {}
    }
}

/// Keeps in which frame a step declared a feature, if it did, in the state after it.
pub fn keep_frame(frames: &mut Frames, statement: &BorrowedStatement<'_>, world: &World)
    ensures { frames.new ≡ frames_after frames.old world.now.state world.now.state.stop (told_of statement.now.op) }
{
    match world.stop() {
        Some(_) => {}
        None => keep_told(frames, world, told_of(&statement.op)),
    }
}

/// The frame in which the feature of this index was declared, if it was.
pub fn frame_of(frames: &Frames, feature: u16) -> Option<Frame>
    ensures { result ≡ at_index frames.now feature }
{
    match frames.get(usize::from(feature)) {
        Some(frame) => *frame,
        None => None,
    }
}
