//! What is known behind the steps of a run.

ghost use Rattle.std.specs.Prelude.{◌≡◌, ◌+◌, ◌++◌, [], nat_eq, length, replicate, Some, None, IfOk, OnOk};
ghost use Rattle.vcm_num.specs.declared.point.Point.{Point as Place};
ghost use Rattle.vcm_spec.specs.Effect.{at_index};
ghost use Rattle.vcm_trace.specs.Framed.{put_at};
ghost use Rattle.vcm_trace.specs.Lines.{told_of};
ghost use Rattle.vcm_meant.specs.Noted.{nothing_noted, declared_with, measured_remarks, measured_by, told_with, loops_with, done_with, noted_after};
ghost use Rattle.vcm_meant.specs.inner.Kept.{noted_of};

use crate::measuring::{add, again_if, far_from, turned_from};
use crate::remark::Remark;
use crate::seen::{Seen, see};
use std::alloc::Global;
use vcm_code::Op;
use vcm_fields::{BorrowedOp, BorrowedStatement};
use vcm_num::{Items, NoMemory, Point};
use vcm_state::World;
use vcm_trace::{Frames, Told, comparable, feature_at, frame_of, told_of};

/// The last FEAT of a feature: its source line, and whether the feature was measured since.
#[derive(Clone, Copy)]
pub struct Feat {
    pub line: u32,
    pub is_measured: bool,
}

/// What is known: the last FEAT of each feature, the FEATs and the DOs that were carried out, and what is remarked of measurements.
#[derive(Drop)]
pub(crate) struct Noted {
    pub(crate) feats: Items<Option<Feat>>,
    pub(crate) declared: Vec<Seen>,
    pub(crate) loops: Vec<Seen>,
    pub(crate) remarks: Vec<Remark>,
}

/// Before the first step, for so many features.
///
/// Errors: want of memory.
pub(crate) fn nothing_noted(alloc: Global, count: usize) -> Result<Noted, NoMemory>
    ensures { IfOk result (λ n. noted_of n ≡ record { feats = replicate count None; declared = []; loops = []; remarks = [] }) }
{
    let places = vec![in alloc; None; count]?;
    Ok(Noted {
        feats: Items::from_vec(places),
        declared: Vec::new(alloc),
        loops: Vec::new(alloc),
        remarks: Vec::new(alloc),
    })
}

// The last FEAT of the feature of this index, if it had one.
fn feat_of(feats: &Items<Option<Feat>>, feature: u16) -> Option<Feat>
    ensures { result ≡ at_index feats.now feature }
{
    match feats.get(usize::from(feature)) {
        Some(feat) => *feat,
        None => None,
    }
}

// Puts the last FEAT of a feature at its place.
fn put_feat(feats: &mut Items<Option<Feat>>, feature: u16, feat: Feat)
    ensures { feats.new ≡ put_at feats.old feature (Some feat) }
{
    if usize::from(feature) < feats.len() {
        feats.set(usize::from(feature), Some(feat));
    }
}

// With a FEAT.
fn declare(noted: &mut Noted, line: u32, feature: u16) -> Result<(), NoMemory>
    ensures { OnOk result (noted_of noted.new ≡ declared_with (noted_of noted.old) line feature) }
{
    see(&mut noted.declared, line, feature, false)?;
    let feat = Feat {
        line,
        is_measured: false,
    };
    put_feat(&mut noted.feats, feature, feat);
    Ok(())
}

// What is remarked of a measurement whose feature a FEAT declared, in the state behind it.
fn remark_measured(
    remarks: &mut Vec<Remark>,
    frames: &Frames,
    line: u32,
    feature: u16,
    world: &World,
    aim: Option<Point>,
    feat: Feat,
) -> Result<(), NoMemory>
    ensures { OnOk result (remarks.new.items ≡ measured_remarks frames.now line feature world.now.state aim feat remarks.old.items) }
{
    let nominal = feature_at(world.nominal(), feature);
    let nominal = comparable(frame_of(frames, feature), world.frame(), nominal);
    let actual = feature_at(world.actual(), feature);
    let approach = world.settings().approach();
    add(
        remarks,
        far_from(line, feature, feat.line, approach, nominal, aim),
    )?;
    add(
        remarks,
        turned_from(line, feature, feat.line, nominal, actual),
    )?;
    add(remarks, again_if(line, feat.line, feat.is_measured))
}

// With a measurement whose feature a FEAT declared.
fn measure_by(
    noted: &mut Noted,
    frames: &Frames,
    line: u32,
    feature: u16,
    world: &World,
    aim: Option<Point>,
    feat: Feat,
) -> Result<(), NoMemory>
    ensures { OnOk result (noted_of noted.new ≡ measured_by (noted_of noted.old) frames.now line feature world.now.state aim (Some feat)) }
{
    remark_measured(&mut noted.remarks, frames, line, feature, world, aim, feat)?;
    see(&mut noted.declared, feat.line, feature, true)?;
    let feat = Feat {
        line: feat.line,
        is_measured: true,
    };
    put_feat(&mut noted.feats, feature, feat);
    Ok(())
}

// With a statement that tells this.
fn tell(
    noted: &mut Noted,
    frames: &Frames,
    line: u32,
    world: &World,
    aim: Option<Point>,
    told: Told,
) -> Result<(), NoMemory>
    ensures { OnOk result (noted_of noted.new ≡ told_with (noted_of noted.old) frames.now line world.now.state aim told) }
{
    match told {
        Told::Declared(feature) => declare(noted, line, feature),
        Told::Measured(feature) => match feat_of(&noted.feats, feature) {
            Some(feat) => measure_by(noted, frames, line, feature, world, aim, feat),
            None => Ok(()),
        },
        _ => Ok(()),
    }
}

// With a DO, by whether the next statement is that behind it.
fn loop_by(
    loops: &mut Vec<Seen>,
    op: &BorrowedOp<'_>,
    line: u32,
    straight: bool,
) -> Result<(), NoMemory>
    ensures { OnOk result (loops.new.items ≡ loops_with loops.old.items op.now line straight) }
{
    match op {
        Op::Do(_, _, _, _, _, _) => see(loops, line, 0, straight),
        _ => Ok(()),
    }
}

// With a statement, behind which the statement `next` comes next.
fn do_one(
    noted: &mut Noted,
    frames: &Frames,
    statement: &BorrowedStatement<'_>,
    number: u32,
    next: u32,
    world: &World,
    aim: Option<Point>,
) -> Result<(), NoMemory>
    ensures { OnOk result (noted_of noted.new ≡ done_with (noted_of noted.old) frames.now statement.now.op statement.now.line number next world.now.state aim) }
{
    let straight = u64::from(next) == u64::from(number) + 1;
    loop_by(&mut noted.loops, &statement.op, statement.line, straight)?;
    tell(
        noted,
        frames,
        statement.line,
        world,
        aim,
        told_of(&statement.op),
    )
}

/// With a step: before it features were declared in these frames, the statement has this number, the state and the number of the next statement are those behind it,
/// and a measurement was given this place.
///
/// Errors: want of memory.
pub(crate) fn note(
    noted: &mut Noted,
    frames: &Frames,
    statement: &BorrowedStatement<'_>,
    number: u32,
    next: u32,
    world: &World,
    aim: Option<Point>,
) -> Result<(), NoMemory>
    ensures { OnOk result (noted_of noted.new ≡ noted_after (noted_of noted.old) frames.now statement.now.op statement.now.line number next world.now.state aim world.now.state.stop) }
{
    match world.stop() {
        Some(_) => Ok(()),
        None => do_one(noted, frames, statement, number, next, world, aim),
    }
}
