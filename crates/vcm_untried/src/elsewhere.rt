//! Where the way begins on which a run stops.

ghost use Rattle.std.specs.Prelude.{◌≡◌, refl, IfOk, IfErr};
ghost use Rattle.vcm_code.specs.declared.op.Op.TheVariants.{Plain};
ghost use Rattle.vcm_untried.specs.Counted.{IsNotCounted};
ghost use Rattle.vcm_untried.specs.Elsewhere.{is_way, is_placed, frame_in, seen_in, lost_behind, begun_behind, way_behind, frame_behind, stands_behind, standing_behind, standing_of};

use crate::causes::{FRAME, is_nought};
use std::alloc::Global;
use vcm_code::Op;
use vcm_fields::{BorrowedOp, BorrowedStatement, ItemSlice, TextSlice};
use vcm_loader::Loaded;
use vcm_machine::{End, Machine};
use vcm_motion::Part;
use vcm_num::NoMemory;
use vcm_spec::Simple;
use vcm_state::World;
use vcm_steps::{Follows, Unfinished, follow_run};

/// What is known behind steps of a program that is put so: lines, 0 where there is none.
#[derive(Clone, Copy)]
pub struct Standing {
    /// The line behind whose statement the place of the machine's probe isn't known.
    pub lost: u32,
    /// The same of the way that comes next, if that begins elsewhere than on the machine.
    pub begun: u32,
    /// Whether the run stops on a way.
    pub is_way: bool,
    /// The same of that way.
    pub way: u32,
    /// The line at which the current frame was made current.
    pub frame: u32,
}

/// What is seen of a state: whether the probe stands where the machine's does, and the number of the current frame.
#[derive(Clone, Copy)]
pub struct Seen {
    pub is_placed: bool,
    pub frame: i64,
}

/// The place of the variable that carries the place of the probe.
pub(crate) const PLACE: usize = 6;

// Whether a simple statement sends the probe on a way.
fn moves(what: &Simple<ItemSlice<'_>, TextSlice<'_>>) -> bool
    ensures { result ≡ is_way (Plain what.now) }
{
    matches!(
        what,
        Simple::Goto(_, _, _) | Simple::GoHome | Simple::PtMeas(_, _, _, _, _)
    )
}

/// Whether a statement does.
pub(crate) fn is_way(op: &BorrowedOp<'_>) -> bool
    ensures { result ≡ is_way op.now }
{
    match op {
        Op::Plain(what) => moves(what),
        _ => false,
    }
}

// The number of the current frame.
fn frame_in(variables: &[i64]) -> i64
    ensures { result ≡ frame_in variables.now }
{
    match variables.get(FRAME) {
        Some(value) => *value,
        None => 0,
    }
}

// Whether the probe stands where the machine's does, and the current frame.
fn seen_in(variables: &[i64]) -> Seen
    ensures { result ≡ seen_in variables.now }
{
    Seen {
        is_placed: !is_nought(variables, PLACE),
        frame: frame_in(variables),
    }
}

// The line behind whose statement the place isn't known.
fn lost_behind(line: u32, lost: u32, before: bool, after: bool) -> u32
    ensures { result ≡ lost_behind line lost before after }
{
    if before && !after { line } else { lost }
}

// The same of the way that comes next.
fn begun_behind(standing: &Standing, ways: bool, before: bool, after: bool) -> u32
    ensures { result ≡ begun_behind standing.now ways before after }
{
    if ways {
        0
    } else if !before && after {
        standing.lost
    } else {
        standing.begun
    }
}

// The same of the way on which the run stops.
fn way_behind(standing: &Standing, is_way: bool) -> u32
    ensures { result ≡ way_behind standing.now is_way }
{
    if is_way { standing.begun } else { 0 }
}

// The line at which the current frame came to be that.
fn frame_behind(line: u32, frame: u32, before: i64, after: i64) -> u32
    ensures { result ≡ frame_behind line frame before after }
{
    if before == after { frame } else { line }
}

// What is known behind a statement on a line.
fn stands_behind(
    standing: &Standing,
    line: u32,
    ways: bool,
    stops: bool,
    before: &Seen,
    after: &Seen,
) -> Standing
    ensures { result ≡ stands_behind standing.now line ways stops before.now after.now }
{
    Standing {
        lost: lost_behind(line, standing.lost, before.is_placed, after.is_placed),
        begun: begun_behind(standing, ways, before.is_placed, after.is_placed),
        is_way: ways && stops,
        way: way_behind(standing, ways && stops),
        frame: frame_behind(line, standing.frame, before.frame, after.frame),
    }
}

// What follows a run for that.
#[derive(Clone, Copy)]
struct Stander;

impl Follows<Standing> for Stander {
    type Before = Seen;

    type Fault = NoMemory;

    ghost Fits = { λ s part c. Unit {0} };

    ghost Looked = { λ s b w statement. b ≡ seen_in w.variables };

    ghost Has = { λ s tables from to ps. to ≡ standing_behind from ps };

    ghost Broke = { λ s tables from to ps p f. Unit {0} };

    ghost nothing = { λ s tables x. refl };

    fn look(&self, world: &World, _statement: &BorrowedStatement<'_>) -> Seen {
        seen_in(world.variables())
    }

    fn see(
        &self,
        before: Seen,
        _count: u64,
        _number: u32,
        statement: &BorrowedStatement<'_>,
        world: &World,
        _next: u32,
        to: &mut Standing,
    ) -> Result<(), NoMemory> {
        let after = seen_in(world.variables());
        let stops = world.stop().is_some();
        let ways = is_way(&statement.op);
        *to = stands_behind(to, statement.line, ways, stops, &before, &after);
        Ok(())
    }
}

/// Runs a loaded code for at most so many steps beside a workpiece, and tells where the way begins on which it stops.
///
/// Errors: see `Unfinished`; nothing is written here.
pub fn standing_of<P: Part>(
    alloc: Global,
    part: &P,
    loaded: &Loaded<'_>,
    steps: u64,
) -> Result<Standing, Unfinished>
    ensures standing { IfOk result (λ s. s ≡ standing_of (P.part part.now) loaded.now steps) }
    ensures fault { IfErr result (λ f. IsNotCounted (P.part part.now) loaded.now steps f) }
{
    let mut machine = match Machine::new(alloc, loaded, part) {
        Ok(machine) => machine,
        Err(_) => return Err(Unfinished::NoMemory),
    };
    let mut standing = Standing {
        lost: 0,
        begun: 0,
        is_way: false,
        way: 0,
        frame: 0,
    };
    let ran = match follow_run(alloc, loaded, &mut machine, steps, &Stander, &mut standing) {
        Ok(ran) => ran,
        Err(_) => return Err(Unfinished::NoMemory),
    };
    match ran.end {
        End::NoMemory => Err(Unfinished::Memory { done: ran.done }),
        End::Count => Ok(standing),
        End::Stopped => Ok(standing),
    }
}
