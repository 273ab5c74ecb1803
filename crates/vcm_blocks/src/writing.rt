//! The command's main call.

ghost use Rattle.std.specs.Prelude.{◌≡◌, ◌++◌, Some, None, Ok, option_map, IfOk, IfErr};
ghost use Rattle.std.specs.String.{string_bytes};
ghost use Rattle.vcm_blocks.specs.Adding.{IsAdded, Refuses};
ghost use Rattle.vcm_part.specs.PartFile.{part_of};
ghost use Rattle.vcm_blocks.specs.inner.Steps.{workpiece, Adds, PartReads, ModelReads, IsLate};

use crate::adding::read_again;
use crate::edges::{Edges, count_edges};
use crate::extent::{bounds_round, box_of, sizes};
use crate::fault::{BlocksFault, Halt, Refusal};
use crate::options::{BlocksOptions, Tells};
use crate::points::near_points;
use crate::series::{Search, find_cover};
use crate::texts::{Outcome, part_text, told_text};
use std::alloc::Global;
use vcm_cover::{NearPoint, leans};
use vcm_mesh::{MeshFault, Triangle, read_mesh};
use vcm_num::MOST_BLOCKS;
use vcm_part::{PartCode, PartData, read_part};
use vcm_spec::{Block3, Bounds};

/// What the command writes.
#[derive(Drop)]
pub struct Written {
    /// The part file.
    pub text: String,
    /// What is told of the model and its blocks, line by line.
    pub told: String,
}

// What the blocks are added to, and what else is asked.
#[derive(Clone, Copy)]
struct Job<'a> {
    bounds: Bounds,
    own: &'a [Block3],
    part: Option<&'a str>,
    points: Option<&'a [u8]>,
    options: &'a BlocksOptions<'a>,
}

// The workpiece of a part file.
fn base_of(alloc: Global, part: &[u8]) -> Result<PartData, BlocksFault>
    ensures { PartReads part.now result }
{
    match read_part(alloc, part) {
        Ok(base) => Ok(base),
        Err(fault) => match fault.code {
            PartCode::NoMemory => Err(BlocksFault::NoMemory),
            _ => Err(BlocksFault::Part(fault)),
        },
    }
}

// The triangles of a model.
fn model_of(
    alloc: Global,
    options: &BlocksOptions<'_>,
    model: &[u8],
) -> Result<Vec<Triangle>, BlocksFault>
    ensures { ModelReads (λ v. v.items) options.now.placing model.now result }
{
    match read_mesh(alloc, &options.placing, model) {
        Ok(triangles) => Ok(triangles),
        Err(MeshFault::NoMemory) => Err(BlocksFault::NoMemory),
        Err(MeshFault::Refused(refusal)) => Err(BlocksFault::Model(refusal)),
    }
}

// The fault of a step after these two.
fn stopped(halt: Halt) -> BlocksFault
    ensures { IsLate result }
{
    match halt {
        Halt::Memory => BlocksFault::NoMemory,
        Halt::Refused(refusal) => BlocksFault::Refused(refusal),
    }
}

// The points near which the blocks are finer.
fn near_of(alloc: Global, points: Option<&[u8]>) -> Result<Vec<NearPoint>, Halt> {
    match points {
        Some(text) => near_points(alloc, text),
        None => Ok(Vec::new(alloc)),
    }
}

// The longest side of a box.
fn longest(sizes: [i64; 3]) -> i64 {
    let [x, y, z] = sizes;
    x.max(y).max(z)
}

// How many blocks of a part file stand before those of the model.
fn count_before(job: &Job<'_>) -> Option<usize> {
    match job.part {
        Some(_) => Some(job.own.len()),
        None => None,
    }
}

// Whether blocks are the model itself: it is closed, and each triangle is square to an axis.
fn is_exact(edges: &Edges, triangles: &[Triangle]) -> bool {
    edges.odd == 0 && !leans(triangles)
}

// The most blocks of the model.
fn most_blocks(job: &Job<'_>) -> usize {
    job.options
        .most
        .min(MOST_BLOCKS.saturating_sub(job.own.len()))
}

// The text with blocks, read again, and what is told of them.
fn write_found(alloc: Global, job: &Job<'_>, outcome: &Outcome<'_>) -> Result<Written, Halt>
    ensures { IfOk result (λ w. part_of (string_bytes w.text) ≡ Ok (workpiece job.now.bounds (job.now.own.now ++ outcome.now.blocks.now))) }
{
    let text = part_text(alloc, job.part, &job.bounds, job.options, outcome)?;
    read_again(alloc, text.as_str(), &job.bounds, job.own, outcome.blocks)?;
    let told = told_text(alloc, outcome)?;
    Ok(Written { text, told })
}

// The text with the blocks of triangles.
fn write_added<T: Tells>(
    alloc: Global,
    job: &Job<'_>,
    triangles: &[Triangle],
    tells: &mut T,
) -> Result<Written, Halt>
    ensures { IfOk result (λ w. Adds job.now.bounds job.now.own.now triangles.now (string_bytes w.text)) }
{
    let near = near_of(alloc, job.points)?;
    let edges = count_edges(alloc, triangles)?;
    let around = box_of(triangles);
    let is_exact = is_exact(&edges, triangles);
    let search = Search {
        triangles,
        near: &near,
        within: job.options.within,
        most: most_blocks(job),
        half: job.bounds.tip,
        size: longest(sizes(&around)),
        is_exact,
    };
    let found = find_cover(alloc, &search, tells)?;
    let outcome = Outcome {
        triangles,
        around,
        edges,
        is_exact,
        blocks: &found.blocks,
        within: found.within,
        before: count_before(job),
    };
    write_found(alloc, job, &outcome)
}

// The same, its fault being one of the command's.
fn write_job<T: Tells>(
    alloc: Global,
    job: &Job<'_>,
    triangles: &[Triangle],
    tells: &mut T,
) -> Result<Written, BlocksFault>
    ensures added { IfOk result (λ w. Adds job.now.bounds job.now.own.now triangles.now (string_bytes w.text)) }
    ensures late { IfErr result IsLate }
{
    match write_added(alloc, job, triangles, tells) {
        Ok(written) => Ok(written),
        Err(halt) => Err(stopped(halt)),
    }
}

// The part file with the blocks of a model after its own.
fn write_into<T: Tells>(
    alloc: Global,
    model: &[u8],
    part: &[u8],
    points: Option<&[u8]>,
    options: &BlocksOptions<'_>,
    tells: &mut T,
) -> Result<Written, BlocksFault>
    ensures added { IfOk result (λ w. IsAdded (Some part.now) options.now.placing model.now (string_bytes w.text)) }
    ensures refused { IfErr result (Refuses (Some part.now) options.now.placing model.now) }
{
    let base = base_of(alloc, part)?;
    let triangles = model_of(alloc, options, model)?;
    let job = Job {
        bounds: base.bounds(),
        own: base.blocks(),
        part: std::str::from_utf8(part).ok(),
        points,
        options,
    };
    write_job(alloc, &job, &triangles, tells)
}

// A part file of its own with the blocks of a model.
fn write_alone<'a, T: Tells>(
    alloc: Global,
    model: &[u8],
    points: Option<&'a [u8]>,
    options: &'a BlocksOptions<'a>,
    tells: &mut T,
) -> Result<Written, BlocksFault>
    ensures added { IfOk result (λ w. IsAdded None options.now.placing model.now (string_bytes w.text)) }
    ensures refused { IfErr result (Refuses None options.now.placing model.now) }
{
    let triangles = model_of(alloc, options, model)?;
    let around = box_of(&triangles);
    if !(around.low.is_near() && around.high.is_near()) {
        return Err(BlocksFault::Refused(Refusal::NotAdded));
    }
    let job = Job {
        bounds: bounds_round(&around),
        own: &[],
        part: None,
        points,
        options,
    };
    write_job(alloc, &job, &triangles, tells)
}

/// Covers the triangles of a model, the bytes of an STL file, with blocks, and writes a part file: the text of `part`, or without one limits and home round
/// the model, and then the blocks. The text is read again before it is given: it has to give what it was added to with these blocks after its own.
///
/// # Errors
///
/// The first in this order: a part file that is refused; a model that is refused; a line of `points` that is no row of them; more blocks than may be, or
/// too fine a grid, at the length that is asked for or at each; a text that, read again, doesn't give these blocks, or in whose blocks home lies. `NoMemory`
/// where a growth of memory was refused; the call may then be repeated.
pub fn write_blocks<T: Tells>(
    alloc: Global,
    model: &[u8],
    part: Option<&[u8]>,
    points: Option<&[u8]>,
    options: &BlocksOptions<'_>,
    tells: &mut T,
) -> Result<Written, BlocksFault>
    ensures added { IfOk result (λ w. IsAdded (option_map (λ p. p.now) part.entry) options.now.placing model.now (string_bytes w.text)) }
    ensures refused { IfErr result (Refuses (option_map (λ p. p.now) part.entry) options.now.placing model.now) }
{
    match part {
        Some(part) => write_into(alloc, model, part, points, options, tells),
        None => write_alone(alloc, model, points, options, tells),
    }
}
