//! The lengths that are tried, from coarse to fine.

ghost use Rattle.std.specs.Prelude.{◌≡◌, Some, IfOk, IfSome};
ghost use Rattle.vcm_covering.specs.Covering.{Covers};
ghost use Rattle.vcm_cover.specs.Models.{corners};

use crate::fault::{Halt, Refusal};
use crate::options::{LengthDone, Tells};
use std::alloc::Global;
use vcm_cover::{Asked, CoverFault, NearPoint, cover};
use vcm_mesh::Triangle;
use vcm_spec::Block3;

/// The lengths in micrometres.
const SERIES: [u32; 12] = [
    500_000, 200_000, 100_000, 50_000, 20_000, 10_000, 5000, 2000, 1000, 500, 200, 100,
];

/// The shortest of them.
const FINEST: u32 = 100;

/// What is to be covered, and how.
#[derive(Clone, Copy)]
pub(crate) struct Search<'a> {
    pub triangles: &'a [Triangle],
    pub near: &'a [NearPoint],
    pub within: Option<u32>,
    pub most: usize,
    pub half: u32,
    /// How long the model is along its longest axis.
    pub size: i64,
    pub is_exact: bool,
}

/// Blocks that cover a model, and the length at which they were found.
#[derive(Drop)]
pub(crate) struct Found {
    pub blocks: Vec<Block3>,
    pub within: u32,
}

// The blocks at a length. It is told where it is done.
fn tried<T: Tells>(
    alloc: Global,
    search: &Search<'_>,
    within: u32,
    tells: &mut T,
) -> Result<Vec<Block3>, CoverFault>
    ensures { IfOk result (λ v. Covers v.items (corners search.now.triangles.now)) }
{
    let asked = Asked {
        within,
        most: search.most,
        near: search.near,
        half: search.half,
    };
    match cover(alloc, search.triangles, &asked) {
        Ok(cover) => {
            tells.tell(&LengthDone {
                within,
                blocks: cover.blocks.len(),
            });
            Ok(cover.blocks)
        }
        Err(fault) => Err(fault),
    }
}

// The refusal at a length.
fn refused(fault: CoverFault, within: u32) -> Halt {
    match fault {
        CoverFault::NoMemory => Halt::Memory,
        CoverFault::TooManyBlocks => Halt::Refused(Refusal::TooManyBlocks(within)),
        CoverFault::TooFine => Halt::Refused(Refusal::TooFine(within)),
        _ => Halt::Refused(Refusal::NotCovered),
    }
}

// The blocks at a length that was asked for.
fn at_length<T: Tells>(
    alloc: Global,
    search: &Search<'_>,
    within: u32,
    tells: &mut T,
) -> Result<Found, Halt>
    ensures { IfOk result (λ f. Covers f.blocks.items (corners search.now.triangles.now)) }
{
    match tried(alloc, search, within, tells) {
        Ok(blocks) => Ok(Found { blocks, within }),
        Err(fault) => Err(refused(fault, within)),
    }
}

// Whether a fault says that a length is too fine.
fn is_too_fine(fault: CoverFault) -> bool {
    match fault {
        CoverFault::TooManyBlocks | CoverFault::TooFine => true,
        _ => false,
    }
}

// The refusal of the whole series at a length that is too fine: where a coarser one took too many blocks, that one is told.
fn refused_all(coarsest: Option<u32>, fault: CoverFault, within: u32) -> Halt {
    match coarsest {
        Some(first) => Halt::Refused(Refusal::TooManyBlocks(first)),
        None => refused(fault, within),
    }
}

// What was found before a length at which there is a fault: it is the finest, if there is any.
fn before(
    found: Option<Found>,
    coarsest: Option<u32>,
    fault: CoverFault,
    within: u32,
) -> Result<Found, Halt>
    ensures { IfOk result (λ f. found ≡ Some f) }
{
    if !is_too_fine(fault) {
        return Err(refused(fault, within));
    }
    match found {
        Some(found) => Ok(found),
        None => Err(refused_all(coarsest, fault, within)),
    }
}

// The blocks at the last length of the series that gives some, from the first one that isn't longer than the model.
fn in_series<T: Tells>(alloc: Global, search: &Search<'_>, tells: &mut T) -> Result<Found, Halt>
    ensures { IfOk result (λ f. Covers f.blocks.items (corners search.now.triangles.now)) }
{
    let longest = search.size.max(i64::from(FINEST));
    let mut found = None;
    let mut coarsest = None;
    for within in SERIES {
        if i64::from(within) > longest {
            continue;
        }
        match tried(alloc, search, within, tells) {
            Ok(blocks) => found = Some(Found { blocks, within }),
            Err(CoverFault::TooManyBlocks) if found.is_none() => {
                coarsest = coarsest.or(Some(within));
            }
            Err(fault) => return before(found, coarsest, fault, within),
        }
        if search.is_exact && found.is_some() {
            break;
        }
    }
    let within = coarsest.unwrap_or(FINEST);
    found.ok_or(Halt::Refused(Refusal::TooManyBlocks(within)))
}

/// Blocks that cover a model: at the length that is asked for, or at the finest of the series that fits.
///
/// # Errors
///
/// More blocks than may be, or too fine a grid, at that length, or at each; want of memory.
pub(crate) fn find_cover<T: Tells>(
    alloc: Global,
    search: &Search<'_>,
    tells: &mut T,
) -> Result<Found, Halt>
    ensures { IfOk result (λ f. Covers f.blocks.items (corners search.now.triangles.now)) }
{
    match search.within {
        Some(within) => at_length(alloc, search, within, tells),
        None => in_series(alloc, search, tells),
    }
}
