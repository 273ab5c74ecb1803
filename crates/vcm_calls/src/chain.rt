//! The chain of CALLs that a statement comes from.

ghost use Rattle.std.specs.Prelude.{◌≡◌, ◌++◌, ℕ, List, slice_get, unwrap_or, IfOk};
ghost use Rattle.vcm_macro.specs.Rules.{kept};
ghost use Rattle.vcm_macro.specs.Walk.{walk};
ghost use Rattle.vcm_calls.specs.Carried.{carried_out};
ghost use Rattle.vcm_calls.specs.Chains.{expansion_of, expansions, line_then, depth_if, chain, chain_of};

use crate::called::Called;
use crate::expanding::carried_out;
use std::alloc::{AllocError, Global};
use vcm_forms::Statement;
use vcm_lines::SourceFault;
use vcm_macro::{Placed, expand};

// The expansion that the statement with this number stands in, 0 outside macros.
fn expansion_of(all: &[Placed], number: u32) -> u32
    ensures { result ≡ expansion_of all.now number }
{
    let mut left = number;
    for placed in all {
        if placed.statement.form.is_counted() {
            if left == 0 {
                return placed.expansion;
            }
            left -= 1;
        }
    }
    0
}

/// How deep the CALL at a place is nested, 0 where there is none.
pub fn depth_at(calls: &[Called], place: usize) -> usize
    ensures { result ≡ depth_if (slice_get calls.now place) }
{
    match calls.get(place) {
        Some(call) => call.depth,
        None => 0,
    }
}

// Adds the line of the CALL at a place, if it is nested so deep, and gives how deep the next one is to be.
fn add_line(
    calls: &[Called],
    place: usize,
    depth: usize,
    lines: &mut Vec<u32>,
) -> Result<usize, AllocError>
    ensures { IfOk result (λ next. (on : ℕ → List ℕ) → lines.new.items ++ on next ≡ lines.old.items ++ line_then (slice_get calls.now place) depth on) }
{
    match calls.get(place) {
        Some(call) if call.depth == depth => {
            lines.push(call.line)?;
            Ok(depth.saturating_sub(1))
        }
        _ => Ok(depth),
    }
}

// The lines of the CALLs that an expansion comes from, the innermost first.
fn lines_of(alloc: Global, calls: &[Called], expansion: u32) -> Result<Vec<u32>, AllocError>
    ensures { IfOk result (λ lines. lines.items ≡ chain calls.now expansion) }
{
    let mut lines = Vec::new(alloc);
    let mut left = expansion as usize;
    let mut depth = depth_at(calls, left.saturating_sub(1));
    while left > 0 {
        left -= 1;
        depth = add_line(calls, left, depth, &mut lines)?;
    }
    Ok(lines)
}

/// The lines of the CALLs that the statement of this number comes from, the innermost first, where these are the statements of the program's text.
///
/// Errors: want of memory; a fault of the order of statements or of macros.
pub fn chain_of(
    alloc: Global,
    statements: Vec<Statement>,
    number: u32,
) -> Result<Vec<u32>, SourceFault>
    ensures { IfOk result (λ lines. lines.items ≡ chain_of statements.items number) }
{
    let calls = carried_out(alloc, &statements)?;
    let all = expand(alloc, statements)?;
    let expansion = expansion_of(all.as_slice(), number);
    let lines = lines_of(alloc, &calls, expansion)?;
    Ok(lines)
}

/// The CALLs that a program carries out, in their order, and the expansion that each of its numbered statements stands in, 0 outside macros.
#[derive(Drop)]
pub struct Calls {
    pub calls: Vec<Called>,
    pub expansions: Vec<u32>,
}

// The expansion that each numbered statement stands in.
fn expansions_in(alloc: Global, all: &[Placed]) -> Result<Vec<u32>, AllocError>
    ensures { IfOk result (λ numbers. numbers.items ≡ expansions all.now) }
{
    let mut numbers = Vec::new(alloc);
    for placed in all {
        if placed.statement.form.is_counted() {
            numbers.push(placed.expansion)?;
        }
    }
    Ok(numbers)
}

/// The CALLs that a program of these statements carries out, and the expansion that each of its numbered statements stands in.
///
/// Errors: want of memory; a fault of the order of statements or of macros.
pub fn calls_of(alloc: Global, statements: Vec<Statement>) -> Result<Calls, SourceFault>
    ensures calls { IfOk result (λ c. c.calls.items ≡ carried_out statements.items) }
    ensures expansions { IfOk result (λ c. c.expansions.items ≡ expansions (kept (walk statements.items))) }
{
    let calls = carried_out(alloc, &statements)?;
    let all = expand(alloc, statements)?;
    let expansions = expansions_in(alloc, all.as_slice())?;
    Ok(Calls { calls, expansions })
}
