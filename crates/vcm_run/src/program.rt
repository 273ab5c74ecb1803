//! Programs, from their text to their image and to a run of it.

ghost use Rattle.std.specs.Prelude.{◌≡◌, ◌≤◌, length, List, IsTrue, IfOk, IfErr};
ghost use Rattle.vcm_forms.specs.declared.statement.Statement.{Statement as Said};
ghost use Rattle.vcm_tree.specs.Declaring.{DeclareVariables, PlacedDeclareVariables};
ghost use Rattle.vcm_tree.specs.Ended.{is_ended};
ghost use Rattle.vcm_tree.specs.Program.{notices_of};
ghost use Rattle.vcm_run.specs.Programs.{IsSummary, NextIsThere, IsRefusal, IsRefusalFrom, IsRefusalPlaced};
ghost use Rattle.vcm_run.specs.Built.{IsImageOf, IsBuilt, IsBuiltFrom, IsBuiltPlaced};

use crate::image::run_noticed;
use crate::run::{Refusal, Summary};
use std::alloc::Global;
use vcm_asm::assemble;
use vcm_forms::Statement;
use vcm_image::write;
use vcm_macro::Placed;
use vcm_motion::Part;
use vcm_num::NoMemory;
use vcm_program::{Accepted, Noticed};
use vcm_tree::{accept_placed, accept_statements, statements_of};

/// The image of a program, and the lines of its text that have no effect.
#[derive(Drop)]
pub struct Built {
    pub image: Vec<u8>,
    pub notices: Vec<Noticed>,
}

// The image of an accepted program.
fn image_of(alloc: Global, accepted: &Accepted) -> Result<Vec<u8>, NoMemory>
    ensures { IfOk result (λ bytes. IsImageOf accepted.now bytes.items) }
{
    let code = assemble(alloc, accepted)?;
    write(alloc, &code)
}

// The image of an accepted program, with its notices.
fn built_of(alloc: Global, accepted: &Accepted) -> Result<Built, NoMemory>
    ensures image { IfOk result (λ b. IsImageOf accepted.now b.image.items) }
    ensures notices { IfOk result (λ b. b.notices.items ≡ accepted.now.notices) }
{
    let image = image_of(alloc, accepted)?;
    let notices = Vec::from_slice(alloc, accepted.notices())?;
    Ok(Built { image, notices })
}

/// The image of the program that statements are, wherever they come from.
///
/// Errors: `Source` where they are refused (their first fault, or want of memory at line 0); want of memory where memory is refused after acceptance. It
/// never gives `Part`.
pub fn build_statements(alloc: Global, read: Vec<Statement>) -> Result<Built, Refusal>
    requires { DeclareVariables read.items }
    ensures built { IfOk result (λ b. IsBuiltFrom read.items b.image.items b.notices.items) }
    ensures refused { IfErr result (IsRefusalFrom read.items) }
{
    let accepted = match accept_statements(alloc, read) {
        Ok(accepted) => accepted,
        Err(fault) => return Err(Refusal::Source(fault)),
    };
    match built_of(alloc, &accepted) {
        Ok(built) => Ok(built),
        Err(_) => Err(Refusal::NoMemory),
    }
}

/// The image of the program that expanded statements are, wherever they come from: at most 20,000, the last of them ENDFIL. The notices are those of written
/// ones.
///
/// Errors: `Source` where they are refused (their first fault, or want of memory at line 0); want of memory where memory is refused after acceptance. It
/// never gives `Part`.
pub fn build_placed(
    alloc: Global,
    notices: Vec<Noticed>,
    all: Vec<Placed>,
) -> Result<Built, Refusal>
    requires lettered { PlacedDeclareVariables all.items }
    requires ended { IsTrue (is_ended all.items) }
    requires few { length all.items ≤ 20000 }
    requires written { (ss : List Said) × (notices.items ≡ notices_of ss) }
    ensures built { IfOk result (λ b. (ss : List Said) → notices.items ≡ notices_of ss → IsBuiltPlaced ss all.items b.image.items b.notices.items) }
    ensures refused { IfErr result (λ r. (ss : List Said) → notices.items ≡ notices_of ss → IsRefusalPlaced ss all.items r) }
{
    let accepted = match accept_placed(alloc, notices, all) {
        Ok(accepted) => accepted,
        Err(fault) => return Err(Refusal::Source(fault)),
    };
    match built_of(alloc, &accepted) {
        Ok(built) => Ok(built),
        Err(_) => Err(Refusal::NoMemory),
    }
}

/// The image of the program that a text is.
///
/// Errors: `Source` where the text is refused (its first fault, or want of memory at line 0); want of memory where memory is refused behind
/// acceptance. It never gives `Part`.
pub fn build_image(alloc: Global, program: &[u8]) -> Result<Built, Refusal>
    ensures built { IfOk result (λ b. IsBuilt program.now b.image.items b.notices.items) }
    ensures refused { IfErr result (IsRefusal program.now) }
{
    match statements_of(alloc, program) {
        Ok(read) => build_statements(alloc, read),
        Err(fault) => Err(Refusal::Source(fault)),
    }
}

/// Runs a program from its text for at most n steps, beside a workpiece. The text is accepted, the program assembled and written as an image, the
/// image loaded, and a machine carries out what was loaded.
///
/// Errors: `Source` where the text is refused (its first fault, or want of memory at line 0); want of memory where memory is refused behind
/// acceptance. It never gives `Part`.
pub fn run_text<P: Part>(
    alloc: Global,
    part: &P,
    program: &[u8],
    n: u64,
) -> Result<Summary, Refusal>
    ensures run { IfOk result (IsSummary (P.part part.now) program.now n) }
    ensures next { IfOk result (NextIsThere program.now) }
    ensures refused { IfErr result (IsRefusal program.now) }
{
    let Built { image, notices } = build_image(alloc, program)?;
    match run_noticed(alloc, part, &image, n, notices) {
        Ok(summary) => Ok(summary),
        Err(_) => Err(Refusal::NoMemory),
    }
}
