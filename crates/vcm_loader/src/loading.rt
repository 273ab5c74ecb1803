//! The loading of images.

ghost use Rattle.std.specs.Prelude.{◌≡◌, [], ◌++◌, List, Ok, OnOk, IfOk, IfErr};
ghost use Rattle.vcm_spec.specs.Fitting.{kinds as kinds_of};
ghost use Rattle.vcm_code.specs.declared.code.Code.{Code};
ghost use Rattle.vcm_code.specs.Deciding.{Tells};
ghost use Rattle.vcm_code.specs.Valid.{Ends, IsValid};
ghost use Rattle.vcm_fields.specs.declared.fault.ImageFault.TheVariants.{NoMemory};
ghost use Rattle.vcm_fields.specs.Readers.{Fails};
ghost use Rattle.vcm_image.specs.Whole.{FitsImage, spelling, code_at};
ghost use Rattle.vcm_image.specs.Opened.{rest_at};
ghost use Rattle.vcm_code.specs.Checks.{Check, op_checks, checks};
ghost use Rattle.vcm_loader.specs.Loading.{LoadFault};
ghost use Rattle.vcm_loader.specs.inner.Judging.{IsVerdict, IsJudged};

use crate::judging::{is_end, judge_operation};
use crate::loaded::Loaded;
use std::alloc::Global;
use vcm_fields::{BorrowedOp, ImageFault};
use vcm_image::Opening;
use vcm_num::Kind;

// What is found of statements that are judged: nothing, or the first refusal.
type Verdict = Result<(), ImageFault>;

// The kinds of the variables.
fn variable_kinds(alloc: Global, image: &Opening<'_>) -> Result<Vec<Kind>, ImageFault>
    ensures ok { IfOk result (λ ks. ks.items ≡ kinds_of image.now.code.tables) }
    ensures err { IfErr result (λ e. e ≡ NoMemory) }
{
    let count = image.variable_count();
    let mut kinds = Vec::with_capacity(alloc, count)?;
    for n in 0..count {
        kinds.push(image.variable(n).kind())?;
    }
    Ok(kinds)
}

// The verdict over one statement more. It is judged only where nothing is found yet.
#[inline(always)]
fn judge_next(
    so_far: Verdict,
    op: &BorrowedOp<'_>,
    kinds: &[Kind],
    features: usize,
    frames: usize,
    statements: usize,
) -> Verdict
    ensures { (cs : List Check) → IsVerdict cs so_far → IsVerdict (cs ++ op_checks (record { kinds = kinds.now; features = features; frames = frames; statements = statements }) op.now) result }
{
    match so_far {
        Ok(()) => judge_operation(op, kinds, features, frames, statements),
        Err(fault) => Err(fault),
    }
}

// The verdict over a code whose statements are judged: it has to end with ENDFIL.
fn concluded(verdict: Verdict, ends: bool) -> Verdict
    ensures { (c : Code) → IsVerdict (checks c) verdict → Tells ends (Ends c.statements) → IsJudged c result }
{
    verdict?;
    if !ends {
        return Err(ImageFault::RunsOff);
    }
    Ok(())
}

// Reads all statements, and judges each when it is read. A refusal of reading goes before what is found.
fn judge_statements(image: &mut Opening<'_>, kinds: &[Kind]) -> Result<Verdict, ImageFault>
    requires none { image.old.code.statements ≡ [] }
    requires kinds { kinds.now ≡ kinds_of image.old.code.tables }
    ensures read { OnOk result ((image.new.left ≡ 0) × (rest_at image.old ≡ rest_at image.new)) }
    ensures judged { IfOk result (λ v. IsJudged image.new.code v) }
    ensures err { IfErr result (λ e. Fails e (rest_at image.old)) }
{
    let features = image.feature_count();
    let frames = image.frame_count();
    let statements = image.statement_count();
    let mut verdict = Ok(());
    let mut ends = false;
    for _ in 0..statements {
        let statement = image.next()?;
        verdict = judge_next(verdict, &statement.op, kinds, features, frames, statements);
        ends = is_end(&statement.op);
    }
    Ok(concluded(verdict, ends))
}

// Reads and judges all statements. The kinds of the variables are let go afterwards.
fn judge(alloc: Global, image: &mut Opening<'_>) -> Result<Verdict, ImageFault>
    requires { image.old.code.statements ≡ [] }
    ensures read { OnOk result ((image.new.left ≡ 0) × (rest_at image.old ≡ rest_at image.new)) }
    ensures judged { IfOk result (λ v. IsJudged image.new.code v) }
    ensures err { IfErr result (λ e. Fails e (rest_at image.old)) }
{
    let kinds = variable_kinds(alloc, image)?;
    judge_statements(image, &kinds)
}

// The valid image that the bytes are, or the refusal.
fn judged(alloc: Global, bytes: &[u8]) -> Result<Loaded<'_>, ImageFault>
    ensures found { IfOk result (λ l. FitsImage l × (IsValid l × (bytes.now ≡ spelling l))) }
    ensures fault { IfErr result (λ e. LoadFault (code_at bytes.now) e) }
{
    let mut image = Opening::begin(alloc, bytes)?;
    let verdict = judge(alloc, &mut image)?;
    let scanned = image.finish()?;
    verdict?;
    Ok(Loaded::new(scanned))
}

/// The valid image that the bytes are.
///
/// # Errors
///
/// The first refusal of reading, from the front; then of the first index, target or operand that is bad, over the statements and their operands in
/// order; then RunsOff, where there is no last statement that is ENDFIL. Want of memory.
pub fn load(alloc: Global, bytes: &[u8]) -> Result<Loaded<'_>, ImageFault>
    // What is loaded is valid, and the bytes are its one spelling.
    ensures found { IfOk result (λ l. FitsImage l × (IsValid l × (bytes.now ≡ spelling l))) }
    // The spelling of a valid code is refused for want of memory alone.
    ensures only { (c : Code) → FitsImage c → IsValid c → bytes.now ≡ spelling c → IfErr result (λ e. e ≡ NoMemory) }
    // Which refusal it is.
    ensures fault { IfErr result (λ e. LoadFault (code_at bytes.now) e) }
{
    judged(alloc, bytes)
}
