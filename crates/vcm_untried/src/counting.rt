//! Runs whose remarks are counted.

ghost use Rattle.std.specs.Prelude.{◌≡◌, List, length, replicate, None, IfOk, IfErr};
ghost use Rattle.vcm_spec.specs.Effect.{at_index};
ghost use Rattle.vcm_machine.specs.Running.{started, HasRun};
ghost use Rattle.vcm_steps.specs.declared.fault.Unfinished.TheVariants as faults;
ghost use Rattle.vcm_steps.specs.Passages.{passages};
ghost use Rattle.vcm_remarks.specs.declared.remark.NumberedRemark.{NumberedRemark};
ghost use Rattle.vcm_untried.specs.Causes.{cause_in};
ghost use Rattle.vcm_untried.specs.Counted.{AreCounted, IsNotCounted};
ghost use Rattle.vcm_untried.specs.inner.Following.{HasCounted, IsKept, IsOpening, one_more_at, reading, readings, tabled};

use crate::causes::{CAUSES, cause_in};
use crate::telling::{Told, tell};
use std::alloc::Global;
use vcm_fields::BorrowedStatement;
use vcm_loader::Loaded;
use vcm_machine::{End, Machine, Ran};
use vcm_motion::Part;
use vcm_num::NoMemory;
use vcm_remarks::{Cause, NumberedRemark};
use vcm_state::World;
use vcm_steps::{Follows, Unfinished, follow_run};

/// What was counted in a run.
#[derive(Drop)]
pub struct Counts {
    /// How often the statement of each remark was carried out, in the order of the remarks.
    pub taken: Vec<u64>,
    /// What is reported of it.
    pub told: Told,
}

/// What counts: the remarks, and the one on each statement.
#[derive(Clone, Copy)]
pub(crate) struct Counter<'a> {
    pub(crate) remarks: &'a [NumberedRemark],
    pub(crate) table: &'a [Option<NumberedRemark>],
}

/// What is counted: how often each statement was carried out, and what is reported.
#[derive(Drop)]
pub(crate) struct Progress {
    pub(crate) taken: Vec<u64>,
    pub(crate) told: Told,
}

/// The remark on a statement, if there is one.
pub(crate) fn remark_at(table: &[Option<NumberedRemark>], at: usize) -> Option<NumberedRemark>
    ensures { result ≡ at_index table.now at }
{
    match table.get(at) {
        Some(place) => *place,
        None => None,
    }
}

/// A statement is carried out once more.
pub(crate) fn count_at(taken: &mut Vec<u64>, at: usize)
    ensures { taken.new.items ≡ one_more_at taken.old.items at }
{
    if at < taken.len() {
        taken[at] = taken[at].saturating_add(1);
    }
}

impl Follows<Progress> for Counter<'_> {
    type Before = Cause;

    type Fault = NoMemory;

    ghost Fits = { λ s part c. Unit {0} };

    ghost Looked = { λ s b w statement. b ≡ cause_in w.variables };

    ghost Has = { λ s tables from to ps. HasCounted s.remarks.now s.table.now from to ps };

    ghost Broke = { λ s tables from to ps p f. Unit {0} };

    ghost nothing = { λ s tables x is. is.opening };

    fn look(&self, world: &World, _statement: &BorrowedStatement<'_>) -> Cause {
        cause_in(world.variables())
    }

    fn see(
        &self,
        before: Cause,
        _count: u64,
        number: u32,
        _statement: &BorrowedStatement<'_>,
        _world: &World,
        _next: u32,
        to: &mut Progress,
    ) -> Result<(), NoMemory> {
        let at = number as usize;
        count_at(&mut to.taken, at);
        match remark_at(self.table, at) {
            Some(remark) => tell(&mut to.told, &remark, before),
            None => Ok(()),
        }
    }
}

// A table with no remark on any of so many statements.
fn empty_table(alloc: Global, statements: usize) -> Result<Vec<Option<NumberedRemark>>, NoMemory>
    ensures { IfOk result (λ table. table.items ≡ replicate statements None) }
{
    let table = vec![in alloc; None; statements]?;
    Ok(table)
}

/// The remark on each of so many statements.
pub(crate) fn table_of(
    alloc: Global,
    remarks: &[NumberedRemark],
    statements: usize,
) -> Result<Vec<Option<NumberedRemark>>, NoMemory>
    ensures { IfOk result (λ table. table.items ≡ tabled remarks.now statements) }
{
    let mut table = empty_table(alloc, statements)?;
    let mut at = remarks.len();
    while at > 0 {
        at -= 1;
        let number = remarks[at].number as usize;
        if number < statements {
            table[number] = Some(remarks[at]);
        }
    }
    Ok(table)
}

// So many zeros.
fn zeros(alloc: Global, count: usize) -> Result<Vec<u64>, NoMemory>
    ensures { IfOk result (λ counts. counts.items ≡ replicate count 0) }
{
    let counts = vec![in alloc; 0; count]?;
    Ok(counts)
}

/// Before the first step.
pub(crate) fn opening(alloc: Global, statements: usize) -> Result<Progress, NoMemory>
    ensures { IfOk result (λ x. (remarks : List NumberedRemark) → IsOpening remarks statements x) }
{
    let taken = zeros(alloc, statements)?;
    let rows = Vec::new(alloc);
    let lost = [0; CAUSES];
    let end = None;
    let told = Told { lost, rows, end };
    Ok(Progress { taken, told })
}

// How often one of these statements was carried out.
fn reading(taken: &[u64], at: usize) -> u64
    ensures { result ≡ reading taken.now at }
{
    match taken.get(at) {
        Some(count) => *count,
        None => 0,
    }
}

/// How often the statement of each remark was carried out.
pub(crate) fn readings(
    alloc: Global,
    taken: &[u64],
    remarks: &[NumberedRemark],
) -> Result<Vec<u64>, NoMemory>
    ensures { IfOk result (λ x. x.items ≡ readings taken.now remarks.now) }
{
    let mut counts = Vec::new(alloc);
    for remark in remarks {
        counts.push(reading(taken, remark.number as usize))?;
    }
    Ok(counts)
}

// Runs a machine that stands at the start, and counts.
fn count_run<P: Part>(
    alloc: Global,
    loaded: &Loaded<'_>,
    machine: &mut Machine<'_, P>,
    steps: u64,
    remarks: &[NumberedRemark],
    progress: &mut Progress,
) -> Result<Ran, NoMemory>
    requires start { machine.old ≡ started machine.old.part loaded.now }
    requires opening { IsOpening remarks.now (length loaded.now.statements) progress.old }
    ensures run { IfOk result (λ ran. HasRun steps machine.old machine.new ran) }
    ensures kept { IfOk result (λ ran. IsKept remarks.now (length loaded.now.statements) (passages machine.old.part loaded.now ran.done) progress.new) }
{
    let table = table_of(alloc, remarks, loaded.statement_count())?;
    let counter = Counter {
        remarks,
        table: table.as_slice(),
    };
    follow_run(alloc, loaded, machine, steps, &counter, progress)
}

// What was counted for remarks.
fn counts_of(
    alloc: Global,
    progress: Progress,
    remarks: &[NumberedRemark],
) -> Result<Counts, Unfinished>
    ensures counts { IfOk result (λ x. (x.taken.items ≡ readings progress.taken.items remarks.now) × (x.told ≡ progress.told)) }
    ensures fault { IfErr result (λ f. f ≡ faults.NoMemory) }
{
    let Progress { taken, told } = progress;
    match readings(alloc, taken.as_slice(), remarks) {
        Ok(taken) => Ok(Counts { taken, told }),
        Err(_) => Err(Unfinished::NoMemory),
    }
}

/// Runs a loaded code for at most so many steps beside a workpiece, and counts how often the statement of each remark is carried out, and what is reported of it. Of
/// several remarks on a statement the first one reports.
///
/// Errors: see `Unfinished`; nothing is written here.
pub fn count_remarks<P: Part>(
    alloc: Global,
    part: &P,
    loaded: &Loaded<'_>,
    steps: u64,
    remarks: &[NumberedRemark],
) -> Result<Counts, Unfinished>
    ensures counted { IfOk result (λ x. AreCounted (P.part part.now) loaded.now steps remarks.now x) }
    ensures fault { IfErr result (λ f. IsNotCounted (P.part part.now) loaded.now steps f) }
{
    let mut machine = match Machine::new(alloc, loaded, part) {
        Ok(machine) => machine,
        Err(_) => return Err(Unfinished::NoMemory),
    };
    let mut progress = match opening(alloc, loaded.statement_count()) {
        Ok(progress) => progress,
        Err(_) => return Err(Unfinished::NoMemory),
    };
    let ran = match count_run(alloc, loaded, &mut machine, steps, remarks, &mut progress) {
        Ok(ran) => ran,
        Err(_) => return Err(Unfinished::NoMemory),
    };
    match ran.end {
        End::NoMemory => Err(Unfinished::Memory { done: ran.done }),
        End::Count => counts_of(alloc, progress, remarks),
        End::Stopped => counts_of(alloc, progress, remarks),
    }
}
