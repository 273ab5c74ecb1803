//! What is reported at each step of a run, which ways begin elsewhere, and what is known.

ghost use Rattle.std.specs.Prelude.{◌≡◌, true, [], ◌∷◌, ◌++◌, refl, IfOk, IfErr, OnOk};
ghost use Rattle.vcm_machine.specs.Running.{started, HasRun};
ghost use Rattle.vcm_steps.specs.Passages.{passages};
ghost use Rattle.vcm_untried.specs.Causes.{cause_in};
ghost use Rattle.vcm_untried.specs.Counted.{IsNotCounted};
ghost use Rattle.vcm_untried.specs.Marking.{marks_in, unmarked, marked, marked_as, marked_if, marked_behind, gone_by, learned, known_by, marks_of};
ghost use Rattle.vcm_untried.specs.inner.Marking.{HasMarked};

use crate::about::About;
use crate::causes::{CAUSES, Losses, cause_in, line_of, lose, named};
use crate::counting::{remark_at, table_of};
use crate::elsewhere::is_way;
use crate::known::{Known, is_same, known_in};
use std::alloc::Global;
use vcm_fields::BorrowedStatement;
use vcm_loader::Loaded;
use vcm_machine::{End, Machine, Ran};
use vcm_motion::Part;
use vcm_num::NoMemory;
use vcm_remarks::{Cause, NumberedRemark, Remark};
use vcm_state::World;
use vcm_steps::{Follows, Unfinished, follow_run};

/// What a step reports of a line, and the number of its statement.
#[derive(Clone, Copy)]
pub struct Marked {
    pub step: u64,
    pub number: u32,
    pub line: u32,
    pub about: About,
}

/// What is known behind a step.
#[derive(Clone, Copy)]
pub struct Knowing {
    pub step: u64,
    pub known: Known,
}

/// What was marked in a run.
#[derive(Drop)]
pub struct Marking {
    /// The line at which each cause came about last.
    pub lost: Losses,
    /// What is reported, in the order of the steps.
    pub marks: Vec<Marked>,
    /// Whether the way that comes next begins elsewhere.
    pub begins: bool,
    /// The steps whose ways begin elsewhere.
    pub elsewhere: Vec<u64>,
    /// What is known.
    pub known: Known,
    /// The steps behind which something else is known than before them; at the start all is.
    pub changes: Vec<Knowing>,
}

// What marks: the remarks, and the one on each statement.
#[derive(Clone, Copy)]
struct Marker<'a> {
    remarks: &'a [NumberedRemark],
    table: &'a [Option<NumberedRemark>],
}

// A step reports something of the line of a remark.
fn mark(to: &mut Marking, step: u64, remark: &NumberedRemark, about: About) -> Result<(), NoMemory>
    ensures { OnOk result (marks_in to.new ≡ record (marks_in to.old) { marks = to.old.marks.items ++ marked step remark.now.number remark.now.line about ∷ [] }) }
{
    to.marks.push(Marked {
        step,
        number: remark.number,
        line: remark.line,
        about,
    })?;
    Ok(())
}

// A statement with a remark is carried out in a step, where a motion that isn't tried isn't for this cause.
fn mark_as(
    to: &mut Marking,
    step: u64,
    remark: &NumberedRemark,
    cause: Cause,
) -> Result<(), NoMemory>
    ensures { OnOk result (marks_in to.new ≡ marked_as (marks_in to.old) step remark.now.number remark.now.remark remark.now.line cause) }
{
    match remark.remark {
        Remark::NotTried => {
            let since = line_of(&to.lost, cause);
            let about = About::NotTried(named(&to.lost, cause), since);
            mark(to, step, remark, about)
        }
        Remark::Approached => mark(to, step, remark, About::Approached),
        Remark::BeginsElsewhere => {
            to.begins = true;
            mark(to, step, remark, About::BeginsElsewhere)
        }
        Remark::NotReported => mark(to, step, remark, About::NotReported),
        Remark::AnotherTip => mark(to, step, remark, About::AnotherTip),
        Remark::NotInFile => mark(to, step, remark, About::NotInFile),
        Remark::Loses(what) => {
            lose(&mut to.lost, what, remark.line);
            Ok(())
        }
        Remark::Ends => Ok(()),
    }
}

// The same, if there is a remark.
fn mark_if(
    to: &mut Marking,
    step: u64,
    remark: Option<NumberedRemark>,
    cause: Cause,
) -> Result<(), NoMemory>
    ensures { OnOk result (marks_in to.new ≡ marked_if (marks_in to.old) step remark cause) }
{
    match remark {
        Some(remark) => mark_as(to, step, &remark, cause),
        None => Ok(()),
    }
}

// A way was gone in a step.
fn go_way(to: &mut Marking, step: u64) -> Result<(), NoMemory>
    ensures { OnOk result (marks_in to.new ≡ gone_by (marks_in to.old) step true) }
{
    let begins = to.begins;
    to.begins = false;
    if !begins {
        return Ok(());
    }
    to.elsewhere.push(step)?;
    Ok(())
}

// A statement that is a way or not was carried out in a step.
fn go(to: &mut Marking, step: u64, ways: bool) -> Result<(), NoMemory>
    ensures { OnOk result (marks_in to.new ≡ gone_by (marks_in to.old) step ways) }
{
    if ways { go_way(to, step) } else { Ok(()) }
}

// Behind a step something else is known.
fn learn(to: &mut Marking, step: u64, known: Known) -> Result<(), NoMemory>
    ensures { OnOk result (marks_in to.new ≡ learned (marks_in to.old) step known) }
{
    to.known = known;
    to.changes.push(Knowing { step, known })?;
    Ok(())
}

// Behind a step with a statement on a line this is known.
fn know(to: &mut Marking, step: u64, line: u32, known: Known) -> Result<(), NoMemory>
    ensures { OnOk result (marks_in to.new ≡ known_by (marks_in to.old) step line known) }
{
    if line == 1 {
        return Ok(());
    }
    if is_same(to.known, known) {
        return Ok(());
    }
    learn(to, step, known)
}

impl Follows<Marking> for Marker<'_> {
    type Before = Cause;

    type Fault = NoMemory;

    ghost Fits = { λ s part c. Unit {0} };

    ghost Looked = { λ s b w statement. b ≡ cause_in w.variables };

    ghost Has = { λ s tables from to ps. HasMarked s.remarks.now s.table.now from to ps };

    ghost Broke = { λ s tables from to ps p f. Unit {0} };

    ghost nothing = { λ s tables x is. refl };

    fn look(&self, world: &World, _statement: &BorrowedStatement<'_>) -> Cause {
        cause_in(world.variables())
    }

    fn see(
        &self,
        before: Cause,
        count: u64,
        number: u32,
        statement: &BorrowedStatement<'_>,
        world: &World,
        _next: u32,
        to: &mut Marking,
    ) -> Result<(), NoMemory> {
        mark_if(to, count, remark_at(self.table, number as usize), before)?;
        go(to, count, is_way(&statement.op))?;
        know(to, count, statement.line, known_in(world.variables()))
    }
}

// Before the first step.
fn unmarked(alloc: Global) -> Marking
    ensures { marks_in result ≡ unmarked }
{
    let known = Known {
        frame: true,
        mode: true,
        table: true,
        place: true,
    };
    Marking {
        lost: [0; CAUSES],
        marks: Vec::new(alloc),
        begins: false,
        elsewhere: Vec::new(alloc),
        known,
        changes: Vec::new(alloc),
    }
}

// Runs a machine that stands at the start, and marks.
fn mark_run<P: Part>(
    alloc: Global,
    loaded: &Loaded<'_>,
    machine: &mut Machine<'_, P>,
    steps: u64,
    remarks: &[NumberedRemark],
    to: &mut Marking,
) -> Result<Ran, NoMemory>
    requires { machine.old ≡ started machine.old.part loaded.now }
    ensures run { IfOk result (λ ran. HasRun steps machine.old machine.new ran) }
    ensures marked { IfOk result (λ ran. marks_in to.new ≡ marked_behind remarks.now (marks_in to.old) (passages machine.old.part loaded.now ran.done)) }
{
    let table = table_of(alloc, remarks, loaded.statement_count())?;
    let marker = Marker {
        remarks,
        table: table.as_slice(),
    };
    follow_run(alloc, loaded, machine, steps, &marker, to)
}

/// Runs a loaded code for at most so many steps beside a workpiece, and marks what its steps report by these remarks, which ways begin elsewhere, and what is known. Of
/// several remarks on a statement the first one reports.
///
/// Errors: see `Unfinished`; nothing is written here.
pub fn mark_remarks<P: Part>(
    alloc: Global,
    part: &P,
    loaded: &Loaded<'_>,
    steps: u64,
    remarks: &[NumberedRemark],
) -> Result<Marking, Unfinished>
    ensures marked { IfOk result (λ x. marks_in x ≡ marks_of remarks.now (P.part part.now) loaded.now steps) }
    ensures fault { IfErr result (λ f. IsNotCounted (P.part part.now) loaded.now steps f) }
{
    let mut machine = match Machine::new(alloc, loaded, part) {
        Ok(machine) => machine,
        Err(_) => return Err(Unfinished::NoMemory),
    };
    let mut marking = unmarked(alloc);
    let ran = match mark_run(alloc, loaded, &mut machine, steps, remarks, &mut marking) {
        Ok(ran) => ran,
        Err(_) => return Err(Unfinished::NoMemory),
    };
    match ran.end {
        End::NoMemory => Err(Unfinished::Memory { done: ran.done }),
        End::Count => Ok(marking),
        End::Stopped => Ok(marking),
    }
}
