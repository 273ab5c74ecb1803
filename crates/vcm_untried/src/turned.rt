//! Runs that turn their head, whose remarks are counted.

ghost use Rattle.std.specs.Prelude.{◌≡◌, List, length, IfOk};
ghost use Rattle.vcm_remarks.specs.declared.remark.NumberedRemark.{NumberedRemark as Noted};
ghost use Rattle.vcm_turning.specs.Machine.{turner, HasRunTurned};
ghost use Rattle.vcm_turning.specs.Steps.{turned_steps};
ghost use Rattle.vcm_untried.specs.Causes.{cause_in};
ghost use Rattle.vcm_untried.specs.Turned.{passages_of, AreCountedTurned};
ghost use Rattle.vcm_untried.specs.inner.Following.{HasCounted, IsKept, IsOpening, readings};

use crate::causes::cause_in;
use crate::counting::{
    Counter, Counts, Progress, count_at, opening, readings, remark_at, table_of,
};
use crate::telling::tell;
use std::alloc::Global;
use vcm_fields::BorrowedStatement;
use vcm_loader::Loaded;
use vcm_motion::Part;
use vcm_num::NoMemory;
use vcm_remarks::{Cause, NumberedRemark};
use vcm_state::World;
use vcm_turning::{Ended, FollowsTurns, Ran, Turn, Turning, follow_turns};

impl FollowsTurns<Progress> for Counter<'_> {
    type Before = Cause;

    type Fault = NoMemory;

    ghost Fits = { λ s part ps c. Unit {0} };

    ghost Looked = { λ s b w on statement. b ≡ cause_in w.variables };

    ghost Has = { λ s tables from to ss. HasCounted s.remarks.now s.table.now from to (passages_of ss) };

    ghost Broke = { λ s tables from to ss p f. Unit {0} };

    ghost nothing = { λ s tables x is. is.opening };

    fn look(&self, world: &World, _on: Option<usize>, _statement: &BorrowedStatement<'_>) -> Cause {
        cause_in(world.variables())
    }

    fn see(
        &self,
        before: Cause,
        _count: u64,
        number: u32,
        _on: Option<usize>,
        _statement: &BorrowedStatement<'_>,
        _world: &World,
        _next: u32,
        _turn: Turn,
        to: &mut Progress,
    ) -> Result<(), NoMemory> {
        let at = number as usize;
        count_at(&mut to.taken, at);
        match remark_at(self.table, at) {
            Some(remark) => tell(&mut to.told, &remark, before),
            None => Ok(()),
        }
    }
}

// Takes the steps of a machine that stands at the start, and counts.
fn count_steps<P: Part>(
    alloc: Global,
    loaded: &Loaded<'_>,
    machine: &mut Turning<'_, P>,
    steps: u64,
    remarks: &[NumberedRemark],
    progress: &mut Progress,
) -> Result<Ran, NoMemory>
    requires start { machine.old ≡ turner machine.old.part machine.old.probes machine.old.variable loaded.now }
    requires opening { IsOpening remarks.now (length loaded.now.statements) progress.old }
    ensures run { IfOk result (λ ran. HasRunTurned steps machine.old.part machine.old.probes machine.old.variable loaded.now machine.new ran) }
    ensures kept { IfOk result (λ ran. IsKept remarks.now (length loaded.now.statements)
        (passages_of (turned_steps machine.old.part machine.old.probes machine.old.variable loaded.now ran.done)) progress.new) }
{
    let table = table_of(alloc, remarks, loaded.statement_count())?;
    let counter = Counter {
        remarks,
        table: table.as_slice(),
    };
    follow_turns(alloc, loaded, machine, steps, &counter, progress)
}

// Whether memory was refused to a step.
fn is_refused(end: Ended) -> bool {
    matches!(end, Ended::NoMemory)
}

// What was counted for remarks.
fn counts_with(
    alloc: Global,
    progress: Progress,
    remarks: &[NumberedRemark],
) -> Result<Counts, NoMemory>
    ensures { IfOk result (λ x. (x.taken.items ≡ readings progress.taken.items remarks.now) × (x.told ≡ progress.told)) }
{
    let Progress { taken, told } = progress;
    let taken = readings(alloc, taken.as_slice(), remarks)?;
    Ok(Counts { taken, told })
}

/// Takes at most so many steps of a machine that turns its head and stands at the start of a loaded code, and counts how often the statement of each remark is carried
/// out, and what is reported of it. Of several remarks on a statement the first one reports.
///
/// Errors: want of memory, also to a statement that makes an output line.
pub fn count_turns<P: Part>(
    alloc: Global,
    loaded: &Loaded<'_>,
    machine: &mut Turning<'_, P>,
    steps: u64,
    remarks: &[NumberedRemark],
) -> Result<Counts, NoMemory>
    requires start { machine.old ≡ turner machine.old.part machine.old.probes machine.old.variable loaded.now }
    ensures { IfOk result (AreCountedTurned machine.old.part machine.old.probes machine.old.variable loaded.now steps remarks.now) }
{
    let mut progress = opening(alloc, loaded.statement_count())?;
    let ran = count_steps(alloc, loaded, machine, steps, remarks, &mut progress)?;
    if is_refused(ran.end) {
        return Err(NoMemory);
    }
    counts_with(alloc, progress, remarks)
}
