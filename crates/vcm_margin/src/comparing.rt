//! The run with the own tip and a machine with another one over one code, step by step.

ghost use Rattle.std.specs.Prelude.{◌≡◌, ◌<◌, ◌+◌, suc, ℕ, IfOk, IfSome, IfNone};
ghost use Rattle.vcm_spec.specs.Workpiece.{Workpiece};
ghost use Rattle.vcm_code.specs.declared.code.Code.{Code};
ghost use Rattle.vcm_code.specs.CodeTable.{CodeState};
ghost use Rattle.vcm_machine.specs.Running.{started, later};
ghost use Rattle.vcm_margin.specs.Alike.{reached, measures, next_place, IsAlike, GoAlike, Differ, DifferFirst};
ghost use Rattle.vcm_margin.specs.inner.Kept.{Shows};
ghost use Rattle.vcm_margin.specs.inner.Stepped.{HaveGone};

use crate::difference::{Difference, Seen, StatementPlace};
use crate::own::{Behind, OwnRun, actual_of, measured};
use crate::same::{is_same_feature, is_same_stop};
use std::alloc::Global;
use vcm_loader::Loaded;
use vcm_machine::Machine;
use vcm_motion::Part;
use vcm_num::NoMemory;

// What differs, of what stands behind a step that measured a feature or none, at a place, and a machine that has taken it too.
fn differing<Q: Part>(
    which: Option<u16>,
    place: StatementPlace,
    own: Behind,
    other: &Machine<'_, Q>,
) -> Option<Difference>
    ensures differ { IfSome result (λ d. (c : Code) (before after : CodeState) → Shows which own after → which ≡ measures c before
        → place ≡ next_place c before → Differ c before after other.now.state d) }
    ensures alike { IfNone result ((after : CodeState) → Shows which own after → IsAlike which after other.now.state) }
{
    let stop = other.world().stop();
    if !is_same_stop(own.stop, stop) {
        return Some(Difference::Stop(stop));
    }
    let next = other.next();
    if own.next != next {
        return Some(Difference::Next(next));
    }
    let index = which?;
    let feature = actual_of(other, index);
    if is_same_feature(own.point, feature) {
        None
    } else {
        Some(Difference::Feature(index, feature, place))
    }
}

// One step more of both, and what differs behind it.
fn step_both<O: OwnRun, Q: Part>(
    alloc: Global,
    loaded: &Loaded<'_>,
    own: &mut O,
    other: &mut Machine<'_, Q>,
) -> Result<Option<Difference>, NoMemory>
    requires { other.old.code ≡ loaded.now }
    ensures gone { (part beside : Workpiece) (n k : ℕ) → k < n → HaveGone part beside loaded.now k (λ j. O.at own.old part loaded.now n j) other.old
        → IfOk result (λ d. IfNone d (HaveGone part beside loaded.now (k + 1) (λ j. O.at own.new part loaded.now n j) other.new)) }
    ensures differ { (part beside : Workpiece) (n k : ℕ) → k < n → HaveGone part beside loaded.now k (λ j. O.at own.old part loaded.now n j) other.old
        → IfOk result (λ d. IfSome d (Differ loaded.now (reached part loaded.now k) (reached part loaded.now (suc k)) other.new.state)) }
    ensures moved { IfOk result (λ d. other.new ≡ later 1 other.old) }
{
    let number = other.next();
    let statement = loaded.statement(number as usize);
    let which = measured(&statement.op);
    let line = statement.line;
    let behind = own.go_on(alloc, which)?;
    other.step(alloc)?;
    Ok(differing(which, StatementPlace { number, line }, behind, other))
}

/// Where the own run and a machine at the start of one code differ first in so many steps; the position is the machine's.
///
/// Errors: want of memory.
pub(crate) fn compare<O: OwnRun, Q: Part>(
    alloc: Global,
    loaded: &Loaded<'_>,
    own: &mut O,
    other: &mut Machine<'_, Q>,
    steps: u64,
) -> Result<Option<Seen>, NoMemory>
    requires { other.old ≡ started other.old.part loaded.now }
    ensures differ { (part : Workpiece) → O.at own.old part loaded.now steps 0 → IfOk result (λ d. IfSome d (DifferFirst part other.old.part loaded.now steps)) }
    ensures alike { (part : Workpiece) → O.at own.old part loaded.now steps 0 → IfOk result (λ d. IfNone d (GoAlike part other.old.part loaded.now steps)) }
{
    for step in 0..steps {
        match step_both(alloc, loaded, own, other)? {
            Some(what) => {
                let position = other.world().position();
                let steps = step + 1;
                return Ok(Some(Seen {
                    what,
                    steps,
                    position,
                }));
            }
            None => {}
        }
    }
    Ok(None)
}
