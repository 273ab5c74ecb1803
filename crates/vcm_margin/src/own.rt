//! The run with the own tip, beside which each wider one is run: as it was kept once, or once more where it is too long to be kept.

ghost use Rattle.std.specs.Prelude.{◌≡◌, ◌<◌, ◌≤◌, ◌+◌, ℕ, IfOk, OnOk};
ghost use Rattle.vcm_spec.specs.Workpiece.{Workpiece};
ghost use Rattle.vcm_machine.specs.Running.{started};
ghost use Rattle.vcm_margin.specs.Alike.{measured_by, actual_in};
ghost use Rattle.vcm_margin.specs.inner.Kept.{IsKept, Shows};
ghost use Rattle.vcm_margin.specs.inner.Keeping.{IsKeeping};

use std::alloc::Global;
use vcm_code::Op;
use vcm_fields::BorrowedOp;
use vcm_loader::Loaded;
use vcm_machine::Machine;
use vcm_motion::Part;
use vcm_num::NoMemory;
use vcm_spec::{Feature, Simple, StopPlace};

/// The most steps of a run that is kept, in 4 bytes each.
pub(crate) const MOST_KEPT: u64 = 1_000_000;

/// What stands behind a step: its stop, its next statement, and the point that it measured.
#[derive(Clone, Copy)]
pub struct Behind {
    pub stop: Option<StopPlace>,
    pub next: u32,
    pub point: Option<Feature>,
}

/// The run with the own tip behind some of its steps.
pub trait OwnRun {
    ghost use Rattle.std.specs.Prelude.{◌≡◌, ℕ, suc, ◌<◌, IfOk};
    ghost use Rattle.vcm_spec.specs.Workpiece.{Workpiece};
    ghost use Rattle.vcm_code.specs.declared.code.Code.{Code};
    ghost use Rattle.vcm_margin.specs.Alike.{reached, measures};
    ghost use Rattle.vcm_margin.specs.inner.Kept.{Shows};

    /// Of so many steps of a code beside a workpiece so many are behind it.
    ghost at: { Self → Workpiece → Code → ℕ → ℕ → Type 0 };

    /// One step more, which measures a feature or none.
    ///
    /// Errors: want of memory.
    fn go_on(&mut self, alloc: Global, which: Option<u16>) -> Result<Behind, NoMemory>
        ensures { IfOk result (λ b. (part : Workpiece) (c : Code) (n k : ℕ) → at self.old part c n k → k < n → which ≡ measures c (reached part c k)
            → Shows which b (reached part c (suc k)) × at self.new part c n (suc k)) };
}

/// A run that is kept: the statement that is next behind each of its steps, the points that its PTMEAS measure, how many of its steps end without a stop,
/// and the stop behind the others.
#[derive(Drop)]
pub(crate) struct Trail {
    pub(crate) nexts: Vec<u32>,
    pub(crate) points: Vec<Option<Feature>>,
    pub(crate) running: u64,
    pub(crate) stop: Option<StopPlace>,
}

/// What is left of a run that is kept.
#[derive(Drop)]
pub(crate) struct Replay<'a> {
    pub(crate) nexts: &'a [u32],
    pub(crate) points: &'a [Option<Feature>],
    pub(crate) running: u64,
    pub(crate) stop: Option<StopPlace>,
}

/// The feature that a statement measures.
pub(crate) fn measured(op: &BorrowedOp<'_>) -> Option<u16>
    ensures { result ≡ measured_by op.now }
{
    match op {
        Op::Plain(Simple::PtMeas(feature, _, _, _, _)) => Some(*feature),
        _ => None,
    }
}

/// The feature of an index as a machine has measured it.
pub(crate) fn actual_of<P: Part>(machine: &Machine<'_, P>, index: u16) -> Option<Feature>
    ensures { result ≡ actual_in machine.now.state index }
{
    match machine.world().actual().get(index as usize) {
        Some(feature) => *feature,
        None => None,
    }
}

/// What stands behind the last step of a machine, which measured a feature or none.
pub(crate) fn shown_by<P: Part>(machine: &Machine<'_, P>, which: Option<u16>) -> Behind
    ensures { Shows which result machine.now.state }
{
    let stop = machine.world().stop();
    let next = machine.next();
    let point = match which {
        Some(index) => actual_of(machine, index),
        None => None,
    };
    Behind { stop, next, point }
}

impl<'a, P: Part> OwnRun for Machine<'a, P> {
    ghost use Rattle.std.specs.Prelude.{◌≡◌};
    ghost use Rattle.vcm_machine.specs.Running.{started, later};

    ghost at = { λ m part c n k. m ≡ later k (started part c) };

    fn go_on(&mut self, alloc: Global, which: Option<u16>) -> Result<Behind, NoMemory> {
        self.step(alloc)?;
        Ok(shown_by(self, which))
    }
}

impl<'a> Replay<'a> {
    ghost use Rattle.std.specs.Prelude.{◌≡◌, ◌++◌, ◌∷◌, ◌-◌, ℕ, List, Option, Some};
    ghost use Rattle.vcm_spec.specs.declared.feature.Feature.{Feature};
    ghost use Rattle.vcm_margin.specs.inner.Kept.{IsStop, pointed};

    // The statement that is next behind the next step.
    fn next(&mut self) -> u32
        ensures next { (n : ℕ) (ns : List ℕ) → self.old.nexts.now ≡ n ∷ ns → (result ≡ n) × (self.new.nexts.now ≡ ns) }
        ensures points { self.new.points.now ≡ self.old.points.now }
        ensures running { self.new.running ≡ self.old.running }
        ensures stop { self.new.stop ≡ self.old.stop }
    {
        match self.nexts.split_first() {
            Some((first, others)) => {
                self.nexts = others;
                *first
            }
            None => 0,
        }
    }

    // The point that the next step measured, if it measured a feature.
    fn point(&mut self, which: Option<u16>) -> Option<Feature>
        ensures point { (p : Option Feature) (ps : List (Option Feature)) → self.old.points.now ≡ pointed which p ++ ps
            → (self.new.points.now ≡ ps) × ((i : ℕ) → which ≡ Some i → result ≡ p) }
        ensures nexts { self.new.nexts.now ≡ self.old.nexts.now }
        ensures running { self.new.running ≡ self.old.running }
        ensures stop { self.new.stop ≡ self.old.stop }
    {
        if which.is_none() {
            return None;
        }
        match self.points.split_first() {
            Some((first, others)) => {
                self.points = others;
                *first
            }
            None => None,
        }
    }

    // The stop behind the next step.
    fn stop(&mut self) -> Option<StopPlace>
        ensures stop { IsStop result self.old.stop 0 self.old.running }
        ensures running { self.new.running ≡ self.old.running - 1 }
        ensures same { self.new.stop ≡ self.old.stop }
        ensures nexts { self.new.nexts.now ≡ self.old.nexts.now }
        ensures points { self.new.points.now ≡ self.old.points.now }
    {
        if self.running > 0 {
            self.running -= 1;
            None
        } else {
            self.stop
        }
    }
}

impl<'a> OwnRun for Replay<'a> {
    ghost use Rattle.std.specs.Prelude.{◌-◌};
    ghost use Rattle.vcm_margin.specs.inner.Kept.{IsKept};

    ghost at = { λ r part c n k. IsKept part c k (n - k) r.nexts.now r.points.now r.running r.stop };

    fn go_on(&mut self, alloc: Global, which: Option<u16>) -> Result<Behind, NoMemory> {
        let next = self.next();
        let point = self.point(which);
        let stop = self.stop();
        Ok(Behind { stop, next, point })
    }
}

impl Trail {
    ghost use Rattle.std.specs.Prelude.{◌≡◌, ◌<◌, ◌++◌, ◌∷◌, [], OnOk};
    ghost use Rattle.vcm_margin.specs.inner.Kept.{pointed, running_behind, stop_behind};

    /// The whole run.
    pub(crate) fn replay(&self) -> Replay<'_>
        ensures nexts { result.nexts.now ≡ self.now.nexts.items }
        ensures points { result.points.now ≡ self.now.points.items }
        ensures running { result.running ≡ self.now.running }
        ensures stop { result.stop ≡ self.now.stop }
    {
        Replay {
            nexts: &self.nexts,
            points: &self.points,
            running: self.running,
            stop: self.stop,
        }
    }

    // One step more.
    fn put(&mut self, which: Option<u16>, behind: Behind) -> Result<(), NoMemory>
        requires { self.old.running < 1000000 }
        ensures nexts { OnOk result (self.new.nexts.items ≡ self.old.nexts.items ++ behind.next ∷ []) }
        ensures points { OnOk result (self.new.points.items ≡ self.old.points.items ++ pointed which behind.point) }
        ensures running { OnOk result (self.new.running ≡ running_behind self.old.running self.old.stop behind.stop) }
        ensures stop { OnOk result (self.new.stop ≡ stop_behind self.old.stop behind.stop) }
    {
        self.nexts.push(behind.next)?;
        if which.is_some() {
            self.points.push(behind.point)?;
        }
        if self.stop.is_none() {
            match behind.stop {
                None => self.running += 1,
                Some(_) => self.stop = behind.stop,
            }
        }
        Ok(())
    }
}

// One step more of a machine, kept.
fn keep_step<P: Part>(
    alloc: Global,
    loaded: &Loaded<'_>,
    machine: &mut Machine<'_, P>,
    trail: &mut Trail,
) -> Result<(), NoMemory>
    requires code { machine.old.code ≡ loaded.now }
    requires few { trail.old.running < 1000000 }
    ensures { OnOk result ((part : Workpiece) (n : ℕ)
        → IsKeeping part loaded.now n machine.old trail.old.nexts.items trail.old.points.items trail.old.running trail.old.stop
        → IsKeeping part loaded.now (n + 1) machine.new trail.new.nexts.items trail.new.points.items trail.new.running trail.new.stop) }
{
    let statement = loaded.statement(machine.next() as usize);
    let which = measured(&statement.op);
    machine.step(alloc)?;
    trail.put(which, shown_by(machine, which))?;
    Ok(())
}

// So many steps of a machine at the start of a loaded code, kept.
fn keep_steps<P: Part>(
    alloc: Global,
    loaded: &Loaded<'_>,
    machine: &mut Machine<'_, P>,
    steps: u64,
) -> Result<Trail, NoMemory>
    requires start { machine.old ≡ started machine.old.part loaded.now }
    requires few { steps ≤ 1000000 }
    ensures { IfOk result (λ t. IsKept machine.old.part loaded.now 0 steps t.nexts.items t.points.items t.running t.stop) }
{
    let mut trail = Trail {
        nexts: Vec::with_capacity(alloc, steps as usize)?,
        points: Vec::new(alloc),
        running: 0,
        stop: None,
    };
    for _ in 0..steps {
        keep_step(alloc, loaded, machine, &mut trail)?;
    }
    Ok(trail)
}

/// The run of a loaded code beside a workpiece for so many steps, kept.
///
/// Errors: want of memory.
pub(crate) fn kept<P: Part>(
    alloc: Global,
    loaded: &Loaded<'_>,
    part: &P,
    steps: u64,
) -> Result<Trail, NoMemory>
    requires { steps ≤ 1000000 }
    ensures { IfOk result (λ t. IsKept (P.part part.now) loaded.now 0 steps t.nexts.items t.points.items t.running t.stop) }
{
    let mut machine = Machine::new(alloc, loaded, part)?;
    keep_steps(alloc, loaded, &mut machine, steps)
}
