//! Copies of a machine that a session keeps on its way, so that going back need not begin at the start. They change no answer.

ghost use Rattle.std.specs.Prelude.{◌≡◌, ◌≤◌, All, IfOk, OnOk, OnErr};
ghost use Rattle.vcm_code.specs.declared.code.Code.{Code};
ghost use Rattle.vcm_spec.specs.Workpiece.{Workpiece};
ghost use Rattle.vcm_machine.specs.Running.{Running, later, WantsMemory};
ghost use Rattle.vcm_debug.specs.Debugging.{after};
ghost use Rattle.vcm_debug.specs.inner.Going.{begun};

use std::alloc::Global;
use vcm_loader::Loaded;
use vcm_machine::{End, Machine};
use vcm_motion::Part;
use vcm_num::NoMemory;

/// The most copies that are kept.
const MOST: usize = 64;

/// How many steps lie between two copies at first.
const FIRST_SPACING: u64 = 16;

/// How many bytes the output lines of all copies may take besides as many as those of the machine.
const SPARE: usize = 1 << 20;

/// How many bytes an output line takes besides its own.
const LINE: usize = 40;

// About how many bytes the output lines of a machine take.
fn output_size<P: Part>(machine: &Machine<'_, P>) -> usize {
    let mut size: usize = 0;
    for line in machine.world().lines().as_slice() {
        size = size
            .saturating_add(LINE)
            .saturating_add(line.as_bytes().len());
    }
    size
}

/// A copy of a machine, and how many steps it has taken.
#[derive(Drop)]
pub(crate) struct Checkpoint<'a, P: Part> {
    pub(crate) count: u64,
    pub(crate) machine: Machine<'a, P>,
}

/// The copies that are kept, at multiples of the spacing.
#[derive(Drop)]
pub(crate) struct Checkpoints<'a, P: Part> {
    pub(crate) kept: Vec<Checkpoint<'a, P>>,
    pub(crate) spacing: u64,
}

impl<'a, P: Part> Checkpoints<'a, P> {
    // No copies, and room for as many as may be kept.
    pub(crate) fn new(alloc: Global) -> Result<Checkpoints<'a, P>, NoMemory>
        ensures { (part : Workpiece) (code : Code) → IfOk result (λ c. All (λ k. k.machine ≡ after part code k.count) c.kept.items) }
    {
        Ok(Checkpoints {
            kept: Vec::with_capacity(alloc, MOST)?,
            spacing: FIRST_SPACING,
        })
    }

    // Whether it is time for a copy after so many steps: the spacing goes into them, and no copy is as far.
    fn is_due(&self, count: u64) -> bool {
        let is_farther = match self.kept.last() {
            None => true,
            Some(last) => last.count < count,
        };
        is_farther && count.is_multiple_of(self.spacing)
    }

    // Whether there are as many copies as may be kept, or their output lines take more than is left to them beside those of a machine.
    fn is_full(&self, machine: &Machine<'a, P>) -> bool {
        let mut size: usize = 0;
        for kept in &self.kept {
            size = size.saturating_add(output_size(&kept.machine));
        }
        self.kept.len() >= MOST || size > output_size(machine).saturating_add(SPARE)
    }

    // Lets go of all copies.
    pub(crate) fn clear(&mut self)
        ensures { (m : Running) → All (λ k. k.machine ≡ begun m k.count) self.new.kept.items }
    {
        self.kept.clear();
    }

    // Lets go of the copies that don't stand at multiples of twice the spacing.
    fn thin(&mut self)
        ensures { (m : Running) → All (λ k. k.machine ≡ begun m k.count) self.old.kept.items → All (λ k. k.machine ≡ begun m k.count) self.new.kept.items }
    {
        let spacing = self.spacing.saturating_mul(2);
        self.kept.retain(|kept| kept.count.is_multiple_of(spacing));
        self.spacing = spacing;
    }

    // Keeps a copy of a machine that has taken so many steps. One that is refused is left out.
    fn keep(&mut self, alloc: Global, machine: &Machine<'a, P>, count: u64)
        ensures { (m : Running) → machine.now ≡ begun m count → All (λ k. k.machine ≡ begun m k.count) self.old.kept.items
            → All (λ k. k.machine ≡ begun m k.count) self.new.kept.items }
    {
        if let Ok(machine) = machine.copy(alloc) {
            let _ = self.kept.push(Checkpoint { count, machine });
        }
    }

    // Keeps a copy of a machine that has taken so many steps, if it is time for one. A copy that is refused is left out.
    pub(crate) fn pass(&mut self, alloc: Global, machine: &Machine<'a, P>, count: u64)
        ensures { (m : Running) → machine.now ≡ begun m count → All (λ k. k.machine ≡ begun m k.count) self.old.kept.items
            → All (λ k. k.machine ≡ begun m k.count) self.new.kept.items }
    {
        if !self.is_due(count) {
            return;
        }
        if self.is_full(machine) {
            self.thin();
        }
        if !self.is_full(machine) && self.is_due(count) {
            self.keep(alloc, machine, count);
        }
    }

    // One step of a machine. Where memory is refused, and copies are kept, these are let go, and it is tried once more.
    pub(crate) fn step(
        &mut self,
        alloc: Global,
        machine: &mut Machine<'a, P>,
    ) -> Result<(), NoMemory>
        ensures ok { OnOk result (machine.new ≡ later 1 machine.old) }
        ensures err { OnErr result ((machine.new ≡ machine.old) × WantsMemory machine.old) }
        ensures kept { (m : Running) → All (λ k. k.machine ≡ begun m k.count) self.old.kept.items → All (λ k. k.machine ≡ begun m k.count) self.new.kept.items }
    {
        match machine.step(alloc) {
            Ok(()) => Ok(()),
            Err(refused) if self.kept.is_empty() => Err(refused),
            Err(_) => {
                self.clear();
                machine.step(alloc)
            }
        }
    }

    // A machine after at most so many steps, with how many: a copy of the kept one that is the farthest of these, or a
    // machine at the start.
    pub(crate) fn nearest(
        &self,
        alloc: Global,
        loaded: &'a Loaded<'a>,
        part: &'a P,
        count: u64,
    ) -> Result<Checkpoint<'a, P>, NoMemory>
        requires kept { All (λ k. k.machine ≡ after (P.part part.now) loaded.now k.count) self.now.kept.items }
        ensures held { IfOk result (λ k. k.machine ≡ after (P.part part.now) loaded.now k.count) }
        ensures within { IfOk result (λ k. k.count ≤ count) }
    {
        for kept in self.kept.iter().rev() {
            if kept.count <= count {
                return Ok(Checkpoint {
                    count: kept.count,
                    machine: kept.machine.copy(alloc)?,
                });
            }
        }
        Ok(Checkpoint {
            count: 0,
            machine: Machine::new(alloc, loaded, part)?,
        })
    }
}

/// A machine of a code after so many steps, begun at the nearest copy.
pub(crate) fn machine_at<'a, P: Part>(
    alloc: Global,
    loaded: &'a Loaded<'a>,
    part: &'a P,
    checkpoints: &Checkpoints<'a, P>,
    count: u64,
) -> Result<Machine<'a, P>, NoMemory>
    requires { All (λ c. c.machine ≡ after (P.part part.now) loaded.now c.count) checkpoints.now.kept.items }
    ensures { IfOk result (λ m. m ≡ after (P.part part.now) loaded.now count) }
{
    let mut nearest = checkpoints.nearest(alloc, loaded, part, count)?;
    let left = count - nearest.count;
    match nearest.machine.run(alloc, left).end {
        End::NoMemory => {
            drop(nearest);
            Err(NoMemory)
        }
        End::Count => Ok(nearest.machine),
        End::Stopped => Ok(nearest.machine),
    }
}

/// The same. Where memory is refused, and copies are kept, these are let go, and it is tried once more.
pub(crate) fn machine_at_last<'a, P: Part>(
    alloc: Global,
    loaded: &'a Loaded<'a>,
    part: &'a P,
    checkpoints: &mut Checkpoints<'a, P>,
    count: u64,
) -> Result<Machine<'a, P>, NoMemory>
    requires { All (λ c. c.machine ≡ after (P.part part.now) loaded.now c.count) checkpoints.old.kept.items }
    ensures found { IfOk result (λ m. m ≡ after (P.part part.now) loaded.now count) }
    ensures kept { All (λ c. c.machine ≡ after (P.part part.now) loaded.now c.count) checkpoints.new.kept.items }
{
    match machine_at(alloc, loaded, part, checkpoints, count) {
        Ok(machine) => Ok(machine),
        Err(refused) if checkpoints.kept.is_empty() => Err(refused),
        Err(_) => {
            checkpoints.clear();
            machine_at(alloc, loaded, part, checkpoints, count)
        }
    }
}
