//! The marks that a step with several probes adds to the way.

ghost use Rattle.std.specs.Prelude.{◌≡◌, ◌<◌, map, length, IfSome, IsTrue};
ghost use Rattle.vcm_num.specs.Point.{is_near};
ghost use Rattle.vcm_way.specs.Steps.{TaskEnds, listed};
ghost use Rattle.vcm_way.specs.Tasks.{marks_of};
ghost use Rattle.vcm_turning.specs.Choosing.{tipped, part_by};

use vcm_motion::Part;
use vcm_part::PartData;
use vcm_probe_set::Probe;
use vcm_spec::Stop;
use vcm_way::{Before, StepMarks, marks_of_step};

/// The workpiece of the part file and those with the tips of the probes, in their order, each with its blocks.
#[derive(Clone, Copy)]
pub(crate) struct Beside<'a, P: Part> {
    pub(crate) own: &'a P,
    pub(crate) blocks: &'a PartData,
    pub(crate) probes: &'a [Probe],
    pub(crate) parts: &'a [P],
    pub(crate) each: &'a [PartData],
}

impl<'a, P: Part> Beside<'a, P> {
    /// The marks of a step that is taken with the probe of this place on, if one is, and whose statement had this stop.
    pub(crate) fn marks(&self, before: &Before, on: Option<usize>, stop: Option<Stop>) -> StepMarks
        requires tie { P.part self.now.own.now ≡ self.now.blocks.now }
        requires each { self.now.each.now ≡ map (λ p. tipped self.now.blocks.now p.tip) self.now.probes.now }
        requires ties { map P.part self.now.parts.now ≡ self.now.each.now }
        requires there { IfSome on (λ i. i < length self.now.probes.now) }
        requires near { IsTrue (is_near before.now.position) }
        requires ends { TaskEnds (part_by self.now.blocks.now self.now.probes.now on) before.now.position before.now.settings before.now.task stop }
        ensures { listed result ≡ marks_of (part_by self.now.blocks.now self.now.probes.now on) before.now.position before.now.settings before.now.task stop }
    {
        match on {
            None => marks_of_step(self.own, self.blocks, before, stop),
            Some(on) => marks_of_step(&self.parts[on], &self.each[on], before, stop),
        }
    }
}
