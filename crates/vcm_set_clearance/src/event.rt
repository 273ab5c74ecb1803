//! What happens in a run that turns its head.

ghost use Rattle.std.specs.Prelude.{IsTrue};
ghost use Rattle.vcm_num.specs.Point.{is_near};

use vcm_marks::Moment;
use vcm_num::Point;
use vcm_way::Gone;

/// A way of the tip's centre with its step, by the probe of this place, counted from 0 in the order of the file; and whether it is the first way of the run, or the
/// first behind a change of the probe.
#[derive(Clone, Copy)]
pub struct ProbeWay {
    pub place: Moment,
    pub gone: Gone,
    pub probe: usize,
    pub is_first: bool,
}

/// A change of the probe behind a step: the place of the probe that was on, if one was, and of the one that is on from there; where the centre of the tip stood, and
/// where it stands then; and where the pivot of the head lies, which is at most 1,000,000,000 micrometres from 0.
#[derive(Clone, Copy)]
pub struct Change {
    pub place: Moment,
    pub from: Option<usize>,
    pub to: usize,
    pub stood: Point,
    pub stands: Point,
    pub pivot: Point,
    ghost near: { IsTrue (is_near pivot) },
}

/// What happens: a way, or a change of the probe.
#[derive(Clone, Copy)]
pub enum Event {
    Way(ProbeWay),
    Turn(Change),
}
