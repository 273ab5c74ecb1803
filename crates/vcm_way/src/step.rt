//! What is known before a step, and the marks that it adds.

ghost use Rattle.std.specs.Prelude.{◌≡◌, ℕ, IsTrue};
ghost use Rattle.vcm_num.specs.Point.{is_near};
ghost use Rattle.vcm_code.specs.Checks.{OpFits};
ghost use Rattle.vcm_way.specs.Steps.{IsBefore, TaskEnds, listed};
ghost use Rattle.vcm_way.specs.Tasks.{marks_of};
ghost use Rattle.vcm_way.specs.Ways.{reason};

use crate::moving::marks_of_move;
use crate::task::{Task, task_of};
use crate::touching::marks_of_touch;
use vcm_fields::BorrowedStatement;
use vcm_marks::Mark;
use vcm_motion::Part;
use vcm_num::Point;
use vcm_part::PartData;
use vcm_probe::Settings;
use vcm_spec::{Stop, StopPlace};
use vcm_state::World;

/// The marks of one step. It takes no memory.
#[derive(Clone, Copy)]
pub enum StepMarks {
    Zero,
    One([Mark; 1]),
    Two([Mark; 2]),
    Three([Mark; 3]),
    Four([Mark; 4]),
    Six([Mark; 6]),
}

impl StepMarks {
    /// The marks, in the order of the way.
    pub fn as_slice(&self) -> &[Mark]
        ensures { result.now ≡ listed self.now }
    {
        match self {
            StepMarks::Zero => &[],
            StepMarks::One(marks) => marks,
            StepMarks::Two(marks) => marks,
            StepMarks::Three(marks) => marks,
            StepMarks::Four(marks) => marks,
            StepMarks::Six(marks) => marks,
        }
    }
}

/// What is known before a step: where the probe is, its settings, and where the statement sends it.
#[derive(Clone, Copy)]
pub struct Before {
    pub position: Point,
    pub settings: Settings,
    pub task: Task,
}

/// What is known before a statement is carried out.
pub fn look(world: &World, home: Point, statement: &BorrowedStatement<'_>) -> Before
    requires fits { (count : ℕ) × OpFits world.now.tables count statement.now.op }
    requires near { IsTrue (is_near world.now.state.position) }
    ensures { IsBefore home world.now.state statement.now result }
{
    Before {
        position: world.position(),
        settings: world.settings(),
        task: task_of(world, home, &statement.op),
    }
}

/// The reason of a stop.
pub fn reason(stop: Option<StopPlace>) -> Option<Stop>
    ensures { result ≡ reason stop }
{
    match stop {
        Some(place) => Some(place.stop),
        None => None,
    }
}

/// The marks that a step adds, beside a workpiece whose blocks are given too, if its statement had this stop.
pub fn marks_of_step<P: Part>(
    part: &P,
    blocks: &PartData,
    before: &Before,
    stop: Option<Stop>,
) -> StepMarks
    requires tie { P.part part.now ≡ blocks.now }
    requires near { IsTrue (is_near before.now.position) }
    requires ends { TaskEnds blocks.now before.now.position before.now.settings before.now.task stop }
    ensures { listed result ≡ marks_of blocks.now before.now.position before.now.settings before.now.task stop }
{
    match before.task {
        Task::Nowhere => StepMarks::Zero,
        Task::Straight(to) => marks_of_move(blocks, before.position, to, stop),
        Task::Measure(measuring) => marks_of_touch(
            part,
            blocks,
            before.settings,
            before.position,
            measuring,
            stop,
        ),
    }
}
