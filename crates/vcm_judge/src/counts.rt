//! How many programs fared how.

ghost use Rattle.std.specs.Prelude.{◌≡◌, ◌<◌, ◌^◌, length};
ghost use Rattle.vcm_judge.specs.Counting.{nothing_counted, with_outcome, counts_of, has_status, worst};

use crate::outcome::Outcome;

/// How many programs there are, and how many of them fared how.
#[derive(Clone, Copy)]
pub struct Counts {
    pub ended: u64,
    pub not_all_tried: u64,
    pub stopped: u64,
    pub out_of_steps: u64,
    pub refused: u64,
    pub no_memory: u64,
    pub device: u64,
}

// The counts with one program more.
fn with_outcome(counts: Counts, outcome: Outcome) -> Counts
    ensures { result ≡ with_outcome counts outcome }
{
    let mut counts = counts;
    match outcome {
        Outcome::Ended => counts.ended = counts.ended.saturating_add(1),
        Outcome::NotAllTried => counts.not_all_tried = counts.not_all_tried.saturating_add(1),
        Outcome::Stopped => counts.stopped = counts.stopped.saturating_add(1),
        Outcome::OutOfSteps => counts.out_of_steps = counts.out_of_steps.saturating_add(1),
        Outcome::Refused => counts.refused = counts.refused.saturating_add(1),
        Outcome::NoMemory => counts.no_memory = counts.no_memory.saturating_add(1),
        Outcome::Device => counts.device = counts.device.saturating_add(1),
    }
    counts
}

/// How many programs fared how.
pub fn count_outcomes(outcomes: &[Outcome]) -> Counts
    ensures { result ≡ counts_of nothing_counted outcomes.now }
{
    let mut counts = Counts {
        ended: 0,
        not_all_tried: 0,
        stopped: 0,
        out_of_steps: 0,
        refused: 0,
        no_memory: 0,
        device: 0,
    };
    for outcome in outcomes {
        counts = with_outcome(counts, *outcome);
    }
    counts
}

// Whether a program has this exit status.
fn has_status(outcomes: &[Outcome], status: u8) -> bool
    ensures { result ≡ has_status status outcomes.now }
{
    for outcome in outcomes {
        if outcome.status() == status {
            return true;
        }
    }
    false
}

/// The exit status of several programs: the first of 6, 5, 1, 3, 4 and 7 that one of them has, else 0.
pub fn status_of_outcomes(outcomes: &[Outcome]) -> u8
    ensures { result ≡ worst outcomes.now }
{
    if has_status(outcomes, 6) {
        6
    } else if has_status(outcomes, 5) {
        5
    } else if has_status(outcomes, 1) {
        1
    } else if has_status(outcomes, 3) {
        3
    } else if has_status(outcomes, 4) {
        4
    } else if has_status(outcomes, 7) {
        7
    } else {
        0
    }
}
