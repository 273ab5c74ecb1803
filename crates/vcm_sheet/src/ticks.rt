//! Where the ticks at the frames of views stand.

ghost use Rattle.std.specs.Prelude.{◌≡◌, ◌++◌, ◌<◌, true, IfOk, OnOk};
ghost use Rattle.std.specs.List.{AllByRecursion};
ghost use Rattle.vcm_sheet.specs.Ticks.{is_tick, tick_at, first_from, tick_step, first_multiple, multiple_after, ticks_of, IsStep};

use std::alloc::Global;
use vcm_num::NoMemory;

/// The most ticks of an axis.
const MOST_TICKS: usize = 64;

/// The distances that ticks may have, in micrometres.
const STEPS: [i64; 24] = [
    50, 100, 200, 500, 1000, 2000, 5000, 10000, 20000, 50000, 100000, 200000, 500000, 1000000,
    2000000, 5000000, 10000000, 20000000, 50000000, 100000000, 200000000, 500000000, 1000000000,
    2000000000,
];

// The first of some distances that is at least so great, or else the last distance.
fn first_from(least: i64, steps: &[i64]) -> i64
    ensures { result ≡ first_from least steps.now }
{
    for step in steps {
        if least <= *step {
            return *step;
        }
    }
    5_000_000_000
}

/// The distance of ticks that are at least so far apart, in micrometres: 50, 100, 200, 500 and so on.
pub(crate) fn tick_step(least: i64) -> i64
    ensures step { result ≡ tick_step least }
    ensures range { IsStep result }
{
    first_from(least, &STEPS).max(1)
}

/// Between which numbers ticks stand, and how far apart, in micrometres.
#[derive(Clone, Copy)]
pub struct Ruler {
    pub low: i64,
    pub high: i64,
    pub step: i64,
}

// Whether a number is a multiple of the step, and lies from the low to the high number.
fn is_tick(ruler: Ruler, at: i64) -> bool
    requires { IsStep ruler.step }
    ensures { result ≡ is_tick ruler at }
{
    ruler.low <= at && at <= ruler.high && at.rem_euclid(ruler.step) == 0
}

// Appends a tick at a number, if one stands there.
fn push_tick(ticks: &mut Vec<i64>, ruler: Ruler, at: i64) -> Result<(), NoMemory>
    requires { IsStep ruler.step }
    ensures { OnOk result (ticks.new.items ≡ ticks.old.items ++ tick_at ruler at) }
{
    if is_tick(ruler, at) {
        ticks.push(at)?;
    }
    Ok(())
}

// The multiple of the step at the low number or next below it.
fn first_multiple(ruler: Ruler) -> i64
    requires { IsStep ruler.step }
    ensures { result ≡ first_multiple ruler }
{
    ruler.low.saturating_sub(ruler.low.rem_euclid(ruler.step))
}

// The multiple that is so many steps further.
fn multiple_after(ruler: Ruler, turn: usize) -> i64
    requires step { IsStep ruler.step }
    requires turn { turn < 64 }
    ensures { result ≡ multiple_after ruler turn }
{
    first_multiple(ruler).saturating_add(ruler.step.saturating_mul(turn as i64))
}

/// The multiples of a step from one number to another one, in micrometres, 64 at most: where the ticks of an axis stand.
///
/// # Errors
///
/// Out of memory.
pub(crate) fn ticks_of(alloc: Global, ruler: Ruler) -> Result<Vec<i64>, NoMemory>
    requires { IsStep ruler.step }
    ensures ticks { IfOk result (λ v. v.items ≡ ticks_of ruler) }
    ensures all { IfOk result (λ v. AllByRecursion (λ z. is_tick ruler z ≡ true) v.items) }
{
    let mut ticks = Vec::new(alloc);
    for turn in 0..MOST_TICKS {
        push_tick(&mut ticks, ruler, multiple_after(ruler, turn))?;
    }
    Ok(ticks)
}
