//! What the rows and events say of where a session stands.

ghost use Rattle.std.specs.Prelude.{◌≡◌, option_map, codes, IfOk};
ghost use Rattle.vcm_report.specs.Printed.{point_text, position_line, steps_line, no_stop_line, stopped_line};
ghost use Rattle.vcm_debug.specs.Debugging.{now};
ghost use Rattle.vcm_dap.specs.Untrying.{if_on, untried_at};

use crate::fault::DapFault;
use crate::settings::{Settings, Untried};
use std::alloc::Global;
use vcm_debug::Session;
use vcm_motion::Part;
use vcm_num::Point;
use vcm_report::{write_no_stop, write_point, write_position, write_steps, write_stop_line};

/// A point in millimetres.
pub(crate) fn point_text(alloc: Global, at: Point) -> Result<Vec<u8>, DapFault>
    ensures { IfOk result (λ text. text.items ≡ point_text (codes " ") at) }
{
    let mut text = Vec::new(alloc);
    write_point(at, b" ", &mut text)?;
    Ok(text)
}

/// The line that tells after how many steps there was no stop.
pub(crate) fn no_stop_text(alloc: Global, done: u64) -> Result<Vec<u8>, DapFault>
    ensures { IfOk result (λ text. text.items ≡ no_stop_line done) }
{
    let mut text = Vec::new(alloc);
    write_no_stop(done, &mut text)?;
    Ok(text)
}

/// The line that tells where the probe is.
pub(crate) fn position_text(alloc: Global, at: Point) -> Result<Vec<u8>, DapFault>
    ensures { IfOk result (λ text. text.items ≡ position_line at) }
{
    let mut text = Vec::new(alloc);
    write_position(at, &mut text)?;
    Ok(text)
}

/// The line that tells how many steps were done.
pub(crate) fn steps_text(alloc: Global, done: u64) -> Result<Vec<u8>, DapFault>
    ensures { IfOk result (λ text. text.items ≡ steps_line done) }
{
    let mut text = Vec::new(alloc);
    write_steps(done, &mut text)?;
    Ok(text)
}

/// The line of the stop, with its line feed, if it has stopped.
pub(crate) fn stop_line<P: Part>(
    alloc: Global,
    session: &Session<'_, P>,
) -> Result<Option<Vec<u8>>, DapFault>
    ensures { IfOk result (λ o. option_map (λ text. text.items) o ≡ option_map (stopped_line session.now.code.tables) (now session.now).world.stop) }
{
    let world = session.world();
    let Some(place) = world.stop() else {
        return Ok(None);
    };
    let mut text = Vec::new(alloc);
    write_stop_line(world.tables(), place, &mut text)?;
    Ok(Some(text))
}

/// What stands behind `stop ` in the line of a stop.
pub(crate) fn behind_stop(text: &[u8]) -> &[u8] {
    text.split_at(text.len().min(5)).1
}

// This, if it is of this line.
fn if_on(line: u32, untried: Untried) -> Option<Untried>
    ensures { result ≡ if_on line untried }
{
    if untried.line == line {
        Some(untried)
    } else {
        None
    }
}

// The first of these behind so many steps, if it is of this line.
fn untried_at(steps: u64, line: u32, untried: &[Untried]) -> Option<Untried>
    ensures { result ≡ untried_at steps line untried.now }
{
    for each in untried {
        if each.step > steps {
            return if_on(line, *each);
        }
    }
    None
}

/// The words for what isn't tried of the line of the next statement, if there is something: the first that a run comes by behind where the session stands.
pub(crate) fn untried_here<'s, P: Part>(
    session: &Session<'_, P>,
    settings: &Settings<'s>,
) -> Option<&'s [u8]> {
    let standing = session.standing();
    let Some(whole) = &settings.whole else {
        return None;
    };
    let untried = untried_at(standing.steps, standing.line, whole.untried)?;
    let words = whole.words.get(untried.words)?;
    Some(words.as_slice())
}
