//! Breakpoints on source lines.

ghost use Rattle.std.specs.Prelude.{◌≡◌, ◌<◌, ◌+◌, ◌^◌, length, slice_set, false};
ghost use Rattle.vcm_dap.specs.Lines.{lesser, nearer, settled, cleared, with_place, with_places, at_heads, if_by_lines};
ghost use Rattle.vcm_dap.specs.inner.Thinning.{cleared_if};

use std::alloc::Global;
use vcm_console::Command;
use vcm_debug::Session;
use vcm_loader::Loaded;
use vcm_motion::Part;

// The lesser of two lines, the first of which may be none.
fn lesser(least: Option<u32>, at: u32) -> u32
    ensures { result ≡ lesser least at }
{
    match least {
        Some(known) => known.min(at),
        None => at,
    }
}

// The lesser of the least line so far and another one, if this isn't above the wanted line.
fn nearer(line: u64, least: Option<u32>, at: u32) -> Option<u32>
    ensures { result ≡ nearer line least at }
{
    if u64::from(at) < line {
        least
    } else {
        Some(lesser(least, at))
    }
}

/// The least line, not above this one in the text, that a statement begins on.
pub(crate) fn settled(loaded: &Loaded<'_>, line: u64) -> Option<u32>
    ensures { result ≡ settled loaded.now.statements line }
{
    let mut least = None;
    let count = loaded.statement_count();
    for n in 0..count {
        let at = loaded.line(n);
        let next = nearer(line, least, at);
        least = next;
    }
    least
}

// Takes the breakpoint of a statement away.
fn clear<P: Part>(alloc: Global, session: &mut Session<'_, P>, number: usize)
    requires count { session.old.count + 1000000 < 2 ^ 64 }
    requires within { number < length session.old.code.statements }
    ensures { session.new ≡ record (session.old) { breakpoints = slice_set session.old.breakpoints number false } }
{
    let _ = session.command(alloc, &Command::Clear(number as u64));
}

// Takes all breakpoints away.
fn clear_all<P: Part>(alloc: Global, session: &mut Session<'_, P>)
    requires { session.old.count + 1000000 < 2 ^ 64 }
    ensures { session.new ≡ cleared session.old }
{
    let count = session.loaded().statement_count();
    for n in 0..count {
        clear(alloc, session, n);
    }
}

// Gives each statement of a line a breakpoint, if there is one.
fn break_at<P: Part>(session: &mut Session<'_, P>, place: Option<u32>)
    ensures { session.new ≡ with_place session.old place }
{
    if let Some(line) = place {
        session.set_line(u64::from(line), true);
    }
}

// Gives each statement of these lines a breakpoint, and takes all others away.
fn break_on_all<P: Part>(alloc: Global, session: &mut Session<'_, P>, places: &[Option<u32>])
    requires { session.old.count + 1000000 < 2 ^ 64 }
    ensures { session.new ≡ with_places (cleared session.old) places.now }
{
    clear_all(alloc, session);
    for place in places {
        break_at(session, *place);
    }
}

// Takes the breakpoint of a statement away, if it stands on the line of the one before it.
fn clear_if<P: Part>(alloc: Global, session: &mut Session<'_, P>, number: usize, same: bool)
    requires count { session.old.count + 1000000 < 2 ^ 64 }
    requires within { number < length session.old.code.statements }
    ensures { session.new ≡ cleared_if same number session.old }
{
    if same {
        clear(alloc, session, number);
    }
}

// Takes the breakpoints of all statements away that stand on the line of the one before them.
fn keep_heads<P: Part>(alloc: Global, session: &mut Session<'_, P>)
    requires { session.old.count + 1000000 < 2 ^ 64 }
    ensures { session.new ≡ at_heads session.old }
{
    let count = session.loaded().statement_count();
    let mut before = 0;
    for n in 0..count {
        let line = session.loaded().line(n);
        clear_if(alloc, session, n, line == before);
        before = line;
    }
}

/// Gives the statements of these lines a breakpoint, or where lines are put as several statements the first ones alone, and takes all others away.
pub(crate) fn break_on<P: Part>(
    alloc: Global,
    session: &mut Session<'_, P>,
    places: &[Option<u32>],
    by_lines: bool,
)
    requires { session.old.count + 1000000 < 2 ^ 64 }
    ensures { session.new ≡ if_by_lines by_lines (with_places (cleared session.old) places.now) }
{
    break_on_all(alloc, session, places);
    if by_lines {
        keep_heads(alloc, session);
    }
}
