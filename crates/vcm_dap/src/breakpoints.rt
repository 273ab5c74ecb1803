//! The request for breakpoints on lines.

ghost use Rattle.std.specs.Prelude.{◌≡◌, ◌<◌, ◌+◌, ◌^◌, true, map, is_some, option_map, option_and_then, IfOk};
ghost use Rattle.json.specs.Value.{value_view, items_view};
ghost use Rattle.vcm_dap.specs.Asked.{has_text, has_condition, IsNumber, line_value, AsksLine, AskLines, items_in, listed_breakpoints};
ghost use Rattle.vcm_dap.specs.Lines.{settled};
ghost use Rattle.vcm_dap.specs.Served.{path_of, same_path, IsBroken};
ghost use Rattle.vcm_dap.specs.Telling.{SaysSome};

use crate::breaking::{break_on, settled};
use crate::fault::DapFault;
use crate::output::put_place;
use crate::settings::Settings;
use crate::talk::Talk;
use json::Value;
use std::alloc::Global;
use std::io::Write;
use vcm_debug::Session;
use vcm_loader::Loaded;
use vcm_motion::Part;
use vcm_wire::{Message, Request};

// Whether an item has a text of this name that isn't empty.
fn has_text(item: &Value<'_>, name: &str) -> bool
    ensures { result ≡ has_text (value_view item.now) name.now }
{
    match item.get(name).and_then(Value::as_str) {
        Some(text) => !text.is_empty(),
        None => false,
    }
}

/// Whether a breakpoint says more than where it is.
pub(crate) fn has_condition(item: &Value<'_>) -> bool
    ensures { result ≡ has_condition (value_view item.now) }
{
    has_text(item, "condition") || has_text(item, "hitCondition") || has_text(item, "logMessage")
}

// The line of an item of `breakpoints` or of `lines`, as the client counts it.
fn line_of(item: &Value<'_>) -> Option<u64>
    ensures { IsNumber (line_value (value_view item.now)) result }
{
    match item.get("line") {
        Some(line) => line.as_u64(),
        None => item.as_u64(),
    }
}

// The line that an item asks for.
fn asked_line<W: Write>(talk: &Talk<W>, item: &Value<'_>) -> Option<u64>
    ensures { AsksLine talk.now.is_from_0 (value_view item.now) result }
{
    if has_condition(item) {
        return None;
    }
    match line_of(item) {
        Some(line) => Some(talk.line_in(line)),
        None => None,
    }
}

// The list of what is asked for.
fn asked_list<'v, 'a>(request: &Request<'v, 'a>) -> Option<&'v Value<'a>>
    ensures { option_map (λ v. value_view v.now) result ≡ listed_breakpoints (value_view request.now.message.now) }
{
    match request.argument("breakpoints") {
        Some(list) => Some(list),
        None => request.argument("lines"),
    }
}

// The path of the file that a request speaks of.
fn path_of<'v>(request: &Request<'v, '_>) -> Option<&'v str>
    ensures { option_map (λ t. t.now) result ≡ path_of (value_view request.now.message.now) }
{
    request.argument("source")?.get("path")?.as_str()
}

// Whether two paths are there, and are the same.
fn same_path(path: Option<&str>, other: Option<&str>) -> bool
    ensures { result ≡ same_path (option_map (λ t. t.now) path.entry) (option_map (λ t. t.now) other.entry) }
{
    match path {
        Some(path) => match other {
            Some(other) => path == other,
            None => false,
        },
        None => false,
    }
}

// Whether the request speaks of the text that is shown.
fn is_of_source(settings: &Settings<'_>, request: &Request<'_, '_>) -> bool
    ensures { result ≡ same_path (path_of (value_view request.now.message.now)) settings.now.source }
{
    same_path(path_of(request), settings.source)
}

// Whether lines are put as several statements.
fn is_by_lines(settings: &Settings<'_>) -> bool
    ensures { result ≡ is_some settings.now.told }
{
    settings.whole.is_some()
}

// The lines that are asked for.
fn asked_lines<W: Write>(talk: &Talk<W>, items: &[Value<'_>]) -> Result<Vec<Option<u64>>, DapFault>
    ensures { IfOk result (λ ls. AskLines talk.now.is_from_0 (items_view items.now) ls.items) }
{
    let mut lines = Vec::with_capacity(talk.alloc(), items.len())?;
    for item in items {
        lines.push(asked_line(talk, item))?;
    }
    Ok(lines)
}

// Where a breakpoint that is asked for comes to stand.
fn place_of(loaded: &Loaded<'_>, asked: Option<u64>) -> Option<u32>
    ensures { result ≡ option_and_then (settled loaded.now.statements) asked }
{
    match asked {
        Some(line) => settled(loaded, line),
        None => None,
    }
}

// Where the breakpoints that are asked for come to stand.
fn places_of(
    alloc: Global,
    loaded: &Loaded<'_>,
    asked: &[Option<u64>],
) -> Result<Vec<Option<u32>>, DapFault>
    ensures { IfOk result (λ ps. ps.items ≡ map (option_and_then (settled loaded.now.statements)) asked.now) }
{
    let places = asked
        .iter()
        .map(|line| place_of(loaded, *line))
        .collect(alloc)?;
    Ok(places)
}

/// Puts a breakpoint that isn't set, and why.
pub(crate) fn put_unverified(message: &mut Message, why: &str) -> Result<(), DapFault> {
    message.begin_item()?;
    message.flag("verified", false)?;
    message.text("message", why)?;
    message.end()?;
    Ok(())
}

// Puts a breakpoint, where it came to stand.
fn put_breakpoint<W: Write>(
    talk: &Talk<W>,
    settings: &Settings<'_>,
    item: &Value<'_>,
    place: Option<u32>,
    message: &mut Message,
) -> Result<(), DapFault> {
    if has_condition(item) {
        return put_unverified(message, "vcm has no conditions on breakpoints");
    }
    let Some(line) = place else {
        return put_unverified(message, "no statement on this line or below");
    };
    message.begin_item()?;
    message.flag("verified", true)?;
    put_place(talk, settings, line, message)?;
    message.end()?;
    Ok(())
}

// Puts that no breakpoint is set in another file.
fn put_refused(items: &[Value<'_>], message: &mut Message) -> Result<(), DapFault> {
    message.begin_list("breakpoints")?;
    for _ in items {
        put_unverified(message, "vcm debugs another file")?;
    }
    message.end_list()?;
    Ok(())
}

// Answers that no breakpoint is set in another file.
fn refuse_each<W: Write>(
    talk: &mut Talk<W>,
    request: &Request<'_, '_>,
    items: &[Value<'_>],
) -> Result<(), DapFault>
    ensures { IfOk result (λ u. SaysSome talk.old talk.new) }
{
    let mut message = talk.answer(request)?;
    let put = put_refused(items, &mut message);
    talk.send_put(message, put)
}

// Puts the breakpoints of the program.
fn put_places<W: Write>(
    talk: &Talk<W>,
    settings: &Settings<'_>,
    items: &[Value<'_>],
    places: &[Option<u32>],
    message: &mut Message,
) -> Result<(), DapFault> {
    message.begin_list("breakpoints")?;
    for (item, place) in items.iter().zip(places.iter()) {
        put_breakpoint(talk, settings, item, *place, message)?;
    }
    message.end_list()?;
    Ok(())
}

// The answer for the breakpoints of the program.
fn answer_places<W: Write>(
    talk: &mut Talk<W>,
    settings: &Settings<'_>,
    request: &Request<'_, '_>,
    items: &[Value<'_>],
    places: &[Option<u32>],
) -> Result<(), DapFault>
    ensures { IfOk result (λ u. SaysSome talk.old talk.new) }
{
    let mut message = talk.answer(request)?;
    let put = put_places(talk, settings, items, places, &mut message);
    talk.send_put(message, put)
}

// Sets the breakpoints that are asked for, in place of all before, and tells where each came to stand.
fn replace<P: Part, W: Write>(
    talk: &mut Talk<W>,
    session: &mut Session<'_, P>,
    settings: &Settings<'_>,
    request: &Request<'_, '_>,
    items: &[Value<'_>],
) -> Result<(), DapFault>
    requires { session.old.count + 1000000 < 2 ^ 64 }
    ensures broken { IfOk result (λ u. IsBroken true (is_some settings.now.told) talk.old.is_from_0 (items_view items.now) session.old session.new) }
    ensures same { session.new.count ≡ session.old.count }
    ensures says { IfOk result (λ u. SaysSome talk.old talk.new) }
{
    let asked = asked_lines(talk, items)?;
    let places = places_of(talk.alloc(), session.loaded(), &asked)?;
    let by_lines = is_by_lines(settings);
    break_on(talk.alloc(), session, &places, by_lines);
    answer_places(talk, settings, request, items, &places)
}

// Sets the breakpoints of these items, if the request speaks of the text that is shown.
fn set_items<P: Part, W: Write>(
    talk: &mut Talk<W>,
    session: &mut Session<'_, P>,
    settings: &Settings<'_>,
    request: &Request<'_, '_>,
    items: &[Value<'_>],
) -> Result<(), DapFault>
    requires { session.old.count + 1000000 < 2 ^ 64 }
    ensures broken { IfOk result (λ u. IsBroken (same_path (path_of (value_view request.now.message.now)) settings.now.source) (is_some settings.now.told) talk.old.is_from_0 (items_view items.now) session.old session.new) }
    ensures same { session.new.count ≡ session.old.count }
    ensures says { IfOk result (λ u. SaysSome talk.old talk.new) }
{
    if is_of_source(settings, request) {
        replace(talk, session, settings, request, items)
    } else {
        refuse_each(talk, request, items)
    }
}

/// Sets the breakpoints of the program's text that are asked for, in place of all before, and tells where each came to stand. Of another file it sets none.
pub(crate) fn set_breakpoints<P: Part, W: Write>(
    talk: &mut Talk<W>,
    session: &mut Session<'_, P>,
    settings: &Settings<'_>,
    request: &Request<'_, '_>,
) -> Result<(), DapFault>
    requires { session.old.count + 1000000 < 2 ^ 64 }
    ensures broken { IfOk result (λ u. IsBroken (same_path (path_of (value_view request.now.message.now)) settings.now.source) (is_some settings.now.told) talk.old.is_from_0 (items_in (listed_breakpoints (value_view request.now.message.now))) session.old session.new) }
    ensures same { session.new.count ≡ session.old.count }
    ensures says { IfOk result (λ u. SaysSome talk.old talk.new) }
{
    match asked_list(request) {
        Some(Value::Array(items)) => set_items(talk, session, settings, request, items),
        _ => set_items(talk, session, settings, request, &[]),
    }
}
