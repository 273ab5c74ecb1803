//! Watches: the requests for breakpoints on the change of variables.

ghost use Rattle.std.specs.Prelude.{◌≡◌, ◌<◌, ◌+◌, ◌^◌, length, codes, Some, option_map, slice_get, IfOk};
ghost use Rattle.json.specs.Value.{value_view, items_view};
ghost use Rattle.vcm_wire.specs.Requests.{argument};
ghost use Rattle.vcm_console.specs.declared.command.Command.TheVariants.{Watch, Unwatch};
ghost use Rattle.vcm_debug.specs.Session.{answer, variable_of};
ghost use Rattle.vcm_dap.specs.Asked.{items_in, is_write, is_plain, shown_by, variable_named, asked_variable, asked_variables};
ghost use Rattle.vcm_dap.specs.inner.Looking.{told_index};
ghost use Rattle.vcm_dap.specs.Lines.{named, without_watches, watching, with_watches};
ghost use Rattle.vcm_dap.specs.Served.{IsWatching};
ghost use Rattle.vcm_dap.specs.Telling.{SaysSome};

use crate::breakpoints::{has_condition, put_unverified};
use crate::fault::DapFault;
use crate::looking::{answer_to, typed};
use crate::talk::Talk;
use json::Value;
use std::alloc::Global;
use std::io::Write;
use vcm_console::{Command, Halted, Reply, VariableRef, write_variable};
use vcm_debug::Session;
use vcm_items::Variable;
use vcm_motion::Part;
use vcm_wire::{Message, Request};

// The variable that a command shows, if it shows one.
fn shown_by(command: Option<Command>) -> Option<VariableRef>
    ensures { result ≡ shown_by command }
{
    match command {
        Some(Command::Show(wanted)) => Some(wanted),
        _ => None,
    }
}

// The index of the variable whose value is told.
fn told_index(told: Result<Reply, Halted>) -> Option<u16>
    ensures { result ≡ told_index told }
{
    match told {
        Ok(Reply::Value(v, _)) => Some(v),
        _ => None,
    }
}

// The index of a variable, if the session has it.
fn index_of<P: Part>(
    alloc: Global,
    session: &mut Session<'_, P>,
    wanted: &VariableRef,
) -> Option<u16>
    requires { session.old.count + 1000000 < 2 ^ 64 }
    ensures same { session.new ≡ session.old }
    ensures index { result ≡ variable_of session.old wanted.now }
{
    let told = answer_to(alloc, session, &Command::Show(same(wanted)));
    told_index(told)
}

// The variable that a name names, and its index.
fn variable_of<P: Part>(
    alloc: Global,
    session: &mut Session<'_, P>,
    name: &str,
) -> Result<Option<(u16, VariableRef)>, DapFault>
    requires { session.old.count + 1000000 < 2 ^ 64 }
    ensures same { session.new ≡ session.old }
    ensures named { IfOk result (λ o. option_map (λ p. p.1) o ≡ variable_named session.old name.now) }
{
    let command = typed(alloc, b"show", name.as_bytes())?;
    let Some(wanted) = shown_by(command) else {
        return Ok(None);
    };
    match index_of(alloc, session, &wanted) {
        Some(v) => Ok(Some((v, wanted))),
        None => Ok(None),
    }
}

// The name of a variable that the client asks about: a row of `Variables`, or a name alone.
fn asked_name<'v>(request: &Request<'v, '_>) -> Option<&'v str> {
    let reference = request
        .argument("variablesReference")
        .and_then(Value::as_u64);
    match reference {
        None | Some(1) => request.argument("name").and_then(Value::as_str),
        _ => None,
    }
}

// Says that a variable can be watched.
fn put_watchable<P: Part>(
    alloc: Global,
    session: &Session<'_, P>,
    v: u16,
    message: &mut Message,
) -> Result<(), DapFault> {
    let mut name = Vec::new(alloc);
    write_variable(session.world().tables(), v, &mut name)?;
    message.bytes("dataId", &name)?;
    message.bytes("description", &name)?;
    message.begin_list("accessTypes")?;
    message.word("write")?;
    message.end_list()?;
    message.flag("canPersist", true)?;
    Ok(())
}

// Puts whether a row can be watched.
fn put_found<P: Part>(
    alloc: Global,
    session: &Session<'_, P>,
    found: Option<u16>,
    message: &mut Message,
) -> Result<(), DapFault> {
    match found {
        Some(v) => put_watchable(alloc, session, v, message),
        None => {
            message.null("dataId")?;
            message.text("description", "only variables can be watched")?;
            Ok(())
        }
    }
}

// The index of the variable that the client asks about, if it is one.
fn asked_index<P: Part>(
    alloc: Global,
    session: &mut Session<'_, P>,
    request: &Request<'_, '_>,
) -> Result<Option<u16>, DapFault>
    requires { session.old.count + 1000000 < 2 ^ 64 }
    ensures { session.new ≡ session.old }
{
    let Some(name) = asked_name(request) else {
        return Ok(None);
    };
    match variable_of(alloc, session, name)? {
        Some((v, _)) => Ok(Some(v)),
        None => Ok(None),
    }
}

/// Tells whether a row can be watched.
pub(crate) fn tell_watchable<P: Part, W: Write>(
    talk: &mut Talk<W>,
    session: &mut Session<'_, P>,
    request: &Request<'_, '_>,
) -> Result<(), DapFault>
    requires { session.old.count + 1000000 < 2 ^ 64 }
    ensures same { session.new ≡ session.old }
    ensures says { IfOk result (λ u. SaysSome talk.old talk.new) }
{
    let found = asked_index(talk.alloc(), session, request)?;
    let mut message = talk.answer(request)?;
    let put = put_found(talk.alloc(), session, found, &mut message);
    talk.send_put(message, put)
}

// Whether an access is that of each change. It is where none is told.
fn is_write(access: Option<&str>) -> bool
    ensures { result ≡ is_write (option_map (λ t. t.now) access.entry) }
{
    match access {
        Some(access) => access == "write",
        None => true,
    }
}

// Whether an item asks for each change of what it names, and says no more than that.
fn is_plain(item: &Value<'_>) -> bool
    ensures { result ≡ is_plain (value_view item.now) }
{
    !has_condition(item) && is_write(item.get("accessType").and_then(Value::as_str))
}

// The variable that an item asks for.
fn asked_variable<P: Part>(
    alloc: Global,
    session: &mut Session<'_, P>,
    item: &Value<'_>,
) -> Result<Option<VariableRef>, DapFault>
    requires { session.old.count + 1000000 < 2 ^ 64 }
    ensures same { session.new ≡ session.old }
    ensures asked { IfOk result (λ o. o ≡ asked_variable session.old (value_view item.now)) }
{
    if !is_plain(item) {
        return Ok(None);
    }
    let Some(name) = item.get("dataId").and_then(Value::as_str) else {
        return Ok(None);
    };
    match variable_of(alloc, session, name)? {
        Some((_, wanted)) => Ok(Some(wanted)),
        None => Ok(None),
    }
}

// The variables that are asked for.
fn asked_variables<P: Part>(
    alloc: Global,
    session: &mut Session<'_, P>,
    items: &[Value<'_>],
) -> Result<Vec<Option<VariableRef>>, DapFault>
    requires { session.old.count + 1000000 < 2 ^ 64 }
    ensures same { session.new ≡ session.old }
    ensures asked { IfOk result (λ vs. vs.items ≡ asked_variables session.old (items_view items.now)) }
{
    let mut wanted = Vec::with_capacity(alloc, items.len())?;
    for item in items {
        wanted.push(asked_variable(alloc, session, item)?)?;
    }
    Ok(wanted)
}

// A variable, as a command names it.
fn named(variable: &Variable) -> VariableRef
    ensures { result ≡ named variable.now }
{
    VariableRef {
        name: variable.name().copy(),
        expansion: u64::from(variable.expansion()),
    }
}

// The same variable.
fn same(variable: &VariableRef) -> VariableRef
    ensures { result ≡ variable.now }
{
    VariableRef {
        name: variable.name.copy(),
        expansion: variable.expansion,
    }
}

// The variable of this index, as a command names it.
fn named_at<P: Part>(session: &Session<'_, P>, index: usize) -> VariableRef
    requires { index < length session.now.code.tables.variables }
    ensures { option_map named (slice_get session.now.code.tables.variables index) ≡ Some result }
{
    named(&session.world().tables().variables()[index])
}

// Watches a variable no longer.
fn unwatch<P: Part>(alloc: Global, session: &mut Session<'_, P>, variable: VariableRef)
    requires { session.old.count + 1000000 < 2 ^ 64 }
    ensures { session.new ≡ (answer session.old (Unwatch variable)).session }
{
    let _ = session.command(alloc, &Command::Unwatch(variable));
}

// Watches nothing any more.
fn unwatch_all<P: Part>(alloc: Global, session: &mut Session<'_, P>)
    requires { session.old.count + 1000000 < 2 ^ 64 }
    ensures { session.new ≡ without_watches session.old session.old.code.tables.variables }
{
    let count = session.world().tables().variables().len();
    for i in 0..count {
        let variable = named_at(session, i);
        unwatch(alloc, session, variable);
    }
}

// Watches a variable.
fn watch_one<P: Part>(alloc: Global, session: &mut Session<'_, P>, variable: VariableRef)
    requires { session.old.count + 1000000 < 2 ^ 64 }
    ensures { session.new ≡ (answer session.old (Watch variable)).session }
{
    let _ = session.command(alloc, &Command::Watch(variable));
}

// Watches a variable, if there is one.
fn watch<P: Part>(alloc: Global, session: &mut Session<'_, P>, wanted: &Option<VariableRef>)
    requires { session.old.count + 1000000 < 2 ^ 64 }
    ensures { session.new ≡ watching session.old wanted.now }
{
    match wanted {
        Some(variable) => watch_one(alloc, session, same(variable)),
        None => {}
    }
}

// Watches these variables and no others.
fn watch_all<P: Part>(alloc: Global, session: &mut Session<'_, P>, wanted: &[Option<VariableRef>])
    requires { session.old.count + 1000000 < 2 ^ 64 }
    ensures { session.new ≡ with_watches session.old wanted.now }
{
    unwatch_all(alloc, session);
    for variable in wanted {
        watch(alloc, session, variable);
    }
}

// Says whether a variable is watched.
fn put_watch(item: &Value<'_>, is_found: bool, message: &mut Message) -> Result<(), DapFault> {
    if !is_plain(item) {
        return put_unverified(message, "vcm watches for changes alone");
    }
    if !is_found {
        return put_unverified(message, "no variable has this name");
    }
    message.begin_item()?;
    message.flag("verified", true)?;
    message.end()?;
    Ok(())
}

// Says which variables are watched.
fn put_watches(
    items: &[Value<'_>],
    wanted: &[Option<VariableRef>],
    message: &mut Message,
) -> Result<(), DapFault> {
    message.begin_list("breakpoints")?;
    for (item, variable) in items.iter().zip(wanted.iter()) {
        put_watch(item, variable.is_some(), message)?;
    }
    message.end_list()?;
    Ok(())
}

// The answer for the watches.
fn answer_watches<W: Write>(
    talk: &mut Talk<W>,
    request: &Request<'_, '_>,
    items: &[Value<'_>],
    wanted: &[Option<VariableRef>],
) -> Result<(), DapFault>
    ensures { IfOk result (λ u. SaysSome talk.old talk.new) }
{
    let mut message = talk.answer(request)?;
    let put = put_watches(items, wanted, &mut message);
    talk.send_put(message, put)
}

// Watches the variables of these items, in place of all before.
fn set_items<P: Part, W: Write>(
    talk: &mut Talk<W>,
    session: &mut Session<'_, P>,
    request: &Request<'_, '_>,
    items: &[Value<'_>],
) -> Result<(), DapFault>
    requires { session.old.count + 1000000 < 2 ^ 64 }
    ensures watches { IfOk result (λ u. IsWatching (items_view items.now) session.old session.new) }
    ensures same { session.new.count ≡ session.old.count }
    ensures says { IfOk result (λ u. SaysSome talk.old talk.new) }
{
    let wanted = asked_variables(talk.alloc(), session, items)?;
    watch_all(talk.alloc(), session, &wanted);
    answer_watches(talk, request, items, &wanted)
}

/// Watches the variables that are asked for, in place of all before.
pub(crate) fn set_watches<P: Part, W: Write>(
    talk: &mut Talk<W>,
    session: &mut Session<'_, P>,
    request: &Request<'_, '_>,
) -> Result<(), DapFault>
    requires { session.old.count + 1000000 < 2 ^ 64 }
    ensures watches { IfOk result (λ u. IsWatching (items_in (argument (value_view request.now.message.now) (codes "breakpoints"))) session.old session.new) }
    ensures same { session.new.count ≡ session.old.count }
    ensures says { IfOk result (λ u. SaysSome talk.old talk.new) }
{
    match request.argument("breakpoints") {
        Some(Value::Array(items)) => set_items(talk, session, request, items),
        _ => set_items(talk, session, request, &[]),
    }
}
