//! Runs with several probes of a producer's text as it stands.

use crate::set_clearances::{Telling, set_clearance};
use crate::set_pages::Beside;
use crate::set_views::{
    fails_as_printed, tell_untried_boxes, text_given, told_of as told_by_command,
};
use crate::several::{Asked, status_with, tell_run_fault, tell_set_fault, tries_boxes};
use std::alloc::Global;
use std::rt::Files;
use vcm_devices::{
    NamedSetting, Request, Voice, bytes_of, fails, fails_in_view, print_bytes, put_name,
    status_after,
};
use vcm_given::MissingProbe;
use vcm_job::{Done, Given};
use vcm_loader::{Loaded, load};
use vcm_messages::Message;
use vcm_num::{Items, NoMemory};
use vcm_probe_set::{ProbeSet, read_probes, why_unfit};
use vcm_set_clearance::{SetFault, SetRun, count_set_at, run_set_at, whole_chooser};
use vcm_set_views::{Fitted, fit_at, write_no_probe, write_wanted};
use vcm_short_names::{ShortName, lengthen_names};
use vcm_templates::{Carried, IMPLICIT, UNKNOWN_SENSOR};
use vcm_turning::{Ended, NoProbe, chooser};
use vcm_untried::{Counts, NamedFrame, behind_ways, untried_text, was_all_tried};
use vcm_usage::Verb;
use vcm_whole::Facts;
use vcm_whole_runs::{
    NOT_ALL_TRIED, Running, Selecting, frames_named, status_of_unused, tell_reading, whole_with,
};

// ---- which variable chooses

/// The place of the variable that chooses a probe of the set in a program that a text is put as: the one that the text declares itself, or else the one that SNSLCT sets.
/// A program that is run as it is written may have none.
pub(crate) fn chooser_of(
    alloc: Global,
    loaded: &Loaded<'_>,
    set: &ProbeSet,
) -> Result<Option<usize>, NoMemory> {
    let tables = loaded.tables(alloc)?;
    let own = set.variable().as_bytes();
    let other = Carried::Sensor.name();
    Ok(whole_chooser(own, other, IMPLICIT, tables.variables()))
}

// Whether the text declares that variable itself.
fn chooses_itself(alloc: Global, loaded: &Loaded<'_>, set: &ProbeSet) -> Result<bool, NoMemory> {
    let tables = loaded.tables(alloc)?;
    Ok(chooser(set.variable().as_bytes(), tables.variables()).is_some())
}

// ---- the report

// How the sensor is told that a line selects, with the name that the text has.
fn sensor_told(
    alloc: Global,
    missing: &MissingProbe,
    names: &[ShortName],
) -> Result<Items<u8>, NoMemory> {
    let head: &[u8] = if missing.is_actual { b"SA(" } else { b"S(" };
    let mut label = Vec::from_slice(alloc, head)?;
    label.extend_from_slice(missing.name.as_slice())?;
    label.push(b')')?;
    let label = lengthen_names(alloc, names, &label)?;
    let told = Items::from_slice(alloc, &label)?;
    Ok(told)
}

// What lines of a text name: frames, and sensors that the file hasn't.
fn lines_named(
    alloc: Global,
    facts: &Facts,
    names: &[ShortName],
) -> Result<Items<NamedFrame>, NoMemory> {
    let mut named = frames_named(alloc, facts.frames.as_slice(), names)?;
    for missing in facts.missing.as_slice() {
        let name = sensor_told(alloc, missing, names)?;
        named.push(NamedFrame {
            line: missing.line,
            name,
            takes_given: false,
        })?;
    }
    Ok(named)
}

// The same end for want of a probe with the number 0, which no probe has.
fn as_no_number(lost: NoProbe) -> NoProbe {
    NoProbe {
        value: 0,
        number: lost.number,
        line: lost.line,
    }
}

// How a run ended; that no known probe was selected is told as the number 0.
fn end_told(end: Ended) -> Ended {
    match end {
        Ended::Lost(lost) if lost.value == UNKNOWN_SENSOR => Ended::Lost(as_no_number(lost)),
        end => end,
    }
}

// Why nothing is told of a run: the run wasn't done, or the command line asks for what isn't there.
enum Untold {
    Fault(SetFault),
    Message(Message<'static>),
}

// What is printed of a run, and what is reported behind it.
#[derive(Drop)]
struct Told {
    text: Vec<u8>,
    report: Vec<u8>,
    is_whole: bool,
    status: u8,
    selecting: Selecting,
}

// The clearance in a run with the variable of this place, and what is reported of it.
fn clearance_at(
    alloc: Global,
    loaded: &Loaded<'_>,
    set: &ProbeSet,
    setting: &NamedSetting,
    running: &Running,
    variable: usize,
) -> Result<Told, SetFault> {
    let (part, steps) = (&setting.part, setting.steps);
    let remarks = running.remarks.as_slice();
    let mut run = run_set_at(alloc, loaded, set, part, variable, steps)?;
    run.end = end_told(run.end);
    let counts = count_set_at(alloc, loaded, set, part, variable, steps, remarks)?;
    if variable >= loaded.variable_count() {
        return Err(SetFault::NoVariable);
    }
    let fitted = fit_at(alloc, loaded, set, part, variable)?;
    match clearance_told(alloc, loaded, &fitted, set, setting, running, &run, &counts) {
        Ok(told) => Ok(told),
        Err(_) => Err(SetFault::NoMemory),
    }
}

// The clearance in a run of which this was counted.
fn clearance_told(
    alloc: Global,
    loaded: &Loaded<'_>,
    fitted: &Fitted<'_>,
    set: &ProbeSet,
    setting: &NamedSetting,
    running: &Running,
    run: &SetRun,
    counts: &Counts,
) -> Result<Told, NoMemory> {
    let names = running.names.as_slice();
    let untried = behind_ways(alloc, counts)?;
    let tables = loaded.tables(alloc)?;
    let telling = Telling {
        part: &setting.part,
        block_names: setting.block_names.as_slice(),
        set,
        run,
        untried: &untried,
    };
    let program = text_given(&running.given);
    let told = set_clearance(alloc, fitted, telling, &tables, program)?;
    let text = lengthen_names(alloc, names, &told.text)?;
    let named = lines_named(alloc, &running.facts, names)?;
    let report = untried_text(alloc, counts, named.as_slice())?;
    let selecting = selecting_in(alloc, loaded, set)?;
    Ok(Told {
        text,
        report,
        is_whole: was_all_tried(counts),
        status: status_with(run, told.is_met),
        selecting,
    })
}

// What selects a probe.
fn selecting_in(alloc: Global, loaded: &Loaded<'_>, set: &ProbeSet) -> Result<Selecting, NoMemory> {
    if chooses_itself(alloc, loaded, set)? {
        Ok(Selecting::Variable)
    } else {
        Ok(Selecting::Probe)
    }
}

// The element of a page that tells this report; nothing where there is none.
fn untried_element(alloc: Global, report: &[u8]) -> Result<Vec<u8>, NoMemory> {
    let mut out = Vec::new(alloc);
    if report.is_empty() {
        return Ok(out);
    }
    out.extend_from_slice(b"<script type=\"text/plain\" id=\"untried\">\n")?;
    for line in report.split(|byte| *byte == b'\n') {
        if !line.is_empty() {
            out.extend_from_slice(b"W ")?;
            let Ok(()) = put_name(&mut out, line) else {
                return Err(NoMemory);
            };
            out.push(b'\n')?;
        }
    }
    out.extend_from_slice(b"</script>\n")?;
    Ok(out)
}

// The line of a run that ended without a probe, up to its step.
fn line_of_lost(alloc: Global, lost: NoProbe) -> Result<Vec<u8>, NoMemory> {
    let mut line = Vec::new(alloc);
    let Ok(()) = write_no_probe(lost, 0, &mut line) else {
        return Err(NoMemory);
    };
    let front = line.strip_suffix(b"0\n").unwrap_or(&line);
    let front = Vec::from_slice(alloc, front)?;
    Ok(front)
}

// That no probe has the number.
fn wanted(alloc: Global, lost: NoProbe) -> Result<Vec<u8>, NoMemory> {
    let mut text = Vec::new(alloc);
    match write_wanted(lost, &mut text) {
        Ok(()) => Ok(text),
        Err(_) => Err(NoMemory),
    }
}

// A text in which each of these pieces is replaced.
fn with_pieces(alloc: Global, text: &[u8], piece: &[u8], by: &[u8]) -> Result<Vec<u8>, NoMemory> {
    let mut out = Vec::new(alloc);
    let mut rest = text;
    for _ in 0..text.len() {
        let Some((first, behind)) = rest.split_first() else {
            return Ok(out);
        };
        match rest.strip_prefix(piece) {
            Some(after) => {
                out.extend_from_slice(by)?;
                rest = after;
            }
            None => {
                out.push(*first)?;
                rest = behind;
            }
        }
    }
    Ok(out)
}

// The text of a run; where it ended since the probe that a line selects isn't known, that probe is told as number 0, which no probe has.
fn text_at_end(alloc: Global, text: Vec<u8>, lost: Option<NoProbe>) -> Result<Vec<u8>, NoMemory> {
    match lost {
        Some(lost) if lost.value == UNKNOWN_SENSOR => {
            let none = as_no_number(lost);
            let (unknown, told) = (line_of_lost(alloc, lost)?, line_of_lost(alloc, none)?);
            let text = with_pieces(alloc, &text, &unknown, &told)?;
            let (unknown, told) = (wanted(alloc, lost)?, wanted(alloc, none)?);
            with_pieces(alloc, &text, &unknown, &told)
        }
        _ => Ok(text),
    }
}

// What is reported of a run with the variable of this place, and whether all of it was tried.
fn report_at(
    alloc: Global,
    loaded: &Loaded<'_>,
    asked: &Asked<'_>,
    running: &Running,
    variable: usize,
) -> Result<(Vec<u8>, bool), SetFault> {
    let setting = asked.setting;
    let (part, steps) = (&setting.part, setting.steps);
    let remarks = running.remarks.as_slice();
    let counts = count_set_at(alloc, loaded, asked.set, part, variable, steps, remarks)?;
    let Ok(named) = lines_named(alloc, &running.facts, running.names.as_slice()) else {
        return Err(SetFault::NoMemory);
    };
    match untried_text(alloc, &counts, named.as_slice()) {
        Ok(report) => Ok((report, was_all_tried(&counts))),
        Err(_) => Err(SetFault::NoMemory),
    }
}

// What another command tells of a run that was fitted out, of which this is reported.
fn view_told(
    alloc: Global,
    request: &Request<'_, '_>,
    loaded: &Loaded<'_>,
    asked: &Asked<'_>,
    running: &Running,
    fitted: &Fitted<'_>,
    report: &[u8],
) -> Result<(Vec<u8>, u8), Untold> {
    let Ok(untried) = untried_element(alloc, report) else {
        return Err(Untold::Fault(SetFault::NoMemory));
    };
    let beside = Beside {
        names: running.names.as_slice(),
        untried: &untried,
        is_written: false,
    };
    let given = &running.given;
    match told_by_command(alloc, request, asked, fitted, given, loaded, beside) {
        Ok(told) => {
            let status = told.status;
            match text_at_end(alloc, told.text, told.lost) {
                Ok(text) => Ok((text, status)),
                Err(_) => Err(Untold::Fault(SetFault::NoMemory)),
            }
        }
        Err(message) => Err(Untold::Message(message)),
    }
}

// What another command tells of a run with the variable of this place.
fn view_at(
    alloc: Global,
    request: &Request<'_, '_>,
    loaded: &Loaded<'_>,
    asked: &Asked<'_>,
    running: &Running,
    variable: usize,
) -> Result<Told, Untold> {
    if variable >= loaded.variable_count() {
        return Err(Untold::Fault(SetFault::NoVariable));
    }
    let part = &asked.setting.part;
    let fitted = match fit_at(alloc, loaded, asked.set, part, variable) {
        Ok(fitted) => fitted,
        Err(fault) => return Err(Untold::Fault(fault)),
    };
    let (report, is_whole) = match report_at(alloc, loaded, asked, running, variable) {
        Ok(told) => told,
        Err(fault) => return Err(Untold::Fault(fault)),
    };
    let Ok(selecting) = selecting_in(alloc, loaded, asked.set) else {
        return Err(Untold::Fault(SetFault::NoMemory));
    };
    let (text, status) = view_told(alloc, request, loaded, asked, running, &fitted, &report)?;
    Ok(Told {
        text,
        report,
        is_whole,
        status,
        selecting,
    })
}

// What a command tells of a program with the variable that chooses in it.
fn told_by(
    alloc: Global,
    request: &Request<'_, '_>,
    asked: &Asked<'_>,
    running: &Running,
) -> Result<Told, Untold> {
    let Ok(loaded) = load(alloc, &running.given.image) else {
        return Err(Untold::Fault(SetFault::NoMemory));
    };
    let variable = match chooser_of(alloc, &loaded, asked.set) {
        Err(_) => return Err(Untold::Fault(SetFault::NoMemory)),
        Ok(None) => return Err(Untold::Fault(SetFault::NoVariable)),
        Ok(Some(variable)) => variable,
    };
    if request.verb() != Verb::Clearance {
        return view_at(alloc, request, &loaded, asked, running, variable);
    }
    match clearance_at(alloc, &loaded, asked.set, asked.setting, running, variable) {
        Ok(told) => Ok(told),
        Err(fault) => Err(Untold::Fault(fault)),
    }
}

// ---- the command

// Prints what was told of a run, reports what of it wasn't tried, and gives the exit status. Where it isn't printed, it is told why, and the exit status is given as a
// fault.
fn print_told<R: Print + Eprint + AllocGlobal>(
    rt: &R,
    voice: Voice,
    request: &Request<'_, '_>,
    running: Running,
    told: &Told,
) -> Result<u8, u8> {
    if let Err(message) = print_bytes(rt, &told.text) {
        return Err(fails_as_printed(rt, request.verb(), message));
    }
    let Running {
        given,
        facts,
        names,
        ..
    } = running;
    let done = Done {
        status: told.status,
        notices: given.notices,
    };
    let status = status_after(rt, voice, Ok(done));
    let names = names.as_slice();
    tell_reading(rt, voice, "", told.selecting, &facts, names, request);
    let report = std::str::from_utf8(&told.report).unwrap_or("");
    let _ = eprint!(rt; "{report}");
    if status == 0 && !told.is_whole {
        Ok(NOT_ALL_TRIED)
    } else {
        Ok(status)
    }
}

// Runs a program with several probes, and prints what a command tells of it.
fn show_running<R: Print + Eprint + AllocGlobal>(
    rt: &R,
    voice: Voice,
    request: &Request<'_, '_>,
    asked: &Asked<'_>,
    running: Running,
) -> u8 {
    if let Some(status) = status_of_unused(rt, &running.facts, running.names.as_slice()) {
        return status;
    }
    match told_by(rt.alloc(), request, asked, &running) {
        Ok(told) => match print_told(rt, voice, request, running, &told) {
            Ok(status) => {
                if !tries_boxes(request.verb()) {
                    tell_untried_boxes(rt, voice);
                }
                status
            }
            Err(status) => status,
        },
        Err(Untold::Fault(fault)) => tell_run_fault(rt, voice, fault, asked),
        Err(Untold::Message(message)) => fails(rt, message),
    }
}

// The program that the text is put as, with these probes; a page shows the text as it was read.
fn running_with<'a, R: Files + Input + AllocGlobal>(
    rt: &R,
    request: &Request<'a, '_>,
    setting: &NamedSetting,
    set: &ProbeSet,
) -> Result<Running, Message<'a>> {
    let input = request.input();
    let tip = setting.part.bounds().tip;
    let source = bytes_of(rt, input)?;
    let running = whole_with(rt.alloc(), request, tip, Some(set), input, source)?;
    if request.verb() == Verb::View {
        Ok(with_source(rt.alloc(), running))
    } else {
        Ok(running)
    }
}

// A program with the text as it was read beside it.
fn with_source(alloc: Global, running: Running) -> Running {
    let Running {
        given,
        remarks,
        facts,
        names,
        source,
    } = running;
    let Given {
        image,
        text: _,
        notices,
    } = given;
    Running {
        given: Given {
            image,
            text: Some(source),
            notices,
        },
        remarks,
        facts,
        names,
        source: Vec::new(alloc),
    }
}

/// Prints what a command tells of a run with several probes of a producer's text as it stands, reports what of it wasn't tried, and gives the exit status. The file of
/// probes is judged first, then whether its probes can be tried beside the workpiece, and then the text.
pub(crate) fn show_whole_several<R: Files + Input + Print + Eprint + AllocGlobal>(
    rt: &R,
    voice: Voice,
    request: &Request<'_, '_>,
    setting: &NamedSetting,
    probe: &str,
    file: &[u8],
) -> u8 {
    let set = match read_probes(rt.alloc(), file) {
        Ok(set) => set,
        Err(fault) => return tell_set_fault(rt, voice, &fault, probe),
    };
    let input = request.input();
    let asked = Asked {
        setting,
        set: &set,
        probe,
        input,
    };
    if let Some(unfit) = why_unfit(&setting.part, &set) {
        return tell_run_fault(rt, voice, SetFault::Unfit(unfit), &asked);
    }
    match running_with(rt, request, setting, &set) {
        Ok(running) => show_running(rt, voice, request, &asked, running),
        Err(message) => fails_in_view(rt, voice, message, input),
    }
}
