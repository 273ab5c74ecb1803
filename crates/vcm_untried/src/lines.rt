//! What wasn't tried, in lines.

ghost use Rattle.std.specs.Prelude.{◌≡◌, ◌++◌, decimal, IfOk, OnOk};
ghost use Rattle.std.specs.Option.{option_copied};
ghost use Rattle.vcm_untried.specs.Telling.{shown};
ghost use Rattle.vcm_untried.specs.Lines.{head_text, count_text, lines_word, rest_text, span_text, spans_text, option_text, give_text, named_text, frame_text, lost_text, cause_text, given_text, since_text, about_text, line_text, sensor_text, missing_line, missing_at, missing_text, group_text, groups_text, end_text, untried_text, all_tried, begun_text, current_text, way_text, mark_text, about_words};

use crate::about::About;
use crate::counting::Counts;
use crate::elsewhere::Standing;
use crate::frames::{NamedFrame, frame_at};
use crate::groups::{Group, groups_of};
use crate::rows::Row;
use crate::spans::{Span, spans_of};
use itoa::Buffer;
use std::alloc::Global;
use vcm_num::NoMemory;
use vcm_remarks::Cause;

/// Appends some bytes.
pub(crate) fn put(out: &mut Vec<u8>, bytes: &[u8]) -> Result<(), NoMemory>
    ensures { OnOk result (out.new.items ≡ out.old.items ++ bytes.now) }
{
    out.extend_from_slice(bytes)?;
    Ok(())
}

// Appends a number.
fn put_number(out: &mut Vec<u8>, number: u64) -> Result<(), NoMemory>
    ensures { OnOk result (out.new.items ≡ out.old.items ++ decimal number) }
{
    let mut buffer = Buffer::new();
    put(out, buffer.format(number).as_bytes())
}

/// Appends bytes and a number after them.
pub(crate) fn put_before(out: &mut Vec<u8>, bytes: &[u8], number: u64) -> Result<(), NoMemory>
    ensures { OnOk result (out.new.items ≡ out.old.items ++ (bytes.now ++ decimal number)) }
{
    put(out, bytes)?;
    put_number(out, number)
}

// What a line begins with.
fn head_text(about: About) -> &'static [u8]
    ensures { result.now ≡ head_text about }
{
    match about {
        About::NotTried(_, _) => b"not tried ",
        About::Approached => b"approached, not touched ",
        About::BeginsElsewhere => b"begins elsewhere ",
        About::NotReported => b"not reported ",
        About::AnotherTip => b"another tip since",
        About::NotInFile => b"not in the probe file: ",
    }
}

// Appends how often in all, which isn't told of other sensors.
fn put_count(out: &mut Vec<u8>, about: About, total: u64) -> Result<(), NoMemory>
    ensures { OnOk result (out.new.items ≡ out.old.items ++ count_text about total) }
{
    match about {
        About::AnotherTip => Ok(()),
        _ => {
            put_number(out, total)?;
            put(out, b":")
        }
    }
}

// One line, or several.
fn lines_word(spans: &[Span]) -> &'static [u8]
    ensures { result.now ≡ lines_word spans.now }
{
    match spans {
        [only] if only.first == only.last => b" line",
        _ => b" lines",
    }
}

// Appends what stands after the first line of a span.
fn put_rest(out: &mut Vec<u8>, span: &Span) -> Result<(), NoMemory>
    ensures { OnOk result (out.new.items ≡ out.old.items ++ rest_text span.now) }
{
    if span.first != span.last {
        put_before(out, b"-", u64::from(span.last))
    } else if span.count != 1 {
        put_before(out, b"(", span.count)?;
        put(out, b")")
    } else {
        Ok(())
    }
}

// Appends a span.
fn put_span(out: &mut Vec<u8>, span: &Span) -> Result<(), NoMemory>
    ensures { OnOk result (out.new.items ≡ out.old.items ++ span_text span.now) }
{
    put_before(out, b" ", u64::from(span.first))?;
    put_rest(out, span)
}

// Appends spans.
fn put_spans(out: &mut Vec<u8>, spans: &[Span]) -> Result<(), NoMemory>
    ensures { OnOk result (out.new.items ≡ out.old.items ++ spans_text spans.now) }
{
    for span in spans {
        put_span(out, span)?;
    }
    Ok(())
}

// The words of a cause that came about at a line, which stands after them.
fn since_text(cause: Cause) -> &'static [u8]
    ensures { result.now ≡ since_text cause }
{
    match cause {
        Cause::Table => b", a table may be turned since line ",
        Cause::Mode => b", the mode isn't programmed since line ",
        Cause::Scanning => b", the machine scans since line ",
        Cause::Unit => b", the unit isn't followed since line ",
        Cause::Frame => b", the frame isn't known since line ",
        Cause::Setting => b", the approach, search or way back isn't known since line ",
        Cause::Value => b", a value isn't known since line ",
        Cause::All => b", anything may have changed since line ",
    }
}

// The words of a cause that came about at no line.
fn given_text(cause: Cause) -> &'static [u8]
    ensures { result.now ≡ given_text cause }
{
    match cause {
        Cause::Table => b", a table may be turned",
        Cause::Mode => b", no MODE gives the programmed mode",
        Cause::Scanning => b", the machine scans",
        Cause::Unit => b", no UNITS gives a unit that is followed",
        Cause::Frame => b", the frame isn't given",
        Cause::Setting => b", no SNSET gives the approach, the search and the way back",
        Cause::Value => b", a value isn't known",
        Cause::All => b", anything may have changed",
    }
}

// Appends how a frame may be given.
fn put_option(out: &mut Vec<u8>, frame: &NamedFrame) -> Result<(), NoMemory>
    ensures { OnOk result (out.new.items ≡ out.old.items ++ option_text frame.now) }
{
    put(out, b"; give --frame ")?;
    put(out, frame.name.as_slice())?;
    put(out, b"=X,Y,Z")
}

// Appends the same, where it may.
fn put_give(out: &mut Vec<u8>, frame: &NamedFrame) -> Result<(), NoMemory>
    ensures { OnOk result (out.new.items ≡ out.old.items ++ give_text frame.now) }
{
    if frame.takes_given {
        put_option(out, frame)
    } else {
        Ok(())
    }
}

// Appends that a frame of this name isn't known since a line.
fn put_named(out: &mut Vec<u8>, frame: &NamedFrame, since: u32) -> Result<(), NoMemory>
    ensures { OnOk result (out.new.items ≡ out.old.items ++ named_text frame.now since) }
{
    put(out, b", the frame ")?;
    put(out, frame.name.as_slice())?;
    put_before(out, b" isn't known since line ", u64::from(since))?;
    put_give(out, frame)
}

// Appends that the frame isn't known since a line, with its name where the statement of that line has one.
fn put_frame(out: &mut Vec<u8>, frame: Option<&NamedFrame>, since: u32) -> Result<(), NoMemory>
    ensures { OnOk result (out.new.items ≡ out.old.items ++ frame_text (option_copied frame.entry) since) }
{
    match frame {
        Some(frame) => put_named(out, frame, since),
        None => put_before(out, since_text(Cause::Frame), u64::from(since)),
    }
}

// Appends why, where it came about at a line.
fn put_lost(
    out: &mut Vec<u8>,
    frames: &[NamedFrame],
    cause: Cause,
    since: u32,
) -> Result<(), NoMemory>
    ensures { OnOk result (out.new.items ≡ out.old.items ++ lost_text frames.now cause since) }
{
    match cause {
        Cause::Frame => put_frame(out, frame_at(frames, since), since),
        _ => put_before(out, since_text(cause), u64::from(since)),
    }
}

// Appends why, and since which line.
fn put_cause(
    out: &mut Vec<u8>,
    frames: &[NamedFrame],
    cause: Cause,
    since: u32,
) -> Result<(), NoMemory>
    ensures { OnOk result (out.new.items ≡ out.old.items ++ cause_text frames.now cause since) }
{
    if since == 0 {
        put(out, given_text(cause))
    } else {
        put_lost(out, frames, cause, since)
    }
}

// Appends why a line isn't tried, if it isn't.
fn put_about(out: &mut Vec<u8>, frames: &[NamedFrame], about: About) -> Result<(), NoMemory>
    ensures { OnOk result (out.new.items ≡ out.old.items ++ about_text frames.now about) }
{
    match about {
        About::NotTried(cause, since) => put_cause(out, frames, cause, since),
        _ => Ok(()),
    }
}

// Appends the line of what is reported so many times.
fn put_line(
    alloc: Global,
    out: &mut Vec<u8>,
    frames: &[NamedFrame],
    rows: &[Row],
    about: About,
    total: u64,
) -> Result<(), NoMemory>
    ensures { OnOk result (out.new.items ≡ out.old.items ++ line_text frames.now rows.now about total) }
{
    let spans = spans_of(alloc, rows, about)?;
    put(out, head_text(about))?;
    put_count(out, about, total)?;
    put(out, lines_word(spans.as_slice()))?;
    put_spans(out, spans.as_slice())?;
    put_about(out, frames, about)?;
    put(out, b"\n")
}

// Appends the sensor that a statement selects, by its name where that is known.
fn put_sensor(out: &mut Vec<u8>, named: Option<&NamedFrame>) -> Result<(), NoMemory>
    ensures { OnOk result (out.new.items ≡ out.old.items ++ sensor_text (option_copied named.entry)) }
{
    match named {
        Some(named) => put(out, named.name.as_slice()),
        None => put(out, b"a sensor"),
    }
}

// Appends that the file of probes hasn't the one of this line.
fn put_missing_line(
    out: &mut Vec<u8>,
    named: Option<&NamedFrame>,
    line: u32,
) -> Result<(), NoMemory>
    ensures { OnOk result (out.new.items ≡ out.old.items ++ missing_line (option_copied named.entry) line) }
{
    put(out, b"not in the probe file: ")?;
    put_sensor(out, named)?;
    put_before(out, b" line ", u64::from(line))?;
    put(out, b"\n")
}

// Appends the same, where that is what is reported of the line.
fn put_missing(
    out: &mut Vec<u8>,
    frames: &[NamedFrame],
    line: u32,
    about: About,
) -> Result<(), NoMemory>
    ensures { OnOk result (out.new.items ≡ out.old.items ++ missing_at frames.now line about) }
{
    match about {
        About::NotInFile => put_missing_line(out, frame_at(frames, line), line),
        _ => Ok(()),
    }
}

// Appends the lines of probes that the file hasn't.
fn put_all_missing(out: &mut Vec<u8>, frames: &[NamedFrame], rows: &[Row]) -> Result<(), NoMemory>
    ensures { OnOk result (out.new.items ≡ out.old.items ++ missing_text frames.now rows.now) }
{
    for row in rows {
        put_missing(out, frames, row.line, row.about)?;
    }
    Ok(())
}

// Appends the line of a group, or its lines.
fn put_group(
    alloc: Global,
    out: &mut Vec<u8>,
    frames: &[NamedFrame],
    rows: &[Row],
    group: &Group,
) -> Result<(), NoMemory>
    ensures { OnOk result (out.new.items ≡ out.old.items ++ group_text frames.now rows.now group.now) }
{
    match group.about {
        About::NotInFile => put_all_missing(out, frames, rows),
        about => put_line(alloc, out, frames, rows, about, group.total),
    }
}

// Appends the lines of groups.
fn put_groups(
    alloc: Global,
    out: &mut Vec<u8>,
    frames: &[NamedFrame],
    rows: &[Row],
    groups: &[Group],
) -> Result<(), NoMemory>
    ensures { OnOk result (out.new.items ≡ out.old.items ++ groups_text frames.now rows.now groups.now) }
{
    for group in groups {
        put_group(alloc, out, frames, rows, group)?;
    }
    Ok(())
}

// Appends from which line on nothing is tried, if there is one.
fn put_end(out: &mut Vec<u8>, end: Option<u32>) -> Result<(), NoMemory>
    ensures { OnOk result (out.new.items ≡ out.old.items ++ end_text end) }
{
    match end {
        Some(line) => {
            put_before(out, b"not tried from line ", u64::from(line))?;
            put(out, b" on\n")
        }
        None => Ok(()),
    }
}

/// What wasn't tried in a run, in lines: one for each cause and each line since which it is so, that with the most motions first; one for what begins elsewhere;
/// one for other sensors; one for each line that selects a probe that the file of probes hasn't; one for the line from which on nothing is tried. Where all was tried there is none. These are the frames that statements of the text make
/// or recall by their names: where one of them lost the frame, it is told by its name.
///
/// Errors: want of memory.
pub fn untried_text(
    alloc: Global,
    counts: &Counts,
    frames: &[NamedFrame],
) -> Result<Vec<u8>, NoMemory>
    ensures { IfOk result (λ text. text.items ≡ untried_text frames.now (shown counts.now.told)) }
{
    let rows = counts.told.rows.as_slice();
    let groups = groups_of(alloc, rows)?;
    let mut out = Vec::new(alloc);
    put_groups(alloc, &mut out, frames, rows, groups.as_slice())?;
    put_end(&mut out, counts.told.end)?;
    Ok(out)
}

/// Whether no statement was carried out of which something is reported, or from which on nothing is tried.
pub fn was_all_tried(counts: &Counts) -> bool
    ensures { result ≡ all_tried (shown counts.now.told) }
{
    counts.told.rows.is_empty() && counts.told.end.is_none()
}

// Appends that a way begins elsewhere than on the machine, if it does.
fn put_begun(out: &mut Vec<u8>, line: u32) -> Result<(), NoMemory>
    ensures { OnOk result (out.new.items ≡ out.old.items ++ begun_text line) }
{
    if line == 0 {
        Ok(())
    } else {
        put_before(
            out,
            b"begins elsewhere: the machine's way to here isn't known since line ",
            u64::from(line),
        )?;
        put(out, b"\n")
    }
}

// Appends the current frame, if it is named.
fn put_current(out: &mut Vec<u8>, frame: Option<&NamedFrame>, line: u32) -> Result<(), NoMemory>
    ensures { OnOk result (out.new.items ≡ out.old.items ++ current_text (option_copied frame.entry) line) }
{
    match frame {
        Some(frame) => {
            put(out, b"frame ")?;
            put(out, frame.name.as_slice())?;
            put_before(out, b" since line ", u64::from(line))?;
            put(out, b"\n")
        }
        None => Ok(()),
    }
}

/// What is told of the way on which a run stops: whether it begins elsewhere than on the machine, and the current frame, where statements of the text make or recall
/// these frames. Of a run that stops on no way there is none.
///
/// Errors: want of memory.
pub fn way_text(
    alloc: Global,
    standing: &Standing,
    frames: &[NamedFrame],
) -> Result<Vec<u8>, NoMemory>
    ensures { IfOk result (λ text. text.items ≡ way_text frames.now standing.now) }
{
    let mut out = Vec::new(alloc);
    if standing.is_way {
        put_begun(&mut out, standing.way)?;
        put_current(&mut out, frame_at(frames, standing.frame), standing.frame)?;
    }
    Ok(out)
}

// What is reported at a step.
fn mark_text(about: About) -> &'static [u8]
    ensures { result.now ≡ mark_text about }
{
    match about {
        About::NotTried(_, _) => b"not tried",
        About::Approached => b"approached, not touched",
        About::BeginsElsewhere => b"begins elsewhere",
        About::NotReported => b"not reported",
        About::AnotherTip => b"another tip",
        About::NotInFile => b"not in the probe file",
    }
}

/// What is reported of a line at a step, and why, where statements of the text make or recall these frames.
///
/// Errors: want of memory.
pub fn about_words(alloc: Global, about: About, frames: &[NamedFrame]) -> Result<Vec<u8>, NoMemory>
    ensures { IfOk result (λ text. text.items ≡ about_words frames.now about) }
{
    let mut out = Vec::new(alloc);
    put(&mut out, mark_text(about))?;
    put_about(&mut out, frames, about)?;
    Ok(out)
}
