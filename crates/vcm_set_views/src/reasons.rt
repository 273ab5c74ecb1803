//! Why a run with several probes ended where it did.

ghost use Rattle.std.specs.Prelude.{◌≡◌, ◌<◌, ◌-◌, ◌^◌, ◌++◌, ◌+◌, ℕ, length, option_map, Some, IfOk, IfSome};
ghost use Rattle.vcm_num.specs.Written.{Wrote};
ghost use Rattle.vcm_cause.specs.Watched.{seen};
ghost use Rattle.vcm_turning.specs.Choosing.{probe_on, part_by};
ghost use Rattle.vcm_why.specs.Reasons.{where_lines};
ghost use Rattle.vcm_set_views.specs.Ends.{HasEnded, IsAtEnd, no_probe_line};
ghost use Rattle.vcm_set_views.specs.Fit.{behind};
ghost use Rattle.vcm_set_views.specs.Reasons.{one_behind, known_at, wanted_text, on_text, wanting_line, reason_lines, IsReason};
ghost use Rattle.vcm_backtrace.specs.Sources.{IsSourced};

use crate::ends::SetTold;
use crate::fitted::Fitted;
use crate::following::SeesSteps;
use crate::running::{Ending, run_seen};
use std::alloc::Global;
use std::io::Write;
use vcm_backtrace::{Source, source_of};
use vcm_cause::{Progress, before_steps, count_round, framed_behind};
use vcm_fields::BorrowedStatement;
use vcm_loader::Loaded;
use vcm_naming::BlockNames;
use vcm_num::{NoMemory, WriteFault, int_text, write_all, write_pieces};
use vcm_part::PartData;
use vcm_probe_set::Probe;
use vcm_set_debug::write_no_probe;
use vcm_state::World;
use vcm_turning::{Ended, NoProbe, Turn, probe_on};
use vcm_way::StepMarks;
use vcm_why::{write_where, write_why};

/// Watches a run: what the last step adds to the way, the rounds of its loops, and which statement made the current frame.
#[derive(Clone, Copy)]
struct Watching;

impl SeesSteps<Progress> for Watching {
    ghost One = { λ s tables from to step marks. seen to ≡ one_behind (seen from) step marks };

    fn see(
        &self,
        _count: u64,
        number: u32,
        _on: Option<usize>,
        statement: &BorrowedStatement<'_>,
        world: &World,
        next: u32,
        _turn: Turn,
        marks: &StepMarks,
        to: &mut Progress,
    ) -> Result<(), NoMemory> {
        to.marks = *marks;
        let stop = world.stop();
        count_round(&mut to.rounds, &statement.op, number, next, stop);
        to.framed = framed_behind(to.framed, &statement.op, statement.line, stop);
        Ok(())
    }
}

/// Writes that no probe has a number.
///
/// Errors: the writer failed, or took no byte; then it has taken a front of the text, and not all of it.
pub fn write_wanted<W: Write>(lost: NoProbe, writer: &mut W) -> Result<(), WriteFault>
    ensures { Wrote (W.contents writer.old) (W.contents writer.new) (wanted_text lost.value) result }
{
    write_all(writer, b"no probe has the number ")?;
    write_all(writer, int_text(lost.value).as_slice())
}

// Writes which probe is on.
fn write_named<W: Write>(on: &Probe, writer: &mut W) -> Result<(), WriteFault>
    ensures { Wrote (W.contents writer.old) (W.contents writer.new) (on_text (Some on.now)) result }
{
    write_pieces(writer, &[b"; on is ", on.name().as_bytes(), b"\n"])
}

// Writes which probe is on, if one is.
fn write_on<W: Write>(on: Option<&Probe>, writer: &mut W) -> Result<(), WriteFault>
    ensures { Wrote (W.contents writer.old) (W.contents writer.new) (on_text (option_map (λ p. p.now) on.entry)) result }
{
    match on {
        Some(probe) => write_named(probe, writer),
        None => write_all(writer, b", and none is on yet\n"),
    }
}

// Writes which probe is on, if one is, where another one is wanted.
fn write_wanting<W: Write>(
    lost: NoProbe,
    on: Option<&Probe>,
    writer: &mut W,
) -> Result<(), WriteFault>
    ensures { Wrote (W.contents writer.old) (W.contents writer.new) (wanting_line lost (option_map (λ p. p.now) on.entry)) result }
{
    write_wanted(lost, writer)?;
    write_on(on, writer)
}

/// The workpiece with the tip that is on.
pub(crate) fn part_at<'a>(fitted: &'a Fitted<'_>, on: Option<usize>) -> &'a PartData
    requires { IfSome on (λ i. i < length fitted.now.probes) }
    ensures { result.now ≡ part_by fitted.now.part fitted.now.probes on }
{
    match on {
        None => fitted.part,
        Some(place) => &fitted.each[place],
    }
}

// Writes what is told of a run that ended without a probe.
fn write_lost<W: Write>(
    loaded: &Loaded<'_>,
    probes: &[Probe],
    source: &Option<Source<'_>>,
    ending: &Ending,
    progress: &Progress,
    lost: NoProbe,
    writer: &mut W,
) -> Result<(), WriteFault>
    requires within { ending.now.next < length loaded.now.statements }
    requires few { ending.now.end.done < 2 ^ 64 - 1 }
    ensures { Wrote (W.contents writer.old) (W.contents writer.new) (no_probe_line lost (ending.now.end.done + 1)
        ++ (where_lines source.now loaded.now.statements ending.now.world progress.now.rounds ending.now.next lost.line
        ++ wanting_line lost (probe_on probes.now ending.now.on))) result }
{
    write_no_probe(lost, ending.end.done + 1, writer)?;
    write_where(
        source,
        loaded,
        &ending.world,
        &progress.rounds,
        ending.next,
        lost.line,
        writer,
    )?;
    write_wanting(lost, probe_on(probes, ending.on), writer)
}

// Writes what is told of a run that came to this end, in which this is known.
fn write_reason<W: Write>(
    fitted: &Fitted<'_>,
    source: &Option<Source<'_>>,
    ending: &Ending,
    progress: &Progress,
    names: &BlockNames,
    writer: &mut W,
) -> Result<(), WriteFault>
    requires end { (n : ℕ) × (n < 2 ^ 64) × IsAtEnd fitted.now n ending.now }
    requires known { seen progress.now ≡ known_at fitted.now ending.now.end.done }
    ensures { Wrote (W.contents writer.old) (W.contents writer.new)
        (reason_lines names.now source.now fitted.now ending.now.end (behind fitted.now ending.now.end.done).state.next ending.now.end.end) result }
{
    match ending.end.end {
        Ended::Lost(lost) => write_lost(
            fitted.loaded,
            fitted.set.probes(),
            source,
            ending,
            progress,
            lost,
            writer,
        ),
        _ => write_why(
            source,
            fitted.loaded,
            part_at(fitted, ending.on),
            &ending.world,
            progress,
            ending.next,
            ending.end.done,
            names,
            writer,
        ),
    }
}

/// The source that a text is, if there is one.
pub(crate) fn source_in(alloc: Global, text: Option<&[u8]>) -> Result<Option<Source<'_>>, NoMemory>
    ensures { IfOk result (λ s. IsSourced (option_map (λ t. t.now) text.entry) s) }
{
    match text {
        None => Ok(None),
        Some(text) => match source_of(alloc, text) {
            Ok(source) => Ok(Some(source)),
            // The text of a program that was built is refused for want of memory alone.
            Err(_) => Err(NoMemory),
        },
    }
}

/// Why a run for at most so many steps ended where it did, of a code from this text, or of an image, which has none; below a line that names a block stands the
/// block's name, if it is among these.
///
/// Errors: want of memory.
pub fn set_why(
    alloc: Global,
    fitted: &Fitted<'_>,
    steps: u64,
    text: Option<&[u8]>,
    names: &BlockNames,
) -> Result<SetTold, NoMemory>
    ensures { IfOk result (λ t. HasEnded fitted.now steps t.end × IsReason names.now (option_map (λ t. t.now) text.entry) fitted.now t.end t.text.items) }
{
    let mut progress = before_steps();
    let ending = run_seen(alloc, fitted, steps, &Watching, &mut progress)?;
    let source = source_in(alloc, text)?;
    let mut told = Vec::new(alloc);
    match write_reason(fitted, &source, &ending, &progress, names, &mut told) {
        Ok(()) => Ok(SetTold {
            text: told,
            end: ending.end,
        }),
        Err(_) => Err(NoMemory),
    }
}
