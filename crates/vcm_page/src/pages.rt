//! The page of a loaded code.

ghost use Rattle.std.specs.Prelude.{◌≡◌, ◌++◌, IfOk, IfErr, codes, flat_map};
ghost use Rattle.vcm_num.specs.Written.{Wrote, AppendsFront};
ghost use Rattle.vcm_machine.specs.Running.{started};
ghost use Rattle.vcm_steps.specs.Passages.{steps_taken};
ghost use Rattle.vcm_story.specs.Stories.{story_text, IsStory};
ghost use Rattle.vcm_page.specs.Views.{texts_of};
ghost use Rattle.vcm_page.specs.Pages.{not_shown, page_text, story_of};
ghost use Rattle.vcm_page.specs.inner.Written.{IsWritten, IsNotWritten, IsNotCounted};

use std::alloc::Global;
use std::io::Write;
use vcm_job::{RunFault, is_halted, status_of};
use vcm_loader::Loaded;
use vcm_machine::Machine;
use vcm_motion::{AnyPart, Part};
use vcm_num::{WriteFault, write_all, write_pieces};
use vcm_part::PartData;
use vcm_spec::StopPlace;
use vcm_story::{ShownText, write_story};

/// What stands in a page before its story, and behind the end of the story's element, each in pieces.
#[derive(Clone, Copy)]
pub struct Texts<'a> {
    pub front: &'a [&'a [u8]],
    pub back: &'a [&'a [u8]],
}

// How many of so many steps are not shown.
fn not_shown(steps: u64) -> u64
    ensures { result ≡ not_shown steps }
{
    steps.saturating_sub(100_000)
}

// How many steps a run for at most so many takes.
fn count_steps<P: Part>(
    alloc: Global,
    loaded: &Loaded<'_>,
    part: &P,
    steps: u64,
) -> Result<u64, RunFault>
    ensures counted { IfOk result (λ done. done ≡ steps_taken (P.part part.now) loaded.now steps) }
    ensures fault { IfErr result (λ f. IsNotCounted (P.part part.now) loaded.now steps f) }
{
    let Ok(mut machine) = Machine::new(alloc, &*loaded, part) else {
        return Err(RunFault::NoMemory);
    };
    let ran = machine.run(alloc, steps);
    if is_halted(ran) {
        return Err(RunFault::Memory { done: ran.done });
    }
    Ok(ran.done)
}

// Writes the end of the story's element, and what stands behind it.
fn write_behind<W: Write>(back: &[&[u8]], writer: &mut W) -> Result<(), WriteFault>
    ensures { Wrote (W.contents writer.old) (W.contents writer.new) (codes "</script>\n" ++ flat_map (λ p. p.now) back.now) result }
{
    write_all(writer, b"</script>\n")?;
    write_pieces(writer, back)
}

// Writes the page of a machine that stands at the start of a loaded code, and gives the stop of its run, if it comes to one.
fn write_parts<'a, P: Part, W: Write>(
    alloc: Global,
    loaded: &'a Loaded<'a>,
    machine: &mut Machine<'_, P>,
    workpiece: &P,
    part: &PartData,
    texts: Texts<'_>,
    shown: ShownText<'_>,
    from: u64,
    steps: u64,
    writer: &mut W,
) -> Result<Option<StopPlace>, WriteFault>
    requires tie { P.part workpiece.now ≡ part.now }
    requires start { machine.old ≡ started part.now loaded.now }
    ensures told { IfOk result (λ stop. IsStory part.now loaded.now
        (page_text (texts_of texts.entry.front.now texts.entry.back.now).front (story_text part.now loaded.now shown.entry.text.now shown.entry.is_listing shown.entry.notices.now from steps)
        (texts_of texts.entry.front.now texts.entry.back.now).back) steps stop (W.contents writer.old) (W.contents writer.new)) }
    ensures fault { IfErr result (λ f. AppendsFront (W.contents writer.old) (W.contents writer.new)
        (page_text (texts_of texts.entry.front.now texts.entry.back.now).front (story_text part.now loaded.now shown.entry.text.now shown.entry.is_listing shown.entry.notices.now from steps)
        (texts_of texts.entry.front.now texts.entry.back.now).back)) }
{
    let Ok(()) = write_pieces(writer, texts.front) else {
        return Err(WriteFault);
    };
    match write_story(
        alloc, loaded, machine, workpiece, part, shown, from, steps, writer,
    ) {
        Ok(stop) => match write_behind(texts.back, writer) {
            Ok(()) => Ok(stop),
            Err(fault) => Err(fault),
        },
        Err(_) => Err(WriteFault),
    }
}

// Writes the page of a run that takes so many steps, and gives the exit status.
fn write_counted<'a, P: Part, W: Write>(
    alloc: Global,
    loaded: &'a Loaded<'a>,
    workpiece: &P,
    part: &PartData,
    texts: Texts<'_>,
    shown: ShownText<'_>,
    done: u64,
    steps: u64,
    writer: &mut W,
) -> Result<u8, RunFault>
    requires tie { P.part workpiece.now ≡ part.now }
    requires counted { done ≡ steps_taken part.now loaded.now steps }
    ensures written { IfOk result (λ status. IsWritten part.now loaded.now
        (page_text (texts_of texts.entry.front.now texts.entry.back.now).front (story_of part.now loaded.now shown.entry.text.now shown.entry.is_listing shown.entry.notices.now steps)
        (texts_of texts.entry.front.now texts.entry.back.now).back) steps status (W.contents writer.old) (W.contents writer.new)) }
    ensures fault { IfErr result (λ f. IsNotWritten part.now loaded.now
        (page_text (texts_of texts.entry.front.now texts.entry.back.now).front (story_of part.now loaded.now shown.entry.text.now shown.entry.is_listing shown.entry.notices.now steps)
        (texts_of texts.entry.front.now texts.entry.back.now).back) steps f (W.contents writer.old) (W.contents writer.new)) }
{
    let Ok(mut machine) = Machine::new(alloc, &*loaded, workpiece) else {
        return Err(RunFault::NoMemory);
    };
    let from = not_shown(done);
    match write_parts(
        alloc,
        loaded,
        &mut machine,
        workpiece,
        part,
        texts,
        shown,
        from,
        steps,
        writer,
    ) {
        Ok(stop) => Ok(status_of(stop)),
        Err(_) => Err(RunFault::Write { done }),
    }
}

/// Writes the page of a loaded code in a run for at most so many steps, and gives the exit status. The run is made twice: once to count its steps,
/// and once to tell the last 100,000 of them.
///
/// Errors: want of memory in the first run or before the second, and nothing is written; or a failed write, after which the writer has taken a front of the
/// page, and not all of it. Memory that the first run had and the second one is refused is told as a failed write.
pub(crate) fn write_page<'a, W: Write>(
    alloc: Global,
    loaded: &'a Loaded<'a>,
    part: &PartData,
    texts: Texts<'_>,
    shown: ShownText<'_>,
    steps: u64,
    writer: &mut W,
) -> Result<u8, RunFault>
    ensures written { IfOk result (λ status. IsWritten part.now loaded.now
        (page_text (texts_of texts.entry.front.now texts.entry.back.now).front (story_of part.now loaded.now shown.entry.text.now shown.entry.is_listing shown.entry.notices.now steps)
        (texts_of texts.entry.front.now texts.entry.back.now).back) steps status (W.contents writer.old) (W.contents writer.new)) }
    ensures fault { IfErr result (λ f. IsNotWritten part.now loaded.now
        (page_text (texts_of texts.entry.front.now texts.entry.back.now).front (story_of part.now loaded.now shown.entry.text.now shown.entry.is_listing shown.entry.notices.now steps)
        (texts_of texts.entry.front.now texts.entry.back.now).back) steps f (W.contents writer.old) (W.contents writer.new)) }
{
    let Ok(workpiece) = AnyPart::of(alloc, part) else {
        return Err(RunFault::NoMemory);
    };
    match count_steps(alloc, loaded, &workpiece, steps) {
        Ok(done) => write_counted(
            alloc, loaded, &workpiece, part, texts, shown, done, steps, writer,
        ),
        Err(fault) => Err(fault),
    }
}
