//! The stories of runs.

ghost use Rattle.std.specs.Prelude.{◌≡◌, ◌==◌, ◌++◌, [], flat_map, slice_get, codes, if◌then◌else◌, IfOk, IfErr};
ghost use Rattle.vcm_num.specs.Written.{Wrote};
ghost use Rattle.vcm_machine.specs.Running.{started};
ghost use Rattle.vcm_trace.specs.Traces.{open_at};
ghost use Rattle.vcm_rows.specs.Opening.{text_rows, listing_row, code_rows, notice_row, opening_rows};
ghost use Rattle.vcm_story.specs.State.{state_rows};
ghost use Rattle.vcm_story.specs.Stories.{story_text, TookFront, IsStory};

use crate::following::StoryWriter;
use crate::state_rows::write_state;
use std::alloc::Global;
use std::io::Write;
use vcm_loader::Loaded;
use vcm_machine::{End, Machine};
use vcm_motion::Part;
use vcm_num::{WriteFault, write_all};
use vcm_part::PartData;
use vcm_program::Noticed;
use vcm_rows::{write_code, write_listing_row, write_notices, write_part, write_text};
use vcm_spec::StopPlace;
use vcm_state::World;
use vcm_steps::follow_run;
use vcm_trace::write_open;

/// Why no whole story was written: the writer failed, or took no byte; or a growth of memory was refused to an output line. A front of the story was
/// written.
#[derive(Clone, Copy, PartialEq, Eq)]
pub struct StoryFault;

/// The text that a story shows, whether it is a listing, and the lines of the program that have no effect.
#[derive(Clone, Copy)]
pub struct ShownText<'a> {
    pub text: &'a [u8],
    pub is_listing: bool,
    pub notices: &'a [Noticed],
}

// Writes the rows of the shown text, of the code, and of lines without effect.
fn write_program<'a, W: Write>(
    loaded: &'a Loaded<'a>,
    shown: ShownText<'_>,
    writer: &mut W,
) -> Result<(), WriteFault>
    ensures { Wrote (W.contents writer.old) (W.contents writer.new)
        (text_rows shown.entry.text.now ++ (listing_row shown.entry.is_listing loaded.now.tables ++ (code_rows loaded.now ++ flat_map notice_row shown.entry.notices.now))) result }
{
    write_text(shown.text, writer)?;
    write_listing_row(loaded, shown.is_listing, writer)?;
    write_code(loaded, writer)?;
    write_notices(shown.notices, writer)
}

/// Writes the rows that stand before any state.
///
/// Errors: the writer failed, or took no byte; then it has taken a front of the rows, and not all of them.
pub fn write_opening<'a, W: Write>(
    loaded: &'a Loaded<'a>,
    blocks: &PartData,
    shown: ShownText<'_>,
    writer: &mut W,
) -> Result<(), WriteFault>
    ensures { Wrote (W.contents writer.old) (W.contents writer.new)
        (opening_rows blocks.now loaded.now shown.entry.text.now shown.entry.is_listing shown.entry.notices.now) result }
{
    write_all(writer, b"vcm-view 1\n")?;
    write_part(blocks, writer)?;
    write_program(loaded, shown, writer)
}

/// Writes the state at the start, where all steps are shown.
///
/// Errors: the writer failed, or took no byte; then it has taken a front of the rows, and not all of them.
pub fn write_start<W: Write>(from: u64, world: &World, writer: &mut W) -> Result<(), WriteFault>
    ensures { Wrote (W.contents writer.old) (W.contents writer.new)
        (if from == 0 then state_rows world.now.tables 0 world.now.state else []) result }
{
    if from == 0 {
        write_state(0, world, writer)
    } else {
        Ok(())
    }
}

// Writes the line of a machine that has not stopped, behind so many steps.
fn write_rest<P: Part, W: Write>(
    loaded: &Loaded<'_>,
    machine: &Machine<'_, P>,
    done: u64,
    writer: &mut W,
) -> Result<(), WriteFault>
    requires { machine.now.code ≡ loaded.now }
    ensures { Wrote (W.contents writer.old) (W.contents writer.new)
        (open_at done machine.now.state (slice_get loaded.now.statements machine.now.state.next)) result }
{
    let next = machine.next();
    let line = loaded.line(next as usize);
    write_open(done, next, line, machine.world(), writer)
}

// Writes what stands before the steps.
fn write_before<'a, P: Part, W: Write>(
    loaded: &'a Loaded<'a>,
    machine: &Machine<'_, P>,
    blocks: &PartData,
    shown: ShownText<'_>,
    from: u64,
    writer: &mut W,
) -> Result<(), WriteFault>
    requires { machine.now.code ≡ loaded.now }
    ensures { Wrote (W.contents writer.old) (W.contents writer.new)
        (opening_rows blocks.now loaded.now shown.entry.text.now shown.entry.is_listing shown.entry.notices.now
        ++ (if from == 0 then state_rows loaded.now.tables 0 machine.now.state.world else [])) result }
{
    write_opening(loaded, blocks, shown, writer)?;
    write_start(from, machine.world(), writer)
}

/// Writes the story of a machine that stands at the start of a loaded code, in a run for at most so many steps beside a workpiece, whose blocks are
/// given too. Its first `from` steps are not shown. It answers the stop, if the run came to one.
///
/// Errors: see `StoryFault`.
pub fn write_story<'a, P: Part, W: Write>(
    alloc: Global,
    loaded: &'a Loaded<'a>,
    machine: &mut Machine<'_, P>,
    part: &P,
    blocks: &PartData,
    shown: ShownText<'_>,
    from: u64,
    steps: u64,
    writer: &mut W,
) -> Result<Option<StopPlace>, StoryFault>
    requires tie { P.part part.now ≡ blocks.now }
    requires start { machine.old ≡ started blocks.now loaded.now }
    ensures told { IfOk result (λ stop. IsStory blocks.now loaded.now
        (story_text blocks.now loaded.now shown.entry.text.now shown.entry.is_listing shown.entry.notices.now from steps) steps stop (W.contents writer.old) (W.contents writer.new)) }
    ensures fault { IfErr result (λ f. TookFront (W.contents writer.old) (W.contents writer.new)
        (story_text blocks.now loaded.now shown.entry.text.now shown.entry.is_listing shown.entry.notices.now from steps)) }
{
    // It is called for what it tells of the code: that it is valid.
    let _count = loaded.statement_count();
    let Ok(()) = write_before(loaded, machine, blocks, shown, from, writer) else {
        return Err(StoryFault);
    };
    let by = StoryWriter { part, blocks, from };
    match follow_run(alloc, loaded, machine, steps, &by, writer) {
        Ok(ran) => match ran.end {
            End::Count => match write_rest(loaded, machine, ran.done, writer) {
                Ok(()) => Ok(None),
                Err(_) => Err(StoryFault),
            },
            End::Stopped => Ok(machine.world().stop()),
            End::NoMemory => Err(StoryFault),
        },
        Err(fault) => Err(fault),
    }
}
