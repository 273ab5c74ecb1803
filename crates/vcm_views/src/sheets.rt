//! The sheet of a run, as a view.

ghost use Rattle.std.specs.Prelude.{IfOk, IfErr};
ghost use Rattle.vcm_views.specs.Views.{sheet_view};
ghost use Rattle.vcm_views.specs.inner.Drawn.{IsFiled, IsNotFiled};

use crate::readings::{first_step, readings_of};
use crate::untried::{Untried, flagged};
use std::alloc::Global;
use std::io::Write;
use vcm_job::{Given, RunFault, Shows, is_halted, status_of};
use vcm_loader::Loaded;
use vcm_motion::AnyPart;
use vcm_part::PartData;
use vcm_sheet::{Lines, Paper, PictureFault, Reading, Sheet, write_sheet};
use vcm_state::World;
use vcm_way::{Way, follow};

/// What a sheet shows besides the run: the names of the files and of the blocks, the source lines, whether it is close, what of a whole program wasn't tried, and perhaps a
/// paper, with the title of the program.
#[derive(Clone, Copy)]
pub struct Titles<'a> {
    pub program_name: &'a [u8],
    pub part_name: &'a [u8],
    pub block_names: &'a [Vec<u8>],
    pub lines: Lines,
    pub is_close: bool,
    pub untried: Untried<'a>,
    pub paper: Option<Paper>,
    pub title: &'a [u8],
}

// Writes the sheet of a run that came to a state behind so many steps, which measured this, and gives the exit status.
fn file<W: Write>(
    alloc: Global,
    titles: &Titles<'_>,
    part: &PartData,
    world: &World,
    done: u64,
    way: &Way,
    readings: &[Reading],
    writer: &mut W,
) -> Result<u8, RunFault>
    ensures filed { IfOk result (λ status. IsFiled titles.now part.now world.now done way.now readings.now status (W.contents writer.old) (W.contents writer.new)) }
    ensures fault { IfErr result (λ f. IsNotFiled titles.now part.now world.now done way.now readings.now f (W.contents writer.old) (W.contents writer.new)) }
{
    let status = status_of(world.stop());
    let Ok(marks) = flagged(alloc, titles.untried.elsewhere, way.marks()) else {
        return Err(RunFault::NoMemory);
    };
    let sheet = Sheet {
        part,
        world,
        done,
        marks: marks.as_slice(),
        left_out: way.left_out(),
        readings,
        is_close: titles.is_close,
        lines: titles.lines,
        program_name: titles.program_name,
        part_name: titles.part_name,
        block_names: titles.block_names,
        untried: titles.untried.lines,
        paper: titles.paper,
        title: titles.title,
    };
    match write_sheet(alloc, &sheet, writer) {
        Ok(()) => Ok(status),
        Err(PictureFault::NoMemory) => Err(RunFault::NoMemory),
        Err(PictureFault::Write) => Err(RunFault::Write { done }),
    }
}

/// The picture with millimetres, numbers and tables, so that it can be filed.
#[derive(Clone, Copy)]
pub struct SheetView<'a> {
    pub titles: Titles<'a>,
}

impl<W: Write> Shows<W> for SheetView<'_> {
    ghost RunView = { λ s. sheet_view s.titles };

    fn show(
        &self,
        alloc: Global,
        loaded: &Loaded<'_>,
        _given: &Given,
        part: &PartData,
        steps: u64,
        writer: &mut W,
    ) -> Result<u8, RunFault> {
        let Ok(workpiece) = AnyPart::of(alloc, part) else {
            return Err(RunFault::NoMemory);
        };
        let Ok(followed) = follow(alloc, &*loaded, &workpiece, part, steps) else {
            return Err(RunFault::NoMemory);
        };
        let ran = followed.ran;
        if is_halted(ran) {
            return Err(RunFault::Memory { done: ran.done });
        }
        let from = first_step(followed.way.marks());
        let Ok(readings) = readings_of(alloc, &*loaded, &workpiece, steps, from) else {
            return Err(RunFault::NoMemory);
        };
        file(
            alloc,
            &self.titles,
            part,
            &followed.world,
            ran.done,
            &followed.way,
            readings.as_slice(),
            writer,
        )
    }
}
