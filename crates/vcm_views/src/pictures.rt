//! The picture of a run of a loaded code.

ghost use Rattle.std.specs.Prelude.{IfOk, IfErr};
ghost use Rattle.vcm_views.specs.Views.{picture_view};
ghost use Rattle.vcm_views.specs.inner.Drawn.{IsDrawn, IsNotDrawn};

use crate::untried::{Untried, flagged};
use std::alloc::Global;
use std::io::Write;
use vcm_job::{Given, RunFault, Shows, is_halted, status_of};
use vcm_loader::Loaded;
use vcm_motion::AnyPart;
use vcm_part::PartData;
use vcm_picture::{PictureFault, write_picture};
use vcm_state::World;
use vcm_way::{Way, follow};

// Writes the picture of a run that came to a state behind so many steps, and gives the exit status.
fn draw<W: Write>(
    alloc: Global,
    part: &PartData,
    world: &World,
    done: u64,
    way: &Way,
    is_close: bool,
    untried: &Untried<'_>,
    writer: &mut W,
) -> Result<u8, RunFault>
    ensures drawn { IfOk result (λ status. IsDrawn part.now world.now done way.now is_close untried.now status (W.contents writer.old) (W.contents writer.new)) }
    ensures fault { IfErr result (λ f. IsNotDrawn part.now world.now done way.now is_close untried.now f (W.contents writer.old) (W.contents writer.new)) }
{
    let status = status_of(world.stop());
    let Ok(marks) = flagged(alloc, untried.elsewhere, way.marks()) else {
        return Err(RunFault::NoMemory);
    };
    match write_picture(
        alloc,
        part,
        world,
        done,
        marks.as_slice(),
        way.left_out(),
        is_close,
        untried.lines,
        writer,
    ) {
        Ok(()) => Ok(status),
        Err(PictureFault::NoMemory) => Err(RunFault::NoMemory),
        Err(PictureFault::Write) => Err(RunFault::Write { done }),
    }
}

/// Three views of the workpiece and of the way of the probe, as SVG; a close one shows the blocks as large as they are. What of a whole program wasn't tried stands in its
/// heading.
#[derive(Clone, Copy)]
pub struct Picture<'a> {
    pub is_close: bool,
    pub untried: Untried<'a>,
}

impl<W: Write> Shows<W> for Picture<'_> {
    ghost RunView = { λ s. picture_view s.is_close s.untried };

    fn show(
        &self,
        alloc: Global,
        loaded: &Loaded<'_>,
        _given: &Given,
        part: &PartData,
        steps: u64,
        writer: &mut W,
    ) -> Result<u8, RunFault> {
        let Ok(workpiece) = AnyPart::of(alloc, part) else {
            return Err(RunFault::NoMemory);
        };
        let Ok(followed) = follow(alloc, &*loaded, &workpiece, part, steps) else {
            return Err(RunFault::NoMemory);
        };
        let ran = followed.ran;
        if is_halted(ran) {
            return Err(RunFault::Memory { done: ran.done });
        }
        draw(
            alloc,
            part,
            &followed.world,
            ran.done,
            &followed.way,
            self.is_close,
            &self.untried,
            writer,
        )
    }
}
