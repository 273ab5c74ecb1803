//! The printed result of a run. Nothing here takes memory.

ghost use Rattle.vcm_num.specs.Written.{Wrote};
ghost use Rattle.vcm_run.specs.Printed.{result_text};

use std::io::Write;
use vcm_machine::Ran;
use vcm_num::WriteFault;
use vcm_report::{write_end_line, write_lines, write_position, write_steps};
use vcm_state::World;

/// Writes the result of a run: the output lines, the stop or the steps that were done without one, the position in millimetres, and the steps.
///
/// Errors: the writer failed, or took no byte; then it has taken a front of the text, and not all of it.
pub fn write_result<W: Write>(world: &World, ran: &Ran, writer: &mut W) -> Result<(), WriteFault>
    ensures { Wrote (W.contents writer.old) (W.contents writer.new) (result_text world.now ran.now.done) result }
{
    write_lines(world.lines(), writer)?;
    write_end_line(world.tables(), world.stop(), ran.done, writer)?;
    write_position(world.position(), writer)?;
    write_steps(ran.done, writer)
}
