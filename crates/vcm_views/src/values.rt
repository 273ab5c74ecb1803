//! The result of a run with the values of variables, as a view.

ghost use Rattle.std.specs.Prelude.{IfOk, IfErr};
ghost use Rattle.vcm_views.specs.Views.{values_view};
ghost use Rattle.vcm_views.specs.inner.Shown.{IsShown, IsNotShown};

use std::alloc::Global;
use std::io::Write;
use vcm_job::{Given, RunFault, Shows, is_halted, status_of};
use vcm_loader::Loaded;
use vcm_machine::{Machine, Ran};
use vcm_motion::AnyPart;
use vcm_part::PartData;
use vcm_run::write_result;
use vcm_state::World;
use vcm_values::write_values;

// Writes the result of a run and the values of variables, and gives the exit status.
fn tell<W: Write>(world: &World, ran: Ran, places: &[u16], writer: &mut W) -> Result<u8, RunFault>
    ensures shown { IfOk result (λ status. IsShown places.now world.now ran.done status (W.contents writer.old) (W.contents writer.new)) }
    ensures fault { IfErr result (λ f. IsNotShown places.now world.now ran.done f (W.contents writer.old) (W.contents writer.new)) }
{
    let done = ran.done;
    let Ok(()) = write_result(world, &ran, writer) else {
        return Err(RunFault::Write { done });
    };
    match write_values(world.tables(), world.variables(), places, writer) {
        Ok(()) => Ok(status_of(world.stop())),
        Err(_) => Err(RunFault::Write { done }),
    }
}

/// The result of a run, and then the values of the variables at these places of the tables, a line for each.
#[derive(Clone, Copy)]
pub struct Values<'a> {
    pub places: &'a [u16],
}

impl<W: Write> Shows<W> for Values<'_> {
    ghost RunView = { λ s. values_view s.places.now };

    fn show(
        &self,
        alloc: Global,
        loaded: &Loaded<'_>,
        _given: &Given,
        part: &PartData,
        steps: u64,
        writer: &mut W,
    ) -> Result<u8, RunFault> {
        let Ok(workpiece) = AnyPart::of(alloc, part) else {
            return Err(RunFault::NoMemory);
        };
        let Ok(mut machine) = Machine::new(alloc, &*loaded, &workpiece) else {
            return Err(RunFault::NoMemory);
        };
        let ran = machine.run(alloc, steps);
        let world = machine.into_world();
        if is_halted(ran) {
            return Err(RunFault::Memory { done: ran.done });
        }
        tell(&world, ran, self.places, writer)
    }
}
