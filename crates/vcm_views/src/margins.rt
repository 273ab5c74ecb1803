//! The margin of the tip in a run of a loaded code.

ghost use Rattle.std.specs.Prelude.{◌≡◌, ◌+◌, ◌<◌, option_map, IfOk, IfErr};
ghost use Rattle.vcm_views.specs.Views.{margin_view};
ghost use Rattle.vcm_views.specs.inner.Told.{IsBacktraceTold, IsMarginTold, IsMarginNotTold, IsTold, IsNotTold};

use crate::sources::source_in;
use std::alloc::Global;
use std::io::Write;
use vcm_job::{Given, RunFault, Shows, is_halted, status_of};
use vcm_loader::Loaded;
use vcm_machine::{Machine, Ran};
use vcm_margin::{Margin, margin, margin_backtrace, write_margin};
use vcm_motion::AnyPart;
use vcm_num::NoMemory;
use vcm_part::PartData;
use vcm_run::write_result;
use vcm_state::World;

// The backtrace of the statement at which a wider tip meets something else.
fn backtrace_of(
    alloc: Global,
    loaded: &Loaded<'_>,
    given: &Given,
    part: &PartData,
    margin: Margin,
) -> Result<Vec<u8>, NoMemory>
    requires { margin.tip + 1 < 4294967296 }
    ensures { IfOk result (λ t. IsBacktraceTold (option_map (λ t. t.items) given.now.text) part.now loaded.now margin t.items) }
{
    let source = source_in(alloc, given)?;
    margin_backtrace(alloc, loaded, &source, part, margin)
}

// Writes the margin of a run that came to the program's end behind so many steps.
fn tell_margin<W: Write>(
    alloc: Global,
    loaded: &Loaded<'_>,
    given: &Given,
    part: &PartData,
    done: u64,
    writer: &mut W,
) -> Result<(), RunFault>
    ensures told { IfOk result (λ v. IsMarginTold (option_map (λ t. t.items) given.now.text) part.now loaded.now done (W.contents writer.old) (W.contents writer.new)) }
    ensures fault { IfErr result (λ f. IsMarginNotTold (option_map (λ t. t.items) given.now.text) part.now loaded.now done f (W.contents writer.old) (W.contents writer.new)) }
{
    let Ok(margin) = margin(alloc, loaded, part, done) else {
        return Err(RunFault::NoMemory);
    };
    let Ok(backtrace) = backtrace_of(alloc, loaded, given, part, margin) else {
        return Err(RunFault::NoMemory);
    };
    let Ok(tables) = loaded.tables(alloc) else {
        return Err(RunFault::NoMemory);
    };
    match write_margin(&tables, margin, &backtrace, writer) {
        Ok(()) => Ok(()),
        Err(_) => Err(RunFault::Write { done }),
    }
}

// Writes the margin of a run that came to the program's end, and of any other its result; and gives the exit status. What the run wrote is given up before
// the tip is widened.
fn tell<W: Write>(
    alloc: Global,
    loaded: &Loaded<'_>,
    given: &Given,
    part: &PartData,
    world: World,
    ran: Ran,
    writer: &mut W,
) -> Result<u8, RunFault>
    requires { world.tables ≡ loaded.now.tables }
    ensures told { IfOk result (λ status. IsTold (option_map (λ t. t.items) given.now.text) part.now loaded.now world ran.done status (W.contents writer.old) (W.contents writer.new)) }
    ensures fault { IfErr result (λ f. IsNotTold (option_map (λ t. t.items) given.now.text) part.now loaded.now world ran.done f (W.contents writer.old) (W.contents writer.new)) }
{
    let done = ran.done;
    let status = status_of(world.stop());
    if status == 0 {
        drop(world);
        return match tell_margin(alloc, loaded, given, part, done, writer) {
            Ok(()) => Ok(status),
            Err(fault) => Err(fault),
        };
    }
    match write_result(&world, &ran, writer) {
        Ok(()) => Ok(status),
        Err(_) => Err(RunFault::Write { done }),
    }
}

/// How wide the tip may be, where the run comes to the program's end; else its result.
#[derive(Clone, Copy)]
pub struct TipMargin;

impl<W: Write> Shows<W> for TipMargin {
    ghost RunView = { λ s. margin_view };

    fn show(
        &self,
        alloc: Global,
        loaded: &Loaded<'_>,
        given: &Given,
        part: &PartData,
        steps: u64,
        writer: &mut W,
    ) -> Result<u8, RunFault> {
        let Ok(workpiece) = AnyPart::of(alloc, part) else {
            return Err(RunFault::NoMemory);
        };
        let Ok(mut machine) = Machine::new(alloc, &*loaded, &workpiece) else {
            return Err(RunFault::NoMemory);
        };
        let ran = machine.run(alloc, steps);
        let world = machine.into_world();
        if is_halted(ran) {
            return Err(RunFault::Memory { done: ran.done });
        }
        tell(alloc, loaded, given, part, world, ran, writer)
    }
}
