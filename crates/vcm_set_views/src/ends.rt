//! How a run with several probes ends.

ghost use Rattle.std.specs.Prelude.{◌≡◌, ◌<◌, ◌^◌, ◌-◌};
ghost use Rattle.vcm_turning.specs.declared.ended.NoProbe.{NoProbe as Lack};
ghost use Rattle.vcm_turning.specs.declared.ended.Ended.TheVariants.{Lost};
ghost use Rattle.vcm_num.specs.Written.{Wrote};
ghost use Rattle.vcm_set_views.specs.Ends.{ended_line};

use std::io::Write;
use vcm_items::Tables;
use vcm_num::WriteFault;
use vcm_report::write_end_line;
use vcm_set_debug::write_no_probe;
use vcm_spec::StopPlace;
use vcm_turning::Ended;

/// How many steps were taken, how the run ended, and the stop that it came to, if it did.
#[derive(Clone, Copy)]
pub struct SetEnd {
    pub done: u64,
    pub end: Ended,
    pub stop: Option<StopPlace>,
}

/// What is told of a run, and how that ended.
#[derive(Drop)]
pub struct SetTold {
    pub text: Vec<u8>,
    pub end: SetEnd,
}

/// Writes how a run ended.
///
/// Errors: the writer failed, or took no byte; then it has taken a front of the line, and not all of it.
pub(crate) fn write_ended<W: Write>(
    tables: &Tables,
    end: SetEnd,
    writer: &mut W,
) -> Result<(), WriteFault>
    requires { (l : Lack) → end.end ≡ Lost l → end.done < 2 ^ 64 - 1 }
    ensures { Wrote (W.contents writer.old) (W.contents writer.new) (ended_line tables.now end.end end.stop end.done) result }
{
    match end.end {
        Ended::Lost(lost) => write_no_probe(lost, end.done + 1, writer),
        _ => write_end_line(tables, end.stop, end.done, writer),
    }
}
