//! Why a view wasn't written to its end.

ghost use Rattle.std.specs.Prelude.{◌≡◌};
ghost use Rattle.vcm_views.specs.inner.Cuts.{cut_short};

use vcm_job::RunFault;
use vcm_steps::Unfinished;

/// Why a view wasn't written, where what is told of its run wasn't.
pub(crate) fn cut_short(fault: Unfinished) -> RunFault
    ensures { result ≡ cut_short fault }
{
    match fault {
        Unfinished::NoMemory => RunFault::NoMemory,
        Unfinished::Memory { done } => RunFault::Memory { done },
        Unfinished::Write { done } => RunFault::Write { done },
    }
}
