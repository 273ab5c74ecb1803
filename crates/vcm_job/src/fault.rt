//! Why a command came to no whole answer.

ghost use Rattle.std.specs.Prelude.{◌≡◌};
ghost use Rattle.vcm_job.specs.Unread.{session_fault};

use crate::reading::ReadFault;
use vcm_debug::ServeFault;
use vcm_fields::ImageFault;
use vcm_lines::SourceFault;
use vcm_listing::ListFault;
use vcm_part::PartFault;
use vcm_run::Refusal;

/// Why a command came to no whole answer; `R` is what refuses its input.
#[derive(Clone, Copy, PartialEq, Eq)]
pub enum Fault<R> {
    /// The input is refused, or a growth of memory was refused while it was judged or made ready.
    Refused(R),
    /// A growth of memory was refused outside that: while the input was read, or what it gives was made.
    NoMemory,
    /// A growth of memory was refused after so many steps of the run.
    Memory { done: u64 },
    /// The reader failed, before more was read than an input may have.
    Read,
    /// The writer failed, or took no byte, before all was written; the run had done so many steps, 0 where there is none.
    Write { done: u64 },
    /// The input is longer than 33,554,432 bytes.
    TooLong,
}

/// Why an input is refused that is an image or the text of a program.
#[derive(Clone, Copy, PartialEq, Eq)]
pub enum InputRefusal {
    Text(Refusal),
    Image(ImageFault),
}

/// Why a session is refused its input, or goes no further.
#[derive(Clone, Copy, PartialEq, Eq)]
pub enum SessionFault {
    Text(Refusal),
    Image(ImageFault),
    /// The commands could not be read, or the replies not written, or there are too many commands.
    Serve(ServeFault),
}

/// Why a job wrote no whole result.
pub type JobFault = Fault<Refusal>;

/// Why a run of an input wrote no whole result.
pub type RunFault = Fault<InputRefusal>;

/// Why no image of a program was built; never `Memory` or `Write`.
pub type BuildFault = Fault<Refusal>;

/// Why a check told no number of statements; never `Memory`.
pub type CheckFault = Fault<SourceFault>;

/// Why no listing was written; never `Memory`.
pub type PrintFault = Fault<InputRefusal>;

/// Why a listing gave no image; never `Memory` or `Write`.
pub type AsmFault = Fault<ListFault>;

/// Why a part file gives no workpiece; never `Memory` or `Write`.
pub type PartFileFault = Fault<PartFault>;

/// Why a session didn't come to its end; never `Memory` or `Write`.
pub type DebugFault = Fault<SessionFault>;

impl<R> From<ReadFault> for Fault<R> {
    ghost use Rattle.std.specs.Prelude.{◌≡◌};
    ghost use Rattle.vcm_job.specs.Unread.{not_read};

    ghost from_gives = { λ read fault. fault ≡ not_read read };

    fn from(fault: ReadFault) -> Fault<R> {
        match fault {
            ReadFault::NoMemory => Fault::NoMemory,
            ReadFault::Device => Fault::Read,
            ReadFault::TooLong => Fault::TooLong,
        }
    }
}

/// Why a session didn't come to its end, where its input is refused as a run's.
pub fn session_fault(fault: RunFault) -> DebugFault
    ensures { result ≡ session_fault fault }
{
    match fault {
        Fault::Refused(InputRefusal::Text(refusal)) => Fault::Refused(SessionFault::Text(refusal)),
        Fault::Refused(InputRefusal::Image(fault)) => Fault::Refused(SessionFault::Image(fault)),
        Fault::NoMemory => Fault::NoMemory,
        Fault::Memory { done } => Fault::Memory { done },
        Fault::Read => Fault::Read,
        Fault::Write { done } => Fault::Write { done },
        Fault::TooLong => Fault::TooLong,
    }
}
