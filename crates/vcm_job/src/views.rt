//! Views of runs, from the bytes of an input to those of the view.

ghost use Rattle.std.specs.Prelude.{◌≡◌, ℕ, List, IfOk, IfErr, IfSome, option_map};
ghost use Rattle.vcm_job.specs.Reading.{ReadsLittle};
ghost use Rattle.vcm_job.specs.Unread.{AnswersUnread};
ghost use Rattle.vcm_job.specs.Given.{IsGiven};
ghost use Rattle.vcm_job.specs.Views.{IsViewed, IsCutShort, IsImageViewed, IsImageNotViewed, IsShown, IsNoView, RunView as Seen};
ghost use Rattle.vcm_job.specs.inner.Viewing.{judged, IsInputNotViewed};

use crate::fault::{InputRefusal, RunFault};
use crate::given::{Given, given_of};
use crate::reading::read_all;
use crate::running::Done;
use std::alloc::Global;
use std::io::{Read, Write};
use vcm_loader::{Loaded, load};
use vcm_part::PartData;

/// A view of runs: what it writes of a loaded code.
pub trait Shows<W: Write> {
    /// What it tells, and what it has written where memory was refused to the run.
    ghost RunView: { Self → Seen };

    /// Writes what a run of a loaded code for at most so many steps shows, and nothing else, and gives the exit status. What was given is what the code was
    /// loaded of.
    ///
    /// # Errors
    ///
    /// See `RunFault`; nothing is refused here. After a failed write the writer has taken a front of the view, and not all of it.
    fn show(
        &self,
        alloc: Global,
        loaded: &Loaded<'_>,
        given: &Given,
        part: &PartData,
        steps: u64,
        writer: &mut W,
    ) -> Result<u8, RunFault>
        ensures shown { IfOk result (λ status. IsViewed (RunView self.now) (option_map (λ t. t.items) given.now.text) given.now.notices.items part.now loaded.now steps status (W.contents writer.old) (W.contents writer.new)) }
        ensures fault { IfErr result (λ f. IsCutShort (RunView self.now) (option_map (λ t. t.items) given.now.text) given.now.notices.items part.now loaded.now steps f (W.contents writer.old) (W.contents writer.new)) };
}

/// Writes a view of the image that was given in a run for at most so many steps beside a workpiece, and nothing else, and gives the exit status.
///
/// Errors: see `RunFault`; the image is refused here, one that was built for want of memory alone. A refused image writes nothing. After a failed write the writer
/// has taken a front of the view, and not all of it.
pub fn show<W: Write, S: Shows<W>>(
    alloc: Global,
    view: &S,
    given: &Given,
    part: &PartData,
    steps: u64,
    writer: &mut W,
) -> Result<u8, RunFault>
    ensures shown { IfOk result (λ status. IsImageViewed (S.RunView view.now) (option_map (λ t. t.items) given.now.text) given.now.notices.items part.now given.now.image.items steps status (W.contents writer.old) (W.contents writer.new)) }
    ensures fault { IfErr result (λ f. IsImageNotViewed (S.RunView view.now) (option_map (λ t. t.items) given.now.text) given.now.notices.items part.now given.now.image.items steps f (W.contents writer.old) (W.contents writer.new)) }
{
    match load(alloc, &given.image) {
        Ok(loaded) => view.show(alloc, &loaded, given, part, steps, writer),
        Err(fault) => Err(RunFault::Refused(InputRefusal::Image(fault))),
    }
}

/// Why no whole answer came of an image that was read, or of one that was built, which is refused for want of memory alone.
pub(crate) fn judged(is_built: bool, fault: RunFault) -> RunFault
    ensures { result ≡ judged is_built fault }
{
    match fault {
        RunFault::Refused(refusal) => if is_built {
            RunFault::NoMemory
        } else {
            RunFault::Refused(refusal)
        },
        RunFault::NoMemory => RunFault::NoMemory,
        RunFault::Memory { done } => RunFault::Memory { done },
        RunFault::Read => RunFault::Read,
        RunFault::Write { done } => RunFault::Write { done },
        RunFault::TooLong => RunFault::TooLong,
    }
}

/// Writes a view of what was read in a run for at most so many steps beside a workpiece, and nothing else. It answers the exit status, and the program's
/// lines that have no effect.
///
/// Errors: see `RunFault`; an image that was read is refused here. A refused input writes nothing. After a failed write the writer has taken a front of the
/// view, and not all of it.
pub fn show_given<W: Write, S: Shows<W>>(
    alloc: Global,
    view: &S,
    given: Given,
    part: &PartData,
    steps: u64,
    writer: &mut W,
) -> Result<Done, RunFault>
    ensures done { (input : List ℕ) → IsGiven input given.image.items (option_map (λ t. t.items) given.text) given.notices.items
        → IfOk result (λ d. IsShown (S.RunView view.now) part.now input steps d.status d.notices.items (W.contents writer.old) (W.contents writer.new)) }
    ensures fault { (input : List ℕ) → IsGiven input given.image.items (option_map (λ t. t.items) given.text) given.notices.items
        → IfErr result (λ f. IsInputNotViewed (S.RunView view.now) part.now input steps f (W.contents writer.old) (W.contents writer.new)) }
{
    let shown = show(alloc, view, &given, part, steps, writer);
    let Given { text, notices, .. } = given;
    match shown {
        Ok(status) => Ok(Done { status, notices }),
        Err(fault) => Err(judged(text.is_some(), fault)),
    }
}

/// Reads an input whole, runs it beside a workpiece for at most so many steps, and writes a view of the run and nothing else. An input whose first
/// four bytes are `VCMI` is an image, any other the text of a program. It answers the exit status, and the program's lines that have no effect.
///
/// Errors: see `RunFault`. A refused input writes nothing. After a failed write the writer has taken a front of the view, and not all of it.
pub fn view_of<R: Read, W: Write, S: Shows<W>>(
    alloc: Global,
    view: &S,
    part: &PartData,
    reader: &mut R,
    steps: u64,
    writer: &mut W,
) -> Result<Done, RunFault>
    ensures done { IfOk result (λ d. IfSome (R.remaining reader.old) (λ input. IsShown (S.RunView view.now) part.now input steps d.status d.notices.items (W.contents writer.old) (W.contents writer.new))) }
    ensures fault { IfErr result (λ f. IsNoView (S.RunView view.now) part.now steps (R.remaining reader.old) (R.remaining reader.new) f (W.contents writer.old) (W.contents writer.new)) }
    ensures long { AnswersUnread (R.remaining reader.old) result }
    ensures little { ReadsLittle (R.remaining reader.old) (R.remaining reader.new) }
{
    let input = read_all(alloc, reader)?;
    match given_of(alloc, input) {
        Ok(given) => show_given(alloc, view, given, part, steps, writer),
        Err(fault) => Err(fault),
    }
}
