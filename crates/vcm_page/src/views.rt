//! The page of a run, as a view.

ghost use Rattle.std.specs.Prelude.{Some, None, IfOk, IfErr};
ghost use Rattle.vcm_job.specs.Views.{IsViewed, IsCutShort};
ghost use Rattle.vcm_page.specs.Views.{texts_of, page_view};

use crate::pages::{Texts, write_page};
use std::alloc::Global;
use std::io::Write;
use vcm_job::{Given, RunFault, Shows};
use vcm_loader::Loaded;
use vcm_num::NoMemory;
use vcm_part::PartData;
use vcm_print::print;
use vcm_program::Noticed;
use vcm_story::ShownText;

// Writes the page of a code that shows the program's text.
fn write_typed<'a, W: Write>(
    alloc: Global,
    loaded: &'a Loaded<'a>,
    part: &PartData,
    texts: Texts<'_>,
    text: &[u8],
    notices: &[Noticed],
    steps: u64,
    writer: &mut W,
) -> Result<u8, RunFault>
    ensures shown { IfOk result (λ status. IsViewed (page_view (texts_of texts.entry.front.now texts.entry.back.now)) (Some text.now) notices.now part.now loaded.now steps status (W.contents writer.old) (W.contents writer.new)) }
    ensures fault { IfErr result (λ f. IsCutShort (page_view (texts_of texts.entry.front.now texts.entry.back.now)) (Some text.now) notices.now part.now loaded.now steps f (W.contents writer.old) (W.contents writer.new)) }
{
    let shown = ShownText {
        text,
        is_listing: false,
        notices,
    };
    write_page(alloc, loaded, part, texts, shown, steps, writer)
}

// Writes the page of a code that shows its listing.
fn write_listed<'a, W: Write>(
    alloc: Global,
    loaded: &'a Loaded<'a>,
    part: &PartData,
    texts: Texts<'_>,
    notices: &[Noticed],
    steps: u64,
    writer: &mut W,
) -> Result<u8, RunFault>
    ensures shown { IfOk result (λ status. IsViewed (page_view (texts_of texts.entry.front.now texts.entry.back.now)) None notices.now part.now loaded.now steps status (W.contents writer.old) (W.contents writer.new)) }
    ensures fault { IfErr result (λ f. IsCutShort (page_view (texts_of texts.entry.front.now texts.entry.back.now)) None notices.now part.now loaded.now steps f (W.contents writer.old) (W.contents writer.new)) }
{
    let listing = match print(alloc, loaded) {
        Ok(listing) => listing,
        Err(NoMemory) => return Err(RunFault::NoMemory),
    };
    let shown = ShownText {
        text: &listing,
        is_listing: true,
        notices,
    };
    write_page(alloc, loaded, part, texts, shown, steps, writer)
}

/// The page of a run: fixed texts, and between them the story of the run, which shows the program's text, or of an image its listing.
#[derive(Clone, Copy)]
pub struct Page<'a> {
    pub texts: Texts<'a>,
}

impl<W: Write> Shows<W> for Page<'_> {
    ghost RunView = { λ s. page_view (texts_of s.texts.front.now s.texts.back.now) };

    fn show(
        &self,
        alloc: Global,
        loaded: &Loaded<'_>,
        given: &Given,
        part: &PartData,
        steps: u64,
        writer: &mut W,
    ) -> Result<u8, RunFault> {
        let notices = given.notices.as_slice();
        match &given.text {
            Some(text) => write_typed(
                alloc, loaded, part, self.texts, text, notices, steps, writer,
            ),
            None => write_listed(alloc, loaded, part, self.texts, notices, steps, writer),
        }
    }
}
