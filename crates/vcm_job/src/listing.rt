//! Listings of programs and images, and images of listings.

ghost use Rattle.std.specs.Prelude.{◌≡◌, ℕ, List, option_map, IfOk, IfErr, IfSome};
ghost use Rattle.vcm_job.specs.Given.{IsGiven};
ghost use Rattle.vcm_job.specs.Reading.{ReadsLittle};
ghost use Rattle.vcm_job.specs.Unread.{AnswersUnread};
ghost use Rattle.vcm_job.specs.Listings.{IsPrinted, IsListed, IsWrittenOut, IsNotListed, IsNotAssembled};
ghost use Rattle.vcm_job.specs.inner.Judged.{IsRefusedAs};
ghost use Rattle.vcm_job.specs.Inputs.{IsInputRefusal};
ghost use Rattle.vcm_job.specs.inner.Printing.{IsNotPrinted};
ghost use Rattle.vcm_words.specs.Outcomes.{FaultOrWant};
ghost use Rattle.vcm_image.specs.Whole.{FitsImage, spelling};

use crate::fault::{AsmFault, Fault, InputRefusal, PrintFault};
use crate::given::{Given, given_of};
use crate::reading::read_all;
use crate::views::judged;
use std::alloc::Global;
use std::io::{Read, Write};
use vcm_code::Code;
use vcm_image::write;
use vcm_listing::{print, read_listing};
use vcm_loader::load;
use vcm_num::write_all;
use vcm_program::Noticed;

/// A listing, and the lines without effect of the program that it is of.
#[derive(Drop)]
struct Listed {
    text: Vec<u8>,
    notices: Vec<Noticed>,
}

// The listing of an image.
fn printed(alloc: Global, image: &[u8]) -> Result<Vec<u8>, PrintFault>
    ensures printed { IfOk result (λ text. IsPrinted image.now text.items) }
    ensures refused { IfErr result (IsNotPrinted image.now) }
{
    let printed = match load(alloc, image) {
        Ok(loaded) => print(alloc, &loaded),
        Err(fault) => return Err(PrintFault::Refused(InputRefusal::Image(fault))),
    };
    match printed {
        Ok(text) => Ok(text),
        Err(_) => Err(PrintFault::NoMemory),
    }
}

// The listing of what was read.
fn listing_of(alloc: Global, given: Given) -> Result<Listed, PrintFault>
    ensures listed { (input : List ℕ) → IsGiven input given.image.items (option_map (λ t. t.items) given.text) given.notices.items → IfOk result (λ l. IsListed input l.text.items l.notices.items) }
    ensures refused { (input : List ℕ) → IsGiven input given.image.items (option_map (λ t. t.items) given.text) given.notices.items → IfErr result (IsRefusedAs (IsInputRefusal input)) }
{
    let Given {
        image,
        text,
        notices,
    } = given;
    match printed(alloc, &image) {
        Ok(listing) => Ok(Listed {
            text: listing,
            notices,
        }),
        Err(fault) => Err(judged(text.is_some(), fault)),
    }
}

// The listing of an input.
fn listing_of_input(alloc: Global, input: Vec<u8>) -> Result<Listed, PrintFault>
    ensures listed { IfOk result (λ l. IsListed input.items l.text.items l.notices.items) }
    ensures refused { IfErr result (IsRefusedAs (IsInputRefusal input.items)) }
{
    match given_of(alloc, input) {
        Ok(given) => listing_of(alloc, given),
        Err(fault) => Err(fault),
    }
}

/// Reads an input whole, and writes its listing and nothing else: of an image that of its code, of any other input that of the program's image.
/// An input whose first four bytes are `VCMI` is an image. It answers the lines of the program that have no effect.
///
/// Errors: see `PrintFault`. After a failed write the writer has taken a front of the listing, and not all of it; else nothing was written.
pub fn list<R: Read, W: Write>(
    alloc: Global,
    reader: &mut R,
    writer: &mut W,
) -> Result<Vec<Noticed>, PrintFault>
    ensures done { IfOk result (λ v. IfSome (R.remaining reader.old) (λ input. IsWrittenOut input v.items (W.contents writer.old) (W.contents writer.new))) }
    ensures fault { IfErr result (λ f. IsNotListed (R.remaining reader.old) (R.remaining reader.new) f (W.contents writer.old) (W.contents writer.new)) }
    ensures long { AnswersUnread (R.remaining reader.old) result }
    ensures little { ReadsLittle (R.remaining reader.old) (R.remaining reader.new) }
{
    let input = read_all(alloc, reader)?;
    let Listed { text, notices } = listing_of_input(alloc, input)?;
    match write_all(writer, &text) {
        Ok(()) => Ok(notices),
        Err(_) => Err(PrintFault::Write { done: 0 }),
    }
}

// The image of a code.
fn image_of(alloc: Global, code: &Code) -> Result<Vec<u8>, AsmFault>
    requires { FitsImage code.now }
    ensures image { IfOk result (λ v. v.items ≡ spelling code.now) }
    ensures fault { IfErr result (λ f. f ≡ Fault.NoMemory) }
{
    match write(alloc, code) {
        Ok(image) => Ok(image),
        Err(_) => Err(Fault::NoMemory),
    }
}

// The image of the code of a listing.
fn assembled(alloc: Global, text: &[u8]) -> Result<Vec<u8>, AsmFault>
    ensures image { IfOk result (λ v. IsPrinted v.items text.now) }
    ensures fault { IfErr result (IsRefusedAs (FaultOrWant text.now)) }
{
    match read_listing(alloc, text) {
        Ok(code) => image_of(alloc, &code),
        Err(fault) => Err(AsmFault::Refused(fault)),
    }
}

/// Reads a listing whole, and gives the image of its code.
///
/// Errors: see `AsmFault`.
pub fn asm<R: Read>(alloc: Global, reader: &mut R) -> Result<Vec<u8>, AsmFault>
    ensures image { IfOk result (λ v. IfSome (R.remaining reader.old) (λ text. IsPrinted v.items text)) }
    ensures fault { IfErr result (λ f. IsNotAssembled (R.remaining reader.old) (R.remaining reader.new) f) }
    ensures long { AnswersUnread (R.remaining reader.old) result }
    ensures little { ReadsLittle (R.remaining reader.old) (R.remaining reader.new) }
{
    let text = read_all(alloc, reader)?;
    assembled(alloc, &text)
}
