//! Names and texts.

ghost use Rattle.std.specs.Prelude.{◌≡◌};
ghost use Rattle.vcm_fields.specs.Readers.{Gives, length_at, name_at, variable_name_at, text_at};

use crate::fault::ImageFault;
use crate::fields::{byte, short, some_bytes};
use crate::slices::TextSlice;
use vcm_items::{is_name, is_variable_name};
use vcm_spec::is_text;

/// The most bytes of a name.
const LONGEST_NAME: u8 = vcm_num::LONGEST_NAME as u8;

/// The most bytes of a text.
const LONGEST_TEXT: u16 = vcm_num::LONGEST_TEXT as u16;

// The length of a name: 1 to 16.
fn length(bytes: &[u8]) -> Result<(u8, &[u8]), ImageFault>
    ensures { Gives (λ x. (x.0, x.1.now)) result (length_at bytes.now) }
{
    let (number, rest) = byte(bytes)?;
    if number < 1 || number > LONGEST_NAME {
        return Err(ImageFault::BadField);
    }
    Ok((number, rest))
}

/// A name, and the bytes behind it.
///
/// # Errors
///
/// Short; BadField where the length is not 1 to 16, or a byte is no upper-case letter, digit or underscore.
#[tactic(auto, unfolding(crate::specs::Readers::name_at))]
pub fn name(bytes: &[u8]) -> Result<(TextSlice<'_>, &[u8]), ImageFault>
    ensures { Gives (λ x. (x.0, x.1.now)) result (name_at bytes.now) }
{
    let (number, rest) = length(bytes)?;
    let (front, rest) = some_bytes(usize::from(number), rest)?;
    if !is_name(front) {
        return Err(ImageFault::BadField);
    }
    Ok((TextSlice::new(front), rest))
}

/// A variable's name.
#[tactic(auto, unfolding(crate::specs::Readers::variable_name_at))]
pub(crate) fn variable_name(bytes: &[u8]) -> Result<(TextSlice<'_>, &[u8]), ImageFault>
    ensures { Gives (λ x. (x.0, x.1.now)) result (variable_name_at bytes.now) }
{
    let (number, rest) = length(bytes)?;
    let (front, rest) = some_bytes(usize::from(number), rest)?;
    if !is_variable_name(front) {
        return Err(ImageFault::BadField);
    }
    Ok((TextSlice::new(front), rest))
}

/// A text, and the bytes behind it.
///
/// # Errors
///
/// Short; BadField where it is longer than 1,024 bytes, or has a byte that no text has.
#[tactic(auto, unfolding(crate::specs::Readers::text_at))]
pub fn text(bytes: &[u8]) -> Result<(TextSlice<'_>, &[u8]), ImageFault>
    ensures { Gives (λ x. (x.0, x.1.now)) result (text_at bytes.now) }
{
    let (number, rest) = short(bytes)?;
    if number > LONGEST_TEXT {
        return Err(ImageFault::BadField);
    }
    let (front, rest) = some_bytes(usize::from(number), rest)?;
    if !is_text(front) {
        return Err(ImageFault::BadField);
    }
    Ok((TextSlice::new(front), rest))
}
