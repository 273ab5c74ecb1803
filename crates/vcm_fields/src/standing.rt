//! Fields that are known to stand there.

ghost use Rattle.std.specs.Prelude.{◌≡◌, Ok, IfErr};
ghost use Rattle.vcm_fields.specs.Readers.{Begins, OfFirst, text_at};

use crate::fault::ImageFault;
use crate::fields::known_short;
use crate::slices::TextSlice;

/// What was read, where it is known that reading doesn't fail: from the bytes of an image that was read before.
#[inline(always)]
pub fn known<T>(read: Result<T, ImageFault>) -> T
    requires { IfErr read (λ e. ⊥) }
    ensures { read ≡ Ok result }
{
    match read {
        Ok(it) => it,
        Err(_) => unreachable!(),
    }
}

/// The text that the bytes begin with. Its bytes are not looked at: it is known that they are those of a text.
pub fn known_text(bytes: &[u8]) -> TextSlice<'_>
    requires { Begins text_at (λ t. Unit {0}) bytes.now }
    ensures { OfFirst text_at bytes.now (λ t rest. result ≡ t) }
{
    let (count, rest) = known_short(bytes);
    let (front, _) = rest.split_at(usize::from(count));
    TextSlice::new(front)
}
