//! The bytes of output lines.

ghost use Rattle.std.specs.Prelude.{◌≡◌};
ghost use Rattle.std.specs.List.{list_all};
ghost use Rattle.vcm_spec.specs.TextBytes.{is_text_byte, is_text};

use vcm_num::LONGEST_TEXT;

// Whether a byte may stand in a text.
fn is_text_byte(byte: u8) -> bool
    ensures { result ≡ is_text_byte byte }
{
    byte == b'\t' || (32 <= byte && byte != b'\'' && byte != 127)
}

/// Whether all of these bytes may stand in a text.
pub fn are_text_bytes(bytes: &[u8]) -> bool
    ensures { result ≡ list_all is_text_byte bytes.now }
{
    // Without a way out of the loop the compiler takes many bytes at a time.
    let mut all = true;
    for byte in bytes {
        all &= is_text_byte(*byte);
    }
    all
}

/// Whether bytes are a text: at most 1,024, each the tab or one from 32 to 255 but the apostrophe and 127.
pub fn is_text(bytes: &[u8]) -> bool
    ensures { result ≡ is_text bytes.now }
{
    bytes.len() <= LONGEST_TEXT && are_text_bytes(bytes)
}
