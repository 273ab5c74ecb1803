//! What `TEXT` shows.

ghost use Rattle.std.specs.Prelude.{◌≡◌, IfOk};
ghost use Rattle.vcm_spec.specs.TextBytes.{IsText};

use std::alloc::{AllocError, Global};
use std::marker::Model;
use vcm_lines::OwnedBytes;

/// What `TEXT` shows: at most 1,024 bytes, each the tab or one from 32 to 255 but the apostrophe and 127. Contracts see it as the list of its
/// bytes.
#[derive(Drop)]
pub struct OperatorText {
    text: OwnedBytes,
}

impl Model for OperatorText {
    ghost use Rattle.std.specs.Prelude.{ℕ, List};
    ghost use Rattle.vcm_spec.specs.TextBytes.{IsText};

    ghost Value = { List ℕ };

    ghost view = { λ t. t.text };

    ghost invariant = { λ t. IsText t.text };
}

impl OperatorText {
    /// The text of these bytes.
    ///
    /// # Errors
    ///
    /// Out of memory.
    pub fn copied(alloc: Global, bytes: &[u8]) -> Result<OperatorText, AllocError>
        requires { IsText bytes.now }
        ensures { IfOk result (λ t. t ≡ bytes.now) }
    {
        let text = OwnedBytes::copied(alloc, bytes)?;
        Ok(OperatorText { text })
    }

    /// The bytes as a slice.
    pub fn as_bytes(&self) -> &[u8]
        ensures is { result.now ≡ self.now }
        ensures text { IsText self.now }
    {
        self.text.as_bytes()
    }
}
