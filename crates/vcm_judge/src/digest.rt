//! Digests of files.

use sha2::{Digest, Sha256};
use std::alloc::{AllocError, Global};
use std::fmt::Write as _;

/// The SHA-256 of bytes, in hexadecimal digits.
///
/// # Errors
///
/// Out of memory.
pub fn digest_of(alloc: Global, bytes: &[u8]) -> Result<String, AllocError> {
    let mut hasher = Sha256::new();
    hasher.update(bytes);
    let digest = hasher.finalize();
    let mut text = String::new(alloc);
    for byte in digest {
        write!(text, "{byte:02x}")?;
    }
    Ok(text)
}
