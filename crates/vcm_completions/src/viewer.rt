//! The texts of the viewer: whether the policy of a page has the sums of its style and its script, and whether all bytes are ASCII.

use base64::engine::general_purpose::STANDARD;
use sha2::{Digest, Sha256};
use std::alloc::Global;
use vcm_viewer::{back, front, script_parts, style_parts};

// The source that a policy names by the sum of a text in pieces, unless memory runs out.
fn source_of(alloc: Global, pieces: &[&[u8]]) -> Option<String> {
    let mut hasher = Sha256::new();
    for piece in pieces {
        hasher.update(*piece);
    }
    let sum = STANDARD.encode(alloc, &hasher.finalize()).ok()?;
    format!(in alloc; "'sha256-{sum}'").ok()
}

// Whether all bytes of a text in pieces are ASCII.
fn is_ascii(pieces: &[&[u8]]) -> bool {
    pieces.iter().all(|piece| piece.is_ascii())
}

// Whether the first piece has a text.
fn begins_with(pieces: &[&[u8]], text: &str) -> bool {
    match pieces {
        [first, ..] => match std::str::from_utf8(first) {
            Ok(first) => first.contains(text),
            Err(_) => false,
        },
        [] => false,
    }
}

/// What is told of the texts of the viewer, unless memory runs out.
pub(crate) fn told_of_viewer(alloc: Global) -> Option<String> {
    let style = source_of(alloc, &style_parts())?;
    let script = source_of(alloc, &script_parts())?;
    let policy = format!(in alloc; "script-src {script}; style-src {style};").ok()?;
    let has_policy = begins_with(&front(), &policy);
    let is_plain = is_ascii(&front()) && is_ascii(&back());
    format!(in alloc;
        "the policy has the sums: {has_policy}\nthe viewer is ASCII: {is_plain}\n"
    ).ok()
}
