//! The lines of a listing.

use vcm_code::{CodeStatement, Version};
use vcm_items::{Name, Variable};

/// A line of a listing, with expressions of the form `E`, texts of the form `T` and branches of the form `B`.
#[derive(Drop)]
pub enum Row<E, T, B> {
    /// The first line: the version.
    Head(Version),
    /// A variable with its index.
    Variable(u32, Variable),
    /// The name of a feature with its index.
    Feature(u32, Name),
    /// The name of a frame with its index.
    Frame(u32, Name),
    /// A statement with its number.
    Numbered(u32, CodeStatement<E, T, B>),
}

/// The word that a line begins with, where it is no statement.
#[derive(Clone, Copy)]
pub enum Heading {
    /// `VCM-LISTING`.
    Head,
    /// `VAR`.
    Variables,
    /// `FEATURE`.
    Features,
    /// `FRAME`.
    Frames,
}
