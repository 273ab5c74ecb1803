//! Names that are longer than the language has them, written short. Texts of producers' systems have names of more than sixteen bytes; before such a text is read as a whole
//! program, each of them gets a short one.
//!
//! - The *words* of a text are its longest runs of letters, digits and underscores outside quoted texts and comments. A quoted text that isn't closed ends with its line. In
//!   quoted texts and comments nothing is changed.
//! - A word is *long* if it has more than sixteen bytes and begins with a letter or an underscore. Two words are the same name if they are equal in upper case.
//! - Each long name, in the order of first appearance, gets a short one: the first sixteen bytes of its upper case, unless that is taken; else the first thirteen and `_01` to
//!   `_99`, the first that isn't taken. Taken is what a word of the text is, in upper case, and what a long name before it got. If all are taken the name stays long.
//! - Each occurrence of a long name is replaced as it is spelled there: by its first sixteen bytes where the short name is these, else by its first thirteen and the number. So
//!   a name that is spelled in two ways stays so. All else stays byte for byte.
#![tactic(auto)]

pub mod laws;
mod lengthened;
mod long;
mod pieces;
mod short;

pub use lengthened::{lengthen_names, long_name, long_out};
pub use short::{ShortName, Shortened, shorten_names};
