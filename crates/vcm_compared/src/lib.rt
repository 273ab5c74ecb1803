//! Variables of texts that are compared with literals alone: they are put as whole numbers, each the number of its literal.
#![tactic(auto)]

mod comparing;
mod counted;
pub mod laws;
mod puts;
mod relations;
mod texts;

pub use comparing::{compare, has_texts};
pub use counted::counted_texts;
pub use puts::is_text_case;
pub use relations::number_for;
pub use texts::{Held, Texts, char_at, held_named};
