//! Rows of printable text that know nothing of a run: of a workpiece, of a text, of a code, of frames and of the marks of a way. Nothing here takes memory.
#![tactic(auto)]

mod code_rows;
mod frame_rows;
mod mark_rows;
mod part_rows;
mod rows;
mod spelled;
mod text_rows;

pub use code_rows::{write_code, write_listing_row, write_notices};
pub use frame_rows::write_frame;
pub use mark_rows::write_marks;
pub use part_rows::write_part;
pub use rows::{Numbered, told_entries, write_numbered};
pub use spelled::write_spelled;
pub use text_rows::write_text;
