//! The parts of a picture as SVG that know nothing of what it shows: numbers, places and rectangles, texts and paths, the style, the heading, the
//! legend.
#![tactic(auto)]

mod heading;
mod legend;
mod notes;
mod outlines;
mod pieces;
mod ranges;
mod rect;
mod shapes;
mod style;
mod whole;

pub use heading::put_heading;
pub use legend::{Sign, put_bar, put_legend, put_row};
pub use notes::{few_notes, notes_high, put_notes};
pub use outlines::{Outline, circle, cross, put_outline, rect_outline, square_round};
pub use pieces::{Fragment, put};
pub use ranges::{Area, BoundedSpot, Length, Site, TextBox, Unit};
pub use rect::{Rect, Spot, contains, is_same, meets};
pub use shapes::{Class, Lettering, Placement, put_path, put_text, put_told};
pub use style::{put_notes_style, put_style};
pub use whole::quotient;
