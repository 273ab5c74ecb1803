//! The classes of statements, with what becomes of their lines, and what is known of a text where they stand.
#![tactic(auto)]

mod ahead;
mod class;
mod facts;
mod flow;
mod judging;
mod options;

pub use ahead::{Marks, Outlook, called, is_quarter_turn, outlooks};
pub use class::Class;
pub use facts::{Arrival, Facts};
pub use flow::{Flow, Frame, MACHINE, Position, ZERO, same};
pub use judging::{Row, Ruling, judged, put};
pub use options::{GivenFrame, Options, Stand, Turn};
