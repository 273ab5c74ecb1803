//! Numbers, points and directions: the vocabulary of a coordinate measuring machine. Lengths are whole micrometres.
#![tactic(auto)]

mod arith;
mod axis;
mod bytes;
mod limits;
mod lines;
mod memory;
mod number;
mod point;
mod read;
mod text;
mod writing;

pub use arith::{add, div, mul, neg, scale, sub};
pub use axis::Axis;
pub use bytes::{apostrophe, is, line_feed, look_up};
pub use limits::{
    DEEPEST_BLOCKS, DEEPEST_CALLS, DEEPEST_EXPRESSION, LONGEST_LINE, LONGEST_NAME, LONGEST_SETTING,
    LONGEST_STATEMENT, LONGEST_TEXT, MOST_BLOCKS, MOST_BRANCHES, MOST_ITEMS, MOST_LINES,
    MOST_NAMES, MOST_NODES, MOST_PARAMETERS, MOST_ROOM, MOST_STATEMENTS, WIDEST_TIP,
};
pub use lines::{cut_line, split_line, whole_line};
pub use memory::{NoMemory, WriteFault};
pub use number::{Fault, Kind, Literal};
pub use point::Point;
pub use read::{NumFault, read_number};
pub use sqlite_items::Items;
pub use text::{Text, int_text, thousandths_text, write_int, write_thousandths};
pub use writing::{write_all, write_pieces};
