//! How much room is left round a body.

use crate::told::Told;

/// What is known of a body: of boxes that are tried as one.
#[derive(Clone, Copy)]
pub enum Room {
    /// On so many ways it meets a block.
    Met(u64),
    /// It meets none, and none with the sides of all its boxes moved out by so many micrometres, at most 50,000; and the first contact with one more, if there may be more.
    Clear(u32, Option<Told>),
}
