//! Standard output that another program closes before all is written.

use crate::printing::fails;
use vcm_messages::Message;

/// Tells a fault and gives its exit status; where standard output is a pipe that nobody reads any more, it tells nothing, and the status is 0.
pub fn fails_unless_closed<R: Eprint>(rt: &R, message: Message<'_>) -> u8 {
    match message {
        Message::Closed => 0,
        message => fails(rt, message),
    }
}
