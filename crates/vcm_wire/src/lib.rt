//! The wire of the Debug Adapter Protocol: frames, messages as lists of tokens, and requests.
#![tactic(auto)]

mod frames;
mod laws;
mod message;
mod reading;
mod request;

pub use frames::{FrameFault, MOST_BYTES, read_frame, write_frame};
pub use message::Message;
pub use request::{Request, Unread, request_of};
