//! What vcm tells on standard error of faults and refusals, with its exit statuses.
#![tactic(auto)]

mod message;

pub use message::{Message, NoticeLine, Told, message_of, notice_line, probe_message, status_of};
