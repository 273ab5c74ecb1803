//! The viewer: the texts that are the same in each page of a run, its elements, its style and its script. The script is in another language and not
//! proved; the policy of a page lets this one run and no other, by its sum.
#![tactic(auto)]

mod body;
mod page;
mod script;
mod style;

pub use page::{back, front, script_parts, style_parts};
