//! What a producer's text is put as: its expanded statements, each motion only where all that it hangs on is known, and with the variables that carry what is known.
#![tactic(auto)]

mod approaches;
mod blocks;
mod choices;
mod datums;
mod effects;
mod events;
mod exactly;
mod frames;
mod guarding;
mod late;
pub mod laws;
mod named;
mod places;
mod points;
mod put;
mod reached;
mod text;
mod values;
mod variables;

pub use effects::Effects;
pub use exactly::may_cut;
pub use put::{Put, put_text};
pub use reached::OpenBlock;
pub use text::Text;
