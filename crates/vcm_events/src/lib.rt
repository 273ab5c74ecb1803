//! Events: what a statement of a producer's text does to what is known of the machine, said as statements of the language; and what isn't known.
#![tactic(auto)]

mod datums;
mod event;
mod joined;
mod not_known;
mod spots;

pub use datums::{are_origins, bound, happens_to, is_origin, origin_length, origin_on};
pub use event::{Event, gained, lost, numbered, valued};
pub use joined::{joined as join, length, pair, whole};
pub use not_known::{unknown, unknown_place, unknown_rounds};
pub use spots::{Spot, pointed, slanted, slanted_name, spotted, tip_said};
