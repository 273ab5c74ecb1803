//! Blocks round triangles, found on a grid: those of its cells that aren't reached from outside. Lengths are whole micrometres.
#![tactic(auto)]

mod bits;
mod boxes;
mod building;
mod counts;
pub mod facet;
mod fault;
mod flats;
mod grid;
mod marks;
pub mod parting;
mod planes;
pub mod range;
mod reach;
mod thinning;

pub use building::blocks_on;
pub use fault::CoverFault;
pub use grid::divided;
pub use planes::{Laying, NearPoint};
