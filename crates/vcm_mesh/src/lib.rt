//! Triangle meshes: STL files, binary and text, to triangles on the machine. Lengths are whole micrometres.
#![tactic(auto)]

mod binary;
mod fault;
pub mod laws;
mod length;
mod mesh;
mod number;
mod placing;
mod text;
mod triangle;
mod words;

pub use fault::{MeshFault, Refusal};
pub use mesh::{MOST_BYTES, MOST_TRIANGLES, read_mesh};
pub use placing::{LengthUnit, Placing, Turn};
pub use triangle::Triangle;
