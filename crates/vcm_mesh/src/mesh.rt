//! Mesh files.

ghost use Rattle.vcm_mesh.specs.Meshes.{Gives, mesh_of};

use crate::binary::{binary_mesh, count_of, is_binary};
use crate::fault::{MeshFault, Refusal};
use crate::placing::Placing;
use crate::text::text_mesh;
use crate::triangle::Triangle;
use crate::words::is_text;
use std::alloc::Global;

/// The most triangles of a mesh.
pub const MOST_TRIANGLES: u32 = 1_000_000;

/// The most bytes of a mesh file: those of a binary one with the most triangles.
pub const MOST_BYTES: usize = 50_000_084;

/// The triangles that the bytes of an STL file give, binary or text, where they lie on the machine.
///
/// Each coordinate is rounded once to the nearest micrometre, halves away from 0; then the corners are turned and moved. A text has its keywords in
/// small letters or in capitals, and numbers of at most 32 digits with exponents of at most four. The normals of facets are not read.
///
/// # Errors
///
/// The first from the front: a file that is neither a text nor as long as it says; for each triangle a coordinate that is no number, or is
/// beyond 1,000,000,000 micrometres on the machine; no triangles, or more than 1,000,000; of a text a line that isn't expected, and more than
/// 50,000,084 bytes. `NoMemory` where a growth of memory was refused; the call may then be repeated.
#[tactic(auto, unfolding(crate::specs::Meshes::mesh_of))]
pub fn read_mesh(alloc: Global, placing: &Placing, bytes: &[u8]) -> Result<Vec<Triangle>, MeshFault>
    ensures { Gives (λ ts. ts.items) result (mesh_of placing.now bytes.now) }
{
    if is_binary(bytes) {
        return binary_mesh(alloc, placing, bytes);
    }
    if is_text(bytes) {
        return text_mesh(alloc, placing, bytes);
    }
    if bytes.len() >= 84 {
        return Err(MeshFault::Refused(Refusal::BadLength(count_of(bytes), bytes.len() as u64)));
    }
    Err(MeshFault::Refused(Refusal::NotStl))
}
