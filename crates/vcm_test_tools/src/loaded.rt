//! Programs as images, loaded beside one block.

use crate::texts::{BOUNDS, ONE_BLOCK, joined, program_of};
use std::alloc::Global;
use vcm_loader::{Loaded, load};
use vcm_motion::Blocks;
use vcm_part::read_part;
use vcm_run::build_image;

/// The image of the program with these statements.
pub fn image_of(alloc: Global, statements: &str) -> Option<Vec<u8>> {
    let program = program_of(alloc, statements)?;
    Some(build_image(alloc, program.as_bytes()).ok()?.image)
}

/// What a call tells of the image of the program with these statements, loaded, and of a part with one block.
pub fn beside_block<T: Copy, F: FnOnce(&Loaded<'_>, &Blocks<'_>) -> Option<T>>(
    alloc: Global,
    statements: &str,
    call: F,
) -> Option<T>
    requires { F.IsAlwaysCallable call }
{
    let file = joined(alloc, &[BOUNDS, ONE_BLOCK])?;
    let part = read_part(alloc, file.as_bytes()).ok()?;
    let image = image_of(alloc, statements)?;
    let loaded = load(alloc, &image).ok()?;
    call(&loaded, &Blocks::new(&part))
}
