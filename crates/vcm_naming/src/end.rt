//! The block that a stop names.

ghost use Rattle.std.specs.Prelude.{◌≡◌};
ghost use Rattle.vcm_naming.specs.Naming.{stop_block, block_at_end};

use vcm_spec::{Stop, StopPlace};

/// The number of the block that a stop names: that of a collision.
pub fn stop_block(stop: Stop) -> Option<u32>
    ensures { result ≡ stop_block stop }
{
    match stop {
        Stop::Collision(_, hit) => Some(hit.block),
        _ => None,
    }
}

/// The number of the block that the stop of a run names, if it came to one.
pub fn block_at_end(stop: Option<StopPlace>) -> Option<u32>
    ensures { result ≡ block_at_end stop }
{
    match stop {
        Some(place) => stop_block(place.stop),
        None => None,
    }
}
