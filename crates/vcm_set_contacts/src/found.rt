//! What is found in a run.

use vcm_contacts::FoundContact;
use vcm_spec::StopPlace;
use vcm_turning::NoProbe;

/// Why a run ended without a probe, and before which step.
#[derive(Clone, Copy)]
pub struct Lost {
    pub probe: NoProbe,
    pub step: u64,
}

/// How a run ended: its stop, if it came to one, and why it ended without a probe, if it did.
#[derive(Clone, Copy)]
pub struct PassedEnd {
    pub stop: Option<StopPlace>,
    pub lost: Option<Lost>,
}

/// The contacts of a run in their order, and how it ended.
#[derive(Drop)]
pub struct SetContacts {
    pub found: Vec<FoundContact>,
    pub end: PassedEnd,
}
