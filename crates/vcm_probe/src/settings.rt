//! The settings of the probe.

ghost use Rattle.std.specs.Prelude.{◌≡◌, ◌≤◌, ◌+◌, ◌&&◌, int_le, unsigned_abs, pos, Some, None, if◌then◌else◌};
ghost use Rattle.vcm_spec.specs.World.{opening_settings};
ghost use Rattle.vcm_spec.specs.Effect.{is_allowed, with_setting};
ghost use Rattle.vcm_spec.specs.Touch.{past};

use std::marker::Model;
use vcm_num::LONGEST_SETTING;
use vcm_spec::Setting;

/// How the probe moves at a touch: four lengths in micrometres. The approach and the retract length are from 1 to 1,000,000, the search length
/// and the depth from 0 to 1,000,000.
#[derive(Clone, Copy)]
pub struct Settings {
    approach: u32,
    retract: u32,
    search: u32,
    depth: u32,
}

impl Model for Settings {
    ghost use Rattle.vcm_spec.specs.World.{Settings as Meaning};
    ghost use Rattle.vcm_probe.specs.inner.Ranges.{InRange};

    ghost Value = { Meaning };

    ghost view = { λ s. record { approach = s.approach; retract = s.retract; search = s.search; depth = s.depth } };

    ghost invariant = { λ s. InRange s.approach s.retract s.search s.depth };

    ghost inverse = { λ s. record { approach = s.approach; retract = s.retract; search = s.search; depth = s.depth } };
}

// The length in micrometres, if it is at least `least` and at most a metre.
fn in_range(length: i64, least: u32) -> Option<u32>
    ensures { result ≡ (if int_le (pos least) length && int_le length (pos 1000000) then Some (unsigned_abs length) else None) }
{
    if i64::from(least) <= length && length <= i64::from(LONGEST_SETTING) {
        Some(length as u32)
    } else {
        None
    }
}

impl Settings {
    /// The settings at the start: 2,000 micrometres each, and the depth 0.
    pub fn opening() -> Settings
        ensures { result ≡ opening_settings }
    {
        Settings {
            approach: 2000,
            retract: 2000,
            search: 2000,
            depth: 0,
        }
    }

    /// The settings with one of them at this length in micrometres, or none where the length is out of its range.
    pub fn with(self, which: Setting, length: i64) -> Option<Settings>
        ensures { result ≡ (if is_allowed which length then Some (with_setting self which (unsigned_abs length)) else None) }
    {
        match which {
            Setting::Approach => Some(Settings {
                approach: in_range(length, 1)?,
                ..self
            }),
            Setting::Retract => Some(Settings {
                retract: in_range(length, 1)?,
                ..self
            }),
            Setting::Search => Some(Settings {
                search: in_range(length, 0)?,
                ..self
            }),
            Setting::Depth => Some(Settings {
                depth: in_range(length, 0)?,
                ..self
            }),
        }
    }

    /// How far above the nominal point the probe begins to search, in micrometres.
    pub fn approach(self) -> u32
        ensures value { result ≡ self.approach }
        ensures range { (1 ≤ result) × (result ≤ 1000000) }
    {
        self.approach
    }

    /// How far the probe goes back after a touch, in micrometres.
    pub fn retract(self) -> u32
        ensures value { result ≡ self.retract }
        ensures range { (1 ≤ result) × (result ≤ 1000000) }
    {
        self.retract
    }

    /// How far past the nominal point the probe searches, in micrometres.
    pub fn search(self) -> u32
        ensures value { result ≡ self.search }
        ensures range { result ≤ 1000000 }
    {
        self.search
    }

    /// How deep below the nominal point the probe searches, in micrometres; it goes as far as the greater of this and the search length.
    pub fn depth(self) -> u32
        ensures value { result ≡ self.depth }
        ensures range { result ≤ 1000000 }
    {
        self.depth
    }

    /// How far the probe may go past the nominal point.
    pub(crate) fn past(self) -> u32
        ensures { result ≡ past self }
    {
        self.depth.max(self.search)
    }

    /// How far the probe goes down from the approach point at most, in micrometres.
    pub fn descent(self) -> u32
        ensures { result ≡ self.approach + past self }
    {
        self.approach + self.past()
    }
}
