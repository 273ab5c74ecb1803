//! A probe as it hangs when it is chosen.

ghost use Rattle.std.specs.Prelude.{◌≡◌, option_map};
ghost use Rattle.vcm_probe_set.specs.Probes.{IsProbe};

use crate::body::Body;
use crate::name::ProbeName;
use std::marker::Model;
use vcm_boxes::ShortName;
use vcm_num::Point;

/// A probe in one pose of the head. Contracts see it as the `Probe` of the definitions: a number from 1 to 999,999, a tip of at most 50,000 micrometres to
/// each side, a pivot at most 10,000,000 from the centre of the tip on each axis, and at most 64 bodies.
#[derive(Drop)]
pub struct Probe {
    pub(crate) name: ProbeName,
    pub(crate) number: u32,
    pub(crate) tip: Option<u32>,
    pub(crate) pivot: Point,
    pub(crate) pose: Option<ShortName>,
    pub(crate) bodies: Vec<Body>,
}

impl Model for Probe {
    ghost use Rattle.vcm_probe_set.specs.Probes.{Probe as Meaning, IsProbe};

    ghost Value = { Meaning };

    ghost view = { λ p. record { name = p.name; number = p.number; tip = p.tip; pivot = p.pivot; pose = p.pose; bodies = p.bodies.items } };

    ghost invariant = { λ p. IsProbe (record { name = p.name; number = p.number; tip = p.tip; pivot = p.pivot; pose = p.pose; bodies = p.bodies.items }) };
}

impl Probe {
    /// Its name.
    pub fn name(&self) -> &ProbeName
        ensures { result.now ≡ self.now.name }
    {
        &self.name
    }

    /// The value of the variable that chooses it.
    pub fn number(&self) -> u32
        ensures number { result ≡ self.now.number }
        ensures valid { IsProbe self.now }
    {
        self.number
    }

    /// Half the width of its tip in micrometres, where it has one of its own.
    pub fn tip(&self) -> Option<u32>
        ensures tip { result ≡ self.now.tip }
        ensures valid { IsProbe self.now }
    {
        self.tip
    }

    /// The turning centre of the head, from the centre of the tip.
    pub fn pivot(&self) -> Point
        ensures pivot { result ≡ self.now.pivot }
        ensures valid { IsProbe self.now }
    {
        self.pivot
    }

    /// The name of its pose, where it has one.
    pub fn pose(&self) -> Option<&ShortName>
        ensures { option_map (λ n. n.now) result ≡ self.now.pose }
    {
        self.pose.as_ref()
    }

    /// What moves along with it, counted from the centre of the tip, in the order of the first boxes.
    pub fn bodies(&self) -> &[Body]
        ensures bodies { result.now ≡ self.now.bodies }
        ensures valid { IsProbe self.now }
    {
        &self.bodies
    }
}
