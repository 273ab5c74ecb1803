//! Several probes.

ghost use Rattle.std.specs.Prelude.{◌≡◌};
ghost use Rattle.std.specs.List.{list_all};
ghost use Rattle.vcm_probe_set.specs.Probes.{AreProbes, is_one_pose, have_one_pose};

use crate::body::Body;
use crate::probe::Probe;
use std::marker::Model;
use vcm_boxes::ShortName;
use vcm_num::is;
use vcm_spec::Block3;

/// Several probes, one of which a program chooses at a time by the value of a variable. Contracts see them as the `Probes` of the definitions.
#[derive(Drop)]
pub struct ProbeSet {
    pub(crate) variable: ShortName,
    pub(crate) travel: Option<Block3>,
    pub(crate) probes: Vec<Probe>,
    pub(crate) swing: Vec<Body>,
}

impl Model for ProbeSet {
    ghost use Rattle.vcm_probe_set.specs.Probes.{Probes as Meaning, AreProbes};

    ghost Value = { Meaning };

    ghost view = { λ s. record { variable = s.variable; travel = s.travel; probes = s.probes.items; swing = s.swing.items } };

    ghost invariant = { λ s. AreProbes (record { variable = s.variable; travel = s.travel; probes = s.probes.items; swing = s.swing.items }) };
}

impl ProbeSet {
    /// The name of the variable, in capital letters.
    pub fn variable(&self) -> &ShortName
        ensures { result.now ≡ self.now.variable }
    {
        &self.variable
    }

    /// Where the pivot may go, in machine coordinates, if that is limited.
    pub fn travel(&self) -> Option<Block3>
        ensures travel { result ≡ self.now.travel }
        ensures valid { AreProbes self.now }
    {
        self.travel
    }

    /// The probes, in the order of the file.
    pub fn probes(&self) -> &[Probe]
        ensures probes { result.now ≡ self.now.probes }
        ensures valid { AreProbes self.now }
    {
        &self.probes
    }

    /// What holds all that turns, in each pose and between, counted from the pivot; nothing where no head turns.
    pub fn swing(&self) -> &[Body]
        ensures swing { result.now ≡ self.now.swing }
        ensures valid { AreProbes self.now }
    {
        &self.swing
    }
}

/// Whether two probes hang in one pose, so that nothing turns between them: each pose has a name, and it is the same.
pub fn is_one_pose(first: &Probe, second: &Probe) -> bool
    ensures { result ≡ is_one_pose first.now.pose second.now.pose }
{
    match first.pose() {
        None => false,
        Some(a) => match second.pose() {
            None => false,
            Some(b) => is(a.as_bytes(), b.as_bytes()),
        },
    }
}

// Whether a probe hangs in one pose with each of these.
fn is_one_with(first: &Probe, others: &[Probe]) -> bool
    ensures { result ≡ list_all (λ q. is_one_pose first.now.pose q.pose) others.now }
{
    others.iter().all(|other| is_one_pose(first, other))
}

// Whether any two of the probes hang in one pose.
pub(crate) fn have_one_pose(probes: &[Probe]) -> bool
    ensures { result ≡ have_one_pose probes.now }
{
    for place in 0..probes.len() {
        if !is_one_with(&probes[place], &probes[place + 1..]) {
            return false;
        }
    }
    true
}
