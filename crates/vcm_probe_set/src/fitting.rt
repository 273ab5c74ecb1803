//! Probes beside a workpiece.

ghost use Rattle.std.specs.Prelude.{◌≡◌, ◌≤◌, ◌&&◌, pos, negsuc, int_le, length};
ghost use Rattle.vcm_probe_set.specs.Parts.{is_turning_limit, is_tip_clear, first_unclear, why_unfit};

use crate::probe::Probe;
use crate::set::ProbeSet;
use std::fmt::{Display, Formatter, Result, Write};
use vcm_num::Point;
use vcm_part::{PartData, is_some_met};

/// Why probes can't be tried beside a workpiece.
#[derive(Clone, Copy)]
pub enum Unfit {
    /// A limit of the machine is more than 980,000,000 micrometres from 0, so that a turn could put a tip farther than a kilometre.
    LimitsTooFar,
    /// With the tip of the probe of this number, counted from 1 in the order of the file, home isn't clear.
    HomeNotClear(u32),
}

/// It is told as its code, its name, and where.
impl Display for Unfit {
    fn fmt<W: Write>(&self, out: &mut Formatter<W>) -> Result {
        match *self {
            Unfit::LimitsTooFar => out.write_str("B11 LimitsTooFar"),
            Unfit::HomeNotClear(number) => write!(out, "B10 HomeNotClear probe {number}"),
        }
    }
}

// Whether a coordinate is at most 980 metres from 0.
fn is_turning(z: i64) -> bool
    ensures { result ≡ (int_le (negsuc 979999999) z && int_le z (pos 980000000)) }
{
    -980_000_000 <= z && z <= 980_000_000
}

// Whether each coordinate of a limit is.
fn is_turning_limit(limit: Point) -> bool
    ensures { result ≡ is_turning_limit limit }
{
    let Point([x, y, z]) = limit;
    is_turning(x) && is_turning(y) && is_turning(z)
}

// Whether a tip, where a probe has one of its own, meets no block at home.
fn is_tip_clear(part: &PartData, tip: Option<u32>) -> bool
    ensures { result ≡ is_tip_clear part.now tip }
{
    match tip {
        None => true,
        Some(tip) => !is_some_met(part.blocks(), tip, part.bounds().home),
    }
}

// The first probe whose tip isn't clear at home.
fn first_unclear(part: &PartData, probes: &[Probe]) -> Option<Unfit>
    requires { length probes.now ≤ 64 }
    ensures { result ≡ first_unclear part.now 1 probes.now }
{
    let mut number: u32 = 1;
    for probe in probes {
        if !is_tip_clear(part, probe.tip()) {
            return Some(Unfit::HomeNotClear(number));
        }
        number += 1;
    }
    None
}

/// Why the probes can't be tried beside this workpiece, if they can't: first its limits, then the tips of the probes, one by one.
pub fn why_unfit(part: &PartData, set: &ProbeSet) -> Option<Unfit>
    ensures { result ≡ why_unfit part.now set.now.probes }
{
    let bounds = part.bounds();
    if !(is_turning_limit(bounds.low) && is_turning_limit(bounds.high)) {
        return Some(Unfit::LimitsTooFar);
    }
    first_unclear(part, set.probes())
}
