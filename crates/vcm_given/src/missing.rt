//! Selections of probes that a file of several hasn't.

ghost use Rattle.std.specs.Prelude.{◌≡◌, ◌++◌, IfOk, OnOk, option_map};
ghost use Rattle.vcm_given.specs.Spoken.{selected};
ghost use Rattle.vcm_given.specs.Missing.{is_missing, missing_on, missing_by, missing_probes};

use crate::choices::GivenProbe;
use crate::spoken::{Saying, selected, selection_saying};
use std::alloc::Global;
use vcm_lines::Logical;
use vcm_num::{Items, NoMemory};

/// A line that selects a sensor by a name that the file of probes hasn't, by its nominal definition or by its actual one.
#[derive(Drop)]
pub struct MissingProbe {
    pub line: u32,
    pub name: Items<u8>,
    pub is_actual: bool,
}

// Whether a selection of which this is said is one of no probe of the file.
fn is_missing(saying: Option<Saying>) -> bool
    ensures { result ≡ is_missing saying }
{
    match saying {
        Some(Saying::Probe(number)) => number == 0,
        _ => false,
    }
}

// The sensor of a line, if it is one.
fn add_missing(
    alloc: Global,
    out: &mut Items<MissingProbe>,
    line: u32,
    is_missing: bool,
    sensor: Option<(&[u8], bool)>,
) -> Result<(), NoMemory>
    ensures { OnOk result (out.new ≡ out.old ++ missing_on line is_missing (option_map (λ s. (s.0.now, s.1)) sensor.entry)) }
{
    if !is_missing {
        return Ok(());
    }
    let Some((name, is_actual)) = sensor else {
        return Ok(());
    };
    let name = Items::from_slice(alloc, name)?;
    out.push(MissingProbe {
        line,
        name,
        is_actual,
    })?;
    Ok(())
}

// The same of a statement, among those of its text.
#[tactic(auto, unfolding(crate::specs::Missing::missing_by))]
fn add_by(
    alloc: Global,
    out: &mut Items<MissingProbe>,
    probes: &[GivenProbe],
    lines: &[Logical],
    logical: &Logical,
) -> Result<(), NoMemory>
    ensures { OnOk result (out.new ≡ out.old ++ missing_by probes.now lines.now logical.now) }
{
    let is_missing = is_missing(selection_saying(probes, lines, logical));
    add_missing(alloc, out, logical.line, is_missing, selected(logical))
}

/// The sensors that a text selects and the file of these probes hasn't, in order.
///
/// # Errors
///
/// Out of memory.
pub fn missing_probes(
    alloc: Global,
    probes: &[GivenProbe],
    lines: &[Logical],
) -> Result<Items<MissingProbe>, NoMemory>
    ensures { IfOk result (λ all. all ≡ missing_probes probes.now lines.now) }
{
    let mut out = Items::new(alloc);
    for logical in lines {
        add_by(alloc, &mut out, probes, lines, logical)?;
    }
    Ok(out)
}
