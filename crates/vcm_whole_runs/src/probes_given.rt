//! The probes of a file of several, as a producer's text names them.

use std::alloc::Global;
use std::fmt::Write as _;
use vcm_given::GivenProbe;
use vcm_num::{Items, NoMemory};
use vcm_probe_set::{Probe, ProbeSet};
use vcm_short_names::ShortName;

// Whether a byte may stand in a name of the language.
fn is_lettered(byte: u8) -> bool {
    byte.is_ascii_alphanumeric() || byte == b'_'
}

// Whether a name of the file has other bytes: in a text it stands for an alias then.
fn is_marked(name: &[u8]) -> bool {
    !name.iter().all(|byte| is_lettered(*byte))
}

// Appends the alias of a probe, which no text has by itself.
fn put_alias(out: &mut Vec<u8>, alloc: Global, probe: &Probe) -> Result<(), NoMemory> {
    let mut alias = String::new(alloc);
    let number = probe.number();
    if write!(alias, "0PROBE{number}").is_err() {
        return Err(NoMemory);
    }
    out.extend_from_slice(alias.as_bytes())?;
    Ok(())
}

// ---- names in a text

// Whether bytes begin with a name and a closing parenthesis, whatever its capitals.
fn begins_with(bytes: &[u8], name: &[u8]) -> bool {
    let mut rest = bytes.iter();
    for byte in name {
        match rest.next() {
            Some(other) if other.eq_ignore_ascii_case(byte) => {}
            _ => return false,
        }
    }
    rest.next() == Some(&b')')
}

// The probe of such a name that bytes begin with, if there is one.
fn marked_probe<'a>(set: &'a ProbeSet, bytes: &[u8]) -> Option<&'a Probe> {
    for probe in set.probes() {
        let name = probe.name().as_bytes();
        if is_marked(name) && begins_with(bytes, name) {
            return Some(probe);
        }
    }
    None
}

// Whether the label of a sensor begins behind these bytes.
fn opens_sensor(last: Option<u8>, byte: u8) -> bool {
    byte == b'(' && matches!(last, Some(b'S' | b's' | b'A' | b'a'))
}

/// A text in which sensors with the names of these probes that aren't names of the language have aliases.
pub(crate) fn with_aliases(
    alloc: Global,
    set: &ProbeSet,
    text: &[u8],
) -> Result<Vec<u8>, NoMemory> {
    let mut out = Vec::new(alloc);
    let mut last = None;
    let mut left: usize = 0;
    let mut at: usize = 0;
    for byte in text {
        at = at.saturating_add(1);
        if left > 0 {
            left = left.saturating_sub(1);
            continue;
        }
        out.push(*byte)?;
        if opens_sensor(last, *byte) {
            if let Some(probe) = marked_probe(set, text.get(at..).unwrap_or(&[])) {
                put_alias(&mut out, alloc, probe)?;
                left = probe.name().as_bytes().len();
            }
        }
        last = Some(*byte);
    }
    Ok(out)
}

// ---- probes

// A name as the text has it, whose long names are written short so; none where it would be another one's short name.
fn short_name<'a>(names: &'a [ShortName], word: &'a [u8]) -> Option<&'a [u8]> {
    for name in names {
        if name.long.as_slice().eq_ignore_ascii_case(word) {
            return Some(name.short.as_slice());
        }
    }
    for name in names {
        if name.short.as_slice().eq_ignore_ascii_case(word) {
            return None;
        }
    }
    Some(word)
}

// Appends the name of a probe as the text has it, in upper case; nothing where the text can't have it.
fn put_name(
    out: &mut Vec<u8>,
    alloc: Global,
    names: &[ShortName],
    probe: &Probe,
) -> Result<(), NoMemory> {
    let name = probe.name().as_bytes();
    if is_marked(name) {
        return put_alias(out, alloc, probe);
    }
    let Some(name) = short_name(names, name) else {
        return Ok(());
    };
    for byte in name {
        out.push(byte.to_ascii_uppercase())?;
    }
    Ok(())
}

// A probe, whose tip is that of the part where the file says nothing of it.
fn probe_given(
    alloc: Global,
    probe: &Probe,
    names: &[ShortName],
    tip: u32,
) -> Result<GivenProbe, NoMemory> {
    let mut name = Vec::new(alloc);
    put_name(&mut name, alloc, names, probe)?;
    let name = Items::from_slice(alloc, &name)?;
    let tip = match probe.tip() {
        Some(own) => own,
        None => tip,
    };
    Ok(GivenProbe {
        name,
        number: probe.number(),
        tip: i32::try_from(tip).unwrap_or(0),
    })
}

/// The probes of a file, as a text names them whose long names are written short so, beside a part with a tip of this half width in micrometres.
pub(crate) fn probes_given(
    alloc: Global,
    set: &ProbeSet,
    names: &[ShortName],
    tip: u32,
) -> Result<Items<GivenProbe>, NoMemory> {
    let mut probes = Items::new(alloc);
    for probe in set.probes() {
        probes.push(probe_given(alloc, probe, names, tip)?)?;
    }
    Ok(probes)
}

/// Half the width of the tip that all of these probes have, if they have one alike.
pub(crate) fn common_tip(probes: &[GivenProbe]) -> Option<i32> {
    let first = probes.first()?.tip;
    if probes.iter().all(|probe| probe.tip == first) {
        Some(first)
    } else {
        None
    }
}
