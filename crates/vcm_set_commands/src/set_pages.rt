//! The page of a run with several probes.

use crate::set_views::why_told;
use crate::several::Asked;
use std::alloc::{AllocError, Global};
use std::fmt::Write as _;
use std::io::Write;
use vcm_console::write_variable;
use vcm_devices::{names_element, why_element};
use vcm_job::Given;
use vcm_loader::Loaded;
use vcm_num::{NoMemory, Point, WriteFault, write_pieces};
use vcm_print::print;
use vcm_probe_set::{Body, Probe, ProbeSet};
use vcm_set_clearance::{run_set_at, set_text};
use vcm_set_views::{Fitted, SetTold, set_story};
use vcm_short_names::{ShortName, lengthen_names};
use vcm_story::ShownText;
use vcm_viewer::{back, front};

// Adds the boxes of a body as lines: the letter, the name, and the corners in micrometres.
fn put_body(text: &mut String, letter: &str, front: &str, body: &Body) -> Result<(), AllocError> {
    let name = std::str::from_utf8(body.name().as_bytes()).unwrap_or("");
    for block in body.blocks() {
        let Point([a, b, c]) = block.low;
        let Point([d, e, f]) = block.high;
        writeln!(text, "{letter} {front}{name} {a} {b} {c} {d} {e} {f}")?;
    }
    Ok(())
}

// Adds the lines of a probe beside a tip of the part's: U, its name and number; D, half the width of its tip; G, its pivot; and its boxes.
fn put_probe(alloc: Global, text: &mut String, probe: &Probe, tip: u32) -> Result<(), AllocError> {
    let name = std::str::from_utf8(probe.name().as_bytes()).unwrap_or("");
    let number = probe.number();
    let Point([x, y, z]) = probe.pivot();
    let half = probe.tip().unwrap_or(tip);
    writeln!(text, "U {name} {number}")?;
    writeln!(text, "D {name} {half}")?;
    writeln!(text, "G {name} {x} {y} {z}")?;
    let mut front = String::new(alloc);
    write!(front, "{name}/")?;
    for body in probe.bodies() {
        put_body(text, "Q", &front, body)?;
    }
    Ok(())
}

// The probes as lines, behind the name of the variable that chooses one: X and that name.
fn probe_lines(
    alloc: Global,
    set: &ProbeSet,
    variable: &[u8],
    tip: u32,
) -> Result<String, AllocError> {
    let mut text = String::new(alloc);
    let variable = std::str::from_utf8(variable).unwrap_or("");
    writeln!(text, "X {variable}")?;
    for probe in set.probes() {
        put_probe(alloc, &mut text, probe, tip)?;
    }
    for body in set.swing() {
        put_body(&mut text, "V", "", body)?;
    }
    Ok(text)
}

/// What is told beside a run: the names that the text has for those that are written short, and what a page has of what wasn't tried.
#[derive(Clone, Copy)]
pub(crate) struct Beside<'a> {
    pub(crate) names: &'a [ShortName],
    pub(crate) untried: &'a [u8],
    /// Whether the code was made of the text as it is written, so that it can be told where a statement comes from.
    pub(crate) is_written: bool,
}

// What stands in a page of a run besides its fixed texts.
#[derive(Drop)]
struct PageParts {
    told: SetTold,
    names: Vec<u8>,
    probes: Vec<u8>,
    why: Vec<u8>,
}

// The name of the variable that chooses a probe, as a story has it; none where memory is refused.
fn chooser_name(alloc: Global, fitted: &Fitted<'_>, loaded: &Loaded<'_>) -> Option<Vec<u8>> {
    let Ok(tables) = loaded.tables(alloc) else {
        return None;
    };
    let Ok(variable) = u16::try_from(fitted.variable()) else {
        return None;
    };
    let mut name = Vec::new(alloc);
    match write_variable(&tables, variable, &mut name) {
        Ok(()) => Some(name),
        Err(_) => None,
    }
}

// The clearance of the probes, as it is printed but for the names of blocks; none where memory is refused.
fn clearance_told(
    alloc: Global,
    asked: &Asked<'_>,
    loaded: &Loaded<'_>,
    variable: usize,
) -> Option<Vec<u8>> {
    let Ok(tables) = loaded.tables(alloc) else {
        return None;
    };
    let setting = asked.setting;
    let (part, steps) = (&setting.part, setting.steps);
    let Ok(run) = run_set_at(alloc, loaded, asked.set, part, variable, steps) else {
        return None;
    };
    match set_text(alloc, asked.set, &setting.part, &run, b"", &tables, &[]) {
        Ok(told) => Some(told.text),
        Err(_) => None,
    }
}

// The element of a page that tells of the probes: their lines, and their clearance in the run; none where memory is refused.
fn probes_element(
    alloc: Global,
    asked: &Asked<'_>,
    fitted: &Fitted<'_>,
    loaded: &Loaded<'_>,
) -> Option<Vec<u8>> {
    let chooser = chooser_name(alloc, fitted, loaded)?;
    let tip = asked.setting.part.bounds().tip;
    let lines = probe_lines(alloc, asked.set, &chooser, tip).ok()?;
    let clearance = clearance_told(alloc, asked, loaded, fitted.variable())?;
    let mut out = Vec::new(alloc);
    let pieces: [&[u8]; 4] = [
        b"<script type=\"text/plain\" id=\"probe-boxes\">\n",
        lines.as_bytes(),
        clearance.as_slice(),
        b"</script>\n",
    ];
    match write_pieces(&mut out, &pieces) {
        Ok(()) => Some(out),
        Err(_) => None,
    }
}

// The story of a run of what was given: beside its text, or of an image beside its listing.
fn story_told(
    alloc: Global,
    asked: &Asked<'_>,
    fitted: &Fitted<'_>,
    given: &Given,
    loaded: &Loaded<'_>,
) -> Result<SetTold, NoMemory> {
    let steps = asked.setting.steps;
    match &given.text {
        Some(text) => {
            let shown = ShownText {
                text,
                is_listing: false,
                notices: &given.notices,
            };
            set_story(alloc, fitted, steps, shown)
        }
        None => {
            let listing = print(alloc, loaded)?;
            let shown = ShownText {
                text: &listing,
                is_listing: true,
                notices: &given.notices,
            };
            set_story(alloc, fitted, steps, shown)
        }
    }
}

// The element that tells why the run stopped; none where memory is refused.
fn why_of(alloc: Global, asked: &Asked<'_>, fitted: &Fitted<'_>, given: &Given) -> Option<Vec<u8>> {
    let Ok(reason) = why_told(alloc, fitted, asked.setting, given) else {
        return None;
    };
    match why_element(alloc, &reason.text) {
        Ok(why) => Some(why),
        Err(_) => None,
    }
}

// What stands in the page; none where memory is refused.
fn parts_of(
    alloc: Global,
    asked: &Asked<'_>,
    fitted: &Fitted<'_>,
    given: &Given,
    loaded: &Loaded<'_>,
    is_written: bool,
) -> Option<PageParts> {
    let probes = probes_element(alloc, asked, fitted, loaded)?;
    let Ok(names) = names_element(alloc, asked.setting.block_names.as_slice()) else {
        return None;
    };
    let why = if is_written {
        why_of(alloc, asked, fitted, given)?
    } else {
        Vec::new(alloc)
    };
    match story_told(alloc, asked, fitted, given, loaded) {
        Ok(told) => Some(PageParts {
            told,
            names,
            probes,
            why,
        }),
        Err(_) => None,
    }
}

// The page of these parts; none where memory is refused.
fn page_of(alloc: Global, parts: &PageParts, untried: &[u8]) -> Option<Vec<u8>> {
    let mut page = Vec::new(alloc);
    match write_page(&mut page, parts, untried) {
        Ok(()) => Some(page),
        Err(_) => None,
    }
}

// Writes a page: its story between the fixed texts, and what stands behind it.
fn write_page<W: Write>(out: &mut W, parts: &PageParts, untried: &[u8]) -> Result<(), WriteFault> {
    write_pieces(out, &front())?;
    write_pieces(
        out,
        &[
            parts.told.text.as_slice(),
            b"</script>\n",
            parts.names.as_slice(),
            parts.probes.as_slice(),
            parts.why.as_slice(),
            untried,
        ],
    )?;
    write_pieces(out, &back())
}

/// The page of a run of what was given with several probes, with the names that the text has, and with the element that tells what wasn't tried; none where memory is
/// refused.
pub(crate) fn page_told(
    alloc: Global,
    asked: &Asked<'_>,
    fitted: &Fitted<'_>,
    given: &Given,
    loaded: &Loaded<'_>,
    beside: Beside<'_>,
) -> Option<SetTold> {
    let mut parts = parts_of(alloc, asked, fitted, given, loaded, beside.is_written)?;
    let Ok(story) = lengthen_names(alloc, beside.names, &parts.told.text) else {
        return None;
    };
    parts.told.text = story;
    let page = page_of(alloc, &parts, beside.untried)?;
    let end = parts.told.end;
    Some(SetTold { text: page, end })
}
