//! How a producer's text is read, as it is told.

use std::fmt;
use std::fmt::Write as _;
use vcm_devices::{Request, Voice};
use vcm_given::{OtherTip, Width};
use vcm_items::Name;
use vcm_plain::{Lengths, Unit};
use vcm_short_names::ShortName;
use vcm_usage::Choice;
use vcm_whole::Facts;

/// What the selection of a sensor does to a run.
#[derive(Clone, Copy)]
pub enum Selecting {
    /// Nothing: the tip of the part is taken.
    Part,
    /// It puts on a probe of a file.
    Probe,
    /// Nothing: a variable of the text puts on the probes of a file.
    Variable,
}

// The name of a unit, as UNITS has it.
fn unit_name(unit: Unit) -> &'static str {
    match unit {
        Unit::Millimetre => "MM",
        Unit::Centimetre => "CM",
        Unit::Metre => "M",
        Unit::Inch => "INCH",
        Unit::Foot => "FEET",
    }
}

// Puts before a line which program it is about, where there are several, and that it is a notice.
fn put_front<W: fmt::Write>(out: &mut W, front: &str) -> fmt::Result {
    if !front.is_empty() {
        write!(out, "{front}: ")?;
    }
    write!(out, "notice: ")
}

// Puts a notice.
fn put_notice<W: fmt::Write>(out: &mut W, front: &str, words: &str) -> fmt::Result {
    put_front(out, front)?;
    writeln!(out, "{words}")
}

// Puts which long names of a text are written short.
fn put_names<W: fmt::Write>(out: &mut W, front: &str, names: &[ShortName]) -> fmt::Result {
    if names.is_empty() {
        return Ok(());
    }
    put_front(out, front)?;
    let count = names.len();
    write!(out, "names shortened {count}:")?;
    let mut mark = "";
    for name in names {
        let short = std::str::from_utf8(name.short.as_slice()).unwrap_or("?");
        let long = std::str::from_utf8(name.long.as_slice()).unwrap_or("?");
        write!(out, "{mark} {short} for {long}")?;
        mark = ",";
    }
    writeln!(out, "")
}

// Puts what is taken of a text because it doesn't say it.
fn put_taken<W: fmt::Write>(
    out: &mut W,
    front: &str,
    selecting: Selecting,
    facts: &Facts,
) -> fmt::Result {
    if !facts.says_unit {
        put_notice(out, front, "no UNITS: lengths are taken as millimetres")?;
    }
    if !facts.says_mode {
        put_notice(out, front, "no MODE: the text is taken as programmed")?;
    }
    if facts.says_sensor {
        return Ok(());
    }
    match selecting {
        Selecting::Part => put_notice(out, front, "no SNSLCT: the tip of the part is taken"),
        Selecting::Probe => put_notice(out, front, "no SNSLCT: no probe is on"),
        Selecting::Variable => Ok(()),
    }
}

// Whose tip is taken where a text puts on another one.
fn owner_of(selecting: Selecting) -> &'static str {
    match selecting {
        Selecting::Part => "the part",
        Selecting::Probe | Selecting::Variable => "its probe",
    }
}

// Puts which tip a text puts on that isn't that of the part, or of its probe.
fn put_tip<W: fmt::Write>(out: &mut W, selecting: Selecting, tip: &OtherTip) -> fmt::Result {
    let line = tip.line;
    let owner = owner_of(selecting);
    match tip.width {
        Width::Wide(width) => {
            let (whole, part) = (width / 1_000_000, width / 1_000 % 1_000);
            writeln!(
                out,
                "the sensor of line {line} has a tip of {whole}.{part:03}, and not that of {owner}"
            )
        }
        Width::Unread => writeln!(
            out,
            "the width of the tip of line {line} isn't followed: that of {owner} is taken"
        ),
        Width::Unsaid => writeln!(
            out,
            "no SNSDEF says the width of the tip of line {line}: that of {owner} is taken"
        ),
    }
}

// Puts which tips a text puts on that aren't that of the part, or of their probe.
fn put_tips<W: fmt::Write>(
    out: &mut W,
    front: &str,
    selecting: Selecting,
    tips: &[OtherTip],
) -> fmt::Result {
    for tip in tips {
        put_front(out, front)?;
        put_tip(out, selecting, tip)?;
    }
    Ok(())
}

// Puts words, one behind the other.
fn put_words<W: fmt::Write>(out: &mut W, front: &str, head: &str, words: &[Name]) -> fmt::Result {
    if words.is_empty() {
        return Ok(());
    }
    put_front(out, front)?;
    write!(out, "{head}")?;
    for word in words {
        let word = std::str::from_utf8(word.as_bytes()).unwrap_or("?");
        write!(out, " {word}")?;
    }
    writeln!(out, "")
}

// Puts lines, one behind the other.
fn put_lines<W: fmt::Write>(out: &mut W, front: &str, head: &str, lines: &[u32]) -> fmt::Result {
    if lines.is_empty() {
        return Ok(());
    }
    put_front(out, front)?;
    let word = match lines {
        [_] => "line",
        _ => "lines",
    };
    write!(out, "{head}: {word}")?;
    for line in lines {
        write!(out, " {line}")?;
    }
    writeln!(out, "")
}

// Puts what hangs on how a machine counts and reads a text, and is taken in one way.
fn put_readings<W: fmt::Write>(out: &mut W, front: &str, facts: &Facts) -> fmt::Result {
    let readings = &facts.readings;
    let compared = readings.compared.as_slice();
    let borrowed = readings.borrowed.as_slice();
    let words = "sums of decimals are compared as exact ones";
    put_lines(out, front, words, compared)?;
    let words = "macros use variables of the main program";
    put_lines(out, front, words, borrowed)?;
    if readings.is_cut && !facts.is_as_written {
        let words = "values that are cut off are within 0.005 of the machine's";
        put_notice(out, front, words)?;
    }
    Ok(())
}

// Puts that lengths of a text are read otherwise than they are written.
fn put_lengths<W: fmt::Write>(out: &mut W, front: &str, facts: &Facts) -> fmt::Result {
    if !facts.is_rewritten {
        return Ok(());
    }
    put_front(out, front)?;
    match facts.lengths {
        Lengths { several: true, .. } => {
            writeln!(
                out,
                "lengths in several units are taken as whole micrometres"
            )
        }
        Lengths {
            unit: Unit::Millimetre,
            ..
        } => writeln!(
            out,
            "numbers with more than three decimals, or functions: lengths are taken as whole micrometres"
        ),
        Lengths { unit, .. } => {
            let name = unit_name(unit);
            writeln!(out, "lengths in {name} are taken as whole micrometres")
        }
    }
}

// Puts which words are taken as harmless, since the command line says so.
fn put_harmless<W: fmt::Write>(out: &mut W, front: &str, request: &Request<'_, '_>) -> fmt::Result {
    let words = request.values(Choice::Harmless);
    if words.is_empty() {
        return Ok(());
    }
    put_front(out, front)?;
    write!(out, "taken as harmless:")?;
    for word in words {
        write!(out, " {word}")?;
    }
    writeln!(out, "")
}

/// Puts how the names of a text are read, what hangs on how a machine counts and, where it isn't run as it is written, its lengths and what it doesn't say; and which
/// words are taken as harmless. Each line has the program's name before it, if there is one.
pub fn put_reading<W: fmt::Write>(
    out: &mut W,
    front: &str,
    selecting: Selecting,
    facts: &Facts,
    names: &[ShortName],
    request: &Request<'_, '_>,
) -> fmt::Result {
    put_names(out, front, names)?;
    if !facts.is_as_written {
        put_taken(out, front, selecting, facts)?;
        put_tips(out, front, selecting, facts.tips.as_slice())?;
        put_lengths(out, front, facts)?;
        put_words(out, front, "not looked at:", facts.unlooked.as_slice())?;
    }
    put_readings(out, front, facts)?;
    put_harmless(out, front, request)
}

// Standard error.
#[derive(Drop)]
struct Errors<'r, R> {
    rt: &'r R,
}

impl<R: Eprint> fmt::Write for Errors<'_, R> {
    fn write_str(&mut self, text: &str) -> fmt::Result {
        let _ = eprint!(self.rt; "{text}");
        Ok(())
    }
}

/// Tells the same on standard error, where notices are told.
pub fn tell_reading<R: Eprint>(
    rt: &R,
    voice: Voice,
    front: &str,
    selecting: Selecting,
    facts: &Facts,
    names: &[ShortName],
    request: &Request<'_, '_>,
) {
    if !voice.is_quiet {
        let _ = put_reading(&mut Errors { rt }, front, selecting, facts, names, request);
    }
}
