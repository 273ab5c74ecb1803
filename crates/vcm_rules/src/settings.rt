//! Variables, settings and texts.

use crate::expressions::{lose_fields, lose_words, untried_value};
use crate::measuring::is_obtained;
use crate::pages::{Caution, Page};
use crate::spelled::{Lengths, standing, with_lengths};
use crate::view::{Features, Here, Said};
use vcm_classes::{Facts, Ruling};
use vcm_num::{NoMemory, is, look_up};
use vcm_sentences::{MajorWord, micrometres, read_decimal};
use vcm_spelling::{Rounding, in_millimetres, joined};
use vcm_standard::Reason;

// Whether a statement isn't tried.
fn is_untried(ruling: &Ruling) -> bool {
    matches!(ruling, Ruling::NotTried(_))
}

// A variable is given a value, or would be: it is known behind it where that is tried on all ways.
fn note_given<'a>(
    title: &'a [u8],
    here: &Here<'a>,
    facts: &mut Facts<'a>,
    is_untried: bool,
) -> Result<(), NoMemory> {
    if is_untried {
        facts.lose(title, here.is_repeated)
    } else if here.body.is_some_and(|body| body.is_lost) {
        facts.lose(title, true)
    } else if here.is_outside && !here.is_repeated {
        facts.gain(title)
    } else {
        Ok(())
    }
}

// What the rules say of a statement that gives a variable its value.
fn give<'a>(
    said: Said<'_, 'a>,
    here: &Here<'a>,
    facts: &mut Facts<'a>,
    ruling: Ruling,
) -> Result<Ruling, NoMemory> {
    note_given(said.parts.title, here, facts, is_untried(&ruling))?;
    Ok(ruling)
}

/// ASSIGN.
pub(crate) fn assign<'a>(
    said: Said<'_, 'a>,
    here: &Here<'a>,
    facts: &mut Facts<'a>,
    rounding: &mut Rounding,
) -> Result<Ruling, NoMemory> {
    let ruling = match untried_value(facts, said.parts.rest, said.ground.options.is_exact) {
        Some(reason) => Ruling::NotTried(reason),
        None => standing(said, rounding)?,
    };
    give(said, here, facts, ruling)
}

/// OBTAIN.
pub(crate) fn obtain<'a>(
    said: Said<'_, 'a>,
    here: &Here<'a>,
    facts: &mut Facts<'a>,
    features: &Features<'a>,
    rounding: &mut Rounding,
) -> Result<Ruling, NoMemory> {
    let ruling = if is_obtained(said, here, features) {
        standing(said, rounding)?
    } else {
        Ruling::NotTried(Reason::UnknownValues)
    };
    give(said, here, facts, ruling)
}

// What is declared, as far as rules tell it apart.
#[derive(Clone, Copy)]
enum Declared {
    Number,
    Text,
    Other,
}

// The kinds of variables.
const KINDS: &[(&[u8], Declared)] = &[
    (b"REAL", Declared::Number),
    (b"INTGR", Declared::Number),
    (b"DOUBLE", Declared::Number),
    (b"LONG", Declared::Number),
    (b"BOOL", Declared::Number),
    (b"CHAR", Declared::Text),
    (b"VECTOR", Declared::Text),
];

// What a kind declares.
fn declared_by(kind: &[u8]) -> Declared {
    look_up(KINDS, kind).unwrap_or(Declared::Other)
}

// Whether a field of a declaration is a scope.
fn is_scope(field: &[u8]) -> bool {
    is(field, b"COMMON") || is(field, b"GLOBAL") || is(field, b"LOCAL")
}

// The fields of a declaration from the kind on.
fn declared_fields<'b, 'a>(fields: &'b [&'a [u8]]) -> &'b [&'a [u8]] {
    match fields {
        [scope, rest @ ..] if is_scope(scope) => rest,
        all => all,
    }
}

// The variables of a declaration that the subset doesn't have are unknown.
fn lose_texts<'a>(
    here: &Here<'a>,
    facts: &mut Facts<'a>,
    fields: &[&'a [u8]],
) -> Result<(), NoMemory> {
    for name in fields {
        if read_decimal(name).is_none() && !matches!(declared_by(name), Declared::Text) {
            facts.lose(name, here.is_repeated)?;
        }
    }
    Ok(())
}

/// DECL.
pub(crate) fn declaration<'a>(
    said: Said<'_, 'a>,
    here: &Here<'a>,
    facts: &mut Facts<'a>,
    rounding: &mut Rounding,
) -> Result<Ruling, NoMemory> {
    let behind = declared_fields(said.fields);
    let declared = match behind {
        [kind, ..] => declared_by(kind),
        [] => Declared::Other,
    };
    match declared {
        Declared::Number => standing(said, rounding),
        Declared::Text => {
            lose_texts(here, facts, behind)?;
            Ok(Ruling::LeftOut(Reason::TextVariables))
        }
        Declared::Other => {
            lose_fields(facts, said.fields, here.is_repeated)?;
            Ok(Ruling::NotTried(Reason::OtherKinds))
        }
    }
}

// Whether a text is one to the operator, in quotes.
fn is_plain_text(rest: &[u8]) -> bool {
    match rest.strip_prefix(b"OPER,") {
        Some([b'\'', text @ .., b'\'']) => !text.contains(&b'\''),
        _ => false,
    }
}

/// TEXT: the answer to a question is unknown.
pub(crate) fn text<'a>(
    said: Said<'_, 'a>,
    here: &Here<'a>,
    facts: &mut Facts<'a>,
    rounding: &mut Rounding,
) -> Result<Ruling, NoMemory> {
    if is_plain_text(said.parts.rest) {
        return standing(said, rounding);
    }
    if let ([_, name, ..], true) = (said.fields, said.parts.rest.starts_with(b"QUERY")) {
        lose_words(facts, name, here.is_repeated)?;
    }
    Ok(Ruling::LeftOut(Reason::Questions))
}

// The distance that SNSET gives, in micrometres, where it stands there.
fn distance(fields: &[&[u8]], is_inch: bool) -> Option<i64> {
    match fields {
        [_, value] => {
            let value = read_decimal(value)?.value;
            Some(micrometres(in_millimetres(value, is_inch)))
        }
        _ => None,
    }
}

// What SNSET sets, as far as rules tell it apart.
#[derive(Clone, Copy)]
enum SettingKind {
    Approach,
    // Another distance.
    Distance,
    // What has no effect here.
    Passed,
    Clearance,
    Other,
}

// The names of settings.
const SETTINGS: &[(&[u8], SettingKind)] = &[
    (b"APPRCH", SettingKind::Approach),
    (b"RETRCT", SettingKind::Distance),
    (b"SEARCH", SettingKind::Distance),
    (b"DEPTH", SettingKind::Distance),
    (b"MINCON", SettingKind::Passed),
    (b"FOCUSY", SettingKind::Passed),
    (b"FOCUSN", SettingKind::Passed),
    (b"CLRSRF", SettingKind::Clearance),
];

// The setting of this name.
fn setting_of(name: &[u8]) -> SettingKind {
    look_up(SETTINGS, name).unwrap_or(SettingKind::Other)
}

// A distance of SNSET.
fn set_distance<'a>(
    said: Said<'_, 'a>,
    facts: &Facts<'a>,
    rounding: &mut Rounding,
) -> Result<Ruling, NoMemory> {
    match untried_value(facts, said.parts.rest, said.ground.options.is_exact) {
        Some(reason) => Ok(Ruling::NotTried(reason)),
        None => with_lengths(said, Lengths::From(1, 2), rounding),
    }
}

/// SNSET.
pub(crate) fn setting<'a>(
    said: Said<'_, 'a>,
    here: &mut Here<'a>,
    facts: &Facts<'a>,
    rounding: &mut Rounding,
) -> Result<Ruling, NoMemory> {
    let (setting, is_off) = match said.fields {
        [name, value, ..] => (setting_of(name), is(value, b"OFF")),
        [name] => (setting_of(name), false),
        [] => (SettingKind::Other, false),
    };
    match setting {
        SettingKind::Approach => {
            here.flow.approach = distance(said.fields, said.ground.traits.is_inch);
            set_distance(said, facts, rounding)
        }
        SettingKind::Distance => set_distance(said, facts, rounding),
        SettingKind::Passed => Ok(Ruling::LeftOut(Reason::SettingsOff)),
        _ if is_off => Ok(Ruling::LeftOut(Reason::SettingsOff)),
        SettingKind::Clearance => Ok(Ruling::NotTried(Reason::ClearanceMoves)),
        SettingKind::Other => Ok(Ruling::NotTried(Reason::OtherSettings)),
    }
}

/// UNITS.
pub(crate) fn units(said: Said<'_, '_>, rounding: &mut Rounding) -> Result<Ruling, NoMemory> {
    let traits = said.ground.traits;
    let [unit, angle, ..] = said.fields else {
        return standing(said, rounding);
    };
    let is_inch = is(unit, b"INCH") && traits.is_inch && traits.is_followed;
    let is_degrees = is(angle, b"ANGDEC");
    if is(unit, b"MM") && is_degrees {
        return standing(said, rounding);
    }
    if (is(unit, b"MM") || is_inch) && (is_degrees || !traits.has_angles) {
        let reason = if is_inch {
            Reason::Inches
        } else {
            Reason::Units
        };
        let new = joined(said.ground.alloc, &[b"UNITS/MM,ANGDEC"])?;
        return Ok(Ruling::Put(reason, new));
    }
    Ok(Ruling::NotTried(Reason::Units))
}

// A later SNSLCT.
fn choose_tool(said: Said<'_, '_>, here: &mut Here<'_>, page: &mut Page) -> Result<(), NoMemory> {
    let had = here.has_tool;
    here.has_tool = true;
    if had {
        page.warn(said.line, Caution::OtherTool)
    } else {
        Ok(())
    }
}

/// Words without effect that may matter all the same.
pub(crate) fn notice<'a>(
    said: Said<'_, 'a>,
    here: &mut Here<'a>,
    page: &mut Page,
) -> Result<(), NoMemory> {
    let parts = said.parts;
    match parts.word {
        MajorWord::Mode => {
            here.flow.is_manual = parts.rest.starts_with(b"MAN");
            if parts.rest.starts_with(b"AUTO") {
                page.warn(said.line, Caution::OwnPoints)
            } else {
                Ok(())
            }
        }
        MajorWord::SelectSensor => choose_tool(said, here, page),
        MajorWord::ProbeCompensation if is(parts.rest, b"OFF") => page.warn(
            said.line,
            Caution::TipCentres,
        ),
        _ => Ok(()),
    }
}
