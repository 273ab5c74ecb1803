//! The words of statements, and what becomes of their statements.

ghost use Rattle.std.specs.Prelude.{◌≡◌};
ghost use Rattle.vcm_heads.specs.Heads.{major_of};
ghost use Rattle.vcm_heads.specs.Rows.{row_of, row_in, words_of, own_behind};

use crate::heads::{first_field, is_label, major_at};
use vcm_lines::{Logical, Phrase};
use vcm_num::{is, look_up};

/// What statements have in common that go by a word.
#[derive(Clone, Copy, PartialEq, Eq)]
pub enum Row {
    /// A word that shapes the program: blocks, labels, jumps, macros, the end.
    Shape,
    /// CASE and DFTCAS.
    Case,
    /// DATDEF.
    Datum,
    /// A value for a variable.
    Value,
    /// A motion.
    Motion,
    /// Where a motion below goes to.
    Aim,
    /// A motion to a place that was given above.
    Target,
    /// A point of a measurement.
    Touch,
    /// Several points of a measurement.
    Scan,
    /// A text that is shown, or a question.
    Text,
    /// IF.
    Test,
    /// DO.
    Loop,
    /// SELECT.
    Choice,
    /// CALL.
    Call,
    /// What is followed where it is one of the language, and does nothing to motions elsewhere.
    Stated,
    /// OUTPUT.
    Output,
    /// FEAT.
    Feature,
    /// MEAS.
    Measure,
    /// ENDMES.
    MeasureEnd,
    /// A measurement whose points aren't tried.
    Qualification,
    /// SNSET.
    Settings,
    /// A frame.
    Frame,
    /// A frame that is found in rounds.
    Fit,
    /// RECALL.
    Recall,
    /// SAVE.
    Save,
    /// DELETE.
    Delete,
    /// MODE.
    Mode,
    /// UNITS.
    Units,
    /// SCNMOD.
    Scanning,
    /// A rotary table.
    Table,
    /// PRCOMP.
    Compensation,
    /// SNSLCT.
    Sensor,
    /// WKPLAN.
    Plane,
    /// Where GOHOME goes.
    From,
    /// Values that aren't known.
    Values,
    /// Features that change.
    Features,
    /// DMESW: how the controller goes on.
    Switch,
    /// Carriages that move together, or one behind the other.
    Carriage,
    /// What does nothing to motions.
    Silent,
    /// Another word: what it does isn't known.
    Other,
}

/// The words of statements, the frequent ones first.
const ROWS: &[(&[u8], Row)] = &[
    (b"ELSE", Row::Shape),
    (b"ENDIF", Row::Shape),
    (b"ENDDO", Row::Shape),
    (b"CASE", Row::Case),
    (b"ENDCAS", Row::Shape),
    (b"DFTCAS", Row::Case),
    (b"ENDSEL", Row::Shape),
    (b"JUMPTO", Row::Shape),
    (b"MACRO", Row::Shape),
    (b"ENDMAC", Row::Shape),
    (b"ENDFIL", Row::Shape),
    (b"ASSIGN", Row::Value),
    (b"OBTAIN", Row::Value),
    (b"GOTO", Row::Motion),
    (b"GOHOME", Row::Motion),
    (b"ENDGO", Row::Target),
    (b"PTMEAS", Row::Touch),
    (b"PAMEAS", Row::Scan),
    (b"SCAN", Row::Scan),
    (b"TEXT", Row::Text),
    (b"IF", Row::Test),
    (b"DO", Row::Loop),
    (b"SELECT", Row::Choice),
    (b"CALL", Row::Call),
    (b"DECL", Row::Stated),
    (b"OUTPUT", Row::Output),
    (b"FEAT", Row::Feature),
    (b"MEAS", Row::Measure),
    (b"ENDMES", Row::MeasureEnd),
    (b"CALIB", Row::Qualification),
    (b"RMEAS", Row::Qualification),
    (b"SNSET", Row::Settings),
    (b"TRANS", Row::Frame),
    (b"ROTATE", Row::Frame),
    (b"DATSET", Row::Frame),
    (b"LOCATE", Row::Frame),
    (b"ITERAT", Row::Fit),
    (b"RECALL", Row::Recall),
    (b"SAVE", Row::Save),
    (b"DELETE", Row::Delete),
    (b"MODE", Row::Mode),
    (b"UNITS", Row::Units),
    (b"SCNMOD", Row::Scanning),
    (b"ROTAB", Row::Table),
    (b"PRCOMP", Row::Compensation),
    (b"SNSLCT", Row::Sensor),
    (b"WKPLAN", Row::Plane),
    (b"FROM", Row::From),
    (b"PROMPT", Row::Values),
    (b"READ", Row::Values),
    (b"VALUE", Row::Values),
    (b"XTRACT", Row::Values),
    (b"PTBUFF", Row::Values),
    (b"CONST", Row::Features),
    (b"GROUP", Row::Features),
    (b"DMISMN", Row::Silent),
    (b"GOTARG", Row::Aim),
    (b"DATDEF", Row::Datum),
    (b"FEDRAT", Row::Silent),
    (b"ACLRAT", Row::Silent),
    (b"FINPOS", Row::Silent),
    (b"FLY", Row::Silent),
    (b"RAPID", Row::Silent),
    (b"TECOMP", Row::Silent),
    (b"GECOMP", Row::Silent),
    (b"PUSH", Row::Silent),
    (b"SNSDEF", Row::Silent),
    (b"DECPL", Row::Silent),
    (b"FILNAM", Row::Silent),
    (b"DISPLY", Row::Silent),
    (b"VFORM", Row::Silent),
    (b"ERROR", Row::Silent),
    (b"CUTCOM", Row::Silent),
    (b"BADTST", Row::Silent),
    (b"GEOALG", Row::Silent),
    (b"ALGDEF", Row::Silent),
    (b"TOL", Row::Silent),
    (b"EVAL", Row::Silent),
    (b"USETOL", Row::Silent),
    (b"MATDEF", Row::Silent),
    (b"BOUND", Row::Silent),
    (b"SIMREQT", Row::Silent),
    (b"ENDSIMREQT", Row::Silent),
    (b"REPORT", Row::Silent),
    (b"OPEN", Row::Silent),
    (b"CLOSE", Row::Silent),
    (b"WRITE", Row::Silent),
    (b"DEVICE", Row::Silent),
    (b"QISDEF", Row::Silent),
    (b"KEYCHAR", Row::Silent),
    (b"FILDEF", Row::Silent),
    (b"HIST", Row::Silent),
    (b"PARTID", Row::Silent),
    (b"PARTRV", Row::Silent),
    (b"PARTSN", Row::Silent),
    (b"PLANID", Row::Silent),
    (b"PREVOP", Row::Silent),
    (b"PROCID", Row::Silent),
    (b"OPERID", Row::Silent),
    (b"LOTID", Row::Silent),
    (b"FIXTID", Row::Silent),
    (b"FIXTSN", Row::Silent),
    (b"CLMPID", Row::Silent),
    (b"CLMPSN", Row::Silent),
    (b"MFGDEV", Row::Silent),
    (b"DMEID", Row::Silent),
    (b"DMESW", Row::Switch),
    (b"DMEHW", Row::Silent),
    (b"DMESWI", Row::Silent),
    (b"DMESWV", Row::Silent),
    (b"TOOLDF", Row::Silent),
    (b"THLDEF", Row::Silent),
    (b"DATTRG", Row::Silent),
    (b"DATTRGDEF", Row::Silent),
    (b"GEOM", Row::Silent),
    (b"EQUATE", Row::Silent),
    (b"SENSOR", Row::Silent),
    (b"SNSGRP", Row::Silent),
    (b"SNSMNT", Row::Silent),
    (b"EXTENS", Row::Silent),
    (b"WRIST", Row::Silent),
    (b"REFMNT", Row::Silent),
    (b"CMPNTGRP", Row::Silent),
    (b"WINDEF", Row::Silent),
    (b"LITDEF", Row::Silent),
    (b"SCNSET", Row::Silent),
    (b"SCNPLN", Row::Silent),
    (b"PATH", Row::Silent),
    (b"CZONE", Row::Silent),
    (b"CZSLCT", Row::Silent),
    (b"CRGDEF", Row::Silent),
    (b"CRMODE", Row::Carriage),
    (b"CROSCL", Row::Carriage),
    (b"ROTDEF", Row::Silent),
    (b"ROTSET", Row::Silent),
    (b"XTERN", Row::Silent),
    (b"ENDXTN", Row::Silent),
];

// What becomes of statements that go by a word.
fn row_of(word: &[u8]) -> Row
    ensures { result ≡ row_of word.now }
{
    look_up(ROWS, word).unwrap_or(Row::Other)
}

/// The row of a statement's words, with its major word.
pub fn row_in(words: &Phrase<'_>, major: &[u8]) -> Row
    requires { major.now ≡ major_of words.now }
    ensures { result ≡ row_in words.now }
{
    if is_label(words) {
        Row::Shape
    } else {
        row_of(major)
    }
}

/// The row of a statement.
pub fn row_of_statement(logical: &Logical) -> Row
    ensures { result ≡ row_in (words_of logical.now) }
{
    let words = Phrase::of(logical);
    let (major, _) = major_at(&words);
    row_in(&words, major)
}

/// Whether statements behind this one are the machine's own, and none of DMIS: from DMIS/OFF up to DMIS/ON.
pub fn own_behind(own: bool, logical: &Logical) -> bool
    ensures { result ≡ own_behind own (words_of logical.now) }
{
    let (major, behind) = major_at(&Phrase::of(logical));
    if is(major, b"DMIS") {
        !is(first_field(&behind), b"ON")
    } else {
        own
    }
}
