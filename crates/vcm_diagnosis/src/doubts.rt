//! What may be missing where a statement can't be read, or is left out.

use crate::about::{About, Sort};
use vcm_lines::{FaultCode, SourceFault};
use vcm_num::look_up;
use vcm_sentences::Sentence;

/// What a statement that isn't there may have done.
#[derive(Clone, Copy)]
pub(crate) struct Doubt {
    pub(crate) line: u32,
    /// It may have declared features or frames.
    pub(crate) names: bool,
    /// It may have declared variables or labels.
    pub(crate) variables: bool,
    /// It may have opened, divided or closed a block, a macro or the text.
    pub(crate) blocks: bool,
    /// It may have been a PTMEAS.
    pub(crate) touches: bool,
}

/// It may have declared features and frames.
pub(crate) fn of_names(line: u32) -> Doubt {
    Doubt {
        line,
        names: true,
        variables: false,
        blocks: false,
        touches: false,
    }
}

/// It may have declared variables or labels.
pub(crate) fn of_variables(line: u32) -> Doubt {
    Doubt {
        line,
        names: false,
        variables: true,
        blocks: false,
        touches: false,
    }
}

// What a word may do.
#[derive(Clone, Copy, PartialEq, Eq)]
enum Doing {
    // Nothing that others hang on.
    Nothing,
    Names,
    Variables,
    Blocks,
    Touches,
    All,
}

// The words with which statements begin.
const WORDS: &[(&[u8], Doing)] = &[
    (b"GOTO", Doing::Nothing),
    (b"TEXT", Doing::Nothing),
    (b"OUTPUT", Doing::Nothing),
    (b"RECALL", Doing::Nothing),
    (b"SNSET", Doing::Nothing),
    (b"JUMPTO", Doing::Nothing),
    (b"MODE", Doing::Nothing),
    (b"FEDRAT", Doing::Nothing),
    (b"ACLRAT", Doing::Nothing),
    (b"FINPOS", Doing::Nothing),
    (b"PRCOMP", Doing::Nothing),
    (b"DECPL", Doing::Nothing),
    (b"FILNAM", Doing::Nothing),
    (b"DISPLY", Doing::Nothing),
    (b"WKPLAN", Doing::Nothing),
    (b"SNSLCT", Doing::Nothing),
    (b"DECL", Doing::Variables),
    (b"CALL", Doing::Names),
    (b"IF", Doing::Blocks),
    (b"DO", Doing::Blocks),
    (b"SELECT", Doing::Blocks),
    (b"CASE", Doing::Blocks),
    (b"MEAS", Doing::Blocks),
    (b"PTMEAS", Doing::Touches),
];

// What stands behind a name, as in F(A)=FEAT/..
const NAMED: &[(&[u8], Doing)] = &[
    (b"FEAT", Doing::Names),
    (b"TRANS", Doing::Names),
    (b"ROTATE", Doing::Names),
    (b"DATSET", Doing::Names),
    (b"ASSIGN", Doing::Nothing),
    (b"OBTAIN", Doing::Nothing),
    (b"SNSDEF", Doing::Nothing),
    (b"VFORM", Doing::Nothing),
    (b"TOL", Doing::Nothing),
];

// The bytes before the first of this one, and those behind it, where it is there.
fn cut(bytes: &[u8], wanted: u8) -> Option<(&[u8], &[u8])> {
    let place = bytes.iter().position(|byte| *byte == wanted)?;
    Some((&bytes[..place], &bytes[place..]))
}

// What a statement may do, by its words.
fn what_of(bytes: &[u8]) -> Doing {
    let Some((head, _)) = cut(bytes, b'/') else {
        return match bytes {
            [b'(', ..] => Doing::Variables,
            _ => Doing::All,
        };
    };
    match cut(head, b'=') {
        None => look_up(WORDS, head).unwrap_or(Doing::All),
        Some((_, [_, word @ ..])) => look_up(NAMED, word).unwrap_or(Doing::All),
        Some(_) => Doing::All,
    }
}

/// What a statement may have done that can't be read.
pub(crate) fn of_unread(sentence: &Sentence) -> Doubt {
    let doing = what_of(sentence.bytes.as_slice());
    let all = doing == Doing::All;
    Doubt {
        line: sentence.line,
        names: all || doing == Doing::Names,
        variables: all || doing == Doing::Variables,
        blocks: all || doing == Doing::Blocks,
        touches: all || doing == Doing::Touches || doing == Doing::Blocks,
    }
}

// Whether a fault may be caused by this one.
fn causes(doubt: Doubt, fault: SourceFault, about: &About) -> bool {
    let is_above = doubt.line < fault.line;
    match fault.code {
        FaultCode::UnknownName => match about {
            About::Missing(Sort::Label, _, _) => doubt.variables || doubt.blocks,
            About::Missing(Sort::Variable, _, _) => {
                is_above && (doubt.variables || doubt.blocks)
            }
            About::Missing(Sort::Macro, _, _) => is_above && doubt.blocks,
            _ => is_above && (doubt.names || doubt.blocks),
        },
        FaultCode::BadType => is_above && doubt.variables,
        FaultCode::BadOrder | FaultCode::Unbalanced => match about {
            About::Endless => doubt.blocks,
            About::Unended(_, opened) => doubt.blocks && doubt.line > *opened,
            _ => is_above && doubt.blocks,
        },
        FaultCode::JumpInward => doubt.blocks,
        FaultCode::MeasBody => is_above && (doubt.blocks || doubt.touches),
        _ => is_above && doubt.blocks,
    }
}

/// Whether a fault may be caused by a statement that isn't there.
pub(crate) fn is_doubtful(doubts: &[Doubt], fault: SourceFault, about: &About) -> bool {
    for doubt in doubts {
        if causes(*doubt, fault, about) {
            return true;
        }
    }
    false
}
