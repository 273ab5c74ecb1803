//! What is lost with statements that aren't tried, and where the probe is left.

use crate::control::{Blocks, Stretch};
use crate::expressions::{lose_fields, lose_words};
use crate::frames::Frames;
use crate::pages::{Caution, Page};
use crate::view::{Here, Left, Measuring, Said};
use vcm_classes::{Class, Facts, Ruling, called};
use vcm_num::NoMemory;
use vcm_sentences::MajorWord;
use vcm_standard::Reason;

/// What is lost with a statement that isn't tried: its variable, its setting, its frame.
pub(crate) fn lose_effect<'a>(
    said: Said<'_, 'a>,
    here: &mut Here<'a>,
    facts: &mut Facts<'a>,
    frames: &mut Frames<'a>,
) -> Result<(), NoMemory> {
    let parts = said.parts;
    match parts.word {
        MajorWord::SensorSetting => {
            if parts.rest.starts_with(b"APPRCH") {
                here.flow.approach = None;
            }
            Ok(())
        }
        MajorWord::DatumSet
        | MajorWord::Translate
        | MajorWord::Rotate
        | MajorWord::Recall
        | MajorWord::Locate
        | MajorWord::Iterate
        | MajorWord::Call => { frames.save_lost(here, parts.title) }
        MajorWord::Pop => {
            here.flow.approach = None;
            here.lose_frame();
            Ok(())
        }
        MajorWord::Mode => {
            here.flow.is_manual = here.flow.is_manual || parts.rest.starts_with(b"MAN");
            Ok(())
        }
        MajorWord::Do => lose_words(facts, parts.rest, here.is_repeated),
        _ if parts.kind.is_empty() => facts.lose(parts.title, here.is_repeated),
        _ => Ok(()),
    }
}

// What a stretch is behind a statement of this word in it, if it goes on.
fn stretch_behind(stretch: Stretch, word: MajorWord) -> Option<Stretch> {
    let depth = match word {
        MajorWord::If | MajorWord::Do | MajorWord::Select => stretch.depth.saturating_add(1),
        MajorWord::EndIf | MajorWord::EndDo | MajorWord::EndSelect => {
            stretch.depth.saturating_sub(1)
        }
        _ => stretch.depth,
    };
    if depth == 0 {
        None
    } else {
        Some(Stretch { depth, ..stretch })
    }
}

/// A statement in a stretch that isn't tried.
pub(crate) fn pass_over<'a>(
    said: Said<'_, 'a>,
    stretch: Stretch,
    here: &mut Here<'a>,
    facts: &mut Facts<'a>,
    frames: &mut Frames<'a>,
    blocks: &mut Blocks,
) -> Result<Ruling, NoMemory> {
    lose_effect(said, here, facts, frames)?;
    blocks.stretch = stretch_behind(stretch, said.parts.word);
    Ok(Ruling::NotTried(stretch.reason))
}

/// A statement of a word that isn't tried, by the word alone.
pub(crate) fn untried_word<'a>(
    said: Said<'_, 'a>,
    reason: Reason,
    here: &mut Here<'a>,
    facts: &mut Facts<'a>,
    page: &mut Page,
) -> Result<(), NoMemory> {
    match said.parts.word {
        MajorWord::RotaryTable => {
            here.is_turned = true;
            Ok(())
        }
        MajorWord::Calibrate | MajorWord::RelativeMeasure => {
            here.measuring = Measuring::Untried(reason);
            Ok(())
        }
        MajorWord::Read | MajorWord::Prompt => lose_fields(facts, said.fields, here.is_repeated),
        MajorWord::SelectCarriage => page.warn(said.line, Caution::OtherCarriage),
        MajorWord::SelectZone => page.warn(said.line, Caution::OtherZone),
        _ => Ok(()),
    }
}

// Whether the probe may stand elsewhere behind a statement that isn't tried.
fn may_move(said: Said<'_, '_>) -> bool {
    match said.parts.word {
        MajorWord::Goto
        | MajorWord::GoHome
        | MajorWord::GoTarget
        | MajorWord::EndGo
        | MajorWord::PointMeasure
        | MajorWord::PathMeasure
        | MajorWord::Scan
        | MajorWord::RelativeMeasure
        | MajorWord::Calibrate
        | MajorWord::ExternalFile
        | MajorWord::Include
        | MajorWord::External
        | MajorWord::PassThrough
        | MajorWord::RotaryTable => true,
        MajorWord::Call => said.outlook().is_none_or(|outlook| outlook.marks.moves),
        _ => false,
    }
}

// Whether a statement that is tried moves the probe.
fn moves(said: Said<'_, '_>) -> bool {
    match said.parts.word {
        MajorWord::Goto | MajorWord::GoHome | MajorWord::EndGo | MajorWord::PointMeasure => true,
        MajorWord::Call => said.outlook().is_some_and(|outlook| outlook.marks.moves),
        _ => false,
    }
}

// Whether the macro that a statement calls leaves the probe elsewhere.
fn strays<'a>(said: Said<'_, 'a>, facts: &Facts<'a>) -> bool {
    said.parts.word.is(MajorWord::Call)
        && match called(said.parts.rest) {
            Some(label) => facts.strays(label),
            None => false,
        }
}

/// Where a statement of this class leaves the probe. A way that begins elsewhere than the machine's is told.
pub(crate) fn leave<'a>(
    said: Said<'_, 'a>,
    class: Class,
    here: &mut Here<'a>,
    facts: &Facts<'a>,
    page: &mut Page,
) -> Result<(), NoMemory> {
    match class {
        Class::NotTried => {
            here.left.is_elsewhere = here.left.is_elsewhere || may_move(said);
            Ok(())
        }
        Class::Fits | Class::PutOtherwise if moves(said) => {
            let had = here.left;
            here.left = Left {
                line: said.line,
                is_elsewhere: strays(said, facts),
            };
            if had.is_elsewhere {
                page.warn(said.line, Caution::OtherBeginning(had.line))
            } else {
                Ok(())
            }
        }
        _ => Ok(()),
    }
}
