//! The reading of a text: which rule takes a statement.

use crate::calls::{begin_macro, call, end_macro};
use crate::control::{BlockKind, Blocks, Stretch, arrive, begin_block, jump, test};
use crate::frames::{Frames, recall, rotate, translate};
use crate::given::{datum, declare, front_of, set_frame};
use crate::losing::{leave, lose_effect, pass_over, untried_word};
use crate::measuring::{begin_measuring, end_measuring, feature, output, point};
use crate::moving::{end_target, go_home, go_target, go_to, home_at};
use crate::pages::{Caution, Page, Surveyed};
use crate::settings::{assign, declaration, notice, obtain, setting, text, units};
use crate::spelled::{standing, with_names};
use crate::view::{Features, Ground, Here, Said, Traits};
use std::alloc::Global;
use vcm_classes::{Class, Facts, Options, Row, Ruling, judged, outlooks};
use vcm_num::{NoMemory, is};
use vcm_sentences::{MajorWord, Parts, Sentence, fields_of, parts_of};
use vcm_spelling::{Naming, spelled_out};
use vcm_standard::{Reason, WordClass, class_of};

// A reading of a text.
#[derive(Drop)]
struct Walk<'a> {
    here: Here<'a>,
    facts: Facts<'a>,
    frames: Frames<'a>,
    features: Features<'a>,
    blocks: Blocks,
    page: Page,
}

impl<'a> Walk<'a> {
    // At the beginning of the text, with what was found out.
    fn new(alloc: Global, facts: Facts<'a>) -> Walk<'a> {
        Walk {
            here: Here::at_start(),
            facts,
            frames: Frames::new(alloc),
            features: Features::new(alloc),
            blocks: Blocks::new(alloc),
            page: Page::new(alloc),
        }
    }

    // ELSE, ENDIF and the like.
    fn block_word(&mut self, said: Said<'_, 'a>) -> Result<Ruling, NoMemory> {
        match said.parts.word {
            MajorWord::Else => self.blocks.next_branch(&mut self.here, true, true),
            MajorWord::Case => self.blocks.next_branch(&mut self.here, false, false),
            MajorWord::DefaultCase => self.blocks.next_branch(&mut self.here, true, false),
            MajorWord::EndCase => self.blocks.end_branch(&mut self.here),
            MajorWord::EndIf | MajorWord::EndDo | MajorWord::EndSelect => self
                .blocks
                .end_block(&mut self.here),
            MajorWord::Macro => begin_macro(said, &mut self.here, &self.facts, &mut self.features)?,
            MajorWord::EndMacro => end_macro(&mut self.here, &mut self.facts, &mut self.features)?,
            MajorWord::JumpTo => jump(said, &self.here, &mut self.facts)?,
            _ => {}
        }
        standing(said, &mut self.page.rounding)
    }

    // Statements of what is passed over.
    fn passed_word(&mut self, said: Said<'_, 'a>) -> Result<Ruling, NoMemory> {
        let is_off = is(said.parts.rest, b"OFF");
        match said.parts.word {
            MajorWord::From => {
                if let Some(position) = home_at(said, &self.here) {
                    self.page.home = Some((said.line, position));
                }
                Ok(Ruling::LeftOut(Reason::Home))
            }
            MajorWord::Fly => {
                if !is_off {
                    self.page.warn(said.line, Caution::RoundedCorners)?;
                }
                Ok(Ruling::LeftOut(Reason::Corners))
            }
            MajorWord::Error => {
                if !is_off {
                    self.page.warn(said.line, Caution::FaultJump)?;
                }
                Ok(Ruling::LeftOut(Reason::FaultFlow))
            }
            _ => self.block_word(said),
        }
    }

    // Statements of frames.
    fn frame_word(&mut self, said: Said<'_, 'a>) -> Result<Ruling, NoMemory> {
        let here = &mut self.here;
        let frames = &mut self.frames;
        let page = &mut self.page;
        match said.parts.word {
            MajorWord::Translate => translate(said, here, &self.facts, frames, &mut page.rounding),
            MajorWord::Rotate => rotate(said, here, frames, &mut page.rounding),
            MajorWord::Recall => recall(said, here, frames, &mut page.rounding),
            MajorWord::DatumSet => set_frame(said, here, frames, &self.features, page),
            MajorWord::DatumDefinition => datum(said, here, frames),
            _ => self.passed_word(said),
        }
    }

    // Statements of blocks.
    fn flow_word(&mut self, said: Said<'_, 'a>) -> Result<Ruling, NoMemory> {
        let rounding = &mut self.page.rounding;
        let kind = match said.parts.word {
            MajorWord::If => return test(said, &self.here, &self.facts, &mut self.blocks, rounding),
            MajorWord::Do => BlockKind::Loop,
            MajorWord::Select => BlockKind::Selection,
            _ => return self.frame_word(said),
        };
        begin_block(
            said,
            &mut self.here,
            &self.facts,
            &mut self.blocks,
            kind,
            rounding,
        )
    }

    // Calls and settings.
    fn setting_word(&mut self, said: Said<'_, 'a>) -> Result<Ruling, NoMemory> {
        let here = &mut self.here;
        let rounding = &mut self.page.rounding;
        match said.parts.word {
            MajorWord::Call => call(said, here, &mut self.facts, &mut self.features, rounding),
            MajorWord::SensorSetting => setting(said, here, &self.facts, rounding),
            MajorWord::Units => units(said, rounding),
            _ => self.flow_word(said),
        }
    }

    // Statements of variables and texts.
    fn value_word(&mut self, said: Said<'_, 'a>) -> Result<Ruling, NoMemory> {
        let here = &self.here;
        let facts = &mut self.facts;
        let rounding = &mut self.page.rounding;
        match said.parts.word {
            MajorWord::Obtain => obtain(said, here, facts, &self.features, rounding),
            MajorWord::Assign => assign(said, here, facts, rounding),
            MajorWord::Declare => declaration(said, here, facts, rounding),
            MajorWord::Text => text(said, here, facts, rounding),
            _ => self.setting_word(said),
        }
    }

    // Statements of measuring.
    fn measuring_word(&mut self, said: Said<'_, 'a>) -> Result<Ruling, NoMemory> {
        let here = &mut self.here;
        let features = &mut self.features;
        let page = &mut self.page;
        match said.parts.word {
            MajorWord::PointMeasure => point(said, here, &self.facts, &mut page.rounding),
            MajorWord::Measure => begin_measuring(said, here, features, &mut page.rounding),
            MajorWord::EndMeasure => end_measuring(said, here, features, page),
            MajorWord::Feature => feature(said, here, &self.facts, features, &mut page.rounding),
            MajorWord::Output => output(said, here, features, page),
            _ => self.value_word(said),
        }
    }

    // A statement whose word has rules.
    fn ruled(&mut self, said: Said<'_, 'a>) -> Result<Ruling, NoMemory> {
        let here = &mut self.here;
        let rounding = &mut self.page.rounding;
        match said.parts.word {
            MajorWord::Goto => go_to(said, here, &self.facts, rounding),
            MajorWord::GoHome => go_home(said, here, rounding),
            MajorWord::GoTarget => Ok(go_target(said, here)),
            MajorWord::EndGo => end_target(said, here, &self.facts, rounding),
            _ => self.measuring_word(said),
        }
    }

    // A statement of a word without effect.
    fn noticed(&mut self, said: Said<'_, 'a>) -> Result<Ruling, NoMemory> {
        notice(said, &mut self.here, &mut self.page)?;
        if said.is_taken {
            return Ok(Ruling::Noticed);
        }
        standing(said, &mut self.page.rounding)
    }

    // A statement of a word that isn't tried.
    fn untried(&mut self, said: Said<'_, 'a>, reason: Reason) -> Result<Ruling, NoMemory> {
        untried_word(
            said,
            reason,
            &mut self.here,
            &mut self.facts,
            &mut self.page,
        )?;
        self.lose(said)?;
        Ok(Ruling::NotTried(reason))
    }

    // What is lost with a statement.
    fn lose(&mut self, said: Said<'_, 'a>) -> Result<(), NoMemory> {
        lose_effect(said, &mut self.here, &mut self.facts, &mut self.frames)
    }

    // What the rules say of a statement by its word.
    fn by_word(&mut self, said: Said<'_, 'a>) -> Result<Ruling, NoMemory> {
        match class_of(said.parts.spelled) {
            Some(WordClass::Ruled) => self.ruled(said),
            Some(WordClass::Notice) => self.noticed(said),
            Some(WordClass::LeftOut(reason)) => Ok(Ruling::LeftOut(reason)),
            Some(WordClass::NotTried(reason)) => self.untried(said, reason),
            None => self.untried(said, Reason::UnknownWord),
        }
    }

    // What the rules say of a statement.
    fn ruling(&mut self, said: Said<'_, 'a>) -> Result<Ruling, NoMemory> {
        if said.bytes.is_empty() {
            return Ok(Ruling::Stands);
        }
        if let Some(stretch) = self.blocks.stretch {
            return pass_over(
                said,
                stretch,
                &mut self.here,
                &mut self.facts,
                &mut self.frames,
                &mut self.blocks,
            );
        }
        if said.parts.spelled.is_empty() && !said.parts.title.is_empty() {
            arrive(&mut self.here, &self.facts, said.parts.title);
            return standing(said, &mut self.page.rounding);
        }
        self.by_word(said)
    }

    // Adds the row of a statement.
    fn add(&mut self, sentence: &Sentence, said: Said<'_, 'a>) -> Result<(), NoMemory> {
        let ruling = self.ruling(said)?;
        let row = row_of(sentence, said, ruling)?;
        self.page.rows.push(row)?;
        Ok(())
    }

    // A statement that is taken apart.
    fn take(&mut self, sentence: &Sentence, said: Said<'_, 'a>) -> Result<(), NoMemory> {
        self.look_around(said.ground.traits.has_jumps);
        self.add(sentence, said)?;
        self.behind(said)
    }

    // Whether the statements here are carried out once, and whether they may be carried out behind later ones.
    fn look_around(&mut self, has_jumps: bool) {
        let is_inside = self.here.body.is_some();
        self.here.is_outside = self.blocks.open.is_empty() && !is_inside;
        self.here.is_repeated = has_jumps || is_inside || self.blocks.has_loop();
    }

    // The next statement.
    fn statement(&mut self, ground: &Ground<'a>, sentence: &'a Sentence) -> Result<(), NoMemory> {
        let row = self.page.rows.len();
        let bytes = bytes_of(ground, row, sentence);
        let parts = parts_of(bytes);
        let fields = fields_of(ground.alloc, parts.rest)?;
        let said = Said {
            ground,
            line: sentence.line,
            row,
            bytes,
            parts,
            fields: fields.as_slice(),
            is_taken: sentence.fault.is_none(),
        };
        self.take(sentence, said)
    }

    // The statements of the text, one by one.
    fn read(&mut self, ground: &Ground<'a>) -> Result<(), NoMemory> {
        for sentence in ground.sentences {
            self.statement(ground, sentence)?;
        }
        declare(ground, &mut self.page)
    }

    // What is found out, and the rows.
    fn into_found(self) -> (Facts<'a>, Page) {
        (self.facts, self.page)
    }

    // What goes with a statement that isn't tried: a block with its beginning, a setting.
    fn behind_untried(&mut self, said: Said<'_, 'a>, reason: Reason) -> Result<(), NoMemory> {
        match said.parts.word {
            MajorWord::If | MajorWord::Do | MajorWord::Select => {
                self.blocks.open.pop();
                self.blocks.stretch = Some(Stretch { depth: 1, reason });
                Ok(())
            }
            MajorWord::SensorSetting => self.lose(said),
            _ => Ok(()),
        }
    }

    // What a row brings with it: a fault hides what the statement does, and a line that is left out may be one to spare.
    fn behind(&mut self, said: Said<'_, 'a>) -> Result<(), NoMemory> {
        let (class, reason) = match self.page.rows.get(said.row) {
            Some(row) => (row.class, row.reason),
            None => return Ok(()),
        };
        leave(said, class, &mut self.here, &self.facts, &mut self.page)?;
        match class {
            Class::Fault => self.lose(said),
            Class::NotTried if self.blocks.stretch.is_none() => self.behind_untried(said, reason),
            Class::LeftOut if self.here.is_outside && said.row != 0 => {
                if self.page.spare.is_none() {
                    self.page.spare = Some(said.row);
                }
                Ok(())
            }
            _ => Ok(()),
        }
    }
}

// The row of a statement of which the rules say this.
fn row_of(sentence: &Sentence, said: Said<'_, '_>, ruling: Ruling) -> Result<Row, NoMemory> {
    let ruling = with_names(said, ruling)?;
    judged(said.ground.alloc, sentence, &ruling)
}

// The bytes of a statement, its numbers spelled out.
fn bytes_of<'a>(ground: &Ground<'a>, row: usize, sentence: &'a Sentence) -> &'a [u8] {
    match ground.plains.get(row) {
        Some(plain) if !plain.is_empty() => plain.as_slice(),
        _ => sentence.bytes.as_slice(),
    }
}

// The most readings of a text in which something new is found out.
const READINGS: u32 = 12;

// One reading of the text: what is found out, and the rows.
fn read<'a>(ground: &Ground<'a>, facts: Facts<'a>) -> Result<(Facts<'a>, Page), NoMemory> {
    let mut walk = Walk::new(ground.alloc, facts);
    let done = walk.read(ground);
    let found = walk.into_found();
    match done {
        Ok(()) => Ok(found),
        Err(fault) => Err(fault),
    }
}

// The last reading, where nothing was found out for sure.
fn read_unsure<'a>(ground: &Ground<'a>, mut facts: Facts<'a>) -> Result<Page, NoMemory> {
    facts.give_up();
    match read(ground, facts) {
        Ok((_, page)) => Ok(page),
        Err(fault) => Err(fault),
    }
}

// What the readings of the text find out until nothing new comes, and the rows of the last one.
fn read_all<'a>(ground: &Ground<'a>) -> Result<Page, NoMemory> {
    let mut facts = Facts::new(ground.alloc);
    for _ in 0..READINGS {
        let (mut found, page) = read(ground, facts)?;
        if !found.take_growth(ground.alloc) {
            return Ok(page);
        }
        facts = found;
    }
    read_unsure(ground, facts)
}

// What the rows and what is told beside them say.
fn surveyed_by(alloc: Global, page: Page) -> Surveyed {
    Surveyed {
        rows: page.rows,
        cautions: page.cautions,
        home: page.home,
        renamings: Vec::new(alloc),
        points: Vec::new(alloc),
        rounded: page.rounding.count,
        most: page.rounding.most,
    }
}

// What the last reading says.
fn outcome(ground: &Ground<'_>) -> Result<Surveyed, NoMemory> {
    match read_all(ground) {
        Ok(page) => Ok(surveyed_by(ground.alloc, page)),
        Err(fault) => Err(fault),
    }
}

// Whether a declaration is of numbers with decimals.
fn is_real(rest: &[u8]) -> bool {
    rest.windows(4)
        .any(|window| is(window, b"REAL") || is(window, b"DOUB"))
}

// What a text has with UNITS besides, behind so many others.
fn with_units(traits: Traits, units: u32, is_inch: bool) -> Traits {
    if units == 0 {
        Traits { is_inch, ..traits }
    } else {
        Traits {
            is_followed: traits.is_followed && is_inch == traits.is_inch,
            ..traits
        }
    }
}

// What a text has with this statement besides.
fn with_statement(traits: Traits, units: u32, parts: Parts<'_>) -> Traits {
    match parts.word {
        MajorWord::Units => with_units(traits, units, parts.rest.starts_with(b"INCH")),
        MajorWord::Rotate => Traits {
            has_angles: true,
            ..traits
        },
        MajorWord::Goto
        | MajorWord::PointMeasure
        | MajorWord::From
        | MajorWord::GoTarget
        | MajorWord::Feature => Traits {
            has_angles: traits.has_angles || parts.rest.starts_with(b"POL"),
            ..traits
        },
        MajorWord::JumpTo => Traits {
            has_jumps: true,
            ..traits
        },
        _ => traits,
    }
}

// What a text has.
fn traits_of(sentences: &[Sentence]) -> Traits {
    let mut traits = Traits {
        is_inch: false,
        is_followed: true,
        has_angles: false,
        has_jumps: false,
    };
    let mut units = 0u32;
    let mut has_lengths = false;
    for sentence in sentences {
        let parts = parts_of(&sentence.bytes);
        traits = with_statement(traits, units, parts);
        if parts.word.is(MajorWord::Units) {
            units = units.saturating_add(1);
        }
        has_lengths = has_lengths || parts.word.is(MajorWord::Declare) && is_real(parts.rest);
    }
    Traits {
        is_followed: traits.is_followed && !(traits.is_inch && has_lengths),
        ..traits
    }
}

// The statements whose numbers with exponents are spelled out.
fn plains_of(alloc: Global, sentences: &[Sentence]) -> Result<Vec<Vec<u8>>, NoMemory> {
    let mut plains = Vec::with_capacity(alloc, sentences.len())?;
    for sentence in sentences {
        plains.push(spelled_out(alloc, &sentence.bytes)?)?;
    }
    Ok(plains)
}

// The names of points that are touched one by one, where that is asked for.
fn points_of(
    alloc: Global,
    naming: &mut Naming<'_>,
    sentences: &[Sentence],
    options: &Options,
) -> Result<Vec<Vec<u8>>, NoMemory> {
    if options.is_touch {
        naming.point_names(alloc, sentences)
    } else {
        Ok(Vec::new(alloc))
    }
}

// What becomes of each statement, where it is known what stands behind it.
fn surveyed_ahead<'x>(text: &[u8], ground: Ground<'x>) -> Result<Surveyed, NoMemory> {
    let plains = plains_of(ground.alloc, ground.sentences)?;
    surveyed_plainly(
        text,
        Ground {
            plains: plains.as_slice(),
            ..ground
        },
    )
}

// What becomes of each statement, where its numbers are spelled out.
fn surveyed_plainly<'x>(text: &[u8], ground: Ground<'x>) -> Result<Surveyed, NoMemory> {
    let front = front_of(ground.alloc, text)?;
    outcome(&Ground {
        front: front.as_slice(),
        ..ground
    })
}

// What becomes of each statement, with new names and the names of points.
fn surveyed_with<'x>(
    alloc: Global,
    text: &[u8],
    sentences: &'x [Sentence],
    options: &'x Options,
    naming: &'x Naming<'x>,
    points: &'x [Vec<u8>],
) -> Result<Surveyed, NoMemory> {
    let outlooks = outlooks(alloc, sentences)?;
    surveyed_ahead(
        text,
        Ground {
            alloc,
            options,
            naming,
            sentences,
            outlooks: outlooks.as_slice(),
            plains: &[],
            points,
            front: &[],
            traits: traits_of(sentences),
        },
    )
}

/// What becomes of each statement of a text, of which these are all.
///
/// # Errors
///
/// Out of memory.
pub fn surveyed(
    alloc: Global,
    text: &[u8],
    sentences: &[Sentence],
    options: &Options,
) -> Result<Surveyed, NoMemory> {
    let mut naming = Naming::of(alloc, sentences)?;
    let points = points_of(alloc, &mut naming, sentences, options)?;
    let mut surveyed = surveyed_with(alloc, text, sentences, options, &naming, points.as_slice())?;
    surveyed.renamings = naming.into_renamings();
    surveyed.points = points;
    Ok(surveyed)
}
