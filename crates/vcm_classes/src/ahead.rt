//! What stands behind a statement, in its block.

use std::alloc::Global;
use vcm_num::NoMemory;
use vcm_sentences::{MajorWord, Parts, Sentence, Table, fields_of, parts_of, read_decimal};
use vcm_spelling::{Direction, direction_of};

/// What a block does.
#[derive(Clone, Copy)]
pub struct Marks {
    /// It sets the approach distance.
    pub sets_approach: bool,
    // It may leave a frame behind that isn't known.
    pub loses_frame: bool,
    pub moves_frame: bool,
    pub measures: bool,
    pub moves: bool,
}

const NOTHING: Marks = Marks {
    sets_approach: false,
    loses_frame: false,
    moves_frame: false,
    measures: false,
    moves: false,
};

const ANYTHING: Marks = Marks {
    sets_approach: true,
    loses_frame: true,
    moves_frame: true,
    measures: false,
    moves: true,
};

impl Marks {
    // What two parts of a block do.
    fn and(self, other: Marks) -> Marks {
        Marks {
            sets_approach: self.sets_approach || other.sets_approach,
            loses_frame: self.loses_frame || other.loses_frame,
            moves_frame: self.moves_frame || other.moves_frame,
            measures: self.measures || other.measures,
            moves: self.moves || other.moves,
        }
    }
}

/// What stands behind a statement, in its block.
#[derive(Clone, Copy)]
pub struct Outlook {
    // Of a loop, a macro or a call: what it does.
    pub marks: Marks,
    // Of a MEAS: how many PTMEAS it has.
    pub points: u32,
    // Of a MEAS: whether each of them has no direction, or that of an axis.
    pub is_along_axes: bool,
    // Of a GOTARG or an ENDGO: whether it has the other one.
    pub is_paired: bool,
}

const NO_OUTLOOK: Outlook = Outlook {
    marks: NOTHING,
    points: 0,
    is_along_axes: true,
    is_paired: false,
};

// A loop or a macro that is open, with what it does so far.
#[derive(Clone, Copy)]
struct Open<'a> {
    index: usize,
    title: &'a [u8],
    marks: Marks,
}

// A walk over all statements.
#[derive(Drop)]
struct Looking<'a> {
    outlooks: Vec<Outlook>,
    open: Vec<Open<'a>>,
    macros: Table<'a, Marks>,
    measuring: Option<usize>,
    target: Option<usize>,
}

/// Whether a rotation is by quarter turns.
pub fn is_quarter_turn(fields: &[&[u8]]) -> bool {
    match fields {
        [_, angle] => match read_decimal(angle) {
            Some(number) => {
                number.value % 900_000_000 == 0
                    && number.value.saturating_abs() <= 2_700_000_000
                    && !number.is_fine
            }
            None => false,
        },
        _ => false,
    }
}

/// The macro that a call is of.
pub fn called<'a>(rest: &'a [u8]) -> Option<&'a [u8]> {
    let label = rest.strip_prefix(b"M(")?;
    let end = label.iter().position(|byte| *byte == b')')?;
    Some(&label[..end])
}

// Whether a statement between GOTARG and ENDGO changes what the place of GOTARG means, or whether both are carried out.
fn breaks_target(parts: Parts<'_>) -> bool {
    !matches!(
        parts.word,
        MajorWord::Goto
            | MajorWord::GoTarget
            | MajorWord::EndGo
            | MajorWord::FeedRate
            | MajorWord::Acceleration
            | MajorWord::FinePosition
            | MajorWord::Rapid
            | MajorWord::Fly
    )
}

// A PTMEAS of a MEAS.
fn with_point(alloc: Global, outlook: Outlook, parts: Parts<'_>) -> Result<Outlook, NoMemory> {
    let fields = fields_of(alloc, parts.rest)?;
    let is_plain = matches!(
        direction_of(fields.as_slice()),
        Direction::Missing | Direction::Along(_, _)
    );
    Ok(Outlook {
        points: outlook.points.saturating_add(1),
        is_along_axes: outlook.is_along_axes && is_plain,
        ..outlook
    })
}

// What a rotation does.
fn rotation(alloc: Global, parts: Parts<'_>) -> Result<Marks, NoMemory> {
    let fields = fields_of(alloc, parts.rest)?;
    Ok(Marks {
        loses_frame: !is_quarter_turn(fields.as_slice()),
        moves_frame: true,
        ..NOTHING
    })
}

// What a statement does by its word alone.
fn plain_marks(parts: Parts<'_>) -> Marks {
    match parts.word {
        MajorWord::Measure => Marks {
            measures: true,
            ..NOTHING
        },
        MajorWord::Goto | MajorWord::GoHome | MajorWord::PointMeasure | MajorWord::EndGo => Marks {
            moves: true,
            ..NOTHING
        },
        MajorWord::SensorSetting => Marks {
            sets_approach: parts.rest.starts_with(b"APPRCH"),
            ..NOTHING
        },
        MajorWord::Translate | MajorWord::Recall => Marks {
            moves_frame: true,
            ..NOTHING
        },
        MajorWord::DatumSet | MajorWord::Locate | MajorWord::Iterate | MajorWord::Pop => Marks {
            sets_approach: parts.word.is(MajorWord::Pop),
            loses_frame: true,
            moves_frame: true,
            ..NOTHING
        },
        _ => NOTHING,
    }
}

impl<'a> Looking<'a> {
    // What the innermost open block does besides.
    fn mark(&mut self, marks: Marks) {
        if let Some(innermost) = self.open.last_mut() {
            innermost.marks = innermost.marks.and(marks);
        }
    }

    // What stands behind a statement so far.
    fn outlook(&self, index: usize) -> Outlook {
        self.outlooks.get(index).copied().unwrap_or(NO_OUTLOOK)
    }

    // Sets what stands behind a statement.
    fn set(&mut self, index: usize, outlook: Outlook) {
        if let Some(place) = self.outlooks.get_mut(index) {
            *place = outlook;
        }
    }

    // Sets what a block does.
    fn set_marks(&mut self, index: usize, marks: Marks) {
        let outlook = self.outlook(index);
        self.set(index, Outlook { marks, ..outlook });
    }

    // A GOTARG or an ENDGO has the other one.
    fn pair(&mut self, index: usize) {
        let outlook = self.outlook(index);
        self.set(
            index,
            Outlook {
                is_paired: true,
                ..outlook
            },
        );
    }

    // The end of a loop or a macro.
    fn close(&mut self, is_loop: bool) -> Result<(), NoMemory> {
        let Some(block) = self.open.pop() else {
            return Ok(());
        };
        self.set_marks(block.index, block.marks);
        if is_loop {
            self.mark(block.marks);
            Ok(())
        } else {
            self.macros.set(block.title, block.marks)
        }
    }

    // A point of a MEAS.
    fn point(&mut self, alloc: Global, parts: Parts<'a>) -> Result<(), NoMemory> {
        if let Some(index) = self.measuring {
            let outlook = with_point(alloc, self.outlook(index), parts)?;
            self.set(index, outlook);
        }
        Ok(())
    }

    // The end of a GOTARG.
    fn end_target(&mut self, index: usize) {
        if let Some(first) = self.target {
            self.pair(first);
            self.pair(index);
        }
        self.target = None;
    }

    // A call of a macro.
    fn call(&mut self, index: usize, parts: Parts<'a>) {
        let marks = match called(parts.rest) {
            Some(label) => self.macros.get(label).unwrap_or(ANYTHING),
            None => ANYTHING,
        };
        self.set_marks(index, marks);
        self.mark(marks);
    }

    fn statement(&mut self, alloc: Global, index: usize, parts: Parts<'a>) -> Result<(), NoMemory> {
        if self.target.is_some() && breaks_target(parts) {
            self.target = None;
        }
        self.mark(plain_marks(parts));
        match parts.word {
            MajorWord::Do | MajorWord::Macro => {
                self.open.push(Open {
                    index,
                    title: parts.title,
                    marks: NOTHING,
                })?;
            }
            MajorWord::EndDo => self.close(true)?,
            MajorWord::EndMacro => self.close(false)?,
            MajorWord::Measure => self.measuring = Some(index),
            MajorWord::EndMeasure => self.measuring = None,
            MajorWord::PointMeasure => self.point(alloc, parts)?,
            MajorWord::GoTarget => self.target = Some(index),
            MajorWord::EndGo => self.end_target(index),
            MajorWord::Rotate => {
                let marks = rotation(alloc, parts)?;
                self.mark(marks);
            }
            MajorWord::Call => self.call(index, parts),
            _ => {}
        }
        Ok(())
    }
}

/// What stands behind each statement, in its block.
///
/// # Errors
///
/// Out of memory.
pub fn outlooks(alloc: Global, sentences: &[Sentence]) -> Result<Vec<Outlook>, NoMemory> {
    let mut looking = Looking {
        outlooks: Vec::with_capacity(alloc, sentences.len())?,
        open: Vec::new(alloc),
        macros: Table::new(alloc),
        measuring: None,
        target: None,
    };
    for (index, sentence) in sentences.iter().enumerate() {
        looking.outlooks.push(NO_OUTLOOK)?;
        looking.statement(alloc, index, parts_of(&sentence.bytes))?;
    }
    Ok(looking.outlooks)
}
