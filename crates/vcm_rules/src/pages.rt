//! The rows so far, and what is told beside them.

use crate::view::Ground;
use std::alloc::Global;
use vcm_classes::{Class, Position, Row, put};
use vcm_num::NoMemory;
use vcm_spelling::{Renaming, Rounding};
use vcm_standard::Reason;

/// What is passed over and may matter.
#[derive(Clone, Copy)]
pub enum Caution {
    /// MODE/AUTO.
    OwnPoints,
    /// A later SNSLCT.
    OtherTool,
    /// PRCOMP/OFF.
    TipCentres,
    /// FLY.
    RoundedCorners,
    /// ERROR.
    FaultJump,
    /// CRSLCT.
    OtherCarriage,
    /// CZSLCT.
    OtherZone,
    /// A way that begins where this line left the probe, or at home for 0, and the machine's does not.
    OtherBeginning(u32),
}

/// What becomes of all statements of a text.
#[derive(Drop)]
pub struct Surveyed {
    pub rows: Vec<Row>,
    /// The lines with what may matter there.
    pub cautions: Vec<(u32, Caution)>,
    /// The line of the last FROM whose position in machine coordinates stands in the text, and that position.
    pub home: Option<(u32, Position)>,
    /// The names that are replaced.
    pub renamings: Vec<Renaming>,
    /// The names of points that are touched one by one, one for each statement, nothing where there is none.
    pub points: Vec<Vec<u8>>,
    /// How many numbers are rounded.
    pub rounded: u32,
    /// By how much at most, in ten millionths of a millimetre.
    pub most: i64,
}

/// The rows so far, and what is told beside them.
#[derive(Drop)]
pub(crate) struct Page {
    pub(crate) rows: Vec<Row>,
    pub(crate) cautions: Vec<(u32, Caution)>,
    pub(crate) home: Option<(u32, Position)>,
    pub(crate) rounding: Rounding,
    // The first row that is left out below DMISMN, outside blocks.
    pub(crate) spare: Option<usize>,
    // The variables of frames that are to be declared, each behind a comma.
    pub(crate) declared: Vec<u8>,
}

impl Page {
    /// Nothing yet.
    pub(crate) fn new(alloc: Global) -> Page {
        Page {
            rows: Vec::new(alloc),
            cautions: Vec::new(alloc),
            home: None,
            rounding: Rounding { count: 0, most: 0 },
            spare: None,
            declared: Vec::new(alloc),
        }
    }

    /// Something may matter at a line.
    pub(crate) fn warn(&mut self, line: u32, caution: Caution) -> Result<(), NoMemory> {
        self.cautions.push((line, caution))?;
        Ok(())
    }

    /// Whether a row is left out.
    pub(crate) fn is_left_out(&self, index: usize) -> bool {
        match self.rows.get(index) {
            Some(row) => row.class.is(Class::LeftOut),
            None => false,
        }
    }

    /// The nearest row above this one that is left out, with nothing between but others that are, and notices.
    pub(crate) fn spare_above(&self, row: usize) -> Option<usize> {
        for index in (0..row).rev() {
            let row = self.rows.get(index)?;
            match row.class {
                Class::LeftOut => return Some(index),
                Class::Notice => {}
                _ => return None,
            }
        }
        None
    }

    /// Puts a statement in the place of a row that is left out, and says whether it could be.
    pub(crate) fn put_in(
        &mut self,
        ground: &Ground<'_>,
        index: usize,
        reason: Reason,
        bytes: &[u8],
    ) -> Result<bool, NoMemory> {
        let Some(sentence) = ground.sentences.get(index) else {
            return Ok(false);
        };
        match put(ground.alloc, sentence, reason, bytes)? {
            Ok(new) => Ok(self.replace(index, new)),
            Err(_) => Ok(false),
        }
    }

    // Puts another row in the place of one, and says whether there was one.
    fn replace(&mut self, index: usize, new: Row) -> bool {
        match self.rows.get_mut(index) {
            Some(row) => {
                *row = new;
                true
            }
            None => false,
        }
    }
}
