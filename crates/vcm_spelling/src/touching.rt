//! Names of points that are touched one by one.

use crate::labels::Named;
use crate::naming::Naming;
use crate::places::{Direction, direction_of};
use std::alloc::Global;
use vcm_num::{NoMemory, write_int};
use vcm_sentences::{MajorWord, Parts, Sentence, enclosed, fields_of, parts_of};

// The feature of a MEAS, if it names one.
fn measured<'a>(alloc: Global, parts: Parts<'a>) -> Result<Option<&'a [u8]>, NoMemory> {
    let fields = fields_of(alloc, parts.rest)?;
    Ok(match fields.as_slice() {
        [_, feature, ..] => enclosed(feature, b"F("),
        _ => None,
    })
}

// Whether a PTMEAS is along an axis.
fn is_axis_point(alloc: Global, parts: Parts<'_>) -> Result<bool, NoMemory> {
    let fields = fields_of(alloc, parts.rest)?;
    Ok(matches!(direction_of(fields.as_slice()), Direction::Along(_, _)))
}

// A name with a number behind it.
fn with_number(alloc: Global, name: &[u8], number: i64) -> Result<Vec<u8>, NoMemory> {
    let mut new = Vec::new(alloc);
    new.extend_from_slice(name)?;
    new.push(b'_')?;
    write_int(number, &mut new)?;
    Ok(new)
}

impl<'a> Naming<'a> {
    // The name of a point of a feature, which has this number there; none where it has no direction along an axis.
    fn point_name(
        &mut self,
        alloc: Global,
        label: Option<&[u8]>,
        number: i64,
        parts: Parts<'_>,
    ) -> Result<Vec<u8>, NoMemory> {
        let Some(label) = label else {
            return Ok(Vec::new(alloc));
        };
        if !is_axis_point(alloc, parts)? {
            return Ok(Vec::new(alloc));
        }
        let whole = with_number(alloc, self.label(Named::Feature, label), number)?;
        self.new_feature(whole.as_slice())
    }

    /// For each statement the name of the point that it is, where it is a PTMEAS along an axis in a MEAS: the feature's with its number there.
    ///
    /// # Errors
    ///
    /// Out of memory.
    pub fn point_names(
        &mut self,
        alloc: Global,
        sentences: &[Sentence],
    ) -> Result<Vec<Vec<u8>>, NoMemory> {
        let mut names = Vec::new(alloc);
        let mut label = None;
        let mut number = 0i64;
        for sentence in sentences {
            let parts = parts_of(&sentence.bytes);
            let mut name = Vec::new(alloc);
            match parts.word {
                MajorWord::Measure => {
                    label = measured(alloc, parts)?;
                    number = 0;
                }
                MajorWord::EndMeasure => label = None,
                MajorWord::PointMeasure => {
                    number = number.saturating_add(1);
                    name = self.point_name(alloc, label, number, parts)?;
                }
                _ => {}
            }
            names.push(name)?;
        }
        Ok(names)
    }
}
