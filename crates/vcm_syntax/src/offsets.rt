//! Reads the shifts of a frame.

ghost use Rattle.std.specs.Prelude.{◌≡◌, []};
ghost use Rattle.std.specs.List.{list_any};
ghost use Rattle.vcm_expr.specs.Parsing.{ReadAs};
ghost use Rattle.vcm_syntax.specs.Measuring.{origin_word, is_along, free_axis, origin_in, offset_of, offsets_of};

use crate::places::only;
use std::alloc::Global;
use vcm_expr::read_expr;
use vcm_forms::Offset;
use vcm_lines::{Phrase, SourceFault, Token, bad_syntax};
use vcm_num::{Items, look_up};
use vcm_spec::FrameAxis;

fn origin_word(word: &[u8]) -> Option<FrameAxis>
    ensures { result ≡ origin_word word.now }
{
    look_up(
        &[
            (b"XORIG", FrameAxis::X),
            (b"YORIG", FrameAxis::Y),
            (b"ZORIG", FrameAxis::Z),
        ],
        word,
    )
}

/// Whether one of the shifts is along the axis.
fn is_shifted(offsets: &[Offset], axis: FrameAxis) -> bool
    ensures { result ≡ list_any (is_along axis) offsets.now }
{
    offsets
        .iter()
        .any(|offset| axis.number() == offset.axis.number())
}

fn free_axis(offsets: &[Offset], axis: Option<FrameAxis>) -> Option<FrameAxis>
    ensures { result ≡ free_axis offsets.now axis }
{
    axis.filter(|axis| !is_shifted(offsets, *axis))
}

/// The axis of a word, along which none of the shifts is.
fn origin_in(offsets: &[Offset], words: &Phrase<'_>) -> Option<FrameAxis>
    ensures { result ≡ origin_in offsets.now words.now }
{
    match only(words) {
        Some(Token::Run(word)) => free_axis(offsets, origin_word(word)),
        _ => None,
    }
}

/// One shift more, along an axis that has none yet.
fn offset(
    alloc: Global,
    line: u32,
    offsets: &[Offset],
    word: &Phrase<'_>,
    length: &Phrase<'_>,
) -> Result<Offset, SourceFault>
    ensures { ReadAs line (λ o. o) result (offset_of offsets.now word.now length.now) }
{
    match origin_in(offsets, word) {
        None => Err(bad_syntax(line)),
        Some(axis) => {
            let length = read_expr(alloc, line, length)?;
            Ok(Offset { axis, length })
        }
    }
}

/// The shifts of a frame, at most one along each axis.
pub(crate) fn offsets(
    alloc: Global,
    line: u32,
    fields: &[Phrase<'_>],
) -> Result<Items<Offset>, SourceFault>
    ensures { ReadAs line (λ os. os) result (offsets_of [] fields.now) }
{
    let mut offsets = Items::new(alloc);
    let mut place = 0;
    'shifts: while place < fields.len() {
        if fields.len() - place < 2 {
            return Err(bad_syntax(line));
        }
        let offset = offset(
            alloc,
            line,
            offsets.as_slice(),
            &fields[place],
            &fields[place + 1],
        )?;
        offsets.push(offset)?;
        place += 2;
    }
    Ok(offsets)
}
