//! Blocks and jumps.

use crate::expressions::{untried_value, uses_unknown};
use crate::spelled::standing;
use crate::view::{Here, Said};
use std::alloc::Global;
use vcm_classes::{Arrival, Facts, Flow, Frame, Marks, Ruling, same};
use vcm_num::NoMemory;
use vcm_sentences::{enclosed, has_fine_digits, has_function, piece};
use vcm_spelling::{Rounding, joined};
use vcm_standard::Reason;

/// The blocks that flow can leave in more than one way.
#[derive(Clone, Copy)]
pub(crate) enum BlockKind {
    Choice,
    Loop,
    Selection,
}

/// A block that is open.
#[derive(Clone, Copy)]
pub(crate) struct Block {
    pub(crate) kind: BlockKind,
    // What is known at its beginning.
    pub(crate) start: Flow,
    // What is known at the ends of its branches so far.
    pub(crate) ends: Option<Flow>,
    // Whether one of its branches is always taken.
    pub(crate) is_full: bool,
}

/// A stretch that isn't tried: how many blocks are open in it, and why.
#[derive(Clone, Copy)]
pub(crate) struct Stretch {
    pub(crate) depth: u32,
    pub(crate) reason: Reason,
}

/// The blocks that are open, and the stretch that isn't tried.
#[derive(Drop)]
pub(crate) struct Blocks {
    pub(crate) open: Vec<Block>,
    pub(crate) stretch: Option<Stretch>,
}

impl Blocks {
    /// None yet.
    pub(crate) fn new(alloc: Global) -> Blocks {
        Blocks {
            open: Vec::new(alloc),
            stretch: None,
        }
    }

    /// Whether one of them is a loop.
    pub(crate) fn has_loop(&self) -> bool {
        self.open
            .iter()
            .any(|block| matches!(block.kind, BlockKind::Loop))
    }

    // A block begins.
    fn begin(&mut self, here: &Here<'_>, kind: BlockKind) -> Result<(), NoMemory> {
        self.open.push(Block {
            kind,
            start: here.flow,
            ends: None,
            is_full: false,
        })?;
        Ok(())
    }

    // A stretch begins that isn't tried.
    fn give_up(&mut self, reason: Reason) -> Ruling {
        self.stretch = Some(Stretch { depth: 1, reason });
        Ruling::NotTried(reason)
    }

    /// ELSE, CASE and DFTCAS: another branch of the innermost block begins.
    pub(crate) fn next_branch(&mut self, here: &mut Here<'_>, is_last: bool, ends_one: bool) {
        if let Some(block) = self.open.last_mut() {
            if ends_one {
                block.ends = Some(with_end(here, block.ends));
            }
            block.is_full = block.is_full || is_last;
            here.flow = block.start;
        }
    }

    /// ENDCAS: a branch ends.
    pub(crate) fn end_branch(&mut self, here: &mut Here<'_>) {
        if let Some(block) = self.open.last_mut() {
            block.ends = Some(with_end(here, block.ends));
        }
    }

    /// ENDIF, ENDDO and ENDSEL.
    pub(crate) fn end_block(&mut self, here: &mut Here<'_>) {
        if let Some(block) = self.open.pop() {
            end_flow(here, block);
        }
    }
}

// The ends of a block's branches, with what is known here.
fn with_end(here: &mut Here<'_>, ends: Option<Flow>) -> Flow {
    let number = here.new_frame();
    match ends {
        None => here.flow,
        Some(ends) => ends.joined(here.flow, number),
    }
}

// What is known behind a block.
fn end_flow(here: &mut Here<'_>, block: Block) {
    let mut ends = block.ends;
    if matches!(block.kind, BlockKind::Choice | BlockKind::Loop) {
        ends = Some(with_end(here, ends));
    }
    here.flow = block.start;
    if let Some(ends) = ends {
        here.flow = if block.is_full {
            ends
        } else {
            with_end(here, Some(ends))
        };
    }
}

// The place of the parenthesis that closes the one that opened in front of these bytes.
fn closing(bytes: &[u8]) -> Option<usize> {
    let mut depth = 0u32;
    for (at, byte) in bytes.iter().enumerate() {
        match *byte {
            b'(' => depth = depth.saturating_add(1),
            b')' if depth == 0 => return Some(at),
            b')' => depth = depth.saturating_sub(1),
            _ => {}
        }
    }
    None
}

// The parts of a test by ABS.
#[derive(Clone, Copy)]
struct Absolute<'a> {
    value: &'a [u8],
    relation: &'a [u8],
    other: &'a [u8],
}

// The relations with an order.
const ORDERS: &[&[u8]] = &[b"GT", b"GE", b"LT", b"LE"];

// Whether two letters are a relation with an order.
fn is_order(relation: &[u8]) -> bool {
    ORDERS.contains(&relation)
}

// What stands between two points at the front, and behind them.
fn dotted(bytes: &[u8]) -> Option<(&[u8], &[u8])> {
    match bytes {
        [b'.', _, _, b'.', other @ ..] => Some((piece(bytes, 1, 3), other)),
        _ => None,
    }
}

// The parts of `(ABS(a).GT.b)`: a, GT, b, where no digits have to be rounded.
fn absolute_test(rest: &[u8]) -> Option<Absolute<'_>> {
    if has_fine_digits(rest) {
        return None;
    }
    let inner = enclosed(rest, b"(ABS(")?;
    let end = closing(inner)?;
    let value = piece(inner, 0, end);
    let (relation, other) = dotted(piece(inner, end.saturating_add(1), inner.len()))?;
    let is_plain = closing(other).is_none() && !has_function(value) && !has_function(other);
    if is_order(relation) && is_plain && !has_dotted_join(other) {
        Some(Absolute {
            value,
            relation,
            other,
        })
    } else {
        None
    }
}

// Whether a dotted word stands in the bytes: they may be more than a number then.
fn has_dotted_join(bytes: &[u8]) -> bool {
    let mut last = b' ';
    for byte in bytes {
        if last == b'.' && byte.is_ascii_alphabetic() {
            return true;
        }
        last = *byte;
    }
    false
}

// The test that stands for one by ABS.
fn put_absolute(said: Said<'_, '_>, test: Absolute<'_>) -> Result<Ruling, NoMemory> {
    let join: &[u8] = if test.relation.starts_with(b"G") {
        b".OR.-("
    } else {
        b".AND.-("
    };
    let new = joined(
        said.ground.alloc,
        &[
            b"IF/(",
            test.value,
            b".",
            test.relation,
            b".",
            test.other,
            join,
            test.value,
            b").",
            test.relation,
            b".",
            test.other,
            b")",
        ],
    )?;
    Ok(Ruling::Put(Reason::Absolute, new))
}

// Why an IF isn't tried, if it isn't.
fn untried_test<'a>(said: Said<'_, 'a>, facts: &Facts<'a>) -> Option<Reason> {
    let rest = said.parts.rest;
    if uses_unknown(facts, rest) {
        Some(Reason::UnknownValues)
    } else if absolute_test(rest).is_some() {
        None
    } else if has_function(rest) {
        Some(Reason::TestFunctions)
    } else if said.ground.options.is_exact && has_fine_digits(rest) {
        Some(Reason::FineDigits)
    } else {
        None
    }
}

/// IF.
pub(crate) fn test<'a>(
    said: Said<'_, 'a>,
    here: &Here<'a>,
    facts: &Facts<'a>,
    blocks: &mut Blocks,
    rounding: &mut Rounding,
) -> Result<Ruling, NoMemory> {
    if let Some(reason) = untried_test(said, facts) {
        return Ok(blocks.give_up(reason));
    }
    blocks.begin(here, BlockKind::Choice)?;
    match absolute_test(said.parts.rest) {
        Some(parts) => put_absolute(said, parts),
        None => standing(said, rounding),
    }
}

/// DO and SELECT.
pub(crate) fn begin_block<'a>(
    said: Said<'_, 'a>,
    here: &mut Here<'a>,
    facts: &Facts<'a>,
    blocks: &mut Blocks,
    kind: BlockKind,
    rounding: &mut Rounding,
) -> Result<Ruling, NoMemory> {
    if let Some(reason) = untried_value(facts, said.parts.rest, said.ground.options.is_exact) {
        return Ok(blocks.give_up(reason));
    }
    if let (BlockKind::Loop, Some(outlook)) = (kind, said.outlook()) {
        go_through(here, outlook.marks);
    }
    blocks.begin(here, kind)?;
    standing(said, rounding)
}

/// What a block or a macro does to what is known where it begins, or behind it.
pub(crate) fn go_through(here: &mut Here<'_>, marks: Marks) {
    if marks.sets_approach {
        here.flow.approach = None;
    }
    if marks.loses_frame {
        here.lose_frame();
    } else if marks.moves_frame && here.flow.is_known() {
        here.enter_new(None);
    }
}

/// A jump label: what is known on all ways there is known behind it.
pub(crate) fn arrive<'a>(here: &mut Here<'a>, facts: &Facts<'a>, label: &'a [u8]) {
    let Some(way) = facts.jump(label) else {
        return;
    };
    if way.is_known && here.flow.is_known() {
        here.enter_new(None);
    } else {
        here.flow.frame = Frame::Unknown;
    }
    here.flow.origin = None;
    here.flow.approach = same(here.flow.approach, way.approach);
    here.flow.is_manual = here.flow.is_manual || way.is_manual;
}

/// JUMPTO.
pub(crate) fn jump<'a>(
    said: Said<'_, 'a>,
    here: &Here<'a>,
    facts: &mut Facts<'a>,
) -> Result<(), NoMemory> {
    match enclosed(said.parts.rest, b"(") {
        Some(label) => facts.add_jump(label, Arrival::on(here.flow)),
        None => Ok(()),
    }
}
