//! What a fault of an expanded program is about.

use crate::about::{About, Sort};
use crate::blocks::Blocks;
use crate::names::Names;
use crate::standing::State;
use std::alloc::Global;
use vcm_forms::Form;
use vcm_items::Name;
use vcm_lines::{FaultCode, SourceFault};
use vcm_macro::Placed;
use vcm_num::NoMemory;

// What a jump is about that has this fault, if it has it, in these blocks.
fn leap_about(
    alloc: Global,
    names: &Names,
    blocks: &Blocks,
    name: &Name,
    expansion: u32,
    code: FaultCode,
) -> Result<Option<About>, NoMemory> {
    match names.find(Sort::Label, name, expansion) {
        None if code == FaultCode::UnknownName => Ok(Some(names.missing(
            alloc,
            Sort::Label,
            name,
            expansion,
        )?)),
        Some(label) if code == FaultCode::JumpInward && !blocks.has(label.block) => {
            Ok(Some(About::Inward(name.copy(), label.line, label.opener)))
        }
        _ => Ok(None),
    }
}

// What the first jump in this line is about that has this fault, in a program with these names.
fn jump_about(
    alloc: Global,
    names: &Names,
    all: &[Placed],
    fault: SourceFault,
) -> Result<About, NoMemory> {
    let mut blocks = Blocks::new(alloc);
    for placed in all {
        let form = &placed.statement.form;
        if let Form::Leap(name) = form {
            if placed.statement.line == fault.line {
                let e = placed.expansion;
                if let Some(about) = leap_about(alloc, names, &blocks, name, e, fault.code)? {
                    return Ok(about);
                }
            }
        }
        blocks.take(form, placed.statement.line)?;
    }
    Ok(About::Nothing)
}

/// What the first statement in a fault's line is about that has this fault.
pub(crate) fn placed_about(
    alloc: Global,
    all: &[Placed],
    fault: SourceFault,
) -> Result<About, NoMemory> {
    let mut state = State::new(alloc);
    let mut rest = all;
    'each: while let Some((placed, others)) = rest.split_first() {
        if placed.statement.line == fault.line {
            if let Some(found) = state.wrong(alloc, placed, rest)? {
                if found.code == fault.code {
                    return Ok(found.about);
                }
            }
        }
        state.take(placed)?;
        rest = others;
    }
    jump_about(alloc, &state.names, all, fault)
}
