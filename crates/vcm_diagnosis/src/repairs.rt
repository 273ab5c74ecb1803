//! What is changed in a text after a fault, so that the rest can be judged.

use crate::about::{About, Block, Word};
use crate::blocks::{Open, closes, is_opener};
use crate::doubts::{Doubt, of_names, of_variables};
use crate::edits::{BEHIND, Change, Edit, Stock, is_ended};
use crate::standing::is_barred;
use crate::written::{Extent, extent_of, extents, site_of};
use std::alloc::Global;
use vcm_forms::{Form, Statement};
use vcm_lines::{FaultCode, SourceFault};
use vcm_num::NoMemory;

/// The changes so far, and what may be missing for that.
#[derive(Drop)]
pub(crate) struct Repairs {
    pub(crate) edits: Vec<Edit>,
    pub(crate) doubts: Vec<Doubt>,
}

// What closes a block.
fn end_of(block: Block) -> Stock {
    match block {
        Block::If | Block::Else => Stock::TestEnd,
        Block::Do => Stock::RepeatEnd,
        Block::Meas => Stock::MeasureEnd,
        Block::Select | Block::Last => Stock::ChooseEnd,
        Block::Case | Block::Default => Stock::CaseEnd,
        Block::Macro => Stock::MacroEnd,
    }
}

// The place of the last statement in a line, and behind an ENDFIL that was put there of the one before.
fn place_of(all: &[Statement], line: u32, code: FaultCode) -> Option<usize> {
    let mut place = all.len();
    'found: while place > 0 {
        place -= 1;
        let statement = &all[place];
        if statement.line == line {
            match &statement.form {
                Form::Ending if code != FaultCode::Unbalanced => {}
                _ => return Some(place),
            }
        }
    }
    None
}

// Whether one of the statements from a place on is DMISMN.
fn has_opening(all: &[Statement]) -> bool {
    for statement in all {
        if let Form::Opening = &statement.form {
            return true;
        }
    }
    false
}

// Whether an ENDFIL stands behind a line.
fn has_ending_behind(all: &[Statement], line: u32) -> bool {
    for statement in all {
        if let Form::Ending = &statement.form {
            if statement.line > line {
                return true;
            }
        }
    }
    false
}

// Whether the statement of a line is MACRO or ENDFIL, behind this line.
fn ends_macro(all: &[Statement], line: u32, opened: u32) -> bool {
    for statement in all {
        if statement.line == line {
            match &statement.form {
                Form::Macro(_, _) if line > opened => return true,
                Form::Ending => return true,
                _ => {}
            }
        }
    }
    false
}

// Where the statements of a MEAS end, from a place on and before another: at the first one that may not stand there. And whether a PTMEAS stands among them.
fn measured_to(all: &[Statement], from: usize, most: usize) -> (u32, bool) {
    let mut touched = false;
    for place in from..most {
        let Some(statement) = all.get(place) else {
            break;
        };
        match &statement.form {
            Form::Touch(_, _) => touched = true,
            Form::Move(_) | Form::Home | Form::Ignored(_) | Form::Declaration(_, _) => {}
            _ => return (statement.line, touched),
        }
    }
    match all.get(most) {
        Some(statement) => (statement.line, touched),
        None => (BEHIND, touched),
    }
}

// Whether the next word of a MEAS from a place on is ENDMES.
fn ends_ahead(all: &[Statement], from: usize) -> bool {
    for place in from..all.len() {
        match &all[place].form {
            Form::MeasureEnd => return true,
            Form::Measure(_) | Form::MacroEnd | Form::Macro(_, _) | Form::Ending => return false,
            _ => {}
        }
    }
    false
}

// The place of the MEAS in this line.
fn measure_at(all: &[Statement], line: u32) -> Option<usize> {
    for place in 0..all.len() {
        if all[place].line == line {
            if let Form::Measure(_) = &all[place].form {
                return Some(place);
            }
        }
    }
    None
}

// The block that a statement opens.
fn opened(form: &Form) -> Option<Block> {
    match form {
        Form::Test(_) => Some(Block::If),
        Form::Repeat(_) => Some(Block::Do),
        Form::Measure(_) => Some(Block::Meas),
        Form::Choose(_) => Some(Block::Select),
        Form::Case(_) => Some(Block::Case),
        Form::Default => Some(Block::Default),
        _ => None,
    }
}

// Whether a statement closes a block.
fn is_end(form: &Form) -> bool {
    match form {
        Form::TestEnd | Form::RepeatEnd | Form::MeasureEnd => true,
        Form::CaseEnd | Form::ChooseEnd => true,
        _ => false,
    }
}

// Whether a text of macros and blocks ends with a statement.
fn is_bound(form: &Form) -> bool {
    match form {
        Form::MacroEnd | Form::Macro(_, _) | Form::Ending => true,
        _ => false,
    }
}

impl Repairs {
    /// None.
    pub(crate) fn new(alloc: Global) -> Repairs {
        Repairs {
            edits: Vec::new(alloc),
            doubts: Vec::new(alloc),
        }
    }

    // One more change.
    fn change(&mut self, line: u32, change: Change) -> Result<(), NoMemory> {
        self.edits.push(Edit { line, change })?;
        Ok(())
    }

    // Leaves a statement out.
    fn leave(&mut self, statement: &Statement) -> Result<(), NoMemory> {
        let line = statement.line;
        match &statement.form {
            Form::Call(_, _) | Form::Feature(_, _, _) => self.doubts.push(of_names(line))?,
            Form::Shift(_, _) | Form::Rotation(_, _, _) => self.doubts.push(of_names(line))?,
            Form::Mark(_) | Form::Declaration(_, _) => self.doubts.push(of_variables(line))?,
            _ => {}
        }
        self.change(line, Change::Leave)
    }

    // Leaves a statement out, and where it opens a block that which divides and closes it.
    fn leave_block(&mut self, all: &[Statement], place: usize) -> Result<(), NoMemory> {
        let Some(first) = all.get(place) else {
            return Ok(());
        };
        self.leave(first)?;
        match opened(&first.form) {
            Some(block) => self.leave_ends(all, place.saturating_add(1), block),
            None => Ok(()),
        }
    }

    // Leaves out what divides and closes a block, from a place on.
    fn leave_ends(&mut self, all: &[Statement], from: usize, block: Block) -> Result<(), NoMemory> {
        let mut depth: usize = 0;
        for place in from..all.len() {
            let statement = &all[place];
            if is_bound(&statement.form) {
                return Ok(());
            }
            if is_opener(&statement.form) {
                depth = depth.saturating_add(1);
            } else if is_end(&statement.form) {
                if depth == 0 {
                    if closes(&statement.form, block) {
                        self.leave(statement)?;
                    }
                    return Ok(());
                }
                depth = depth.saturating_sub(1);
            } else if depth == 0 && block == Block::If {
                if let Form::Otherwise = &statement.form {
                    self.leave(statement)?;
                }
            }
        }
        Ok(())
    }

    // Changes the order.
    fn order(&mut self, all: &[Statement], line: u32, about: &About) -> Result<(), NoMemory> {
        match about {
            About::NothingAbove(Word::Dmismn) => {
                if has_opening(all) {
                    self.change(line, Change::Leave)
                } else {
                    self.change(line, Change::Front(Stock::Opening))
                }
            }
            About::NothingAbove(_) => self.change(line, Change::Front(Stock::Measures)),
            About::Above(Word::Endfil, above) => {
                if has_ending_behind(all, *above) {
                    self.change(*above, Change::Leave)
                } else {
                    self.change(line, Change::LeaveRest)
                }
            }
            About::Unended(_, above) => {
                let at = if ends_macro(all, line, *above) {
                    line
                } else {
                    BEHIND
                };
                self.change(at, Change::Front(Stock::MacroEnd))
            }
            About::Endless => self.change(BEHIND, Change::Ended),
            _ => self.change(line, Change::Leave),
        }
    }

    // Puts the end of a block in front of a statement.
    fn close(&mut self, all: &[Statement], place: usize, open: Open) -> Result<(), NoMemory> {
        if open.block == Block::Meas {
            return self.close_measure(all, place, open.line);
        }
        let at = self.address(all, place);
        self.change(at, Change::Front(end_of(open.block)))
    }

    // The line by which a statement is changed.
    fn address(&self, all: &[Statement], place: usize) -> u32 {
        if is_ended(self.edits.as_slice()) && place.saturating_add(1) >= all.len() {
            return BEHIND;
        }
        match all.get(place) {
            Some(statement) => statement.line,
            None => BEHIND,
        }
    }

    // Ends the MEAS in this line before a statement, or before one that may not stand in it.
    fn close_measure(
        &mut self,
        all: &[Statement],
        place: usize,
        line: u32,
    ) -> Result<(), NoMemory> {
        let from = match measure_at(all, line) {
            Some(from) => from.saturating_add(1),
            None => place,
        };
        let (mut at, touched) = measured_to(all, from, place);
        if from >= place || is_last_line(all, place, at) {
            at = self.address(all, place);
        }
        if !touched {
            self.change(at, Change::Front(Stock::Touch))?;
        }
        self.change(at, Change::Front(Stock::MeasureEnd))
    }

    // Changes what is out of balance among the blocks.
    fn balance(&mut self, alloc: Global, all: &[Statement], line: u32) -> Result<(), NoMemory> {
        let Some(site) = site_of(alloc, all, line)? else {
            return match place_of(all, line, FaultCode::Unbalanced) {
                Some(place) => self.leave_block(all, place),
                None => Ok(()),
            };
        };
        let Some(statement) = all.get(site.place) else {
            return Ok(());
        };
        let is_bound = is_bound(&statement.form);
        match site.blocks.innermost() {
            Some(open) if is_bound || site.blocks.any_closed(&statement.form) => {
                self.close(all, site.place, open)
            }
            _ => self.leave_block(all, site.place),
        }
    }

    // Changes a statement that may not stand in a MEAS.
    fn body(
        &mut self,
        alloc: Global,
        all: &[Statement],
        place: usize,
        about: &About,
    ) -> Result<(), NoMemory> {
        let Some(statement) = all.get(place) else {
            return Ok(());
        };
        match about {
            About::Touches(_, 0) => {
                let at = self.address(all, place);
                self.change(at, Change::Front(Stock::Touch))
            }
            About::Touches(_, _) => self.leave_touches(all, place),
            About::Inside(_, _, line) => {
                let extents = extents(alloc, all)?;
                if is_beside(all, extents.as_slice(), place, *line)
                    && (is_measure(&statement.form) || !ends_ahead(all, place))
                {
                    self.close_measure(all, place, *line)
                } else {
                    self.leave_block(all, place)
                }
            }
            _ => self.leave(statement),
        }
    }

    // Leaves out the PTMEAS of a MEAS from a place on.
    fn leave_touches(&mut self, all: &[Statement], from: usize) -> Result<(), NoMemory> {
        for place in from..all.len() {
            let statement = &all[place];
            match &statement.form {
                Form::Touch(_, _) => self.leave(statement)?,
                Form::Move(_) | Form::Home | Form::Ignored(_) => {}
                _ => return Ok(()),
            }
        }
        Ok(())
    }

    // Changes a statement that has a fault of names or kinds.
    fn names(&mut self, statement: &Statement) -> Result<(), NoMemory> {
        let line = statement.line;
        match &statement.form {
            Form::Feature(_, _, _) | Form::Shift(_, _) | Form::Touch(_, _) => {
                self.change(line, Change::Plain)
            }
            Form::Test(_) | Form::Choose(_) => self.change(line, Change::Plain),
            Form::Repeat(_) | Form::Measure(_) => self.change(line, Change::StandIn),
            _ => self.leave(statement),
        }
    }

    // Changes a statement that declares a name again.
    fn twins(&mut self, statement: &Statement, about: &About) -> Result<(), NoMemory> {
        let line = statement.line;
        match (&statement.form, about) {
            (Form::Declaration(_, _), About::Declared(_, name, _)) => {
                self.change(line, Change::Without(name.copy()))
            }
            (Form::Macro(_, _), _) => self.change(line, Change::Renamed),
            _ => self.change(line, Change::Leave),
        }
    }

    // The line in front of which UNITS may be put: that of the MACRO around a place, or its own.
    fn outside(&self, alloc: Global, all: &[Statement], line: u32) -> Result<u32, NoMemory> {
        let Some(place) = place_of(all, line, FaultCode::BadOrder) else {
            return Ok(line);
        };
        let extents = extents(alloc, all)?;
        match extent_of(extents.as_slice(), place) {
            Some(extent) => match all.get(extent.start) {
                Some(statement) => Ok(statement.line),
                None => Ok(line),
            },
            None => Ok(line),
        }
    }

    /// Changes what has a fault, and says whether the rest may be judged.
    pub(crate) fn repair(
        &mut self,
        alloc: Global,
        all: &[Statement],
        fault: SourceFault,
        about: &About,
    ) -> Result<bool, NoMemory> {
        match fault.code {
            FaultCode::BadOrder => {
                let line = match about {
                    About::NothingAbove(Word::Units) => self.outside(alloc, all, fault.line)?,
                    _ => fault.line,
                };
                self.order(all, line, about)?;
                return Ok(true);
            }
            FaultCode::Unbalanced => {
                self.balance(alloc, all, fault.line)?;
                return Ok(true);
            }
            _ => {}
        }
        let Some(place) = place_of(all, fault.line, fault.code) else {
            return Ok(false);
        };
        let Some(statement) = all.get(place) else {
            return Ok(false);
        };
        match fault.code {
            FaultCode::DuplicateName => self.twins(statement, about)?,
            FaultCode::UnknownName | FaultCode::BadType => self.names(statement)?,
            FaultCode::MeasBody => self.body(alloc, all, place, about)?,
            FaultCode::JumpInward | FaultCode::BadArguments | FaultCode::TooDeep => {
                self.leave_block(all, place)?
            }
            _ => return Ok(false),
        }
        Ok(true)
    }
}

// Whether a statement is MEAS.
fn is_measure(form: &Form) -> bool {
    match form {
        Form::Measure(_) => true,
        _ => false,
    }
}

// Whether a line is that of a place.
fn is_last_line(all: &[Statement], place: usize, line: u32) -> bool {
    match all.get(place) {
        Some(statement) => statement.line == line,
        None => true,
    }
}

// Whether the MEAS in this line stands in the same macro as a place, or both outside.
fn is_beside(all: &[Statement], extents: &[Extent], place: usize, line: u32) -> bool {
    let Some(other) = measure_at(all, line) else {
        return false;
    };
    match (extent_of(extents, place), extent_of(extents, other)) {
        (None, None) => true,
        (Some(one), Some(two)) => one.start == two.start && is_barred_at(all, place),
        _ => false,
    }
}

// Whether the statement at a place may not stand in a MEAS.
fn is_barred_at(all: &[Statement], place: usize) -> bool {
    match all.get(place) {
        Some(statement) => is_barred(&statement.form),
        None => false,
    }
}
