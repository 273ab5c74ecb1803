//! The blocks that are open, as they are written.

use crate::about::{About, Block, Word};
use crate::words::major;
use std::alloc::Global;
use vcm_forms::Form;
use vcm_num::NoMemory;

/// A block that is open: what opened it, the line of that, and a number that no other block has, from 1.
#[derive(Clone, Copy)]
pub(crate) struct Open {
    pub(crate) block: Block,
    pub(crate) line: u32,
    pub(crate) id: u32,
}

/// The blocks that are open, the outermost first, and how many have been opened.
#[derive(Drop)]
pub(crate) struct Blocks {
    opens: Vec<Open>,
    count: u32,
}

/// Whether a statement closes, or goes on with, a block of this sort.
pub(crate) fn closes(form: &Form, block: Block) -> bool {
    match form {
        Form::Otherwise => block == Block::If,
        Form::TestEnd => block == Block::If || block == Block::Else,
        Form::RepeatEnd => block == Block::Do,
        Form::MeasureEnd => block == Block::Meas,
        Form::Case(_) | Form::Default => block == Block::Select,
        Form::CaseEnd => block == Block::Case || block == Block::Default,
        Form::ChooseEnd => block == Block::Select || block == Block::Last,
        _ => false,
    }
}

/// The block that a statement closes or goes on with, if it is such a one.
pub(crate) fn closed_by(form: &Form) -> Option<Block> {
    match form {
        Form::Otherwise | Form::TestEnd => Some(Block::If),
        Form::RepeatEnd => Some(Block::Do),
        Form::MeasureEnd => Some(Block::Meas),
        Form::Case(_) | Form::Default | Form::ChooseEnd => Some(Block::Select),
        Form::CaseEnd => Some(Block::Case),
        _ => None,
    }
}

/// Whether a statement opens a block.
pub(crate) fn is_opener(form: &Form) -> bool {
    match form {
        Form::Test(_) | Form::Repeat(_) | Form::Measure(_) | Form::Choose(_) => true,
        Form::Case(_) | Form::Default => true,
        _ => false,
    }
}

/// Whether a statement stands in one of the blocks where a SELECT is open.
fn is_in_block(form: &Form) -> bool {
    match form {
        Form::Declaration(_, _) | Form::Call(_, _) => true,
        _ => form.is_counted(),
    }
}

impl Blocks {
    /// None.
    pub(crate) fn new(alloc: Global) -> Blocks {
        Blocks {
            opens: Vec::new(alloc),
            count: 0,
        }
    }

    /// The innermost one.
    pub(crate) fn innermost(&self) -> Option<Open> {
        self.opens.last().copied()
    }

    /// The innermost one's number, 0 outside blocks.
    pub(crate) fn id(&self) -> u32 {
        match self.opens.last() {
            Some(open) => open.id,
            None => 0,
        }
    }

    /// Whether the block with this number is open, or all of the program is meant.
    pub(crate) fn has(&self, id: u32) -> bool {
        id == 0 || self.opens.iter().any(|open| open.id == id)
    }

    /// The innermost one, if it is a MEAS.
    pub(crate) fn measuring(&self) -> Option<Open> {
        match self.opens.last() {
            Some(open) if open.block == Block::Meas => Some(*open),
            _ => None,
        }
    }

    /// The innermost one, if it is a SELECT outside its blocks.
    pub(crate) fn choosing(&self) -> Option<Open> {
        match self.opens.last() {
            Some(open) if open.block == Block::Select || open.block == Block::Last => Some(*open),
            _ => None,
        }
    }

    /// Whether a statement closes, or goes on with, one of them.
    pub(crate) fn any_closed(&self, form: &Form) -> bool {
        for open in &self.opens {
            if closes(form, open.block) {
                return true;
            }
        }
        false
    }

    // One more.
    fn open(&mut self, block: Block, line: u32) -> Result<(), NoMemory> {
        self.count = self.count.saturating_add(1);
        let id = self.count;
        self.opens.push(Open { block, line, id })?;
        Ok(())
    }

    // The innermost one goes on as another.
    fn go_on(&mut self, block: Block) -> Result<(), NoMemory> {
        let line = match self.opens.pop() {
            Some(open) => open.line,
            None => return Ok(()),
        };
        self.open(block, line)
    }

    /// Takes a statement that may stand here.
    pub(crate) fn take(&mut self, form: &Form, line: u32) -> Result<(), NoMemory> {
        match form {
            Form::Test(_) => self.open(Block::If, line),
            Form::Otherwise => self.go_on(Block::Else),
            Form::Repeat(_) => self.open(Block::Do, line),
            Form::Measure(_) => self.open(Block::Meas, line),
            Form::Choose(_) => self.open(Block::Select, line),
            Form::Case(_) => self.open(Block::Case, line),
            Form::Default => {
                self.go_on(Block::Last)?;
                self.open(Block::Default, line)
            }
            Form::TestEnd | Form::RepeatEnd | Form::MeasureEnd | Form::CaseEnd | Form::ChooseEnd =>
                {
                    self.opens.pop();
                    Ok(())
                }
            _ => Ok(()),
        }
    }

    /// What is wrong with a statement here, by its blocks alone.
    pub(crate) fn about(&self, form: &Form) -> Option<About> {
        let inner = self.innermost();
        match form {
            Form::Ending | Form::MacroEnd => match inner {
                Some(open) => Some(About::Unended(open.block, open.line)),
                None => None,
            },
            _ => match closed_by(form) {
                Some(block) => about_end(form, block, inner),
                None => self.about_other(form),
            },
        }
    }

    // What is wrong with a statement that neither closes a block nor goes on with one.
    fn about_other(&self, form: &Form) -> Option<About> {
        let open = self.choosing()?;
        if is_in_block(form) {
            Some(About::Inside(major(form), open.block, open.line))
        } else {
            None
        }
    }
}

// What is wrong with a statement that closes such a block, or goes on with it, where this one is the innermost.
fn about_end(form: &Form, block: Block, inner: Option<Open>) -> Option<About> {
    let Some(open) = inner else {
        return Some(About::Blockless(major(form), block));
    };
    if closes(form, open.block) {
        return None;
    }
    match (form, open.block) {
        (Form::Otherwise, Block::Else) => Some(About::Has(open.block, open.line, Word::Else)),
        (Form::Case(_) | Form::Default, Block::Last) => {
            Some(About::Has(open.block, open.line, Word::Dftcas))
        }
        _ => Some(About::Inside(major(form), open.block, open.line)),
    }
}
