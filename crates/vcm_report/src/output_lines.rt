//! Lines that grow at their end.

ghost use Rattle.std.specs.Prelude.{◌≡◌, [], ◌∷◌, ◌++◌, length, IfOk, OnOk, OnErr};

use crate::output_line::Line;
use std::alloc::Global;
use std::marker::Model;
use vcm_num::NoMemory;

/// Lines of bytes, each in memory of its own. Contracts see them as a list of lines.
#[derive(Drop)]
pub struct Lines {
    lines: Vec<Line>,
}

impl Model for Lines {
    ghost use Rattle.std.specs.Prelude.{List, ℕ};

    ghost Value = { List (List ℕ) };

    ghost view = { λ l. l.lines.items };
}

impl Lines {
    /// No lines.
    pub fn new(alloc: Global) -> Lines
        ensures { result ≡ [] }
    {
        Lines {
            lines: Vec::new(alloc),
        }
    }

    /// How many lines there are.
    pub fn len(&self) -> usize
        ensures { result ≡ length self.now }
    {
        self.lines.len()
    }

    /// One more line.
    ///
    /// Errors: want of memory; then the lines are as they were.
    pub fn push(&mut self, line: &[u8]) -> Result<(), NoMemory>
        ensures ok { OnOk result (self.new ≡ self.old ++ line.now ∷ []) }
        ensures err { OnErr result (self.new ≡ self.old) }
    {
        let line = Line::new(*self.lines.allocator(), line)?;
        self.lines.reserve(1)?;
        self.lines.push_reserved(line);
        Ok(())
    }

    /// A copy of the lines.
    ///
    /// Errors: want of memory.
    pub fn copy(&self, alloc: Global) -> Result<Lines, NoMemory>
        ensures { IfOk result (λ c. c ≡ self.now) }
    {
        let lines = copied(alloc, &self.lines)?;
        Ok(Lines { lines })
    }

    /// The lines in order.
    pub fn as_slice(&self) -> &[Line]
        ensures { result.now ≡ self.now }
    {
        &self.lines
    }
}

// A copy of each line.
fn copied(alloc: Global, lines: &[Line]) -> Result<Vec<Line>, NoMemory>
    ensures { IfOk result (λ copies. copies.items ≡ lines.now) }
{
    let mut copies = Vec::with_capacity(alloc, lines.len())?;
    for line in lines {
        let copy = Line::new(alloc, line.as_bytes())?;
        copies.push(copy)?;
    }
    Ok(copies)
}
