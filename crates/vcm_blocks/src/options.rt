//! What is asked, and what is told on the way.

use crate::told::Millimetres;
use std::fmt::{Display, Formatter, Result, Write};
use vcm_mesh::Placing;

/// What is asked of the blocks of a model.
#[derive(Clone, Copy)]
pub struct BlocksOptions<'a> {
    /// How the model is placed on the machine.
    pub placing: Placing,
    /// How far a block may reach beyond the model on each axis, in micrometres. Without it round lengths are tried, from coarse to fine.
    pub within: Option<u32>,
    /// The most blocks of the model: 1 to 4,096.
    pub most: usize,
    /// The name of each block, as `is_name` takes it.
    pub name: &'a str,
    /// The words of the command after `vcm blocks`, files without their folders.
    pub words: &'a [&'a str],
}

/// A length that was tried, in micrometres, and how many blocks it takes.
#[derive(Clone, Copy)]
pub struct LengthDone {
    pub within: u32,
    pub blocks: usize,
}

impl Display for LengthDone {
    fn fmt<W: Write>(&self, out: &mut Formatter<W>) -> Result {
        let within = Millimetres::of(self.within);
        let blocks = self.blocks;
        write!(out, "within {within} mm: {blocks} blocks")
    }
}

/// Who is told of each length as it is done.
pub trait Tells {
    /// Takes note of a length.
    fn tell(&mut self, done: &LengthDone);
}
