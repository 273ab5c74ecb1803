//! Little memory: all of the address space is taken up but for a budget.

use std::alloc::{AllocError, Global};

// How many bytes are held back, of which a budget is given.
const RESERVE: usize = 98_304;

// Takes blocks of one size as long as memory gives them. Nothing is written to them.
fn take(alloc: Global, taken: &mut Vec<Vec<u8>>, size: usize) -> Result<(), AllocError> {
    for _ in 0..100_000 {
        let Ok(block) = Vec::with_capacity(alloc, size) else {
            break;
        };
        taken.push(block)?;
    }
    Ok(())
}

// Takes blocks of falling sizes, from 2^from down to 2^to bytes.
fn take_all(alloc: Global, taken: &mut Vec<Vec<u8>>, from: u32, to: u32) -> Result<(), AllocError> {
    for exponent in (to..=from).rev() {
        take(alloc, taken, 1usize.wrapping_shl(exponent))?;
    }
    Ok(())
}

// Takes the freed blocks of at most 1,032 bytes, which the C library keeps by their sizes.
fn take_kept(alloc: Global, taken: &mut Vec<Vec<u8>>) -> Result<(), AllocError> {
    for size in (1..=64usize).rev() {
        take(alloc, taken, size * 16 + 8)?;
    }
    Ok(())
}

/// All memory but a little, which is given back by a drop.
#[derive(Drop)]
pub struct Scarce {
    large: Vec<Vec<u8>>,
    small: Vec<Vec<u8>>,
}

impl Scarce {
    /// Takes the blocks of 2^30 bytes and more.
    pub fn new(alloc: Global) -> Result<Scarce, AllocError> {
        let mut large = Vec::with_capacity(alloc, 1 << 20)?;
        let small = Vec::with_capacity(alloc, 1 << 16)?;
        take_all(alloc, &mut large, 40, 30)?;
        Ok(Scarce { large, small })
    }

    /// Takes the smaller blocks too, and leaves about so many bytes, at most 98,304.
    pub fn leave(&mut self, alloc: Global, budget: usize) -> Result<(), AllocError> {
        let reserve: Vec<u8> = Vec::with_capacity(alloc, RESERVE)?;
        take_all(alloc, &mut self.small, 29, 0)?;
        take_kept(alloc, &mut self.small)?;
        drop(reserve);
        let rest = Vec::with_capacity(alloc, RESERVE.saturating_sub(budget))?;
        self.small.push(rest)?;
        Ok(())
    }

    /// Gives the blocks below 2^30 bytes back.
    pub fn ease(&mut self) {
        self.small.clear();
    }
}
