//! A bit for each of many things.

use crate::fault::CoverFault;
use std::alloc::Global;

/// Bits, which are off at first.
#[derive(Drop)]
pub struct Bits {
    words: Vec<u64>,
}

/// The bits of a word that stand from one place to another, both among them.
pub fn part_of(word: usize, first: usize, last: usize) -> u64 {
    let mut part = u64::MAX;
    if word == first / 64 {
        part <<= first % 64;
    }
    if word == last / 64 {
        part &= u64::MAX >> (63 - last % 64);
    }
    part
}

impl Bits {
    /// So many bits.
    pub fn new(alloc: Global, count: usize) -> Result<Bits, CoverFault> {
        Ok(Bits {
            words: Vec::from_elem(alloc, 0, count / 64 + 1)?,
        })
    }

    /// Whether a bit is on; one past the end is off.
    pub fn is_on(&self, index: usize) -> bool {
        let word = index / 64;
        word < self.words.len() && (self.words[word] >> (index % 64)) & 1 == 1
    }

    /// Turns a bit on.
    pub fn turn_on(&mut self, index: usize) {
        let word = index / 64;
        if word < self.words.len() {
            self.words[word] |= 1 << (index % 64);
        }
    }

    /// Turns on the bits from one up to another.
    pub fn turn_on_run(&mut self, from: usize, end: usize) {
        if from >= end {
            return;
        }
        let last = end - 1;
        for word in from / 64..last / 64 + 1 {
            if word < self.words.len() {
                self.words[word] |= part_of(word, from, last);
            }
        }
    }

    /// How many bits are on from one up to another.
    pub fn count_on(&self, from: usize, end: usize) -> usize {
        if from >= end {
            return 0;
        }
        let last = end - 1;
        let mut count = 0usize;
        for word in from / 64..last / 64 + 1 {
            if word < self.words.len() {
                let part = self.words[word] & part_of(word, from, last);
                count = count.wrapping_add(part.count_ones() as usize);
            }
        }
        count
    }

    /// How many words of 64 bits there are.
    pub fn words(&self) -> usize {
        self.words.len()
    }

    /// Whether each bit of a word that is on here is on in others.
    pub fn is_within(&self, others: &Bits, word: usize) -> bool {
        word >= self.words.len()
            || word < others.words.len() && self.words[word] & !others.words[word] == 0
    }
}
