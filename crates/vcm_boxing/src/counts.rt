//! A small number for each of many things, kept by its bits for 64 of them at once.

use crate::bits::part_of;
use crate::fault::CoverFault;
use std::alloc::Global;

// How many bits a number has.
const DIGITS: usize = 16;

/// Numbers below 65,536, which are 0 at first. First stand the words with the last bit of all numbers, 64 in a word, then those with the bit before it, and so on.
#[derive(Drop)]
pub struct Counts {
    // How many words each bit of the numbers takes.
    length: usize,
    words: Vec<u64>,
}

impl Counts {
    /// So many numbers.
    pub fn new(alloc: Global, count: usize) -> Result<Counts, CoverFault> {
        let length = count / 64 + 1;
        Ok(Counts {
            length,
            words: Vec::from_elem(alloc, 0, length.saturating_mul(DIGITS))?,
        })
    }

    // Where the word with a bit of 64 numbers stands.
    fn index_of(&self, word: usize, digit: usize) -> usize {
        digit.wrapping_mul(self.length).wrapping_add(word)
    }

    // Adds one to those of 64 numbers whose bits are on.
    fn add_part(&mut self, word: usize, part: u64) {
        let mut carried = part;
        for digit in 0..DIGITS {
            let index = self.index_of(word, digit);
            if carried == 0 || index >= self.words.len() {
                break;
            }
            let before = self.words[index];
            self.words[index] = before ^ carried;
            carried &= before;
        }
    }

    // Takes one from those of 64 numbers whose bits are on.
    fn take_part(&mut self, word: usize, part: u64) {
        let mut borrowed = part;
        for digit in 0..DIGITS {
            let index = self.index_of(word, digit);
            if borrowed == 0 || index >= self.words.len() {
                break;
            }
            let before = self.words[index];
            self.words[index] = before ^ borrowed;
            borrowed &= !before;
        }
    }

    // Which of 64 numbers are 1.
    fn ones(&self, word: usize) -> u64 {
        let mut ones = 0;
        for digit in 0..DIGITS {
            let index = self.index_of(word, digit);
            if index < self.words.len() {
                if digit == 0 {
                    ones = self.words[index];
                } else {
                    ones &= !self.words[index];
                }
            }
        }
        ones
    }

    /// Adds one to the numbers from one place up to another.
    pub fn add_run(&mut self, from: usize, end: usize) {
        if from < end {
            let last = end - 1;
            for word in from / 64..last / 64 + 1 {
                self.add_part(word, part_of(word, from, last));
            }
        }
    }

    /// Takes one from the numbers from one place up to another, none of which is 0.
    pub fn take_run(&mut self, from: usize, end: usize) {
        if from < end {
            let last = end - 1;
            for word in from / 64..last / 64 + 1 {
                self.take_part(word, part_of(word, from, last));
            }
        }
    }

    /// From where up to where the numbers between two places have a 1, if there is one.
    pub fn ones_between(&self, from: usize, end: usize) -> Option<(usize, usize)> {
        if from >= end {
            return None;
        }
        let last = end - 1;
        let mut found = None;
        for word in from / 64..last / 64 + 1 {
            let ones = self.ones(word) & part_of(word, from, last);
            if ones != 0 {
                let start = word.wrapping_mul(64);
                let first = start.wrapping_add(ones.trailing_zeros() as usize);
                let after = start.wrapping_add(64 - ones.leading_zeros() as usize);
                found = match found {
                    None => Some((first, after)),
                    Some((earliest, _)) => Some((earliest, after)),
                };
            }
        }
        found
    }
}
