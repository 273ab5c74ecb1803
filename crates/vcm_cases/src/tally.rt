//! How the answers were.

use crate::texts::put_all;
use std::alloc::Global;

/// What a line begins with that names what stands below it.
pub(crate) const MARK: &str = "=== ";

/// How many answers were as they are wanted, and those that were not.
#[derive(Drop)]
pub(crate) struct Tally {
    wrong: String,
    right: u32,
}

impl Tally {
    /// No answers yet.
    pub(crate) fn new(alloc: Global) -> Tally {
        Tally {
            wrong: String::new(alloc),
            right: 0,
        }
    }

    /// Counts an answer that is as it is wanted below a heading, and writes down another one with its program.
    pub(crate) fn judge(&mut self, title: &str, program: &str, wanted: &str, found: &str) {
        if found == wanted {
            self.right = self.right.saturating_add(1);
            return;
        }
        put_all(
            &mut self.wrong,
            &[
                MARK,
                title,
                "\nprogram\n",
                program,
                "wanted\n",
                wanted,
                "found\n",
                found,
            ],
        );
    }

    /// The answers that were not as they are wanted, one after another.
    pub(crate) fn wrong(&self) -> &str {
        &self.wrong
    }

    /// How many answers were as they are wanted.
    pub(crate) fn right(&self) -> u32 {
        self.right
    }
}
