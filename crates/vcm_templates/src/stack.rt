//! A stack.

ghost use Rattle.std.specs.Prelude.{◌≡◌, ◌∷◌, [], MatchOption, OnOk};

use std::alloc::Global;
use std::marker::Model;
use vcm_num::NoMemory;

/// A stack. Contracts see it as a list, the topmost first.
#[derive(Drop)]
pub(crate) struct Stack<T> {
    values: Vec<T>,
}

impl<T> Model for Stack<T> {
    ghost use Rattle.std.specs.Prelude.{List, reverse};

    ghost Value = { List T };

    ghost view = { λ s. reverse s.values.items };
}

impl<T: Drop> Stack<T> {
    /// An empty stack.
    pub(crate) fn new(alloc: Global) -> Stack<T>
        ensures { result ≡ [] }
    {
        Stack {
            values: Vec::new(alloc),
        }
    }

    /// Puts a value on top.
    pub(crate) fn push(&mut self, value: T) -> Result<(), NoMemory>
        ensures { OnOk result (self.new ≡ value ∷ self.old) }
    {
        self.values.push(value)?;
        Ok(())
    }

    /// Takes the topmost value, if there is one.
    pub(crate) fn pop(&mut self) -> Option<T>
        ensures { MatchOption result ((self.old ≡ []) × (self.new ≡ [])) (λ top. self.old ≡ top ∷ self.new) }
    {
        self.values.pop()
    }
}
