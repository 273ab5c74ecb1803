//! Commands of the debugger.

use crate::reply::CommandRefusal;
use std::marker::Model;
use vcm_items::Name;

/// The most steps or lines of a command.
const MOST: u64 = 1_000_000;

/// A number of steps or lines, from 1 to 1,000,000. Contracts see it as that number.
#[derive(Drop)]
pub struct Count {
    number: u32,
}

impl Model for Count {
    ghost use Rattle.std.specs.Prelude.{ℕ, ◌<◌, ◌≤◌};

    ghost Value = { ℕ };

    ghost view = { λ c. c.number };

    ghost invariant = { λ c. (0 < c.number) × (c.number ≤ 1000000) };
}

impl Count {
    ghost use Rattle.std.specs.Prelude.{◌≡◌, ◌<◌, ◌≤◌, IfOk};
    ghost use Rattle.vcm_console.specs.Parsing.{counted};

    /// The count that is this number.
    ///
    /// Errors: `CountOutOfRange`, where it isn't from 1 to 1,000,000.
    pub fn new(number: u64) -> Result<Count, CommandRefusal>
        ensures is { result ≡ counted number }
        ensures few { IfOk result (λ c. c ≤ 1000000) }
    {
        if number > 0 && number <= MOST {
            Ok(Count {
                number: number as u32,
            })
        } else {
            Err(CommandRefusal::CountOutOfRange)
        }
    }

    /// The number.
    pub fn get(&self) -> u32
        ensures is { result ≡ self.now }
        ensures some { 0 < result }
        ensures few { result ≤ 1000000 }
    {
        self.number
    }
}

/// A variable as it is named in a command: a local one by the number of its expansion, which is 0 outside macros.
#[derive(Drop)]
pub struct VariableRef {
    pub name: Name,
    pub expansion: u64,
}

/// A command.
#[derive(Drop)]
pub enum Command {
    Break(u64),
    Clear(u64),
    Line(u64),
    Step(Count),
    Run(Count),
    Watch(VariableRef),
    Unwatch(VariableRef),
    Where,
    Show(VariableRef),
    Feat(Name),
    List(Option<u64>),
    Out(Count),
    Back(Count),
    Reverse,
    Quit,
}
