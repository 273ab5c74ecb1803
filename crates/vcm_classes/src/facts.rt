//! What is found out about the whole text, reading by reading, until nothing new comes.

use crate::flow::{Flow, same};
use std::alloc::Global;
use vcm_num::NoMemory;
use vcm_sentences::Table;

/// What is known where a macro is called or a label jumped to, on all ways there.
#[derive(Clone, Copy)]
pub struct Arrival {
    pub is_known: bool,
    pub is_manual: bool,
    pub approach: Option<i64>,
    // Whether all arguments in quotes are points along an axis.
    pub has_points: bool,
    // Whether a call isn't tried.
    pub is_lost: bool,
}

// What is known where nothing is.
const LOST: Arrival = Arrival {
    is_known: false,
    is_manual: true,
    approach: None,
    has_points: false,
    is_lost: true,
};

impl Arrival {
    /// The arrival on a way of which this is known.
    pub fn on(flow: Flow) -> Arrival {
        Arrival {
            is_known: flow.is_known(),
            is_manual: flow.is_manual,
            approach: flow.approach,
            has_points: true,
            is_lost: false,
        }
    }

    // What holds on both ways.
    fn joined(self, other: Arrival) -> Arrival {
        Arrival {
            is_known: self.is_known && other.is_known,
            is_manual: self.is_manual || other.is_manual,
            approach: same(self.approach, other.approach),
            has_points: self.has_points && other.has_points,
            is_lost: self.is_lost || other.is_lost,
        }
    }

    // Whether two are the same.
    fn is(self, other: Arrival) -> bool {
        self.is_known == other.is_known
            && self.is_manual == other.is_manual
            && self.approach == other.approach
            && self.has_points == other.has_points
            && self.is_lost == other.is_lost
    }
}

/// What is found out.
#[derive(Drop)]
pub struct Facts<'a> {
    // The variables that a statement in a loop, in a macro or among jump labels gives a value which isn't tried: they are unknown everywhere.
    everywhere: Table<'a, bool>,
    // The variables that are unknown here, by what stands above; those that are known again are false.
    here: Table<'a, bool>,
    calls: Table<'a, Arrival>,
    jumps: Table<'a, Arrival>,
    // The macros behind whose calls the probe stands elsewhere.
    strays: Table<'a, bool>,
    // Whether something new came since it was asked.
    has_grown: bool,
    // Whether nothing was found out for sure: then no variable and no way is known.
    is_lost: bool,
}

impl<'a> Facts<'a> {
    /// Nothing yet.
    pub fn new(alloc: Global) -> Facts<'a> {
        Facts {
            everywhere: Table::new(alloc),
            here: Table::new(alloc),
            calls: Table::new(alloc),
            jumps: Table::new(alloc),
            strays: Table::new(alloc),
            has_grown: false,
            is_lost: false,
        }
    }

    /// Whether something new came since it was asked last. The text is read from its beginning again.
    pub fn take_growth(&mut self, alloc: Global) -> bool {
        let had = self.has_grown;
        self.has_grown = false;
        self.here = Table::new(alloc);
        had
    }

    /// Nothing is sure.
    pub fn give_up(&mut self) {
        self.is_lost = true;
    }

    /// Whether a variable is unknown.
    pub fn is_unknown(&self, name: &'a [u8]) -> bool {
        self.is_lost || self.here.get(name).unwrap_or(false) || self.everywhere.get(name).is_some()
    }

    /// Whether all variables are known.
    pub fn knows_all(&self) -> bool {
        !self.is_lost && self.here.len() == 0 && self.everywhere.len() == 0
    }

    /// A variable is unknown: from here on, or everywhere.
    pub fn lose(&mut self, name: &'a [u8], is_everywhere: bool) -> Result<(), NoMemory> {
        if name.is_empty() {
            return Ok(());
        }
        if !is_everywhere {
            return self.here.set(name, true);
        }
        if self.everywhere.get(name).is_none() {
            self.everywhere.set(name, true)?;
            self.has_grown = true;
        }
        Ok(())
    }

    /// A variable is given a value that is known, on all ways.
    pub fn gain(&mut self, name: &'a [u8]) -> Result<(), NoMemory> {
        if self.here.get(name).unwrap_or(false) {
            self.here.set(name, false)?;
        }
        Ok(())
    }

    /// Behind the calls of a macro the probe stands elsewhere than the machine's.
    pub fn stray(&mut self, name: &'a [u8]) -> Result<(), NoMemory> {
        self.strays.set(name, true)
    }

    /// Whether it does.
    pub fn strays(&self, name: &'a [u8]) -> bool {
        self.strays.get(name).is_some()
    }

    /// What is known where a macro is called.
    pub fn call(&self, name: &'a [u8]) -> Option<Arrival> {
        if self.is_lost {
            Some(LOST)
        } else {
            self.calls.get(name)
        }
    }

    /// A macro is called.
    pub fn add_call(&mut self, name: &'a [u8], way: Arrival) -> Result<(), NoMemory> {
        let had = self.calls.get(name);
        let next = had.map_or(way, |had| had.joined(way));
        if !had.is_some_and(|had| had.is(next)) {
            self.calls.set(name, next)?;
            self.has_grown = true;
        }
        Ok(())
    }

    /// A macro is called where that isn't tried.
    pub fn add_lost_call(&mut self, name: &'a [u8]) -> Result<(), NoMemory> {
        let way = match self.calls.get(name) {
            Some(way) => way,
            None => Arrival {
                is_known: true,
                is_manual: false,
                approach: None,
                has_points: true,
                is_lost: false,
            },
        };
        if !way.is_lost {
            self.calls.set(
                name,
                Arrival {
                    is_lost: true,
                    ..way
                },
            )?;
            self.has_grown = true;
        }
        Ok(())
    }

    /// What is known where a label is jumped to.
    pub fn jump(&self, name: &'a [u8]) -> Option<Arrival> {
        if self.is_lost {
            Some(LOST)
        } else {
            self.jumps.get(name)
        }
    }

    /// A label is jumped to.
    pub fn add_jump(&mut self, name: &'a [u8], way: Arrival) -> Result<(), NoMemory> {
        let had = self.jumps.get(name);
        let next = had.map_or(way, |had| had.joined(way));
        if !had.is_some_and(|had| had.is(next)) {
            self.jumps.set(name, next)?;
            self.has_grown = true;
        }
        Ok(())
    }
}
