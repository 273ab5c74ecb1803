//! The names that statements leave behind them.

use crate::about::{About, Near, Sort};
use crate::near::nearest;
use std::alloc::Global;
use vcm_items::Name;
use vcm_num::{Kind, NoMemory};

/// A name: what it names, in which expansion and line it is declared, its kind where it is a variable, and the block that it stands in where it is a label, by
/// its number and the line of its opener.
#[derive(Drop)]
pub(crate) struct Named {
    pub(crate) sort: Sort,
    pub(crate) name: Name,
    pub(crate) expansion: u32,
    pub(crate) line: u32,
    pub(crate) kind: Kind,
    pub(crate) block: u32,
    pub(crate) opener: u32,
}

/// Names in writing.
#[derive(Drop)]
pub(crate) struct Names {
    items: Vec<Named>,
}

impl Names {
    /// None.
    pub(crate) fn new(alloc: Global) -> Names {
        Names {
            items: Vec::new(alloc),
        }
    }

    /// One more.
    pub(crate) fn add(&mut self, named: Named) -> Result<(), NoMemory> {
        self.items.push(named)?;
        Ok(())
    }

    /// The first one of this sort, name and expansion.
    pub(crate) fn find(&self, sort: Sort, name: &Name, expansion: u32) -> Option<&Named> {
        for named in &self.items {
            if named.sort == sort && named.expansion == expansion && named.name == *name {
                return Some(named);
            }
        }
        None
    }

    /// The variable of this name: that of the expansion, or else the one outside macros.
    pub(crate) fn variable(&self, name: &Name, expansion: u32) -> Option<Kind> {
        if let Some(named) = self.find(Sort::Variable, name, expansion) {
            return Some(named.kind);
        }
        match self.find(Sort::Variable, name, 0) {
            Some(named) => Some(named.kind),
            None => None,
        }
    }

    /// Whether a feature, or a frame, of this name stands above.
    pub(crate) fn knows(&self, sort: Sort, name: &Name) -> bool {
        for named in &self.items {
            if named.sort == sort && named.name == *name {
                return true;
            }
        }
        false
    }

    /// A name that is missing, with one that is near.
    pub(crate) fn missing(
        &self,
        alloc: Global,
        sort: Sort,
        name: &Name,
        expansion: u32,
    ) -> Result<About, NoMemory> {
        let place = nearest(alloc, self.items.as_slice(), sort, expansion, name)?;
        let near = near_at(self.items.as_slice(), place);
        Ok(About::Missing(sort, name.copy(), near))
    }
}

// The name at a place, and its line.
fn near_at(items: &[Named], place: Option<usize>) -> Option<Near> {
    let named = items.get(place?)?;
    Some(Near {
        name: named.name.copy(),
        line: named.line,
    })
}
