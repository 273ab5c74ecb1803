//! Values that names stand for.

use indexmap::IndexMap;
use std::alloc::Global;
use vcm_num::NoMemory;

/// Values by their names.
#[derive(Drop)]
pub struct Table<'a, V: Copy + Drop> {
    map: IndexMap<&'a [u8], V>,
}

impl<'a, V: Copy + Drop> Table<'a, V> {
    /// No names.
    pub fn new(alloc: Global) -> Table<'a, V> {
        Table {
            map: IndexMap::new(alloc),
        }
    }

    /// What a name stands for.
    pub fn get(&self, name: &'a [u8]) -> Option<V> {
        self.map.get(&name).copied()
    }

    /// Lets a name stand for a value.
    pub fn set(&mut self, name: &'a [u8], value: V) -> Result<(), NoMemory> {
        self.map.insert(name, value)?;
        Ok(())
    }

    /// How many names there are.
    pub fn len(&self) -> usize {
        self.map.len()
    }

    /// The name at an index, and its value.
    pub fn at(&self, index: usize) -> Option<(&'a [u8], V)> {
        let (name, value) = self.map.get_index(index)?;
        Some((*name, *value))
    }
}
