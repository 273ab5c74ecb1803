//! Copies of states.

ghost use Rattle.std.specs.Prelude.{◌≡◌, IfOk};

use crate::world::World;
use std::alloc::Global;
use vcm_num::{Items, NoMemory};

impl World {
    /// A copy of the state, which shares its tables.
    ///
    /// Errors: want of memory.
    pub fn copy(&self, alloc: Global) -> Result<World, NoMemory>
        ensures { IfOk result (λ w. w ≡ self.now) }
    {
        let variables = Items::from_slice(alloc, self.variables.as_slice())?;
        let saved = Items::from_slice(alloc, self.saved.as_slice())?;
        let nominal = Items::from_slice(alloc, self.nominal.as_slice())?;
        let actual = Items::from_slice(alloc, self.actual.as_slice())?;
        let lines = self.lines.copy(alloc)?;
        let tables = self.tables.clone()?;
        Ok(World {
            tables,
            position: self.position,
            frame: self.frame,
            settings: self.settings,
            variables,
            saved,
            nominal,
            actual,
            lines,
            stop: self.stop,
        })
    }
}
