//! What statements do to the frames: TRANS, ROTATE and RECALL.

ghost use Rattle.std.specs.Prelude.{◌<◌, length};
ghost use Rattle.vcm_spec.specs.Workpiece.{Workpiece};
ghost use Rattle.vcm_spec.specs.declared.simple.Simple.TheVariants.{Trans, Rotate, Recall};
ghost use Rattle.vcm_state.specs.Carried.{Carries};

use crate::indexed::kept;
use crate::world::World;
use vcm_num::Point;
use vcm_spec::{FrameAxis, Missing, Quarters, Stop};

impl World {
    /// The current frame with its origin at a point, in micrometres of its own coordinates, becomes the current one, and is saved at an index.
    ///
    /// Errors: `Overflow` where a machine coordinate of that point has no 64 bits. The state is then as it was.
    pub fn trans(&mut self, frame: u16, x: i64, y: i64, z: i64) -> Result<(), Stop>
        requires { frame < length self.old.tables.frames }
        ensures { (part : Workpiece) → Carries part (Trans frame x y z) self.old self.new result }
    {
        let shifted = self.frame.shifted(Point::new(x, y, z))?;
        self.saved.set(usize::from(frame), Some(shifted));
        self.frame = shifted;
        Ok(())
    }

    /// The current frame, turned by quarter turns about one of its own axes, becomes the current one, and is saved at an index. It always answers
    /// `Ok`.
    pub fn rotate(&mut self, frame: u16, axis: FrameAxis, quarters: Quarters) -> Result<(), Stop>
        requires { frame < length self.old.tables.frames }
        ensures { (part : Workpiece) → Carries part (Rotate frame axis quarters) self.old self.new result }
    {
        let turned = self.frame.turned(axis, quarters);
        self.saved.set(usize::from(frame), Some(turned));
        self.frame = turned;
        Ok(())
    }

    /// The frame that is saved at an index becomes the current one.
    ///
    /// Errors: `Undefined` where none is saved. The state is then as it was.
    pub fn recall(&mut self, frame: u16) -> Result<(), Stop>
        requires { frame < length self.old.tables.frames }
        ensures { (part : Workpiece) → Carries part (Recall frame) self.old self.new result }
    {
        match kept(&self.saved, frame) {
            Some(found) => {
                self.frame = found;
                Ok(())
            }
            None => Err(Stop::Undefined(Missing::Frame(frame))),
        }
    }
}
