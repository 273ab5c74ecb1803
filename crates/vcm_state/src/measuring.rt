//! What statements do to the settings of the probe and to features: SNSET, FEAT and PTMEAS.

ghost use Rattle.std.specs.Prelude.{◌≡◌, ◌<◌, length, slice_set, Some};
ghost use Rattle.vcm_spec.specs.Workpiece.{Workpiece};
ghost use Rattle.vcm_spec.specs.Outcome.{Answers};
ghost use Rattle.vcm_spec.specs.declared.simple.Simple.TheVariants.{Feat, PtMeas, SnSet};
ghost use Rattle.vcm_spec.specs.Effect.{measured_direction};
ghost use Rattle.vcm_state.specs.Carried.{Carries};

use crate::indexed::kept;
use crate::world::World;
use vcm_motion::Part;
use vcm_num::{Axis, Point};
use vcm_probe::touch;
use vcm_spec::{Feature, Missing, Setting, Stop};

impl World {
    /// A setting of the probe gets a length, in micrometres.
    ///
    /// Errors: `BadSetting` where the setting may not have that length. The state is then as it was.
    pub fn snset(&mut self, which: Setting, length: i64) -> Result<(), Stop>
        ensures { (part : Workpiece) → Carries part (SnSet which length) self.old self.new result }
    {
        match self.settings.with(which, length) {
            Some(settings) => {
                self.settings = settings;
                Ok(())
            }
            None => Err(Stop::BadSetting),
        }
    }

    /// A feature, given by its index, is declared at a point, in micrometres of part coordinates, with the direction out of the material there.
    /// What was measured of it stays. It always answers `Ok`.
    pub fn feat(&mut self, feature: u16, x: i64, y: i64, z: i64, toward: Axis) -> Result<(), Stop>
        requires { feature < length self.old.tables.features }
        ensures { (part : Workpiece) → Carries part (Feat feature x y z toward) self.old self.new result }
    {
        let at = Point::new(x, y, z);
        self.nominal
            .set(usize::from(feature), Some(Feature { at, toward }));
        Ok(())
    }

    /// A touch of the workpiece at a nominal point, in micrometres of part coordinates, from the side that a direction points to: the given one,
    /// or the declared feature's. The feature, given by its index, is then measured, and the probe stands at the retract point.
    ///
    /// Errors: `Undefined` where no direction is given and the feature isn't declared; `Overflow` where a machine coordinate of the nominal point
    /// has no 64 bits; those of the touch; `Overflow` where a part coordinate of the touched point has no 64 bits. The state is then as it was.
    pub fn ptmeas<P: Part>(
        &mut self,
        part: &P,
        feature: u16,
        x: i64,
        y: i64,
        z: i64,
        toward: Option<Axis>,
    ) -> Result<(), Stop>
        requires { feature < length self.old.tables.features }
        ensures { Carries (P.part part.now) (PtMeas feature x y z toward) self.old self.new result }
    {
        let direction = self.measured_direction(feature, toward)?;
        let nominal = self.frame.apply(Point::new(x, y, z))?;
        let touched = touch(
            part,
            self.position,
            nominal,
            self.frame.direction(direction),
            self.settings,
        )?;
        let at = self.frame.invert(touched.at)?;
        self.actual.set(
            usize::from(feature),
            Some(Feature {
                at,
                toward: direction,
            }),
        );
        self.position = touched.retract;
        Ok(())
    }

    /// A feature, given by its index, is measured: it is then at a point, in micrometres of part coordinates, with a direction. All else stays.
    pub fn set_actual(&mut self, feature: u16, measured: Feature)
        requires { feature < length self.old.tables.features }
        ensures { self.new ≡ record { tables = self.old.tables; state = record (self.old.state) { actual = slice_set self.old.state.actual feature (Some measured) } } }
    {
        self.actual.set(usize::from(feature), Some(measured));
    }

    // The direction of a measurement: the given one, or the declared feature's.
    fn measured_direction(&self, feature: u16, toward: Option<Axis>) -> Result<Axis, Stop>
        ensures { Answers (measured_direction self.now.state feature toward) result }
    {
        match toward {
            Some(direction) => Ok(direction),
            None => match kept(&self.nominal, feature) {
                Some(declared) => Ok(declared.toward),
                None => Err(Stop::Undefined(Missing::Nominal(feature))),
            },
        }
    }
}
