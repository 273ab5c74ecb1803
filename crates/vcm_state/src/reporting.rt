//! What programs tell of features: OBTAIN and OUTPUT.

ghost use Rattle.std.specs.Prelude.{◌≡◌, ◌<◌, length, slice_get, unwrap_or, [], Some};
ghost use Rattle.vcm_num.specs.declared.number.Kind.TheVariants.{Real};
ghost use Rattle.vcm_spec.specs.Workpiece.{Workpiece};
ghost use Rattle.vcm_spec.specs.Outcome.{Answers};
ghost use Rattle.vcm_spec.specs.declared.simple.Simple.TheVariants.{Obtain, Output};
ghost use Rattle.vcm_spec.specs.Effect.{feature_in};
ghost use Rattle.vcm_spec.specs.Fitting.{kinds};
ghost use Rattle.vcm_state.specs.Carried.{Carries, CarriesOrHalts};

use crate::indexed::kept;
use crate::printed::{feature_line, word_of};
use crate::stop::Halt;
use crate::world::World;
use std::alloc::Global;
use vcm_items::Name;
use vcm_num::MOST_LINES;
use vcm_spec::{Feature, FeatureWord, Missing, Source, Stop};

impl World {
    /// A `Real` variable, given by its index, gets a word of a feature: a coordinate, in micrometres of part coordinates, or a component of its
    /// direction, in thousandths.
    ///
    /// Errors: `Undefined` where the feature isn't declared, or isn't measured. The state is then as it was.
    pub fn obtain(
        &mut self,
        variable: u16,
        source: Source,
        feature: u16,
        word: FeatureWord,
    ) -> Result<(), Stop>
        requires variable { slice_get (kinds self.old.tables) variable ≡ Some Real }
        requires feature { feature < length self.old.tables.features }
        ensures { (part : Workpiece) → Carries part (Obtain variable source feature word) self.old self.new result }
    {
        let found = self.feature_in(source, feature)?;
        let value = word_of(found, word);
        self.variables.set(usize::from(variable), value);
        Ok(())
    }

    /// One more output line, which tells a feature.
    ///
    /// Errors: the stop `Undefined` where the feature isn't declared, or isn't measured; the stop `OutputFull` where there are 100,000 lines; or
    /// want of memory. The state is then as it was.
    pub fn output(&mut self, alloc: Global, source: Source, feature: u16) -> Result<(), Halt>
        requires { feature < length self.old.tables.features }
        ensures { (part : Workpiece) → CarriesOrHalts part (Output source feature) self.old self.new result }
    {
        let found = match self.feature_in(source, feature) {
            Ok(found) => found,
            Err(why) => return Err(Halt::Stop(why)),
        };
        if self.lines.len() >= MOST_LINES {
            return Err(Halt::Stop(Stop::OutputFull));
        }
        let name = name_at(self.tables.features(), feature);
        let line = feature_line(alloc, source, name.as_bytes(), found)?;
        self.lines.push(line.as_slice())?;
        Ok(())
    }

    // A feature as it was declared or as it was measured.
    fn feature_in(&self, source: Source, feature: u16) -> Result<Feature, Stop>
        ensures { Answers (feature_in self.now.state source feature) result }
    {
        match source {
            Source::Nominal => match kept(&self.nominal, feature) {
                Some(declared) => Ok(declared),
                None => Err(Stop::Undefined(Missing::Nominal(feature))),
            },
            Source::Actual => match kept(&self.actual, feature) {
                Some(measured) => Ok(measured),
                None => Err(Stop::Undefined(Missing::Actual(feature))),
            },
        }
    }
}

// The name at an index.
fn name_at(names: &[Name], at: u16) -> &Name
    requires { at < length names.now }
    ensures { result.now ≡ unwrap_or (slice_get names.now at) [] }
{
    &names[usize::from(at)]
}
