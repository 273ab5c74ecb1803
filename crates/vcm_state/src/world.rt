//! The state of the machine.

ghost use Rattle.std.specs.Prelude.{◌≡◌, IsTrue, OnOk};
ghost use Rattle.vcm_num.specs.Point.{coordinate, is_near};
ghost use Rattle.vcm_spec.specs.declared.words.MovePhase.TheVariants.{Move};
ghost use Rattle.vcm_spec.specs.FirstTouch.{free_move};
ghost use Rattle.vcm_spec.specs.Outcome.{Answers};

use crate::indexed::{nones, zeros};
use crate::stop::Halt;
use std::alloc::Global;
use std::marker::Model;
use std::rc::Rc;
use vcm_frame::Frame;
use vcm_items::Tables;
use vcm_motion::{Part, contact_of};
use vcm_num::{Items, MOST_LINES, NoMemory, Point};
use vcm_part::is_within;
use vcm_probe::Settings;
use vcm_report::Lines;
use vcm_spec::{Feature, MovePhase, Stop, StopPlace};

/// The state of the machine: where the probe is, in micrometres of machine coordinates, the current frame, the settings of the probe, the values
/// of the variables, the saved frames, the features as they were declared and as they were measured, the output lines, and the stop if there is
/// one; and the tables of names that it goes by.
#[derive(Drop)]
pub struct World {
    pub(crate) tables: Rc<Tables>,
    pub(crate) position: Point,
    pub(crate) frame: Frame,
    pub(crate) settings: Settings,
    pub(crate) variables: Items<i64>,
    pub(crate) saved: Items<Option<Frame>>,
    pub(crate) nominal: Items<Option<Feature>>,
    pub(crate) actual: Items<Option<Feature>>,
    pub(crate) lines: Lines,
    pub(crate) stop: Option<StopPlace>,
}

impl Model for World {
    ghost use Rattle.std.specs.Prelude.{◌≡◌, length, IsTrue};
    ghost use Rattle.vcm_num.specs.Point.{is_near};
    ghost use Rattle.vcm_items.specs.Slots.{SlotsFit};
    ghost use Rattle.vcm_spec.specs.Fitting.{kinds};
    ghost use Rattle.vcm_state.specs.Held.{Held};

    ghost Value = { Held };

    ghost view = { λ w. record {
      tables = w.tables.value;
      state = record {
        position = w.position;
        frame = w.frame;
        settings = w.settings;
        variables = w.variables;
        saved = w.saved;
        nominal = w.nominal;
        actual = w.actual;
        lines = w.lines;
        stop = w.stop;
      };
    } };

    ghost invariant = { λ w. IsTrue (is_near w.position) × SlotsFit (kinds w.tables.value) w.variables × (length w.saved ≡ length w.tables.value.frames)
        × (length w.nominal ≡ length w.tables.value.features) × (length w.actual ≡ length w.tables.value.features) };
}

impl World {
    ghost use Rattle.std.specs.Prelude.{◌≡◌, IsTrue, IfOk};
    ghost use Rattle.vcm_num.specs.Point.{is_near};
    ghost use Rattle.vcm_spec.specs.Workpiece.{Workpiece};
    ghost use Rattle.vcm_spec.specs.World.{opening_world, stopped};
    ghost use Rattle.vcm_spec.specs.declared.simple.Simple.TheVariants.{Goto, GoHome, Assign, Text};
    ghost use Rattle.vcm_items.specs.Slots.{SlotsFit};
    ghost use Rattle.vcm_spec.specs.Fitting.{kinds};
    ghost use Rattle.vcm_state.specs.Held.{MayHave};
    ghost use Rattle.vcm_state.specs.Carried.{setup_of, Carries, CarriesOrHalts};

    /// The state at the start: at home, part coordinates are the machine's, every variable is 0 or .FALSE., and nothing is saved, declared,
    /// measured or printed.
    ///
    /// Errors: want of memory.
    pub fn opening(alloc: Global, tables: Tables, home: Point) -> Result<World, NoMemory>
        requires { IsTrue (is_near home) }
        ensures tables { IfOk result (λ w. w.tables ≡ tables) }
        ensures state { IfOk result (λ w. (part : Workpiece) → part.bounds.home ≡ home → w.state ≡ opening_world (setup_of part tables)) }
    {
        let variables = zeros(alloc, tables.variables().len())?;
        let saved = nones(alloc, tables.frames().len())?;
        let nominal = nones(alloc, tables.features().len())?;
        let actual = nones(alloc, tables.features().len())?;
        let tables = Rc::new(alloc, tables)?;
        Ok(World {
            tables,
            position: home,
            frame: Frame::opening(),
            settings: Settings::opening(),
            variables,
            saved,
            nominal,
            actual,
            lines: Lines::new(alloc),
            stop: None,
        })
    }

    /// The tables of names.
    pub fn tables(&self) -> &Tables
        ensures { result.now ≡ self.now.tables }
    {
        self.tables.as_ref()
    }

    /// Where the probe is, in micrometres of machine coordinates.
    pub fn position(&self) -> Point
        ensures { result ≡ self.now.state.position }
    {
        self.position
    }

    /// The same, with what is known of it: it is at most 1,000,000,000 micrometres from 0 on each axis.
    pub fn near_position(&self) -> Point
        ensures is { result ≡ self.now.state.position }
        ensures near { IsTrue (is_near self.now.state.position) }
    {
        self.position
    }

    /// The current frame: what part coordinates are in the machine's.
    pub fn frame(&self) -> Frame
        ensures { result ≡ self.now.state.frame }
    {
        self.frame
    }

    /// The settings of the probe, in micrometres.
    pub fn settings(&self) -> Settings
        ensures { result ≡ self.now.state.settings }
    {
        self.settings
    }

    /// The values of the variables: a `Real` as a number of thousandths, a truth value as 0 or 1.
    pub fn variables(&self) -> &[i64]
        ensures values { result.now ≡ self.now.state.variables }
        ensures fit { SlotsFit (kinds self.now.tables) self.now.state.variables }
    {
        self.variables.as_slice()
    }

    /// The saved frames, each at its index, where one is saved.
    pub fn saved(&self) -> &[Option<Frame>]
        ensures { result.now ≡ self.now.state.saved }
    {
        self.saved.as_slice()
    }

    /// The features as they were declared, each at its index, in micrometres of part coordinates.
    pub fn nominal(&self) -> &[Option<Feature>]
        ensures { result.now ≡ self.now.state.nominal }
    {
        self.nominal.as_slice()
    }

    /// The features as they were measured, each at its index, in micrometres of part coordinates.
    pub fn actual(&self) -> &[Option<Feature>]
        ensures { result.now ≡ self.now.state.actual }
    {
        self.actual.as_slice()
    }

    /// The output lines.
    pub fn lines(&self) -> &Lines
        ensures { result.now ≡ self.now.state.lines }
    {
        &self.lines
    }

    /// The stop and its place, if the run has stopped.
    pub fn stop(&self) -> Option<StopPlace>
        ensures { result ≡ self.now.state.stop }
    {
        self.stop
    }

    /// A move to a point, in micrometres of part coordinates.
    ///
    /// Errors: `Overflow` where a machine coordinate of the point has no 64 bits, `Travel` where the point lies outside the limits, `Collision`
    /// where the straight move meets a block. The state is then as it was.
    pub fn goto<P: Part>(&mut self, part: &P, x: i64, y: i64, z: i64) -> Result<(), Stop>
        ensures { Carries (P.part part.now) (Goto x y z) self.old self.new result }
    {
        let target = self.frame.apply(Point::new(x, y, z))?;
        free_move(part, self.position, target)?;
        self.position = target;
        Ok(())
    }

    /// A move to the machine's home.
    ///
    /// Errors: `Collision` where the straight move meets a block. The state is then as it was.
    pub fn go_home<P: Part>(&mut self, part: &P) -> Result<(), Stop>
        ensures { Carries (P.part part.now) GoHome self.old self.new result }
    {
        let home = part.bounds().home;
        free_move(part, self.position, home)?;
        self.position = home;
        Ok(())
    }

    /// A variable, given by its index, gets a value: a number of thousandths if it is a `Real`, 0 or 1 if it is a truth value. It always answers
    /// `Ok`.
    pub fn assign(&mut self, variable: u16, value: i64) -> Result<(), Stop>
        requires { MayHave (kinds self.old.tables) variable value }
        ensures { (part : Workpiece) → Carries part (Assign variable value) self.old self.new result }
    {
        self.variables.set(usize::from(variable), value);
        Ok(())
    }

    /// One more output line.
    ///
    /// Errors: the stop `OutputFull` where there are 100,000 lines, or want of memory. The state is then as it was.
    pub fn text(&mut self, bytes: &[u8]) -> Result<(), Halt>
        ensures { (part : Workpiece) → CarriesOrHalts part (Text bytes.now) self.old self.new result }
    {
        if self.lines.len() >= MOST_LINES {
            return Err(Halt::Stop(Stop::OutputFull));
        }
        self.lines.push(bytes)?;
        Ok(())
    }

    /// The probe is put at a point, in micrometres of machine coordinates, without a move; all else stays.
    pub fn put(&mut self, at: Point)
        requires { IsTrue (is_near at) }
        ensures { self.new ≡ record { tables = self.old.tables; state = record (self.old.state) { position = at } } }
    {
        self.position = at;
    }

    /// The run stops at a statement, given by its number and source line; all else stays.
    pub fn set_stop(&mut self, stop: Stop, number: u32, line: u32)
        ensures { self.new ≡ record { tables = self.old.tables; state = stopped self.old.state stop number line } }
    {
        self.stop = Some(StopPlace { stop, number, line });
    }
}

// A straight move within the limits, without contact on the way.
fn free_move<P: Part>(part: &P, from: Point, to: Point) -> Result<(), Stop>
    requires { IsTrue (is_near from) }
    ensures answer { Answers (free_move Move (P.part part.now) (coordinate from) (coordinate to)) result }
    ensures near { OnOk result (IsTrue (is_near to)) }
{
    if !is_within(&part.bounds(), to) {
        return Err(Stop::Travel(MovePhase::Move));
    }
    match contact_of(part, from, to) {
        Some(hit) => Err(Stop::Collision(MovePhase::Move, hit)),
        None => Ok(()),
    }
}
