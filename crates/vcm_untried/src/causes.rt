//! Why a motion isn't tried.

ghost use Rattle.std.specs.Prelude.{◌≡◌};
ghost use Rattle.vcm_untried.specs.Causes.{is_nought, epoch_in, is_lost, lacks_setting, cause_in, line_of, named, lost_at};

use crate::about::place_of;
use vcm_remarks::Cause;

/// How many causes have a line.
pub(crate) const CAUSES: usize = 7;

// The place of the cause that is all of them.
const ALL: usize = 6;

/// The line at which each cause came about last, at the place of the cause: 0 where there was none. That a value isn't known has no line, since nothing shows which value
/// it is.
pub type Losses = [u32; CAUSES];

/// The places of the variables that carry what is known of the machine.
pub(crate) const FRAME: usize = 0;

pub(crate) const MODE: usize = 2;

pub(crate) const TABLE: usize = 3;

const SCANNING: usize = 4;

const UNIT: usize = 5;

const APPROACH: usize = 7;

const SEARCH: usize = 8;

const RETRACT: usize = 9;

const EPOCH: usize = 11;

const OWN_POINTS: usize = 12;

const CLEARANCE: usize = 13;

const COMPENSATION: usize = 14;

const WANTED: usize = 22;

/// Whether a variable is 0.
pub(crate) fn is_nought(variables: &[i64], variable: usize) -> bool
    ensures { result ≡ is_nought variables.now variable }
{
    match variables.get(variable) {
        Some(value) => *value == 0,
        None => false,
    }
}

// The number of the epoch, 1 where no variable carries it.
fn epoch_in(variables: &[i64]) -> i64
    ensures { result ≡ epoch_in variables.now }
{
    match variables.get(EPOCH) {
        Some(value) => *value,
        None => 1,
    }
}

/// Whether what a variable carries isn't known.
pub(crate) fn is_lost(variables: &[i64], variable: usize) -> bool
    ensures { result ≡ is_lost variables.now variable }
{
    match variables.get(variable) {
        Some(value) => *value != epoch_in(variables),
        None => false,
    }
}

// Whether something of what points hang on isn't known.
fn lacks_setting(variables: &[i64]) -> bool
    ensures { result ≡ lacks_setting variables.now }
{
    is_lost(variables, APPROACH)
        || is_lost(variables, SEARCH)
        || is_lost(variables, RETRACT)
        || is_lost(variables, CLEARANCE)
        || is_lost(variables, COMPENSATION)
}

/// Why a motion isn't tried where the variables have these values.
pub(crate) fn cause_in(variables: &[i64]) -> Cause
    ensures { result ≡ cause_in variables.now }
{
    if is_lost(variables, TABLE) {
        Cause::Table
    } else if is_lost(variables, MODE) {
        Cause::Mode
    } else if is_lost(variables, UNIT) {
        Cause::Unit
    } else if is_nought(variables, FRAME) {
        Cause::Frame
    } else if is_nought(variables, WANTED) {
        Cause::Value
    } else if is_lost(variables, SCANNING) {
        Cause::Scanning
    } else if is_lost(variables, OWN_POINTS) {
        Cause::Mode
    } else if lacks_setting(variables) {
        Cause::Setting
    } else {
        Cause::Value
    }
}

/// The line at which a cause came about last.
pub(crate) fn line_of(lost: &Losses, cause: Cause) -> u32
    ensures { result ≡ line_of lost.now cause }
{
    match lost.get(place_of(cause)) {
        Some(line) => *line,
        None => 0,
    }
}

/// A cause, or else that anything may have changed, where the cause came about at the line at which all did last.
pub(crate) fn named(lost: &Losses, cause: Cause) -> Cause
    ensures { result ≡ named lost.now cause }
{
    let line = line_of(lost, cause);
    if line != 0 && line == line_of(lost, Cause::All) {
        Cause::All
    } else {
        cause
    }
}

/// A cause comes about at a line, or all do.
pub(crate) fn lose(lost: &mut Losses, cause: Cause, line: u32)
    ensures { lost.new ≡ lost_at lost.old cause line }
{
    let place = place_of(cause);
    if place < ALL {
        lost[place] = line;
    } else if place == ALL {
        *lost = [line; CAUSES];
    }
}
