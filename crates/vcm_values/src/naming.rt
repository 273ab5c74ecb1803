//! The variable with a name.

ghost use Rattle.std.specs.Prelude.{◌≡◌, ◌++◌, codes, position, IfOk};
ghost use Rattle.vcm_console.specs.Parsing.{command_of};
ghost use Rattle.vcm_values.specs.Values.{is_wanted, place_of, place_named};

use std::alloc::Global;
use vcm_console::{Command, VariableRef, parse_command};
use vcm_items::{Tables, Variable};
use vcm_num::NoMemory;

// Whether a variable has this name, and belongs to this expansion.
fn is_wanted(wanted: &VariableRef, variable: &Variable) -> bool
    ensures { result ≡ is_wanted wanted.now variable.now }
{
    variable.name().as_bytes() == wanted.name.as_bytes()
        && u64::from(variable.expansion()) == wanted.expansion
}

// Where the first variable of this name stands.
fn position_of(wanted: &VariableRef, variables: &[Variable]) -> Option<usize>
    ensures { result ≡ position (is_wanted wanted.now) variables.now }
{
    variables
        .iter()
        .position(|variable| is_wanted(wanted, variable))
}

// The same as a number of 16 bits.
fn place_of(wanted: &VariableRef, tables: &Tables) -> Option<u16>
    ensures { result ≡ place_of wanted.now tables.now }
{
    match position_of(wanted, tables.variables()) {
        Some(index) if index < 65_536 => Some(index as u16),
        _ => None,
    }
}

/// Where the variable stands that the debugger would tell of behind `show` and this name: its name, in letters of either case, and behind a number sign
/// the number of its expansion. None where there is no such variable.
///
/// # Errors
///
/// Out of memory.
pub fn variable_named(alloc: Global, tables: &Tables, name: &[u8]) -> Result<Option<u16>, NoMemory>
    ensures { IfOk result (λ place. place ≡ place_named tables.now (command_of (codes "show " ++ name.now))) }
{
    let mut line = Vec::from_slice(alloc, b"show ")?;
    line.extend_from_slice(name)?;
    match parse_command(&line) {
        Ok(Command::Show(wanted)) => Ok(place_of(&wanted, tables)),
        _ => Ok(None),
    }
}
