//! Finds a statement by its source line, and variables and features by their names.

ghost use Rattle.std.specs.Prelude.{◌≡◌, ◌==◌, ◌<◌, ◌≤◌, length, position, IfSome};
ghost use Rattle.std.specs.List.{position_from};
ghost use Rattle.std.specs.Str.{bytes_eq};
ghost use Rattle.vcm_debug.specs.Session.{is_wanted, recorded};

use vcm_console::VariableRef;
use vcm_items::{Name, Tables, Variable};
use vcm_loader::Loaded;
use vcm_spec::Feature;

/// The lowest statement of a source line.
pub fn statement_on(loaded: &Loaded<'_>, line: u64) -> Option<u32>
    ensures { result ≡ position_from (λ s. s.line == line) 0 loaded.now.statements }
{
    let count = loaded.statement_count();
    for n in 0..count {
        if u64::from(loaded.line(n)) == line {
            return Some(n as u32);
        }
    }
    None
}

/// The feature that is recorded at an index.
pub fn recorded(features: &[Option<Feature>], index: u16) -> Option<Feature>
    ensures { result ≡ recorded features.now index }
{
    match features.get(index as usize) {
        Some(feature) => *feature,
        None => None,
    }
}

// Whether a variable has this name.
fn is_wanted(wanted: &VariableRef, variable: &Variable) -> bool
    ensures { result ≡ is_wanted wanted.now variable.now }
{
    variable.name().as_bytes() == wanted.name.as_bytes()
        && u64::from(variable.expansion()) == wanted.expansion
}

// The place of the first variable of this name.
fn place_of_variable(wanted: &VariableRef, variables: &[Variable]) -> Option<usize>
    ensures place { result ≡ position (is_wanted wanted.now) variables.now }
    ensures within { IfSome result (λ i. i < length variables.now) }
{
    variables.iter().position(|v| is_wanted(wanted, v))
}

/// The lowest variable of this name, of at most 4,096.
pub fn variable_of(tables: &Tables, wanted: &VariableRef) -> Option<u16>
    requires { length tables.now.variables ≤ 4096 }
    ensures place { result ≡ position (is_wanted wanted.now) tables.now.variables }
    ensures within { IfSome result (λ i. i < length tables.now.variables) }
{
    match place_of_variable(wanted, tables.variables()) {
        Some(index) => Some(index as u16),
        None => None,
    }
}

// Whether these are the same bytes.
fn is_named(name: &Name, other: &Name) -> bool
    ensures { result ≡ bytes_eq other.now name.now }
{
    other.as_bytes() == name.as_bytes()
}

// The place of the first of these names that is the wanted one.
fn place_of_name(name: &Name, names: &[Name]) -> Option<usize>
    ensures place { result ≡ position (λ x. bytes_eq x name.now) names.now }
    ensures within { IfSome result (λ i. i < length names.now) }
{
    names.iter().position(|x| is_named(name, x))
}

/// The lowest feature of this name, of at most 4,096.
pub fn feature_of(tables: &Tables, name: &Name) -> Option<u16>
    requires { length tables.now.features ≤ 4096 }
    ensures place { result ≡ position (λ x. bytes_eq x name.now) tables.now.features }
    ensures within { IfSome result (λ i. i < length tables.now.features) }
{
    match place_of_name(name, tables.features()) {
        Some(index) => Some(index as u16),
        None => None,
    }
}
