//! Which variable chooses a probe in a program that a text is put as.

ghost use Rattle.std.specs.Prelude.{◌≡◌, position};
ghost use Rattle.vcm_set_clearance.specs.Chooser.{is_named, whole_chooser};

use vcm_items::Variable;
use vcm_num::is;
use vcm_turning::chooser;

// Whether a variable has this name and belongs to this expansion.
fn is_named(name: &[u8], expansion: u32, variable: &Variable) -> bool
    ensures { result ≡ is_named name.now expansion variable.now }
{
    variable.expansion() == expansion && is(variable.name().as_bytes(), name)
}

// The place of the first variable with this name and of this expansion.
fn named_place(name: &[u8], expansion: u32, variables: &[Variable]) -> Option<usize>
    ensures { result ≡ position (is_named name.now expansion) variables.now }
{
    variables
        .iter()
        .position(|variable| is_named(name, expansion, variable))
}

/// The place of the variable that chooses a probe: the text's own of the first name, as of `chooser`, or else the one with the second name and this expansion.
pub fn whole_chooser(
    own: &[u8],
    other: &[u8],
    expansion: u32,
    variables: &[Variable],
) -> Option<usize>
    ensures { result ≡ whole_chooser own.now other.now expansion variables.now }
{
    match chooser(own, variables) {
        Some(place) => Some(place),
        None => named_place(other, expansion, variables),
    }
}
