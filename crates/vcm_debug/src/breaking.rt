//! Breakpoints of whole source lines.

ghost use Rattle.std.specs.Prelude.{◌≡◌, length};
ghost use Rattle.vcm_debug.specs.Session.{flagged};

use vcm_loader::Loaded;

/// Gives the statements of a source line this flag.
pub(crate) fn flag_line(loaded: &Loaded<'_>, line: u64, is_set: bool, breakpoints: &mut [bool])
    requires { length breakpoints.old ≡ length loaded.now.statements }
    ensures flags { breakpoints.new ≡ flagged line is_set loaded.now.statements breakpoints.old }
    ensures count { length breakpoints.new ≡ length breakpoints.old }
{
    let count = loaded.statement_count();
    for n in 0..count {
        if u64::from(loaded.line(n)) == line {
            breakpoints[n] = is_set;
        }
    }
}
