//! Which statements an expanded program has.

ghost use Rattle.std.specs.Prelude.{◌≡◌};
ghost use Rattle.vcm_substitution.specs.Kept.{is_kept};

use vcm_forms::Form;

/// Whether a statement is one of the expanded program, and counts there: a step of the machine, or DECL.
pub(crate) fn is_kept(form: &Form) -> bool
    ensures { result ≡ is_kept form.now }
{
    match form {
        Form::Declaration(_, _) => true,
        _ => form.is_counted(),
    }
}
