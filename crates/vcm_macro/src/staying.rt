//! Arguments of a call, which often say in an expansion what they say as they are written.

ghost use Rattle.std.specs.Prelude.{◌≡◌, true, map};
ghost use Rattle.std.specs.List.{list_all};
ghost use Rattle.vcm_substitution.specs.Sizes.{are_small_arguments, is_small_option};
ghost use Rattle.vcm_substitution.specs.Substitution.{put_argument};
ghost use Rattle.vcm_macro.specs.inner.Staying.{is_here};

use vcm_expr::Piece;
use vcm_forms::Argument;
use vcm_substitution::Bindings;

/// The arguments of a call as they are written, or what is put in their place.
#[derive(Drop)]
pub(crate) enum Given<'a> {
    Written(&'a [Argument]),
    Put(Vec<Argument>),
}

impl<'a> Given<'a> {
    ghost use Rattle.vcm_macro.specs.inner.Staying.{given};

    /// The arguments.
    pub(crate) fn as_slice(&self) -> &[Argument]
        ensures { result.now ≡ given self.now }
    {
        match self {
            Given::Written(written) => written,
            Given::Put(arguments) => arguments.as_slice(),
        }
    }
}

// Whether a part is no variable of another expansion.
fn is_here(expansion: u32, piece: &Piece) -> bool
    ensures { result ≡ is_here expansion piece.now }
{
    match piece {
        Piece::Variable(_, of) => *of == expansion,
        _ => true,
    }
}

// Whether all parts are.
fn are_here(expansion: u32, pieces: &[Piece]) -> bool
    ensures { result ≡ list_all (λ p. is_here expansion p) pieces.now }
{
    pieces.iter().all(|piece| is_here(expansion, piece))
}

// Whether an argument says in the expansion what it says as it is written: nothing stands for anything, and its variables are the expansion's.
fn stays(bindings: &Bindings<'_>, argument: &Argument) -> bool
    ensures same { result ≡ true → put_argument bindings.now argument.now ≡ argument.now }
    ensures small { result ≡ true → is_small_option argument.now.value ≡ true }
{
    if !bindings.is_empty() {
        return false;
    }
    match &argument.value {
        None => true,
        Some(value) => are_here(bindings.expansion(), value.pieces()),
    }
}

/// Whether all arguments do.
pub(crate) fn all_stay(bindings: &Bindings<'_>, written: &[Argument]) -> bool
    ensures same { result ≡ true → map (put_argument bindings.now) written.now ≡ written.now }
    ensures small { result ≡ true → are_small_arguments written.now ≡ true }
{
    for argument in written {
        if !stays(bindings, argument) {
            return false;
        }
    }
    true
}
