//! Questions of the marks of a way.

ghost use Rattle.std.specs.Prelude.{◌≡◌, ◌≤◌};
ghost use Rattle.vcm_marks.specs.Pieces.{counted, is_piece};
ghost use Rattle.std.specs.List.{list_any};
ghost use Rattle.vcm_picture.specs.Marks.{are_few, begin_elsewhere, contact_of};

use vcm_marks::{Contact, Mark, PlacedMark};

/// The most pieces of a picture with arrows.
const FEW_PIECES: u64 = 500;

// How many pieces a mark is.
fn pieces_in(mark: &Mark) -> u64
    ensures pieces { result ≡ counted (is_piece mark.now) 0 }
    ensures few { result ≤ 1 }
{
    match mark {
        Mark::Goes(_) => 1,
        Mark::Touches(_) => 0,
        Mark::Meets(_) => 0,
    }
}

/// Whether pieces are few enough for arrows.
#[tactic(auto, using(crate::proofs::Counting::counted_more))]
pub fn are_few(marks: &[PlacedMark]) -> bool
    ensures { result ≡ are_few marks.now }
{
    let mut count = 0;
    for placed in marks {
        count += pieces_in(&placed.mark);
    }
    count <= FEW_PIECES
}

/// Whether some piece begins elsewhere.
pub fn begin_elsewhere(marks: &[PlacedMark]) -> bool
    ensures { result ≡ begin_elsewhere marks.now }
{
    marks.iter().any(|placed| placed.is_elsewhere)
}

/// The contact of a way, if there is one.
pub fn contact_of(marks: &[PlacedMark]) -> Option<Contact>
    ensures { result ≡ contact_of marks.now }
{
    for placed in marks {
        if let Mark::Meets(contact) = placed.mark {
            return Some(contact);
        }
    }
    None
}
