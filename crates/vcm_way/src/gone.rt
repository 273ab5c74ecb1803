//! The ways of a step, read off its marks.

ghost use Rattle.std.specs.Prelude.{◌≡◌, ◌≤◌, IsTrue};
ghost use Rattle.vcm_num.specs.Point.{is_near};
ghost use Rattle.vcm_spec.specs.FirstContact.{fraction};
ghost use Rattle.vcm_way.specs.Gone.{whole, contact_fraction, up_to, contact_behind, way_of, is_rest, first_way};
ghost use Rattle.vcm_way.specs.Seen.{IsSame, IsSameWay, IsSameIfAny, IsNearWay, IsNearIfAny, seen};

use vcm_carried::{Fraction, Way, tip_entry};
use vcm_marks::{Contact, Going, Leg, Mark};
use vcm_num::Point;
use vcm_part::PartData;

/// A way of the tip's centre, and how it was gone.
#[derive(Clone, Copy)]
pub struct Gone {
    pub going: Going,
    pub way: Way,
}

// A way that was gone whole.
fn whole(going: Going, from: Point, to: Point) -> Gone
    requires from { IsTrue (is_near from) }
    requires to { IsTrue (is_near to) }
    ensures { IsSameWay (seen result) (whole going from to) }
{
    let gone = Fraction::whole();
    let way = Way { from, to, gone };
    Gone { going, way }
}

// The fraction of a way at which the tip meets the block with this number; its start, where it does not.
fn contact_fraction(part: &PartData, block: u32, from: Point, to: Point) -> Fraction
    requires from { IsTrue (is_near from) }
    requires to { IsTrue (is_near to) }
    ensures same { IsSame (fraction result.num result.den) (contact_fraction part.now block from to) }
    ensures within { result.num ≤ result.den }
{
    let tip = part.bounds().tip;
    match part.blocks().get(block.saturating_sub(1) as usize) {
        Some(block) => match tip_entry(block, tip, from, to) {
            Some(at) => at,
            None => Fraction::start(),
        },
        None => Fraction::start(),
    }
}

// A way that was gone up to the contact with the block with this number.
fn up_to(part: &PartData, going: Going, from: Point, to: Point, block: u32) -> Gone
    requires from { IsTrue (is_near from) }
    requires to { IsTrue (is_near to) }
    ensures { IsSameWay (seen result) (up_to part.now going from to block) }
{
    let gone = contact_fraction(part, block, from, to);
    let way = Way { from, to, gone };
    Gone { going, way }
}

// The contact in which a piece ends, by the marks behind it.
fn contact_behind(marks: &[Mark]) -> Option<Contact>
    ensures { result ≡ contact_behind marks.now }
{
    match marks {
        [Mark::Goes(_), Mark::Meets(contact), ..] => Some(*contact),
        _ => None,
    }
}

// The way of a piece that was gone.
fn way_of(part: &PartData, piece: &Leg, contact: Option<Contact>) -> Gone
    requires { IsNearWay (way_of part.now piece.now contact) }
    ensures { IsSameWay (seen result) (way_of part.now piece.now contact) }
{
    match contact {
        None => whole(piece.going, piece.from, piece.to),
        Some(contact) => up_to(part, piece.going, piece.from, contact.aim, contact.block),
    }
}

// Whether a piece that is gone so is not gone.
fn is_rest(going: Going) -> bool
    ensures { result ≡ is_rest going }
{
    match going {
        Going::Rest => true,
        Going::Move => false,
        Going::Approach => false,
        Going::Search => false,
        Going::Retract => false,
    }
}

/// The way of the first of these marks, if that is a piece that was gone. The fraction of it that was gone is exact.
pub fn first_way(part: &PartData, marks: &[Mark]) -> Option<Gone>
    requires { IsNearIfAny (first_way part.now marks.now) }
    ensures { IsSameIfAny result (first_way part.now marks.now) }
{
    match marks {
        [Mark::Goes(piece), behind @ ..] => {
            if is_rest(piece.going) {
                None
            } else {
                Some(way_of(part, piece, contact_behind(behind)))
            }
        }
        _ => None,
    }
}
