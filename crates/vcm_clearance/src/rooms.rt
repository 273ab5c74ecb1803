//! What one way tells of a body.

ghost use Rattle.std.specs.Prelude.{◌≡◌, ◌+◌, ◌≤◌, ◌<◌, true, List, ◌∷◌, [], ◌++◌, map, Option};
ghost use Rattle.std.specs.List.{AllByRecursion};
ghost use Rattle.vcm_spec.specs.Workpiece.{grown};
ghost use Rattle.vcm_carried.specs.Carried.{IsBox};
ghost use Rattle.vcm_way.specs.Gone.{Gone as Went, PlacedWay};
ghost use Rattle.vcm_way.specs.Seen.{IsSameWay, seen};
ghost use Rattle.vcm_clearance.specs.declared.told.Told.{Told as TheTold};
ghost use Rattle.vcm_clearance.specs.declared.room.Room.TheVariants.{Clear};
ghost use Rattle.vcm_clearance.specs.Contacts.{contact_on, told_on, told_at, IsPlaced};
ghost use Rattle.vcm_clearance.specs.Rooms.{IsRoom};
ghost use Rattle.vcm_clearance.specs.inner.Following.{IsClearWith, IsMetWith};

use crate::room::Room;
use crate::told::Told;
use crate::trying::one_more;
use vcm_carried::{Contact, first_met_by};
use vcm_marks::Moment;
use vcm_num::MOST_ROOM;
use vcm_part::PartData;
use vcm_spec::Block3;
use vcm_way::Gone;

// The first contact of a body on a way, of all blocks, or of those that it enters there.
fn contact_on(blocks: &PartData, body: &[Block3], gone: &Gone, with_start: bool) -> Option<Contact>
    requires { AllByRecursion (IsBox 10000000) body.now }
    ensures { (w : Went) → IsSameWay (seen gone.now) w → result ≡ contact_on blocks.now.blocks with_start body.now w }
{
    first_met_by(blocks.blocks(), body, 0, &gone.way, with_start)
}

// The first contact of a body with the sides of its boxes moved out, on a way.
fn wider_contact_on(blocks: &PartData, body: &[Block3], by: u32, gone: &Gone) -> Option<Contact>
    requires body { AllByRecursion (IsBox 10000000) body.now }
    requires by { by ≤ 50000 }
    ensures { (w : Went) → IsSameWay (seen gone.now) w → result ≡ contact_on blocks.now.blocks true (map (grown by) body.now) w }
{
    first_met_by(blocks.blocks(), body, by, &gone.way, true)
}

// By how many micrometres the sides of a body's boxes may be moved out so that it meets no block on a way, on which it meets none as it is and this contact with so many,
// and what it meets with one more.
fn narrowed(
    blocks: &PartData,
    body: &[Block3],
    gone: &Gone,
    wide: u32,
    met: Contact,
) -> (u32, Contact)
    requires body { AllByRecursion (IsBox 10000000) body.now }
    requires few { wide ≤ 50000 }
    requires some { 0 < wide }
    requires clear { IsClearWith blocks.now.blocks body.now gone.now 0 }
    requires met { IsMetWith blocks.now.blocks body.now gone.now wide met }
    ensures less { result.0 < wide }
    ensures clear { IsClearWith blocks.now.blocks body.now gone.now result.0 }
    ensures met { IsMetWith blocks.now.blocks body.now gone.now (result.0 + 1) result.1 }
{
    let mut clear = 0;
    let mut beyond = wide;
    let mut found = met;
    while beyond - clear > 1 {
        let between = clear + (beyond - clear) / 2;
        match wider_contact_on(blocks, body, between, gone) {
            Some(contact) => {
                beyond = between;
                found = contact;
            }
            None => clear = between,
        }
    }
    (clear, found)
}

// A contact with its way.
fn told(place: Moment, gone: &Gone, contact: Contact) -> Told
    ensures { (p : PlacedWay) → IsPlaced place gone.now p → result ≡ told_at p contact }
{
    Told {
        going: gone.going,
        step: place.step,
        number: place.number,
        line: place.line,
        contact,
    }
}

// The room round a body that met no block so far, behind one more way, on which it meets this with the sides of its boxes moved out as far as they may be.
fn met_clear(
    blocks: &PartData,
    body: &[Block3],
    by: u32,
    met: Contact,
    place: Moment,
    gone: &Gone,
) -> Room
    requires body { AllByRecursion (IsBox 10000000) body.now }
    requires by { by ≤ 50000 }
    requires met { IsMetWith blocks.now.blocks body.now gone.now by met }
    ensures { (narrow : Option TheTold) (ws : List PlacedWay) (p : PlacedWay) → IsPlaced place gone.now p → IsRoom blocks.now.blocks body.now ws (Clear by narrow)
        → IsRoom blocks.now.blocks body.now (ws ++ p ∷ []) result }
{
    // It is called for what it tells of the blocks: that they are valid.
    let _bounds = blocks.bounds();
    match contact_on(blocks, body, gone, true) {
        Some(_) => Room::Met(1),
        None => {
            let (clear, contact) = narrowed(blocks, body, gone, by, met);
            Room::Clear(clear, Some(told(place, gone, contact)))
        }
    }
}

// The room round a body that met no block so far, behind one more way.
fn next_clear(
    blocks: &PartData,
    body: &[Block3],
    by: u32,
    narrow: Option<Told>,
    place: Moment,
    gone: &Gone,
) -> Room
    requires body { AllByRecursion (IsBox 10000000) body.now }
    requires by { by ≤ 50000 }
    ensures { (ws : List PlacedWay) (p : PlacedWay) → IsPlaced place gone.now p → IsRoom blocks.now.blocks body.now ws (Clear by narrow)
        → IsRoom blocks.now.blocks body.now (ws ++ p ∷ []) result }
{
    // It is called for what it tells of the blocks: that they are valid.
    let _bounds = blocks.bounds();
    match wider_contact_on(blocks, body, by, gone) {
        Some(met) => met_clear(blocks, body, by, met, place, gone),
        None => Room::Clear(by, narrow),
    }
}

/// The room round a body, a list of boxes that are fixed to the tip and tried as one, behind one more way, its room before that way being given: on how many ways it meets a
/// block, at most 18,446,744,073,709,551,615; or by how many micrometres, at most 50,000, the sides of all its boxes may be moved out so that it meets none, and where it then is
/// narrowest. The sides of its boxes are at most 10,000,000 micrometres from the centre of the tip.
pub fn next_room(blocks: &PartData, body: &[Block3], room: Room, place: Moment, gone: &Gone) -> Room
    requires { AllByRecursion (IsBox 10000000) body.now }
    ensures { (ws : List PlacedWay) (p : PlacedWay) → IsPlaced place gone.now p → IsRoom blocks.now.blocks body.now ws room
        → IsRoom blocks.now.blocks body.now (ws ++ p ∷ []) result }
{
    match room {
        Room::Met(count) => {
            // It is called for what it tells of the blocks: that they are valid.
            let _bounds = blocks.bounds();
            match contact_on(blocks, body, gone, true) {
                Some(_) => Room::Met(one_more(count)),
                None => Room::Met(count),
            }
        }
        Room::Clear(by, narrow) => {
            // No side is moved out by more.
            if by > MOST_ROOM {
                return Room::Clear(by, narrow);
            }
            next_clear(blocks, body, by, narrow, place, gone)
        }
    }
}

/// What is told of a body on a way, its room on ways of which this is one being given: on the first way of a run its first contact with any block, on a later one with those that no box
/// of it meets at the start of the way; of a body that is met on no way, nothing. The sides of its boxes are at most 10,000,000 micrometres from the centre of the tip.
pub fn told_on(
    blocks: &PartData,
    body: &[Block3],
    room: Room,
    place: Moment,
    gone: &Gone,
    is_first: bool,
) -> Option<Told>
    requires { AllByRecursion (IsBox 10000000) body.now }
    ensures { (ws : List PlacedWay) (p : PlacedWay) (vs : List PlacedWay) → IsPlaced place gone.now p → IsRoom blocks.now.blocks body.now (ws ++ p ∷ vs) room
        → result ≡ told_on blocks.now.blocks is_first body.now p }
{
    // It is called for what it tells of the blocks: that they are valid.
    let _bounds = blocks.bounds();
    match room {
        Room::Met(_) => match contact_on(blocks, body, gone, is_first) {
            Some(contact) => Some(told(place, gone, contact)),
            None => None,
        },
        Room::Clear(_, _) => None,
    }
}
