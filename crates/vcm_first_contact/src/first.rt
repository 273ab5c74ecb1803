//! The first contact of a box on a way, and on the ways of a step.

ghost use Rattle.std.specs.Prelude.{◌≡◌, Option, Some, None, unwrap_or, IsTrue};
ghost use Rattle.std.specs.List.{AllByRecursion};
ghost use Rattle.vcm_boxes.specs.Boxes.{AreBoxes};
ghost use Rattle.vcm_carried.specs.Carried.{IsBox};
ghost use Rattle.vcm_clearance.specs.Contacts.{IsPlaced};
ghost use Rattle.vcm_way.specs.Gone.{Gone as Went, PlacedWay, placed_at, first_way, ways_in};
ghost use Rattle.vcm_way.specs.Seen.{IsSameWay, IsNearWay, IsNearIfAny, seen};
ghost use Rattle.vcm_num.specs.Point.{coordinate};
ghost use Rattle.vcm_spec.specs.FirstContact.{fraction, entry};
ghost use Rattle.vcm_spec.specs.Workpiece.{is_block};
ghost use Rattle.vcm_carried.specs.Carried.{spread};
ghost use Rattle.vcm_first_contact.specs.First.{Met as Known, met_by, sooner, first_of, first_at, first_in};
ghost use Rattle.vcm_first_contact.specs.inner.Shares.{shared};
ghost use Rattle.vcm_first_contact.specs.inner.Standing.{IsMet, on_way};

use crate::entry::{Pass, Share, entry, is_not_after};
use crate::spread::spread;
use std::slice::from_ref;
use vcm_boxes::ProbeBox;
use vcm_carried::{Contact, first_met_by};
use vcm_clearance::Told;
use vcm_marks::{Mark, Moment};
use vcm_num::Point;
use vcm_part::PartData;
use vcm_spec::Block3;
use vcm_way::{Gone, first_way};

/// The first contact of a box in a run: the place of the box in its file, counted from 0, what is told of the contact, and the way on which it is.
#[derive(Clone, Copy)]
pub struct FirstContact {
    pub index: usize,
    pub told: Told,
    pub from: Point,
    pub to: Point,
}

// A box that meets a block on a way, by its place, the contact, and the fraction of the way.
#[derive(Clone, Copy)]
struct Met {
    index: usize,
    contact: Contact,
    at: Share,
}

// The fraction of a way at which a box enters a block, which it meets there.
fn share_of(gone: &Gone, carried: &Block3, block: &Block3) -> Share
    requires carried { IsBox 10000000 carried.now }
    requires block { IsTrue (is_block block.now) }
    ensures { shared result ≡ unwrap_or (entry (coordinate gone.now.way.from) (coordinate gone.now.way.to) (spread carried.now block.now)) (fraction 0 1) }
{
    let pass = Pass {
        from: gone.way.from,
        to: gone.way.to,
        block: spread(carried, block),
    };
    match entry(&pass) {
        Some(at) => at,
        None => Share { num: 0, den: 1 },
    }
}

// The contact of a box of this place on a way, if it meets a block there.
fn met_by(blocks: &PartData, index: usize, carried: &Block3, gone: &Gone) -> Option<Met>
    requires { IsBox 10000000 carried.now }
    ensures { (w : Went) → IsSameWay (seen gone.now) w → IsMet w result (met_by blocks.now.blocks w index carried.now) }
{
    let all = blocks.blocks();
    match first_met_by(all, from_ref(carried), 0, &gone.way, true) {
        None => None,
        Some(contact) => match all.get(contact.hit.block.saturating_sub(1) as usize) {
            None => None,
            Some(block) => Some(Met {
                index,
                contact,
                at: share_of(gone, carried, block),
            }),
        },
    }
}

// The contact that is first on a way; of two at one fraction the first.
fn sooner(first: Option<Met>, next: Option<Met>) -> Option<Met>
    ensures { (w : Went) (f n : Option Known) → IsMet w first f → IsMet w next n → IsMet w result (sooner f n) }
{
    match first {
        None => next,
        Some(one) => match next {
            None => Some(one),
            Some(other) => {
                if is_not_after(one.at, other.at) {
                    Some(one)
                } else {
                    Some(other)
                }
            }
        },
    }
}

// The first contact of these boxes on a way.
fn first_on(blocks: &PartData, boxes: &[ProbeBox], gone: &Gone) -> Option<Met>
    requires { AreBoxes boxes.now }
    ensures { (w : Went) → IsSameWay (seen gone.now) w → IsMet w result (first_of blocks.now.blocks w None 0 boxes.now) }
{
    let mut first = None;
    for (index, tried) in boxes.iter().enumerate() {
        first = sooner(first, met_by(blocks, index, &tried.block, gone));
    }
    first
}

// What is told of it.
fn told_at(place: Moment, gone: &Gone, met: Met) -> FirstContact
    ensures { (p : PlacedWay) (m : Known) → IsPlaced place gone.now p → IsMet p.way (Some met) (Some m) → result ≡ first_at p m }
{
    FirstContact {
        index: met.index,
        told: Told {
            going: gone.going,
            step: place.step,
            number: place.number,
            line: place.line,
            contact: met.contact,
        },
        from: gone.way.from,
        to: gone.way.to,
    }
}

// The first contact of these boxes on the way of the first of these marks, if a way was gone there and a box meets a block on it.
fn first_here(
    blocks: &PartData,
    boxes: &[ProbeBox],
    place: Moment,
    marks: &[Mark],
) -> Option<FirstContact>
    requires boxes { AreBoxes boxes.now }
    requires near { IsNearIfAny (first_way blocks.now marks.now) }
    ensures { result ≡ on_way blocks.now.blocks boxes.now place (first_way blocks.now marks.now) }
{
    match first_way(blocks, marks) {
        Some(gone) => match first_on(blocks, boxes, &gone) {
            Some(met) => Some(told_at(place, &gone, met)),
            None => None,
        },
        None => None,
    }
}

/// The first contact of these boxes on the ways among the marks of a step, if one meets a block there.
pub(crate) fn first_among(
    blocks: &PartData,
    boxes: &[ProbeBox],
    place: Moment,
    marks: &[Mark],
) -> Option<FirstContact>
    requires boxes { AreBoxes boxes.now }
    requires near { AllByRecursion IsNearWay (ways_in blocks.now marks.now) }
    ensures { result ≡ first_in blocks.now.blocks boxes.now (placed_at place (ways_in blocks.now marks.now)) }
{
    match marks.split_first() {
        None => None,
        Some((_, behind)) => match first_here(blocks, boxes, place, marks) {
            Some(found) => Some(found),
            None => first_among(blocks, boxes, place, behind),
        },
    }
}
