//! The first contact of a move with the blocks of a list.

ghost use Rattle.std.specs.Prelude.{◌≡◌, ◌+◌, ◌-◌, ◌<◌, ◌≤◌, All, length, slice_range, IsTrue};
ghost use Rattle.std.specs.List.{list_all};
ghost use Rattle.vcm_num.specs.Point.{coordinate, is_near, IsNear};
ghost use Rattle.vcm_spec.specs.Workpiece.{is_block};
ghost use Rattle.vcm_spec.specs.Contact.{TipMeets, IsAnswer};
ghost use Rattle.vcm_motion.specs.inner.Listed.{AreStrips, IsCovered};
ghost use Rattle.vcm_motion.specs.Strips.{start_of, first_strip, last_strip};

use crate::area::{box_of, is_touching};
use crate::entered::{Entered, sooner};
use crate::hit::crossing;
use crate::layout::{first_strip, last_strip};
use vcm_num::Point;
use vcm_spec::{Block3, Hit};

// The first block that the tip meets on a move, where each that it can meet is listed, in any order and any number of times.
fn first_listed(blocks: &[Block3], tip: u32, listed: &[u32], from: Point, to: Point) -> Option<Hit>
    requires few { length blocks.now ≤ 4096 }
    requires blocks { IsTrue (list_all is_block blocks.now) }
    requires tip { tip ≤ 50000 }
    requires places { All (λ i. i < length blocks.now) listed.now }
    requires from { IsTrue (is_near from) }
    requires to { IsTrue (is_near to) }
    requires covered { IsCovered blocks.now (TipMeets tip (coordinate from) (coordinate to)) listed.now }
    ensures { IsAnswer blocks.now (TipMeets tip (coordinate from) (coordinate to)) result }
{
    let area = box_of(from, to, tip);
    let mut first: Option<Entered> = None;
    for number in listed {
        let index = *number as usize;
        let block = &blocks[index];
        if !is_touching(block, &area) {
            continue;
        }
        if let Some(at) = crossing(block, tip, from, to) {
            first = Some(sooner(first, Entered { index, at }));
        }
    }
    Some(first?.hit())
}

// The places of the list from one to below another.
fn cut(order: &[u32], from: u32, to: u32) -> &[u32]
    requires rising { from ≤ to }
    requires within { to ≤ length order.now }
    ensures { result.now ≡ slice_range order.now from to }
{
    &order[from as usize..to as usize]
}

/// The first block that the tip meets on a move, and how many were compared with it: those that stand in the strips that the tip reaches, each in
/// each of them.
pub(crate) fn first_in_strips(
    blocks: &[Block3],
    tip: u32,
    low: i64,
    width: u32,
    starts: &[u32],
    order: &[u32],
    from: Point,
    to: Point,
) -> (Option<Hit>, u32)
    requires few { length blocks.now ≤ 4096 }
    requires blocks { IsTrue (list_all is_block blocks.now) }
    requires tip { tip ≤ 50000 }
    requires low { IsNear low }
    requires strips { AreStrips blocks.now low width starts.now order.now }
    requires from { IsTrue (is_near from) }
    requires to { IsTrue (is_near to) }
    ensures hit { IsAnswer blocks.now (TipMeets tip (coordinate from) (coordinate to)) result.0 }
    ensures count { result.1 ≡ start_of starts.now (last_strip low width tip (coordinate from 0) (coordinate to 0) + 1) - start_of starts.now (first_strip low width tip (coordinate from 0) (coordinate to 0)) }
{
    let start = first_strip(low, width, tip, from.0[0], to.0[0]);
    let end = last_strip(low, width, tip, from.0[0], to.0[0]);
    let first = starts[start];
    let last = starts[end + 1];
    let listed = cut(order, first, last);
    (first_listed(blocks, tip, listed, from, to), last - first)
}
