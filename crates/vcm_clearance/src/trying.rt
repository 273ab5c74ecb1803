//! Boxes, tried on the ways of one step.

ghost use Rattle.std.specs.Prelude.{◌≡◌, ◌+◌, min, List, [], ◌∷◌, ◌++◌, IfOk, IfErr};
ghost use Rattle.std.specs.List.{AllByRecursion};
ghost use Rattle.vcm_naming.specs.Pages.{page, Adds, AddsFront};
ghost use Rattle.vcm_boxes.specs.Boxes.{AreBoxes};
ghost use Rattle.vcm_way.specs.Gone.{PlacedWay, ways_in};
ghost use Rattle.vcm_way.specs.Seen.{IsNearWay};
ghost use Rattle.vcm_clearance.specs.Contacts.{IsPlaced};
ghost use Rattle.vcm_clearance.specs.Rooms.{most, AreRooms};
ghost use Rattle.vcm_clearance.specs.Printed.{way_lines};
ghost use Rattle.vcm_clearance.specs.inner.Here.{here_text};
ghost use Rattle.vcm_clearance.specs.inner.Following.{AreAdded, AreCut, IsKeptOn};

use crate::here::{Here, keep_if};
use crate::printing::write_contact;
use crate::room::Room;
use crate::rooms::{next_room, told_on};
use std::io::Write;
use std::slice::from_ref;
use vcm_backtrace::Kept;
use vcm_boxes::ProbeBox;
use vcm_marks::Mark;
use vcm_naming::BlockNames;
use vcm_num::WriteFault;
use vcm_part::PartData;
use vcm_way::{Gone, first_way};

// A count and one more; 64 bits count no more than they count.
pub(crate) fn one_more(count: u64) -> u64
    ensures { result ≡ min (count + 1) most }
{
    if count == u64::MAX { count } else { count + 1 }
}

// Tries all boxes on one way, and writes what is told of them.
fn try_way<W: Write>(
    blocks: &PartData,
    boxes: &[ProbeBox],
    here: &Here<'_>,
    gone: &Gone,
    is_first: bool,
    rooms: &mut Vec<Room>,
    kept: &mut Vec<Kept>,
    names: &mut BlockNames,
    writer: &mut W,
) -> Result<(), WriteFault>
    requires { AreBoxes boxes.now }
    ensures ok { IfOk result (λ u. (ws : List PlacedWay) (p : PlacedWay) → IsPlaced here.now.place gone.now p → AreRooms blocks.now.blocks boxes.now ws rooms.old.items
        → AreRooms blocks.now.blocks boxes.now (ws ++ p ∷ []) rooms.new.items
        × Adds (page (W.contents writer.old) names.old) (page (W.contents writer.new) names.new) (way_lines (here_text here.now) blocks.now.blocks boxes.now is_first p)
        × IsKeptOn here.now rooms.old.items kept.old.items rooms.new.items kept.new.items) }
    ensures err { IfErr result (λ f. (ws : List PlacedWay) (p : PlacedWay) → IsPlaced here.now.place gone.now p → AreRooms blocks.now.blocks boxes.now ws rooms.old.items
        → AddsFront (page (W.contents writer.old) names.old) (page (W.contents writer.new) names.new) (way_lines (here_text here.now) blocks.now.blocks boxes.now is_first p)) }
{
    // It is called for what it tells of the blocks: that they are valid.
    let _bounds = blocks.bounds();
    for (index, tried) in boxes.iter().enumerate() {
        // Each box has a room.
        let Some(room) = rooms.get(index) else {
            return Ok(());
        };
        let body = from_ref(&tried.block);
        let room = next_room(blocks, body, *room, here.place, gone);
        let told = told_on(blocks, body, room, here.place, gone, is_first);
        rooms[index] = room;
        keep_if(kept, index, room, here);
        write_contact(tried.name.as_bytes(), told, here, names, writer)?;
    }
    Ok(())
}

/// Tries all boxes on the ways among the marks of a step, behind so many ways of the run, and writes what is told of them. It answers how many ways there are with these.
///
/// Errors: the writer failed, or took no byte; then it has taken a front of the lines, and not all of them.
pub(crate) fn try_ways<W: Write>(
    blocks: &PartData,
    boxes: &[ProbeBox],
    here: &Here<'_>,
    marks: &[Mark],
    count: u64,
    rooms: &mut Vec<Room>,
    kept: &mut Vec<Kept>,
    names: &mut BlockNames,
    writer: &mut W,
) -> Result<u64, WriteFault>
    requires boxes { AreBoxes boxes.now }
    requires near { AllByRecursion IsNearWay (ways_in blocks.now marks.now) }
    ensures ok { IfOk result (λ n. AreAdded here.now blocks.now.blocks boxes.now (ways_in blocks.now marks.now)
        rooms.old.items kept.old.items count (page (W.contents writer.old) names.old) rooms.new.items kept.new.items n (page (W.contents writer.new) names.new)) }
    ensures err { IfErr result (λ f. AreCut here.now blocks.now.blocks boxes.now (ways_in blocks.now marks.now)
        rooms.old.items count (page (W.contents writer.old) names.old) (page (W.contents writer.new) names.new)) }
{
    match marks.split_first() {
        None => Ok(count),
        Some((_, behind)) => match first_way(blocks, marks) {
            None => try_ways(
                blocks, boxes, here, behind, count, rooms, kept, names, writer,
            ),
            Some(way) => {
                let is_first = count == 0;
                match try_way(
                    blocks, boxes, here, &way, is_first, rooms, kept, names, writer,
                ) {
                    Ok(()) => {
                        let count = one_more(count);
                        try_ways(
                            blocks, boxes, here, behind, count, rooms, kept, names, writer,
                        )
                    }
                    Err(fault) => Err(fault),
                }
            }
        },
    }
}
