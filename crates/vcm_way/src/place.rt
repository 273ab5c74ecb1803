//! Single marks, and where on the way they stand.

ghost use Rattle.std.specs.Prelude.{◌≡◌, IsTrue};
ghost use Rattle.vcm_num.specs.Point.{is_near};
ghost use Rattle.vcm_way.specs.Marks.{goes, falls_short, contact_point, meets_block};

use crate::limits::nearest;
use vcm_marks::{Contact, Going, Leg, Mark};
use vcm_motion::entry_point;
use vcm_num::Point;
use vcm_part::PartData;
use vcm_spec::Bounds;

/// A piece that is gone as far as its aim.
pub(crate) fn goes(going: Going, from: Point, to: Point) -> Mark
    ensures { result ≡ goes going from to }
{
    Mark::Goes(Leg {
        going,
        from,
        to,
        aim: to,
    })
}

/// A way that is not gone, since its aim is beyond the limits: as far as the nearest point within.
pub(crate) fn falls_short(bounds: &Bounds, from: Point, aim: Point) -> Mark
    ensures { result ≡ falls_short bounds.now from aim }
{
    Mark::Goes(Leg {
        going: Going::Rest,
        from,
        to: nearest(bounds, aim),
        aim,
    })
}

/// Where the centre of the tip stands as the tip meets the block with this number on a straight way; its start, where it does not.
pub(crate) fn contact_point(part: &PartData, block: u32, from: Point, to: Point) -> Point
    requires from { IsTrue (is_near from) }
    requires to { IsTrue (is_near to) }
    ensures { result ≡ contact_point part.now block from to }
{
    let tip = part.bounds().tip;
    match part.blocks().get(block.saturating_sub(1) as usize) {
        Some(block) => entry_point(block, tip, from, to).unwrap_or(from),
        None => from,
    }
}

/// A way as far as the block with this number, what is not reached of it, and the contact.
pub(crate) fn meets_block(
    part: &PartData,
    going: Going,
    from: Point,
    aim: Point,
    block: u32,
) -> [Mark; 3]
    requires from { IsTrue (is_near from) }
    requires aim { IsTrue (is_near aim) }
    ensures { result ≡ meets_block part.now going from aim block }
{
    let at = contact_point(part, block, from, aim);
    [
        goes(going, from, at),
        goes(Going::Rest, at, aim),
        Mark::Meets(Contact {
            at,
            block,
            from,
            aim,
        }),
    ]
}
