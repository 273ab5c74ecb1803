//! The first contact of a carried box with a list of blocks.

ghost use Rattle.std.specs.Prelude.{◌≡◌, ◌+◌, ◌<◌, ◌≤◌, ◌^◌, length, IsTrue};
ghost use Rattle.std.specs.List.{list_all};
ghost use Rattle.vcm_num.specs.Point.{coordinate};
ghost use Rattle.vcm_spec.specs.Workpiece.{is_block};
ghost use Rattle.vcm_spec.specs.Contact.{IsPermille};
ghost use Rattle.vcm_spec.specs.FirstContact.{fraction};
ghost use Rattle.vcm_motion.specs.Places.{point_on_way};
ghost use Rattle.vcm_carried.specs.Carried.{IsBox, Counts, IsFirstContact};

use crate::area::{is_touching, swept};
use crate::contact::Contact;
use crate::crossing::counted;
use crate::entered::{Entered, sooner};
use crate::place::point_on_way;
use crate::way::Way;
use vcm_spec::{Block3, Hit};

/// What is told of a block that is entered. Blocks count from 1.
pub(crate) fn contact(entered: Entered, way: &Way) -> Contact
    requires index { entered.index + 1 < 2 ^ 32 }
    requires within { entered.at.num ≤ entered.at.den }
    ensures block { result.hit.block ≡ entered.index + 1 }
    ensures permille { IsPermille entered.at.num entered.at.den result.hit.permille }
    ensures at { result.at ≡ point_on_way (fraction entered.at.num entered.at.den) (coordinate way.now.from) (coordinate way.now.to) }
{
    let block = entered.index as u32 + 1;
    let permille = entered.at.permille();
    Contact {
        hit: Hit { block, permille },
        at: point_on_way(way, entered.at),
    }
}

/// The first contact of a box that is carried along what was gone of a way, with the blocks that count: where the start counts too, all that the box meets,
/// else those that it does not meet at the start of the way. It is the block that counts at the least fraction of the way, of those together the one that stands
/// first; the thousandths of the whole way before it are rounded down, and the point is cut off to whole micrometres towards the start. The sides of the box are at most
/// 10,050,000 micrometres from the centre of the tip; the coordinates of the blocks at most 1,000,000,000 from 0. A block that the box does not reach between the
/// ends of the way is not looked at axis by axis.
pub fn first_met(
    blocks: &[Block3],
    carried: &Block3,
    way: &Way,
    with_start: bool,
) -> Option<Contact>
    requires few { length blocks.now ≤ 4096 }
    requires blocks { IsTrue (list_all is_block blocks.now) }
    requires carried { IsBox 10050000 carried.now }
    ensures { IsFirstContact blocks.now
        (Counts with_start (fraction way.now.gone.num way.now.gone.den) carried.now (coordinate way.now.from) (coordinate way.now.to))
        (coordinate way.now.from) (coordinate way.now.to) result }
{
    let area = swept(carried, way);
    let mut first: Option<Entered> = None;
    for (index, block) in blocks.iter().enumerate() {
        if !is_touching(block, &area) {
            continue;
        }
        if let Some(at) = counted(block, carried, way, with_start) {
            first = Some(sooner(first, Entered { index, at }));
        }
    }
    Some(contact(first?, way))
}
