//! Boxes that are fixed to the tip.

ghost use Rattle.std.specs.Prelude.{◌≡◌};
ghost use Rattle.vcm_boxes.specs.Boxes.{AreBoxes};

use crate::label::ShortName;
use std::marker::Model;
use vcm_spec::Block3;

/// A closed box that is fixed to the tip: its name, and its corners in micrometres from the centre of the tip along the axes of the machine.
#[derive(Drop)]
pub struct ProbeBox {
    pub name: ShortName,
    pub block: Block3,
}

/// The boxes of a probe: 1 to 16, counted from 1, with different names of at most 16 bytes, each coordinate at most 10,000,000 micrometres from
/// the centre of the tip, and no low corner above its high one.
#[derive(Drop)]
pub struct Boxes {
    boxes: Vec<ProbeBox>,
}

impl Model for Boxes {
    ghost use Rattle.std.specs.Prelude.{List};
    ghost use Rattle.vcm_boxes.specs.declared.boxes.ProbeBox.{ProbeBox};
    ghost use Rattle.vcm_boxes.specs.Boxes.{AreBoxes};

    ghost Value = { List ProbeBox };

    ghost view = { λ b. b.boxes.items };

    ghost invariant = { λ b. AreBoxes b.boxes.items };
}

impl Boxes {
    pub(crate) fn new(boxes: Vec<ProbeBox>) -> Boxes
        requires { AreBoxes boxes.items }
        ensures { result ≡ boxes.items }
    {
        Boxes { boxes }
    }

    /// The boxes, the first one first.
    pub fn as_slice(&self) -> &[ProbeBox]
        ensures boxes { result.now ≡ self.now }
        ensures valid { AreBoxes self.now }
    {
        &self.boxes
    }
}
