//! Laws of carried boxes, each the contract of a function without a body.

ghost use Rattle.vcm_carried.specs.Laws.{BoxesMeetSpreadBlocks, BoxContactIsComputed, BoxContactIsUnique, CubesAreTips, PointsAreCentres, WiderBoxesMeetMore, UnmovedBoxesMeetTheSame, BodyContactIsComputed, BodyContactIsUnique, OneBoxBodies};

/// Some point of a carried box lies in a block just where the centre of the tip lies in the block grown by the box reflected.
pub fn boxes_meet_spread_blocks()
    ensures { BoxesMeetSpreadBlocks }
{}

/// The computed contact is what the relation says of a box on a way.
pub fn box_contact_is_computed()
    ensures { BoxContactIsComputed }
{}

/// What the relation says of a box on a way is the computed contact, and nothing else.
pub fn box_contact_is_unique()
    ensures { BoxContactIsUnique }
{}

/// The box that is the tip meets a block where the tip does; the box without extent where the centre of the tip lies in the block.
pub fn cubes_are_tips()
    ensures cubes { CubesAreTips }
    ensures points { PointsAreCentres }
{}

/// What a box meets with its sides moved out, it meets with its sides moved out farther; moved out by nothing it is the box itself.
pub fn wider_boxes_meet_more()
    ensures wider { WiderBoxesMeetMore }
    ensures unmoved { UnmovedBoxesMeetTheSame }
{}

/// The computed contact is what the relation says of a body on a way, and nothing else; that of a body of one box is that of the box.
pub fn body_contact_is_computed()
    ensures computed { BodyContactIsComputed }
    ensures unique { BodyContactIsUnique }
    ensures one { OneBoxBodies }
{}
