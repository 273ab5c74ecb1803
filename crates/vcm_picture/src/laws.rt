//! Laws of pictures, each the contract of a function without a body.

ghost use Rattle.vcm_picture.specs.Laws.{NamesAreApart, MarksAreDrawn};

/// No two names of a view overlap, and none of a touched point overlaps the number of a block.
pub fn names_are_apart()
    ensures { NamesAreApart }
{}

/// Each view draws each mark of the way once, at its place.
pub fn each_mark_is_drawn()
    ensures { MarksAreDrawn }
{}
