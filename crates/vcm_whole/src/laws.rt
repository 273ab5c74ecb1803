//! Laws of the definitions, each the contract of a function without a body.

ghost use Rattle.vcm_whole.specs.Laws.{IsPutOnce, WholesAreOne, AcceptedTextsStay, NothingIsLeftOut, EachHasItsLine, SilentOnesMoveNothing};

/// A text is put as one program, with one image, one list of notices and one of remarks, and one thing is told of it.
pub fn wholes_are_one()
    ensures put { IsPutOnce }
    ensures whole { WholesAreOne }
{}

/// A text of the language that is read in one way, and in which nothing can get lost, is put as the program that it is, without a remark.
pub fn accepted_texts_stay()
    ensures { AcceptedTextsStay }
{}

/// What a text says is what its statements say, one behind the other, each on its line; and those that say nothing move nothing and choose nothing.
pub fn nothing_is_left_out()
    ensures all { NothingIsLeftOut }
    ensures lines { EachHasItsLine }
    ensures silent { SilentOnesMoveNothing }
{}
