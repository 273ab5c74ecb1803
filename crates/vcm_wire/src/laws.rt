//! Laws of the definitions, each the contract of a function without a body.

ghost use Rattle.vcm_wire.specs.Laws.{FramesAreRead, FramesAreOne, RefusedAreNone, RequestsAreOne};

/// Of the frame of a message of at most 1,048,576 bytes, and anything behind it, a reader takes that message and nothing more. Nothing else may be
/// told of it, unless the reader failed or memory was refused.
pub fn frames_are_read()
    ensures { FramesAreRead }
{}

/// An input begins with one message, or has none and has ended.
pub fn frames_are_one()
    ensures { FramesAreOne }
{}

/// What is refused as no head, or as too long, is no frame, and no end of the input.
pub fn refused_are_none()
    ensures { RefusedAreNone }
{}

/// A message asks for one command, under one number.
pub fn requests_are_one()
    ensures { RequestsAreOne }
{}
