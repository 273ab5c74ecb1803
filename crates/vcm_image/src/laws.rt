//! Laws of images, each the contract of a function without a body.

ghost use Rattle.vcm_image.specs.Laws.{WrittenIsRead, CodesHaveOneImage, ChangesAreRefusedOrOther};

/// The image of a code that fits is read as that code.
pub fn written_is_read()
    ensures { WrittenIsRead }
{}

/// Two codes that fit and have the same image are the same.
pub fn codes_have_one_image()
    ensures { CodesHaveOneImage }
{}

/// Bytes that differ from the image of a code are refused, or are the image of another code.
pub fn changes_are_refused_or_other()
    ensures { ChangesAreRefusedOrOther }
{}
