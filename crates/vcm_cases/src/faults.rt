//! The refusals of each kind one after another: each function gives the one behind another, none behind the last.

use vcm_debug::ServeFault;
use vcm_fields::ImageFault;
use vcm_job::{InputRefusal, SessionFault};
use vcm_lines::{FaultCode, SourceFault};
use vcm_listing::{ListCode, ListFault};
use vcm_part::{PartCode, PartFault};
use vcm_run::Refusal;

// The line, and the block, at which refusals are told here.
const LINE: u32 = 7;

const BLOCK: u32 = 3;

/// A text that is refused with this code.
pub(crate) fn refused_text(code: FaultCode) -> SourceFault {
    SourceFault { code, line: LINE }
}

/// A listing that is refused with this code.
pub(crate) fn refused_listing(code: ListCode) -> ListFault {
    ListFault { code, line: LINE }
}

/// The first refusal of a program beside a part.
pub(crate) fn first_refusal() -> Refusal {
    Refusal::Source(refused_text(FaultCode::BadOrder))
}

// The codes of programs.
fn next_source_code(code: FaultCode) -> Option<FaultCode> {
    match code {
        FaultCode::NoMemory => Some(FaultCode::BadByte),
        FaultCode::BadByte => Some(FaultCode::LineTooLong),
        FaultCode::LineTooLong => Some(FaultCode::TooManyLines),
        FaultCode::TooManyLines => Some(FaultCode::DanglingContinuation),
        FaultCode::DanglingContinuation => Some(FaultCode::UnknownStatement),
        FaultCode::UnknownStatement => Some(FaultCode::BadSyntax),
        FaultCode::BadSyntax => Some(FaultCode::TooFine),
        FaultCode::TooFine => Some(FaultCode::NumberTooLarge),
        FaultCode::NumberTooLarge => Some(FaultCode::TooDeep),
        FaultCode::TooDeep => Some(FaultCode::NotQuarterTurn),
        FaultCode::NotQuarterTurn => Some(FaultCode::NotAxis),
        FaultCode::NotAxis => Some(FaultCode::BadOrder),
        FaultCode::BadOrder => Some(FaultCode::DuplicateName),
        FaultCode::DuplicateName => Some(FaultCode::UnknownName),
        FaultCode::UnknownName => Some(FaultCode::BadType),
        FaultCode::BadType => Some(FaultCode::Unbalanced),
        FaultCode::Unbalanced => Some(FaultCode::JumpInward),
        FaultCode::JumpInward => Some(FaultCode::MeasBody),
        FaultCode::MeasBody => Some(FaultCode::BadArguments),
        FaultCode::BadArguments => Some(FaultCode::TooLong),
        FaultCode::TooLong => Some(FaultCode::TooManyNames),
        FaultCode::TooManyNames => Some(FaultCode::Unsupported),
        FaultCode::Unsupported => None,
    }
}

// The codes of parts.
fn next_part_code(code: PartCode) -> Option<PartCode> {
    match code {
        PartCode::NoMemory => Some(PartCode::NotToml),
        PartCode::NotToml => Some(PartCode::BadKey),
        PartCode::BadKey => Some(PartCode::OutOfRange),
        PartCode::OutOfRange => Some(PartCode::LowAboveHigh),
        PartCode::LowAboveHigh => Some(PartCode::TooManyBlocks),
        PartCode::TooManyBlocks => Some(PartCode::HomeNotClear),
        PartCode::HomeNotClear => None,
    }
}

/// The refusals of parts, first of the whole file and then of a block.
pub(crate) fn next_refused_part(fault: PartFault) -> Option<PartFault> {
    let block = fault.block;
    match next_part_code(fault.code) {
        Some(code) => Some(PartFault { code, block }),
        None if block == 0 => Some(PartFault {
            code: PartCode::NoMemory,
            block: BLOCK,
        }),
        None => None,
    }
}

// The faults of images.
fn next_image_fault(fault: ImageFault) -> Option<ImageFault> {
    match fault {
        ImageFault::NoMemory => Some(ImageFault::BadMagic),
        ImageFault::BadMagic => Some(ImageFault::Short),
        ImageFault::Short => Some(ImageFault::BadVersion),
        ImageFault::BadVersion => Some(ImageFault::BadField),
        ImageFault::BadField => Some(ImageFault::Trailing),
        ImageFault::Trailing => Some(ImageFault::BadIndex),
        ImageFault::BadIndex => Some(ImageFault::BadTarget),
        ImageFault::BadTarget => Some(ImageFault::BadOperand),
        ImageFault::BadOperand => Some(ImageFault::RunsOff),
        ImageFault::RunsOff => None,
    }
}

// The codes of listings.
fn next_list_code(code: ListCode) -> Option<ListCode> {
    match code {
        ListCode::NoMemory => Some(ListCode::BadLine),
        ListCode::BadLine => Some(ListCode::BadNumber),
        ListCode::BadNumber => Some(ListCode::OutOfOrder),
        ListCode::OutOfOrder => Some(ListCode::NotValid),
        ListCode::NotValid => None,
    }
}

/// The refusals of a program beside a part, one of each kind.
pub(crate) fn next_refusal(refusal: Refusal) -> Option<Refusal> {
    match refusal {
        Refusal::Source(_) => Some(Refusal::Part(PartFault {
            code: PartCode::NotToml,
            block: 0,
        })),
        Refusal::Part(_) => Some(Refusal::NoMemory),
        Refusal::NoMemory => None,
    }
}

/// The refusals of a text, with all codes of programs.
pub(crate) fn next_text(fault: SourceFault) -> Option<SourceFault> {
    next_source_code(fault.code).map(refused_text)
}

/// The refusals of a listing, with all codes of listings.
pub(crate) fn next_listing(fault: ListFault) -> Option<ListFault> {
    next_list_code(fault.code).map(refused_listing)
}

/// The refusals of an input, with all faults of images.
pub(crate) fn next_input(refusal: InputRefusal) -> Option<InputRefusal> {
    match refusal {
        InputRefusal::Text(refusal) => match next_refusal(refusal) {
            Some(refusal) => Some(InputRefusal::Text(refusal)),
            None => Some(InputRefusal::Image(ImageFault::NoMemory)),
        },
        InputRefusal::Image(fault) => next_image_fault(fault).map(InputRefusal::Image),
    }
}

/// The refusals of an input that is run, with one fault of images.
pub(crate) fn next_run(refusal: InputRefusal) -> Option<InputRefusal> {
    match refusal {
        InputRefusal::Text(refusal) => match next_refusal(refusal) {
            Some(refusal) => Some(InputRefusal::Text(refusal)),
            None => Some(InputRefusal::Image(ImageFault::Short)),
        },
        InputRefusal::Image(_) => None,
    }
}

/// What ends a session, with one fault of images and all of its devices.
pub(crate) fn next_session(fault: SessionFault) -> Option<SessionFault> {
    match fault {
        SessionFault::Text(refusal) => match next_refusal(refusal) {
            Some(refusal) => Some(SessionFault::Text(refusal)),
            None => Some(SessionFault::Image(ImageFault::BadVersion)),
        },
        SessionFault::Image(_) => Some(SessionFault::Serve(ServeFault::Read)),
        SessionFault::Serve(ServeFault::Read) => Some(SessionFault::Serve(ServeFault::Write)),
        SessionFault::Serve(ServeFault::Write) => Some(SessionFault::Serve(ServeFault::TooMuch)),
        SessionFault::Serve(ServeFault::TooMuch) => None,
    }
}
