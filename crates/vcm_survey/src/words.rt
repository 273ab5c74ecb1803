//! Words of a survey.

ghost use Rattle.std.specs.Prelude.{◌≡◌};
ghost use Rattle.vcm_survey.specs.Faults.{fault_words};

use vcm_lines::FaultCode;
use vcm_rules::{Caution, Class};

/// The code and the name of a fault of a line or a statement.
pub fn fault_words(code: FaultCode) -> &'static str
    ensures { result.now ≡ fault_words code }
{
    match code {
        FaultCode::BadByte => "E01 BadByte",
        FaultCode::LineTooLong => "E02 LineTooLong",
        FaultCode::TooManyLines => "E03 TooManyLines",
        FaultCode::DanglingContinuation => "E04 DanglingContinuation",
        FaultCode::UnknownStatement => "E05 UnknownStatement",
        FaultCode::TooFine => "E07 TooFine",
        FaultCode::NumberTooLarge => "E08 NumberTooLarge",
        FaultCode::TooDeep => "E09 TooDeep",
        FaultCode::NotQuarterTurn => "E10 NotQuarterTurn",
        FaultCode::NotAxis => "E11 NotAxis",
        FaultCode::BadArguments => "E19 BadArguments",
        FaultCode::Unsupported => "E22 Unsupported",
        _ => "E06 BadSyntax",
    }
}

/// The class as a group has it for its heading.
pub(crate) fn class_words(class: Class) -> &'static str {
    match class {
        Class::Fits => "fits",
        Class::Notice => "notice",
        Class::LeftOut => "left out",
        Class::PutOtherwise => "put otherwise",
        Class::NotTried => "not tried",
        Class::Fault => "fault",
    }
}

/// The class as its count is told.
pub(crate) fn count_words(class: Class) -> &'static str {
    match class {
        Class::Fits => "fit as they are",
        Class::Notice => "have no effect, with a notice",
        Class::LeftOut => "left out: they move nothing and choose nothing",
        Class::PutOtherwise => "put otherwise by vcm adapt",
        Class::NotTried => "not tried: what the machine does there stays unknown",
        Class::Fault => "faults of form, told with check's code",
    }
}

/// What is passed over, and why it may matter.
pub(crate) fn caution_words(caution: Caution) -> &'static str {
    match caution {
        Caution::OwnPoints => {
            "MODE/AUTO: the machine chooses points itself; the written ones are tried"
        }
        Caution::OtherTool => {
            "SNSLCT: the tool is changed or the head turns here; that motion isn't tried, nor another tip"
        }
        Caution::TipCentres => "PRCOMP/OFF: points may be those of the tip's centre",
        Caution::RoundedCorners => {
            "FLY: the machine rounds corners; the corners themselves are tried"
        }
        Caution::FaultJump => "ERROR: a jump behind a fault isn't tried",
        Caution::OtherCarriage => "CRSLCT: another carriage moves from here on, which isn't tried",
        Caution::OtherZone => "CZSLCT: the machine keeps to a zone from here on, which isn't tried",
        Caution::OtherBeginning(_) => {
            "the way to here begins elsewhere; that part of the way isn't the machine's"
        }
    }
}
