//! Why a program's text is refused.

ghost use Rattle.std.specs.Prelude.{◌≡◌};
ghost use Rattle.vcm_lines.specs.Fault.{no_memory};

use std::alloc::{AllocError, AllocFailed};

/// What is wrong with a program's text, in the order of the codes E00 to E22.
#[derive(Clone, Copy, PartialEq, Eq)]
pub enum FaultCode {
    /// E00: a growth of memory was refused.
    NoMemory,
    /// E01: a byte that may not stand where it does.
    BadByte,
    /// E02: a line of more than 1,024 bytes, or a statement of more than 4,096.
    LineTooLong,
    /// E03: more than 20,000 lines.
    TooManyLines,
    /// E04: a line that goes on, and no line behind it.
    DanglingContinuation,
    /// E05: a major word that no statement has.
    UnknownStatement,
    /// E06: a statement, or a line, that isn't formed as it has to be.
    BadSyntax,
    /// E07: a number with a digit other than 0 behind its third decimal.
    TooFine,
    /// E08: a number past 9223372036854775807, counted in thousandths if it has a point.
    NumberTooLarge,
    /// E09: an expression that is too deep, or too large.
    TooDeep,
    /// E10: an angle that is no quarter turn.
    NotQuarterTurn,
    /// E11: a vector that is no direction of an axis.
    NotAxis,
    /// E12: a statement that may not stand where it does.
    BadOrder,
    /// E13: a name that is declared already.
    DuplicateName,
    /// E14: a name that isn't declared.
    UnknownName,
    /// E15: an operator, or a place, that doesn't take a value of this kind.
    BadType,
    /// E16: a block without its end, an end without its block, or blocks that nest too deep.
    Unbalanced,
    /// E17: a jump into a block.
    JumpInward,
    /// E18: a block of measuring without just one PTMEAS, or with something else than that, GOTO and GOHOME; a PTMEAS outside such a block.
    MeasBody,
    /// E19: a call with a wrong number or kind of arguments, or with more than 16 parameters.
    BadArguments,
    /// E20: more than 20,000 counted statements, DECL lines and calls once calls are expanded, or calls more than 16 deep.
    TooLong,
    /// E21: more names than there is room for.
    TooManyNames,
    /// E22: a statement of the language, or a word, a kind or a field in one, that isn't carried out here.
    Unsupported,
}

/// A refusal of a text: what is wrong, and at which line, the first one being 1. Want of memory has line 0.
#[derive(Clone, Copy, PartialEq, Eq)]
pub struct SourceFault {
    /// What is wrong.
    pub code: FaultCode,
    /// The line of the text that is at fault.
    pub line: u32,
}

/// The refusal of words that are not of the form that their place wants.
pub fn bad_syntax(line: u32) -> SourceFault
    ensures { result ≡ record { code = FaultCode.BadSyntax; line = line } }
{
    SourceFault {
        code: FaultCode::BadSyntax,
        line,
    }
}

impl From<AllocError> for SourceFault {
    ghost from_gives = { λ _ f. f ≡ no_memory };

    fn from(_e: AllocError) -> SourceFault {
        SourceFault {
            code: FaultCode::NoMemory,
            line: 0,
        }
    }
}

impl<T: Drop> From<AllocFailed<T>> for SourceFault {
    ghost from_gives = { λ _ f. f ≡ no_memory };

    fn from(_e: AllocFailed<T>) -> SourceFault {
        SourceFault {
            code: FaultCode::NoMemory,
            line: 0,
        }
    }
}
