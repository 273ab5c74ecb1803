//! Why bytes are no listing of a valid code.

ghost use Rattle.std.specs.Prelude.{◌≡◌};
ghost use Rattle.vcm_words.specs.declared.fault.ListCode.TheVariants.{NoMemory as Wanting};

use std::alloc::AllocError;
use vcm_num::NoMemory;

/// Which rule of listings is broken.
#[derive(Clone, Copy, PartialEq, Eq)]
pub enum ListCode {
    /// A growth of memory was refused: nothing is said of the bytes.
    NoMemory,
    /// L01: a line has not the shape of a line of a listing, or its end is missing.
    BadLine,
    /// L02: a number is spelled otherwise than in a listing, or out of its range.
    BadNumber,
    /// L03: a line doesn't stand where its index or its number belongs.
    OutOfOrder,
    /// L04: the code is not valid.
    NotValid,
}

/// A broken rule, and the number of its line, the first being 1; line 0 where memory ran out.
#[derive(Clone, Copy, PartialEq, Eq)]
pub struct ListFault {
    pub code: ListCode,
    pub line: u32,
}

impl From<AllocError> for ListFault {
    ghost from_gives = { λ _ e. (e.code ≡ Wanting) × (e.line ≡ 0) };

    fn from(_: AllocError) -> ListFault {
        ListFault {
            code: ListCode::NoMemory,
            line: 0,
        }
    }
}

impl From<NoMemory> for ListFault {
    ghost from_gives = { λ _ e. (e.code ≡ Wanting) × (e.line ≡ 0) };

    fn from(_: NoMemory) -> ListFault {
        ListFault {
            code: ListCode::NoMemory,
            line: 0,
        }
    }
}

impl From<AllocError> for ListCode {
    ghost from_gives = { λ _ e. e ≡ Wanting };

    fn from(_: AllocError) -> ListCode {
        ListCode::NoMemory
    }
}

impl From<NoMemory> for ListCode {
    ghost from_gives = { λ _ e. e ≡ Wanting };

    fn from(_: NoMemory) -> ListCode {
        ListCode::NoMemory
    }
}
