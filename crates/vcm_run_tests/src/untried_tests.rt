//! Programs whose remarks are counted.

use std::alloc::Global;
use vcm_remarks::{Cause, NumberedRemark, Remark};
use vcm_test_tools::{beside_block, joined};
use vcm_untried::{count_remarks, untried_text, was_all_tried};

// All is known but the programmed mode, and then that too: 10 statements.
const KNOWN: &str = "DECL/INTGR,FRAME,LATEST
DECL/BOOL,MODE,TABLE,SCANNING,UNIT,PLACE,APPROACH,SEARCH,RETRACT,ASKED
FRAME=ASSIGN/1
TABLE=ASSIGN/.TRUE.
SCANNING=ASSIGN/.TRUE.
UNIT=ASSIGN/.TRUE.
APPROACH=ASSIGN/.TRUE.
SEARCH=ASSIGN/.TRUE.
RETRACT=ASSIGN/.TRUE.
MODE=ASSIGN/.FALSE.
MODE=ASSIGN/.TRUE.
MODE=ASSIGN/.FALSE.
";

// Three lines once and one three times; the frame is lost; two ways begin elsewhere, one of them never; the end.
const REST: &str = "LATEST=ASSIGN/1
LATEST=ASSIGN/2
LATEST=ASSIGN/3
DO/FRAME,1,3
LATEST=ASSIGN/4
ENDDO
MODE=ASSIGN/.TRUE.
FRAME=ASSIGN/0
LATEST=ASSIGN/5
LATEST=ASSIGN/6
LATEST=ASSIGN/7
";

// A remark.
fn of(number: u32, line: u32, remark: Remark) -> NumberedRemark {
    NumberedRemark {
        number,
        line,
        remark,
    }
}

// The remarks on the longer program.
fn remarks() -> [NumberedRemark; 11] {
    [
        of(7, 8, Remark::Loses(Cause::Mode)),
        of(9, 11, Remark::Loses(Cause::Mode)),
        of(10, 24, Remark::NotTried),
        of(11, 25, Remark::NotTried),
        of(12, 26, Remark::NotTried),
        of(14, 30, Remark::NotTried),
        of(17, 107, Remark::Loses(Cause::Frame)),
        of(18, 108, Remark::NotTried),
        of(19, 110, Remark::BeginsElsewhere),
        of(20, 120, Remark::Ends),
        of(4000, 130, Remark::BeginsElsewhere),
    ]
}

const TOLD: &str = "not tried 6: lines 24-26 30(3), the mode isn't programmed since line 11
not tried 1: line 108, the frame isn't known since line 107
begins elsewhere 1: line 110
not tried from line 120 on
";

// Whether a program with these remarks reports this.
fn tells(alloc: Global, statements: &str, remarks: &[NumberedRemark], told: &str) -> Option<bool> {
    beside_block(alloc, statements, |loaded, part| {
        let counts = count_remarks(alloc, part, loaded, 1000, remarks).ok()?;
        let text = untried_text(alloc, &counts, &[]).ok()?;
        let is_right = text.as_slice() == told.as_bytes();
        Some(is_right && was_all_tried(&counts) == told.is_empty())
    })
}

// The same for the longer program.
fn tells_all(alloc: Global) -> Option<bool> {
    let program = joined(alloc, &[KNOWN, REST])?;
    tells(alloc, &program, &remarks(), TOLD)
}

#[test]
fn what_is_not_tried_is_told(rt: HostRuntime) {
    assert!(rt; tells_all(rt.alloc()) == Some(true));
}

// What is reported of a program in which nothing is given and nothing was lost.
const NOT_GIVEN: &str = "not tried 1: line 7, a table may be turned\n";

#[test]
fn what_is_not_given_is_told(rt: HostRuntime) {
    let remarks = [of(0, 7, Remark::NotTried)];
    assert!(rt; tells(rt.alloc(), KNOWN, &remarks, NOT_GIVEN) == Some(true));
}

#[test]
fn all_is_tried(rt: HostRuntime) {
    let remarks = [
        of(3, 9, Remark::Loses(Cause::All)),
        of(50, 60, Remark::NotTried),
    ];
    assert!(rt; tells(rt.alloc(), KNOWN, &remarks, "") == Some(true));
}

// Whether each statement with a remark is counted, by its place.
fn are_counted(alloc: Global) -> Option<bool> {
    let program = joined(alloc, &[KNOWN, REST])?;
    beside_block(alloc, &program, |loaded, part| {
        let counts = count_remarks(alloc, part, loaded, 1000, &remarks()).ok()?;
        Some(counts.taken.as_slice() == [1, 1, 1, 1, 1, 3, 1, 1, 1, 1, 0].as_slice())
    })
}

#[test]
fn statements_are_counted(rt: HostRuntime) {
    assert!(rt; are_counted(rt.alloc()) == Some(true));
}
