//! What a refusal of a program means.

use crate::entry::Entry;

const LINE: [Entry; 5] = [
    Entry {
        keys: &["E00", "NoMemory"],
        text: "E00 NoMemory
Memory ran out while the program was read. vcm prints `no memory` and ends with status
5; nothing is wrong with the text as far as it was read.
Do: close other programs, or try on a larger machine. The greatest program that is
accepted has 20,000 lines; one that expands to 20,000 statements by macros takes the
most.",
    },
    Entry {
        keys: &["E01", "BadByte"],
        text: "E01 BadByte
A byte stands where it may not. Outside texts and comments only printable ASCII and the
tab are taken; inside them bytes from 128 on are taken too, so umlauts and accents may
stand in a comment or between apostrophes, and nowhere else. Control characters may
stand nowhere.
Do: look at the line in an editor that shows all characters. Common causes: a dash or an
apostrophe that a word processor has replaced, a no-break space, a file saved as UTF-16.
For example, from line 3 on:
  GOTO/20,20,–50
gives: E01 BadByte line 3
For example, from line 3 on:
  $$ – a dash in a comment
gives: ok 1 statements",
    },
    Entry {
        keys: &["E02", "LineTooLong"],
        text: "E02 LineTooLong
A line has more than 1,024 bytes, or a statement that goes on over several lines with
`$` has more than 4,096 (blanks and comments not counted).
Do: cut a long line with ` $` at its end; cut a long statement into two, as one DECL
into several.",
    },
    Entry {
        keys: &["E03", "TooManyLines"],
        text: "E03 TooManyLines
The file has more than 20,000 lines, empty lines and comments counted.
Do: put what repeats into a macro or a loop, or divide the program.",
    },
    Entry {
        keys: &["E04", "DanglingContinuation"],
        text: "E04 DanglingContinuation
The last statement ends in `$`, which says that it goes on with the next line, and there
is no next line.
Do: take the `$` away, or add what is missing. Empty lines and comments behind a `$` are
skipped.
For example, a program:
  DMISMN/'T'
  ENDFIL $
gives: E04 DanglingContinuation line 2",
    },
];

const SPELLING: [Entry; 4] = [
    Entry {
        keys: &["E05", "UnknownStatement"],
        text: "E05 UnknownStatement
The first word of the statement is none of the subset: a slip, or a word of DMIS that
vcm doesn't have, as TOL or DATSET.
Do: look at the spelling. What becomes of a word of DMIS, `vcm explain` tells, as in
`vcm explain TOL`; `vcm survey` tells it of a whole text, and `vcm adapt` brings the text
into the subset.
For example, from line 3 on:
  GOTTO/20,20,50
gives: E05 UnknownStatement line 3",
    },
    Entry {
        keys: &["E06", "BadSyntax"],
        text: "E06 BadSyntax
The statement doesn't have the form of its kind: something is missing, stands twice, or
stands where it may not. Also a text without its second apostrophe, a `$` that isn't the
last thing of its line or was left there by mistake, so that the next line belongs to
the statement, and a name with more than 16 characters.
Do: compare it with the forms in the language page. Points have three lengths with
commas between them; a test stands in parentheses; names are letters, digits and
underscores. Of measurements there is `MEAS/POINT` alone: `MEAS/PLANE`, `MEAS/CIRCLE` and
the like are told so too, and `CALL/EXTERN` and functions such as `ABS(X)` and `CONCAT`.
`vcm survey` tells of each of them what becomes of it.
For example, from line 3 on:
  GOTO/20,20
gives: E06 BadSyntax line 3
For example, from line 3 on:
  MEAS/PLANE,F(A),4
gives: E06 BadSyntax line 3
For example, from line 3 on:
  TEXT/OPER,'ready
gives: E06 BadSyntax line 3",
    },
    Entry {
        keys: &["E07", "TooFine"],
        text: "E07 TooFine
A number has digits behind the third decimal that aren't zeros. vcm counts whole
micrometres and never rounds, so it refuses instead of guessing.
Do: round the number yourself to three decimals.
For example, from line 3 on:
  GOTO/1.2345,0,0
gives: E07 TooFine line 3
For example, from line 3 on:
  GOTO/1.2340,0,0
gives: ok 2 statements",
    },
    Entry {
        keys: &["E08", "NumberTooLarge"],
        text: "E08 NumberTooLarge
A number is over 9223372036854775807, or over 9223372036854775.807 if it has a point.
Do: look for a missing point or comma.
For example, from line 3 on:
  GOTO/99999999999999999999,0,0
gives: E08 NumberTooLarge line 3",
    },
];

const VALUE: [Entry; 3] = [
    Entry {
        keys: &["E09", "TooDeep"],
        text: "E09 TooDeep
An expression is nested more than 32 deep, or has more than 512 numbers, names and
operators, or more than 32 parentheses are open at once. In a macro it is counted with
the arguments put in, so a short line may be too deep at one call: the line told is the
one in the macro or that of the CALL.
Do: give a part of the expression to a variable with ASSIGN.",
    },
    Entry {
        keys: &["E10", "NotQuarterTurn"],
        text: "E10 NotQuarterTurn
ROTATE takes 0, 90, 180, 270 and their negatives. Other angles would leave whole
micrometres.
Do: turn the coordinates in the program instead, or turn the workpiece in the part file.
For example, from line 3 on:
  D(D1)=ROTATE/ZAXIS,45
gives: E10 NotQuarterTurn line 3",
    },
    Entry {
        keys: &["E11", "NotAxis"],
        text: "E11 NotAxis
A direction isn't along an axis. One of i, j, k is 1 or -1, the other two are 0.
Do: measure along the nearest axis. vcm has no tilted faces.
For example, from line 3 on:
  F(P1)=FEAT/POINT,CART,0,0,0,0,1,1
gives: E11 NotAxis line 3",
    },
];

const NAME: [Entry; 3] = [
    Entry {
        keys: &["E12", "BadOrder"],
        text: "E12 BadOrder
The frame of the text is broken: DMISMN is the first statement and ENDFIL the last, each
once; UNITS stands above the first statement that does something; a MACRO has its
ENDMAC, isn't in another macro, and holds none of these words. Where ENDFIL is missing,
the last statement's line is told.
Do: look at the line told and the one before it. What stands below ENDFIL is told here
too.
For example, a program:
  DMISMN/'T'
  GOTO/20,20,50
  UNITS/MM,ANGDEC
  ENDFIL
gives: E12 BadOrder line 2",
    },
    Entry {
        keys: &["E13", "DuplicateName"],
        text: "E13 DuplicateName
A name is declared twice: a variable or a jump label in one scope, two macros, two
parameters of a macro, or a parameter and a variable in its body. Letters are not told
apart by case. Features and frames may be declared again.
Do: choose another name, or take the second DECL away.
For example, from line 3 on:
  DECL/INTGR,I
  DECL/REAL,I
gives: E13 DuplicateName line 4",
    },
    Entry {
        keys: &["E14", "UnknownName"],
        text: "E14 UnknownName
A variable, feature, frame, macro or label isn't there. All but labels have to stand
above their use: a macro above its CALL in writing, what a macro's body names above the
CALL, since it is looked up where the body is put in. A macro can't call itself. A jump
label is looked for in the text outside macros, or in the body of the macro that the jump
stands in.
Do: look at the spelling, then at the order of the lines. A variable needs a DECL, a
feature a FEAT, a frame a TRANS or ROTATE.
For example, from line 3 on:
  X=ASSIGN/1
gives: E14 UnknownName line 3
For example, from line 3 on:
  DECL/INTGR,X
  X=ASSIGN/1
gives: ok 2 statements",
    },
];

const BLOCK: [Entry; 4] = [
    Entry {
        keys: &["E15", "BadType"],
        text: "E15 BadType
An operator or a place doesn't take a value of this kind. There are whole numbers
(INTGR), numbers with a point (REAL) and truth values (BOOL). Two REALs can't be
multiplied, nothing can be divided by a REAL, a REAL can't be given to an INTGR, the
index of a DO and its limits are INTGR, a test is BOOL.
Do: write `X*2` for `X*2.0`; for a product of two lengths there is nothing.
For example, from line 3 on:
  DECL/REAL,X
  X=ASSIGN/1.5*1.5
gives: E15 BadType line 4
For example, from line 3 on:
  DECL/REAL,X
  X=ASSIGN/1.5*2
gives: ok 2 statements",
    },
    Entry {
        keys: &["E16", "Unbalanced"],
        text: "E16 Unbalanced
A block has no end, an end has no block, blocks cross, or more than 32 are open at once.
IF ends with ENDIF, DO with ENDDO, MEAS with ENDMES, SELECT with ENDSEL, and each CASE
and DFTCAS in it with ENDCAS; between these blocks nothing may stand that is carried out,
declares or calls. For a block that isn't closed the line of ENDFIL or ENDMAC is told,
where it is missed: the mistake stands above it.
Do: indent the text; the first END that doesn't stand where it should shows the place.
For example, from line 3 on:
  IF/(.TRUE.)
gives: E16 Unbalanced line 4
For example, from line 3 on:
  ENDDO
gives: E16 Unbalanced line 3",
    },
    Entry {
        keys: &["E17", "JumpInward"],
        text: "E17 JumpInward
A JUMPTO leads into a block. It may lead to a label of its own block or of one around
it, forwards or back, never into an IF, DO, MEAS or SELECT.
Do: put the label in front of the block or behind it.
For example, from line 3 on:
  DECL/INTGR,I
  JUMPTO/(IN)
  DO/I,1,2
  (IN)
  ENDDO
gives: E17 JumpInward line 4",
    },
    Entry {
        keys: &["E18", "MeasBody"],
        text: "E18 MeasBody
Between MEAS and ENDMES stands just one PTMEAS, and besides it only GOTO and GOHOME. A
PTMEAS doesn't stand outside.
Do: put all else above MEAS or below ENDMES.
For example, from line 3 on:
  F(P1)=FEAT/POINT,CART,0,0,0,0,0,1
  MEAS/POINT,F(P1),1
  ENDMES
gives: E18 MeasBody line 5",
    },
];

const SIZE: [Entry; 4] = [
    Entry {
        keys: &["E19", "BadArguments"],
        text: "E19 BadArguments
A CALL doesn't fit its macro: too few or too many arguments, an expression for a quoted
parameter `'P'`, which takes a name, an expression for a parameter that the body
assigns, which takes one variable; or a macro with more than 16 parameters is called.
Do: compare the CALL with the MACRO line.
For example, from line 3 on:
  M(UP)=MACRO/Z
  GOTO/0,0,Z
  ENDMAC
  CALL/M(UP)
gives: E19 BadArguments line 6
For example, from line 3 on:
  M(UP)=MACRO/Z
  GOTO/0,0,Z
  ENDMAC
  CALL/M(UP),120
gives: ok 2 statements",
    },
    Entry {
        keys: &["E20", "TooLong"],
        text: "E20 TooLong
With all macros expanded the program has more than 20,000 statements, DECL lines and
calls, or calls stand more than 16 deep in each other. With `--whole` it is told how
many statements the text is put as, several for each of its own.
Do: put calls that repeat into a DO. A loop is counted once, however often it runs.",
    },
    Entry {
        keys: &["E21", "TooManyNames"],
        text: "E21 TooManyNames
More than 4,096 variables, features or frames. Each expansion of a macro has variables
of its own for the DECLs in it.
Do: declare a variable that all calls may share outside the macro; use one feature
again.",
    },
    Entry {
        keys: &["E22", "Unsupported"],
        text: "E22 Unsupported
A statement, word or field of the standard that vcm knows and doesn't carry out: other
units than MM and ANGDEC, other features than POINT, POL, a kind of variable beside
INTGR, LONG, REAL, DOUBLE and BOOL, SNSET with another word than APPRCH, RETRCT, SEARCH,
DEPTH, MEAS with another count than 1, OBTAIN of another word than 3 to 8, TEXT to
another place than OPER, OUTPUT of two things.
Do: leave it out for the trial, or write it with what there is. The line told is the
first one; run `vcm check` again for the next.
For example, from line 3 on:
  UNITS/INCH,ANGDEC
gives: E22 Unsupported line 3",
    },
];

// Explanations of lines: E00 to E04.
pub(crate) fn line_entries() -> &'static [Entry] {
    &LINE
}

// Explanations of how statements are written: E05 to E08.
pub(crate) fn spelling_entries() -> &'static [Entry] {
    &SPELLING
}

// Explanations of values: E09 to E11.
pub(crate) fn value_entries() -> &'static [Entry] {
    &VALUE
}

// Explanations of order and names: E12 to E14.
pub(crate) fn name_entries() -> &'static [Entry] {
    &NAME
}

// Explanations of kinds and blocks: E15 to E18.
pub(crate) fn block_entries() -> &'static [Entry] {
    &BLOCK
}

// Explanations of arguments and sizes: E19 to E22.
pub(crate) fn size_entries() -> &'static [Entry] {
    &SIZE
}
