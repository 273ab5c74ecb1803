//! What the line below a refusal of order, names, kinds or blocks means.

use crate::entry::Entry;

const NAMES: [Entry; 4] = [
    Entry {
        keys: &[
            "no FEAT names",
            "no DECL names",
            "no MACRO names",
            "no frame is saved as",
            "no label",
        ],
        text: "no FEAT names
A line below `E14 UnknownName`: the name that isn't there. `no DECL names X` tells a
variable, `no FEAT names F(X)` a feature, `no frame is saved as D(X)` a frame, `no MACRO
names M(X)` a macro, and `no label (X) stands here` a jump label. Where another name that
may stand there differs in few letters, at most a third of them, it is told with its
line, as in `F(CIRC1) of line 52 is near`.",
    },
    Entry {
        keys: &["is declared in line"],
        text: "is declared in line
A line below `E13 DuplicateName`: the name that is declared again, and the line that
declares it first. Of a parameter that is the line of the MACRO.",
    },
    Entry {
        keys: &[
            "INTGR",
            "REAL",
            "BOOL",
            "- BOOL",
            "+ BOOL",
            ".NOT. INTGR",
            ".NOT. REAL",
        ],
        text: "INTGR, REAL, BOOL
The kinds of values: whole numbers, numbers with a point, truth values. Below `E15
BadType` a line tells which kinds meet: `INTGR + BOOL` is an operator between two values,
`REAL * REAL` a product of two lengths, which there isn't, `- BOOL` a sign in front of
one, and `REAL where BOOL is wanted` a value in a place that takes another kind.",
    },
    Entry {
        keys: &["argument"],
        text: "argument
A line below `E19 BadArguments`: which argument, counted from 1, doesn't fit the macro.
For a parameter in apostrophes a name is wanted, for one that the macro assigns to a
variable, for any other an expression.",
    },
];

const BLOCKS: [Entry; 5] = [
    Entry {
        keys: &["of line"],
        text: "of line
A line below a refusal, about something in another line. `DO of line 78 has no ENDDO`: the
block that is opened there isn't closed. `(L) of line 30 stands in the block of line 28`:
the label of a jump, and the block into which it would lead. `MEAS of line 20 has 2
PTMEAS`: it wants just one. `M(A) of line 5 has 8 parameters, 7 are given`: a CALL of it
has to have as many arguments. `ENDFIL of line 90 stands above it`: nothing stands below.",
    },
    Entry {
        keys: &["stands in", "closes no"],
        text: "stands in
A line below `E16 Unbalanced`, `E12 BadOrder` or `E18 MeasBody`, about a word and the blocks
around it. `ENDDO closes no DO`: no DO is open there. `ENDIF stands in the DO of line 78`:
the block that is open there is another one, so that an end is missing above, or this one
is too much. `OUTPUT stands in the MEAS of line 20`: between MEAS and ENDMES there is just
one PTMEAS, and GOTO and GOHOME.",
    },
    Entry {
        keys: &[
            "no UNITS above it",
            "no DMISMN above it",
            "no ENDFIL at the end",
        ],
        text: "no UNITS above it
A line below `E12 BadOrder`: the word that is missing. DMISMN stands first, UNITS above all
that does something, ENDFIL last.",
    },
    Entry {
        keys: &["PTMEAS outside of MEAS", "more than 32 blocks are open"],
        text: "PTMEAS outside of MEAS
A line below a refusal. A PTMEAS stands between MEAS and ENDMES; and blocks that are open at
once, those of macros that are called with them, are 32 at most.",
    },
    Entry {
        keys: &["more faults of names and blocks may follow"],
        text: "more faults of names and blocks may follow
The last line of `vcm check --all`, where it has told 100 faults of order, names, kinds and
blocks: it looks for no more.
Do: mend these, and check again.",
    },
];

/// Names, kinds and arguments.
pub(crate) fn name_about_entries() -> &'static [Entry] {
    &NAMES
}

/// Blocks and order.
pub(crate) fn block_about_entries() -> &'static [Entry] {
    &BLOCKS
}
