//! What rows, replies and texts mean that show something of a run.

use crate::entry::Entry;

const ROWS: [Entry; 6] = [
    Entry {
        keys: &["row", "step,statement", "step,line"],
        text: "row
The heading or a row of `vcm trace` or `vcm points`, with commas between its fields. Of
a trace: the step, the number of the statement, its source line, its word, where the
centre of the tip stands, and what the step did. Of points: the step, the line, the
feature, where it was to be and where it was touched, the direction, the deviation, and
how far aside it was touched. Lengths are in millimetres.",
    },
    Entry {
        keys: &["VCM-LISTING", "VAR", "FEATURE"],
        text: "VCM-LISTING
A line of `vcm list`: first the version of the form, then variables (VAR), features and
frames with their numbers, then the statements. Each statement has its number, its
source line, its word and its fields; expressions stand in brackets, each operator
behind its values.",
    },
    Entry {
        keys: &["FA(P1)=FEAT/POINT"],
        text: "FA(P1)=FEAT/POINT
A line that OUTPUT prints: the point of this feature as it was touched, in part
coordinates in millimetres, and its direction. In the debugger `FA(P1) undefined` is one
that wasn't measured yet.",
    },
    Entry {
        keys: &["show"],
        text: "show
A variable and its value, as `I 3`, `X -1.500` or `B .TRUE.`: from `vcm run --show`, and
from `show` in the debugger. `T#2 1` is T in the second expansion of a macro.",
    },
    Entry {
        keys: &["pos"],
        text: "pos
What `pos` answers in the debugger: where the centre of the tip stands, in machine and
in part coordinates, and the settings of touching, all in millimetres.",
    },
    Entry {
        keys: &[
            "number has no room",
            "numbers have no room",
            "more points",
            "more names",
            "and",
            "the first",
            "the way of lines",
            "point touched",
            "not reached",
            "hidden block",
        ],
        text: "more points
Texts of `vcm picture`. So many numbers, points, names or lines have no room in it;
`vcm points` lists all points. The picture keeps the last 20,000 pieces of a way. Of a
piece `not reached` the probe had gone no farther; a hidden block lies behind others in
this view.",
    },
];

const REPLIES: [Entry; 4] = [
    Entry {
        keys: &["step", "count"],
        text: "step
A reply of the debugger: how many steps were taken, which statement comes next, and its
source line. With `count` in front, as many steps as were asked for were taken without
another reason to stand still.",
    },
    Entry {
        keys: &["lines"],
        text: "lines
The first line of `vcm survey` tells how many lines and how many statements the text
has. In the debugger `lines 3`, the reply to `out`, tells how many lines the program has
put out; the last of them stand below.",
    },
    Entry {
        keys: &["bye"],
        text: "bye
The last reply of the debugger: the session ends.",
    },
    Entry {
        keys: &[
            "no statement on line",
            "the number of a source line is wanted",
            "no breakpoints",
            "keys that edit",
            "help tells the commands",
            "(vcm)",
        ],
        text: "no statement on line
The debugger at a terminal. A breakpoint wants a source line on which a statement
begins, as `b 6`; lines with a DECL, a comment or a CALL have none. `bs` lists the
breakpoints. Keys that edit a line, and a history, are there with `rlwrap vcm debug ..`,
a program of its own. `help` tells the commands.",
    },
];

const EDITORS: [Entry; 4] = [
    Entry {
        keys: &["standard input is no message"],
        text: "standard input is no message of the debug adapter protocol
What `vcm dap` tells where its input isn't what an editor sends: a message has the head
`Content-Length: N` alone, and then N bytes of JSON. The adapter ends, with status 6.
Do: let an editor start `vcm dap`; by hand use `vcm debug`.",
    },
    Entry {
        keys: &[
            "launch wants",
            "steps is 1 to 1000000",
            "frame, given, apprch",
            "frame, given and harmless",
            "a program is launched already",
            "vcm takes paths",
        ],
        text: "launch wants
What `vcm dap` tells an editor that launches a program in another form than it takes.
`program` and `part` are the whole paths of two files; `steps` is a number; `frame`,
`given` and the other options of `--whole` stand beside `whole`.
Do: mend the launch configuration; EDITORS.md has an example for each editor.",
    },
    Entry {
        keys: &[
            "vcm debugs another file",
            "no statement on this line or below",
            "vcm has no conditions on breakpoints",
            "vcm watches for changes alone",
            "no variable has this name",
        ],
        text: "vcm debugs another file
What `vcm dap` tells an editor of a breakpoint that it can't set. The file isn't the one
of `program`, also where only its path is written otherwise; or no statement follows; or
it has a condition. Of a watch: the name is no variable, or it isn't for changes.
Do: give `program` as a whole path, written as the editor writes it.",
    },
    Entry {
        keys: &[
            "no program is launched",
            "no such variables",
            "no variable, feature or command of this form",
            "evaluate wants expression",
            "the machine has not stopped",
            "vcm doesn't know the request",
            "there are no calls to step out of",
            "as many steps were taken as may be",
        ],
        text: "no program is launched
What `vcm dap` tells an editor that asks for something that isn't there: anything before
a launch, a name, a stop, or a request that it doesn't know. Watch expressions are names
of variables and features, without arithmetic. There are no calls to step out of, since
macros stand expanded. After `as many steps were taken as may be` continue goes on.",
    },
];

// Explanations of rows and of texts in pictures.
pub(crate) fn row_entries() -> &'static [Entry] {
    &ROWS
}

// Explanations of replies of the debugger.
pub(crate) fn reply_entries() -> &'static [Entry] {
    &REPLIES
}

// Explanations of what editors are told.
pub(crate) fn editor_entries() -> &'static [Entry] {
    &EDITORS
}
