//! What a line of an answer means that is no refusal and no stop.

use crate::entry::Entry;

const RESULT: [Entry; 4] = [
    Entry {
        keys: &["position"],
        text: "position
A line of a result: where the centre of the tip stands at the end of the run, in machine
coordinates, in millimetres. After a stop it is the place before the statement that
stopped.",
    },
    Entry {
        keys: &["steps"],
        text: "steps
A line of a result: how many statements were carried out. One that stopped the run isn't
counted; a round of a loop counts each of its statements again.",
    },
    Entry {
        keys: &["ok"],
        text: "ok
A line of `vcm check`: the program is accepted, and has so many counted statements, those
of macros once for each CALL. Lines without effect, declarations and CALLs don't count.",
    },
    Entry {
        keys: &["in"],
        text: "in
A second line, below a refusal: `in part.toml` is the file that was refused. Where it
`looks like a program`, the program stands where a part file is wanted. In `vcm why`,
`contacts`, `clearance` and `margin`, `in M(GRID) from line 8: ..` is a CALL that led to
the statement, the innermost first.",
    },
];

const WHY: [Entry; 12] = [
    Entry {
        keys: &["past a limit"],
        text: "past a limit
A line of `vcm why`: the coordinate of the tip's centre, in machine coordinates, with
which the motion would leave the limits of the part file, and the limit.",
    },
    Entry {
        keys: &[
            "the next block on that line",
            "no block lies farther on that line",
        ],
        text: "the next block on that line
A line of `vcm why`, where a search has touched nothing: which block stands nearest past
its end, and how much farther the tip would have to go to touch it. A number that is as
great as a step of the part, or no block at all, is a sign of another frame or place.",
    },
    Entry {
        keys: &["a retract of"],
        text: "a retract of
A line of `vcm why`, where the way back from a touch meets a block: with SNSET/RETRCT of
that length, or less, it doesn't meet this block.",
    },
    Entry {
        keys: &["an approach of"],
        text: "an approach of
A line of `vcm why`, where the way to an approach point meets a block: with SNSET/APPRCH
of that length, or less, the way from the same place doesn't meet this block.",
    },
    Entry {
        keys: &["no box of the probe"],
        text: "no box of the probe meets a block
The first line of `vcm why --probe` with a file of one probe, where none of its boxes meets
a block before the run ends or stops. Below it stands why the run stops, as without it.",
    },
    Entry {
        keys: &["contact of the tip's centre"],
        text: "contact of the tip's centre
A line of `vcm why`: where the centre of the tip stands as it meets the block, and the
low and the high corner of that block, in machine coordinates, in millimetres.",
    },
    Entry {
        keys: &["contact of"],
        text: "contact of
A line of `vcm why --probe`: where the centre of the tip stands as this box of the probe
meets the block, and the low and the high corner of that block, in machine coordinates.",
    },
    Entry {
        keys: &["way"],
        text: "way
A line of `vcm why`: from where to where the centre of the tip was to go in the motion
that stopped, in machine coordinates, in millimetres.",
    },
    Entry {
        keys: &["free over it", "free"],
        text: "free over it
A line of `vcm why`: from which height, or past which coordinate, on a straight way is
free of the block that was met. Whether another block stands there isn't asked. With
`--probe` it is told of the box that met it, as places of the centre of the tip.",
    },
    Entry {
        keys: &["round"],
        text: "round
A line of `vcm why`, `contacts`, `clearance` and `margin`: in which round of a DO it was,
the first being 1, and the value of the loop's variable there. The innermost loop is told
first.",
    },
    Entry {
        keys: &["the source line"],
        text: "the source line, the calls and the loops
A line of `vcm why`: an image has no text. With `--whole` a text that isn't run as it is
written is run as one; the line of the stop has its number all the same.
Do: give the program in place of the image; of a producer's text look at that line.",
    },
    Entry {
        keys: &["line"],
        text: "line
A line of `vcm why`: the source line of the statement that stopped, as it is written. In
the debugger `line 12` tells the first statement of a source line.",
    },
];

const VIEWS: [Entry; 4] = [
    Entry {
        keys: &["margin"],
        text: "margin
A line of `vcm margin`: the greatest half width of the tip, in micrometres, with which
the run goes as it does. The lines below tell what one micrometre more meets.",
    },
    Entry {
        keys: &["contacts", "contact; behind"],
        text: "contacts
A line of `vcm contacts`: how many contacts were found. After each the motion is taken as
done, so what stands after the first is a guess: the run would have ended there.",
    },
    Entry {
        keys: &["break", "watch"],
        text: "break
A reply of the debugger: a breakpoint at a statement, or a watch of a variable, is set or
cleared. `run` stops at a breakpoint before its statement, and where a watched variable
has changed after the step that changed it.",
    },
    Entry {
        keys: &[
            "fit as they are",
            "have no effect",
            "left out",
            "put otherwise",
            "not tried",
        ],
        text: "not tried
A line of `vcm survey`: what becomes of so many statements. Some fit as they are; some
have no effect; some move nothing and are left out; some `vcm adapt` puts otherwise; and
some aren't tried, so what the machine does there isn't known. `--lines` tells each one
with its reason. After a run with `--whole`: so many motions of these lines weren't tried,
for this cause, since the line that it came about at; `30(3)` is line 30 three times. Where
the statement of that line names a frame, `--frame` says where it lies.",
    },
];

const WHOLE: [Entry; 8] = [
    Entry {
        keys: &["begins elsewhere"],
        text: "begins elsewhere
After a run with `--whole`: these ways were tried, but from where the probe stands in vcm,
since a motion before them wasn't tried or the sensor changed. The machine comes from
elsewhere, and may meet a block on its way there. In `vcm why --whole` it is so of the way
on which the run stops: where the machine's probe stands isn't known since that line.",
    },
    Entry {
        keys: &["another tip since"],
        text: "another tip since
After a run with `--whole`: at these lines another sensor is selected than before. What
comes behind them is tried with the tip of the part all the same, so it says nothing of
another one.",
    },
    Entry {
        keys: &["not in the probe file"],
        text: "not in the probe file
After a run with `--whole` and a file of several probes: this line selects a probe by a
name that the file hasn't. No probe of the file is on behind it, so the run ends before
the next motion with `no probe 0`, unless one is selected before that.",
    },
    Entry {
        keys: &["frame of line"],
        text: "frame of line
A line of `vcm why`: the statement that made the current frame (TRANS, ROTATE or RECALL),
where the frame's origin lies in machine coordinates, and along which axes of the machine
its own go. A point that is missed, or met too soon, often stands in another frame.",
    },
    Entry {
        keys: &["frame"],
        text: "frame
A line of `vcm why --whole`: the frame that is current where the run stops, and the line
at which it was made current. The places of the text are in it. In a session on such a
text, what `known` answers: which frame is current, whether the mode is a programmed one
and the probe's place the machine's, and which variables aren't known.",
    },
    Entry {
        keys: &["all known"],
        text: "all known
In a session on a text with `--whole`: frame, mode, table and place are those of the
machine where the session stands, and each variable has its value.",
    },
    Entry {
        keys: &["usage: the text never asks for", "the text never asks for"],
        text: "the text never asks for
With `--whole`: a frame of `--frame` that no statement takes as it is given, since the text
makes it itself before it asks for it, or has no such frame; or a variable of `--given` that
the operator isn't asked for. What to do: look at the name, or leave the option out.",
    },
    Entry {
        keys: &["a value isn't known"],
        text: "a value isn't known
After a run with `--whole`: the motions hang on an answer, on a value of a feature in
another frame, on a quotient, or on what another program or statement may have done. Of an
IF, DO or SELECT the line is that which opens it: none of its blocks was tried.",
    },
];

// Explanations of the lines of a result, and of second lines.
pub(crate) fn result_entries() -> &'static [Entry] {
    &RESULT
}

// Explanations of the lines of `vcm why`.
pub(crate) fn why_entries() -> &'static [Entry] {
    &WHY
}

// Explanations of the lines of other views, of the debugger and of a survey.
pub(crate) fn view_entries() -> &'static [Entry] {
    &VIEWS
}

const WHOLE_TAKEN: [Entry; 5] = [
    Entry {
        keys: &[
            "notice: sums of decimals are compared as exact ones",
            "sums of decimals are compared as exact ones",
        ],
        text: "sums of decimals are compared as exact ones
With `--whole`: these lines compare a variable that is reckoned of decimals as 0.1. They
are exact here; a machine that counts in binary digits has a little more or less, and may
choose otherwise where both sides are the same. What to do: look whether that may be.",
    },
    Entry {
        keys: &[
            "notice: macros use variables of the main program",
            "macros use variables of the main program",
        ],
        text: "macros use variables of the main program
With `--whole`: these lines of macros use a variable that the main program declares, and
not by DECL/GLOBAL or DECL/COMMON. It is the main program's here; some machines don't see
it there.",
    },
    Entry {
        keys: &["notice: values that are cut off", "values that are cut off"],
        text: "values that are cut off
With `--whole`: the text has quotients, or products with decimals. Each value is cut off at
a thousandth; a length that may lie more than 0.005 mm from the machine's isn't tried.",
    },
    Entry {
        keys: &["approached, not touched"],
        text: "approached, not touched
After a run with `--whole`: the probe went before these points, and not onto them: slanted
points, points with `--approach`, and points whose way back isn't known. Nothing measured
is known by them.",
    },
    Entry {
        keys: &["not reported"],
        text: "not reported
After a run with `--whole`: these OUTPUTs aren't written, since their features weren't
measured in the frame that is the current one there.",
    },
];

// Explanations of what is told of producers' texts as they stand.
pub(crate) fn whole_entries() -> &'static [Entry] {
    &WHOLE
}

// Explanations of what is taken in one way in producers' texts, and of points that weren't touched.
pub(crate) fn taken_entries() -> &'static [Entry] {
    &WHOLE_TAKEN
}
