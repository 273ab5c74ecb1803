//! What the heads and lines of a survey mean, but for its reasons.

use crate::entry::Entry;

const SURVEY: [Entry; 5] = [
    Entry {
        keys: &["faults of form", "fault"],
        text: "fault
A group of `vcm survey`: statements whose form `vcm check` refuses, with its code. They
stay in the adapted text, which is refused until they are put right.",
    },
    Entry {
        keys: &["names", "is the point of line"],
        text: "names
A group of `vcm survey` and `vcm adapt`: `F(A_LONG_NAME_OF_IT_1) is F(A_LONG_NAME_O_01)`
says which name stands for one that is too long or has other characters.
`F(PLN1_1) is the point of line 45` is a point that `--touch` measures by itself.",
    },
    Entry {
        keys: &["rounded", "numbers, by"],
        text: "rounded
A group of `vcm survey` and `vcm adapt`: how many numbers had digits behind the third
decimal, and by how many millimetres one of them was rounded at most. In a product the
difference counts as often as the other factor says.
Do: with `--exact` such statements aren't tried.",
    },
    Entry {
        keys: &["no frame"],
        text: "no frame Z in the text
A line of `vcm survey` and `vcm adapt` with `--frame Z=..`: no statement of the text
makes a frame of this name, as D(Z)=DATSET/.. does, so the place isn't used.
Do: look at the name. Where the text recalls a frame that another program made, take
`--whole`.",
    },
    Entry {
        keys: &["home =", "home"],
        text: "home
A line of `vcm part`: where the centre of the tip stands before the run, and where
GOHOME goes, in millimetres on the machine. In `vcm survey` the place that the FROM of
this line says, in micrometres.
Do: write that line into the part file, `home = [0, 0, 100000]`.",
    },
];

const CAUTIONS: [Entry; 1] = [Entry {
    keys: &[
        "look at",
        "the way to here begins",
        "MODE/AUTO: the machine",
        "SNSLCT: the tool",
        "PRCOMP/OFF: points",
        "FLY: the machine",
        "ERROR: a jump",
        "CRSLCT: another carriage",
        "CZSLCT: the machine",
    ],
    text: "look at
The last group of `vcm survey` and `vcm adapt`: lines at which the machine may do what
isn't tried, and which a planner has to judge. `the way to here begins at home`, or
where another line left the probe: what stands before wasn't tried, so the machine comes
from elsewhere. The other lines tell of a change of the tool, of rounded corners, of
another carriage and the like.
Do: look whether the way that the machine goes there is free.",
}];

const READING: [Entry; 7] = [
    Entry {
        keys: &[
            "notice: no UNITS:",
            "notice: no MODE:",
            "notice: no SNSLCT:",
            "no UNITS:",
            "no UNITS, no MODE",
            "no MODE:",
            "no SNSLCT:",
        ],
        text: "no UNITS, no MODE, no SNSLCT
With `--whole`: before it moves the text doesn't say its unit, its mode or its sensor.
Lengths are then millimetres, the mode is a programmed one, and the tip is that of the
part file. With a file of several probes none is on before the first SNSLCT.
Do: look whether the machine has it so at the start.",
    },
    Entry {
        keys: &[
            "notice: the sensor of line",
            "notice: the width of the tip of line",
            "notice: no SNSDEF",
            "the sensor of line",
            "the width of the tip of line",
            "no SNSDEF",
        ],
        text: "the sensor of line
With `--whole`: the SNSLCT of this line selects a sensor whose tip has another width, in
millimetres, than the one that is tried. Or the text doesn't say its width as a number.
The tip of the part file, or of the probe file, is tried all the same.
Do: write half the width of that tip as `tip` into the part file, or give a file of
several probes.",
    },
    Entry {
        keys: &[
            "notice: lengths in",
            "notice: numbers with more than three decimals",
            "lengths in",
            "numbers with more than three decimals",
        ],
        text: "lengths in
With `--whole`: the text is in another unit than millimetres, in several ones, or has
numbers with more than three decimals, or functions. Each length is rounded to whole
micrometres as a whole; values that the text reckons stay as they are.",
    },
    Entry {
        keys: &["notice: not looked at", "not looked at"],
        text: "not looked at
With `--whole`: words of the text that may change where the machine goes, and aren't
followed. They are corners that are rounded (FLY, FINPOS), compensations, what follows a
fault (ERROR, BADTST), qualifications (CALIB), and SNSET/DEPTH.
Do: look for these words in the text.",
    },
    Entry {
        keys: &["notice: taken as harmless", "taken as harmless"],
        text: "taken as harmless
With `--whole --harmless WORD`: statements that go by this word, or CALLs of this name,
were passed over, as if they moved and set nothing. Whether that is so vcm doesn't know.",
    },
    Entry {
        keys: &["notice: names shortened", "names shortened"],
        text: "names shortened
With `--whole`: names have at most 16 characters here, so these longer ones are written
short within vcm. What is printed of the run has the long names again.",
    },
    Entry {
        keys: &["may be lost or isn't tried"],
        text: "may be lost or isn't tried
A line of `vcm check --whole`: the motions of these lines may not be tried. Or something
gets lost at these lines that later ones need, as the frame or a value.
Do: `vcm run --whole` tells at its end which motions weren't tried, and why.",
    },
];

// Explanations of what a planner has to look at.
pub(crate) fn caution_entries() -> &'static [Entry] {
    &CAUTIONS
}

// Explanations of the heads of a survey.
pub(crate) fn survey_entries() -> &'static [Entry] {
    &SURVEY
}

// Explanations of how producers' texts are read.
pub(crate) fn reading_entries() -> &'static [Entry] {
    &READING
}
