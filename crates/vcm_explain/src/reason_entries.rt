//! What the reasons of a survey mean: why statements are put otherwise, left out or not tried.

use crate::entry::Entry;

const FRAMES_PUT: [Entry; 4] = [
    Entry {
        keys: &["the machine's frame"],
        text: "the machine's frame
A reason of `vcm survey`: DATSET/MCS becomes a TRANS by nothing, which saves the
machine's frame under this name. Later ones, and a RECALL of theirs, become a RECALL of
the first. Where none can be recalled, it isn't tried.",
    },
    Entry {
        keys: &["a frame given with --frame"],
        text: "a frame given with --frame
A reason of `vcm survey`: this DATSET becomes a TRANS from the machine's frame to the
place that `--frame` says, in millimetres, and with a turn a ROTATE besides.",
    },
    Entry {
        keys: &["frames by measured points"],
        text: "frames by measured points
A reason of `vcm survey`: DATDEF reads a coordinate of a point that was measured along
an axis, and DATSET becomes a TRANS by such coordinates.",
    },
    Entry {
        keys: &["GOTARG:"],
        text: "GOTARG
A reason of `vcm survey`: GOTARG becomes a comment, the moves behind it stay, and ENDGO
becomes the GOTO to the place of GOTARG.",
    },
];

const POINTS_PUT: [Entry; 5] = [
    Entry {
        keys: &["features of several points, approached"],
        text: "features of several points, approached
A reason of `vcm survey`: each PTMEAS of this MEAS becomes a GOTO to its approach point,
in front of it by SNSET/APPRCH and half the width of the tip. MEAS and ENDMES become
comments. The touch, and the way back from it, aren't tried.
Do: with `--touch` points along an axis are touched. Give the tip by `--tip` or
`--part`.",
    },
    Entry {
        keys: &["directions that aren't along an axis, approached"],
        text: "directions that aren't along an axis, approached
A reason of `vcm survey`: the point is slanted. A GOTO to its approach point stands for
it; the touch, and the way back from it, aren't tried.",
    },
    Entry {
        keys: &["features of several points, touched"],
        text: "features of several points, touched
A reason of `vcm adapt --touch`: each PTMEAS along an axis becomes FEAT, MEAS, PTMEAS
and ENDMES of a point of its own. `names` lists them, as
`F(PLN1_1) is the point of line 45`.",
    },
    Entry {
        keys: &["OUTPUT with tolerances"],
        text: "OUTPUT with tolerances
A reason of `vcm survey`: the OUTPUT of a measured point, without its tolerances, stands
for it.",
    },
    Entry {
        keys: &["ABS in a test"],
        text: "ABS in a test
A reason of `vcm survey`: `IF/(ABS(a).GT.b)` becomes `IF/(a.GT.b.OR.-(a).GT.b)`, and so
do GE, LT and LE.",
    },
];

const NUMBERS_PUT: [Entry; 6] = [
    Entry {
        keys: &["digits finer than a micrometre, and --exact"],
        text: "digits finer than a micrometre, and --exact
A reason of `vcm survey`: with `--exact` a statement isn't tried whose numbers have
digits behind the third decimal.
Do: leave `--exact` out, and they are rounded to the micrometre.",
    },
    Entry {
        keys: &["digits finer than a micrometre"],
        text: "digits finer than a micrometre
A reason of `vcm survey`: numbers with digits behind the third decimal are rounded to
the micrometre, half away from zero. In a product the difference counts as often as the
other factor says. `rounded` tells how many there are, and by how much.",
    },
    Entry {
        keys: &["names over 16 characters"],
        text: "names over 16 characters
A reason of `vcm survey`: names have 16 letters, digits and underscores at most, so a
shorter one stands for a longer one. `names` lists them.",
    },
    Entry {
        keys: &["inches"],
        text: "inches
A reason of `vcm survey`: the text is in inches. UNITS/MM stands for UNITS/INCH, and
lengths that are written out are multiplied by 25.4.",
    },
    Entry {
        keys: &["numbers with exponents"],
        text: "numbers with exponents
A reason of `vcm survey`: a number as 1.5E+2 is spelled out, as 150, and rounded where
it is finer than a micrometre.",
    },
    Entry {
        keys: &["units:"],
        text: "units
A reason of `vcm survey`: UNITS of other lengths than millimetres, or of other angles
than decimal degrees. UNITS/MM,ANGDEC stands for it where the lengths are in millimetres
and nothing in the text turns; else it isn't tried.
Do: take `--whole`, which converts texts in INCH, FEET, CM and M.",
    },
];

const REPORTS_LEFT: [Entry; 6] = [
    Entry {
        keys: &["tolerances and evaluation"],
        text: "tolerances and evaluation
A reason of `vcm survey`: TOL, EVAL, BOUND and the like judge what was measured. They
move nothing, so `vcm adapt` makes comments of them.",
    },
    Entry {
        keys: &["reports and files"],
        text: "reports and files
A reason of `vcm survey`: REPORT, OPEN, WRITE, SAVE and the like. They move nothing;
what they write isn't written here.",
    },
    Entry {
        keys: &["who and what is measured"],
        text: "who and what is measured
A reason of `vcm survey`: PARTID, OPERID, LOTID and the like name the part, the people
and the machine. They move nothing.",
    },
    Entry {
        keys: &["fitting and compensation"],
        text: "fitting and compensation
A reason of `vcm survey`: GEOALG says how features are fitted, TECOMP and CUTCOM correct
places, BADTST says what follows a bad point. They are left out, so the machine may go a
little beside the way that is tried.",
    },
    Entry {
        keys: &["datums"],
        text: "datums
A reason of `vcm survey`: DATDEF and DATTRG define a datum, which moves nothing. What
DATSET makes of it stands at the DATSET.",
    },
    Entry {
        keys: &["constructed features"],
        text: "constructed features
A reason of `vcm survey`: CONST, GEOM and EQUATE reckon features of others. They move
nothing; what is asked of such a feature isn't tried.",
    },
];

const FEATURES_LEFT: [Entry; 6] = [
    Entry {
        keys: &["speed"],
        text: "speed
A reason of `vcm survey`: RAPID. vcm asks where the probe goes, and not how fast.",
    },
    Entry {
        keys: &["parts of sensors"],
        text: "parts of sensors
A reason of `vcm survey`: SENSOR, WRIST, EXTENS and the like tell what a sensor is built
of. The tip that is tried is the one of `--tip`, or of the part file.",
    },
    Entry {
        keys: &["settings of scanning"],
        text: "settings of scanning
A reason of `vcm survey`: SCNMOD, SCNSET, SCNPLN and PATH say how the machine scans.
They are left out, and what they change isn't followed. With `--whole`, points after
SCNMOD/ON aren't tried.",
    },
    Entry {
        keys: &["features other than points"],
        text: "features other than points
A reason of `vcm survey`: the FEAT of a plane, a circle and the like is left out. The
points of its MEAS are approached, or touched with `--touch`.",
    },
    Entry {
        keys: &["directions that aren't along an axis"],
        text: "directions that aren't along an axis
A reason of `vcm survey`: the FEAT of a slanted point is left out. Its PTMEAS is
approached.",
    },
    Entry {
        keys: &["output of what isn't measured here"],
        text: "output of what isn't measured here
A reason of `vcm survey`: this OUTPUT tells something that no touched point gives, as a
circle or its tolerance. It moves nothing.",
    },
];

const FLOW_LEFT: [Entry; 6] = [
    Entry {
        keys: &["texts and questions to the operator"],
        text: "texts and questions to the operator
A reason of `vcm survey`: TEXT of another form than `TEXT/OPER,'..'`. It is left out,
and what hangs on an answer isn't tried.
Do: look whether the operator moves the probe or the part there; vcm doesn't.",
    },
    Entry {
        keys: &["settings that are off"],
        text: "settings that are off
A reason of `vcm survey`: a SNSET that switches something off, or one of optics. It
moves nothing.",
    },
    Entry {
        keys: &["text variables"],
        text: "text variables
A reason of `vcm survey`: DECL/CHAR is left out, and a choice by such a variable isn't
tried.
Do: try the text as it stands with `--whole`, which follows comparisons with written
texts.",
    },
    Entry {
        keys: &["flow behind faults"],
        text: "flow behind faults
A reason of `vcm survey`: ERROR says where the machine goes on after a fault. That isn't
tried.",
    },
    Entry {
        keys: &["corners"],
        text: "corners
A reason of `vcm survey`: FLY lets the machine round corners off. The corners themselves
are tried.",
    },
    Entry {
        keys: &["home, which stands in the part file"],
        text: "home, which stands in the part file
A reason of `vcm survey`: FROM says where GOHOME goes, and is left out.
Do: write that place as `home` into the part file. The survey tells it, in micrometres;
of several FROM the last one that is known.",
    },
];

const MACHINE_UNTRIED: [Entry; 8] = [
    Entry {
        keys: &["scanned"],
        text: "scanned
A reason of `vcm survey`: the machine finds the points by itself. It is told of PAMEAS
and SCAN, and of a MEAS without PTMEAS, as such under MODE/AUTO. The way isn't in the
text.",
    },
    Entry {
        keys: &["relative points"],
        text: "relative points
A reason of `vcm survey`: RMEAS measures from what another feature turned out to be, so
its place isn't known before.",
    },
    Entry {
        keys: &["calibration"],
        text: "calibration
A reason of `vcm survey`: CALIB goes to the sphere that the tip is qualified by. Its
place and the way there aren't in the text.",
    },
    Entry {
        keys: &["rotary table"],
        text: "rotary table
A reason of `vcm survey`: ROTAB turns the table with the part, and nothing that moves is
tried after it.
Do: write a program and a part file for each turn of the table. With `--whole`, what
stands above ROTAB is tried, and `--table` says where the table stands.",
    },
    Entry {
        keys: &["other programs"],
        text: "other programs
A reason of `vcm survey`: CALL of what is no macro of this text, INCLUD, EXTFIL,
DMIS/OFF and the like. What they do stands elsewhere; after a CALL the frame isn't
known, nor the approach.
Do: put the other text in its place, or leave it out where it moves and sets nothing.",
    },
    Entry {
        keys: &["zones of the machine"],
        text: "zones of the machine
A reason of `vcm survey`: CZONE and CZSLCT keep the machine to a zone, which isn't
tried.",
    },
    Entry {
        keys: &["values from outside"],
        text: "values from outside
A reason of `vcm survey`: PROMPT, READ, VALUE and the like get a value from the
operator, a file or the machine. What is reckoned of it isn't tried.
Do: write an ASSIGN for it; or take `--whole` with `--given V=5`.",
    },
    Entry {
        keys: &["carriages"],
        text: "carriages
A reason of `vcm survey`: CRGDEF, CRSLCT and the like, of a machine with several
carriages. vcm moves one probe, and no other carriage.",
    },
];

const FRAMES_UNTRIED: [Entry; 7] = [
    Entry {
        keys: &["best fit of frames"],
        text: "best fit of frames
A reason of `vcm survey`: LOCATE and ITERAT fit a frame to what is measured, so it isn't
known before. What moves after it isn't tried, up to the RECALL of a known frame.
Do: take `--whole` with `--frame L=X,Y,Z`.",
    },
    Entry {
        keys: &["motion in a frame that isn't known"],
        text: "motion in a frame that isn't known
A reason of `vcm survey`: above this line stands a frame that isn't tried, so nobody
knows where its places are on the machine.
Do: look for the last frame above, as a DATSET, and say where it lies by
`--frame L=X,Y,Z`, in millimetres on the machine.",
    },
    Entry {
        keys: &["frames by datums"],
        text: "frames by datums
A reason of `vcm survey`: a DATSET of datums that aren't points measured along axes, or
with directions.
Do: say where the frame L lies by `--frame L=X,Y,Z`, with a quarter turn
`--frame L=X,Y,Z,Z90`.",
    },
    Entry {
        keys: &["turns that aren't quarter turns"],
        text: "turns that aren't quarter turns
A reason of `vcm survey`: ROTATE by another angle than a multiple of 90 degrees. What
moves in this frame isn't tried, up to the RECALL of a known one.
Do: turn the workpiece in the part file instead, and write the places without this turn.",
    },
    Entry {
        keys: &["frames that aren't known"],
        text: "frames that aren't known
A reason of `vcm survey`: RECALL of a frame that the text doesn't save, or saves where
it isn't known; or one of another kind, as RECALL/DA or one from a file.
Do: `--frame` at its DATSET; or take `--whole`, where `--frame` says it of a RECALL too.",
    },
    Entry {
        keys: &["measured by hand"],
        text: "measured by hand
A reason of `vcm survey`: after MODE/MAN the operator measures these points, up to the
next MODE. The program says nothing of the way.",
    },
    Entry {
        keys: &["moved by hand"],
        text: "moved by hand
A reason of `vcm survey`: after MODE/MAN the operator moves the probe, up to the next
MODE. Where it stands then isn't known; `look at` tells the first way after it.",
    },
];

const VALUES_UNTRIED: [Entry; 8] = [
    Entry {
        keys: &["kinds of variables"],
        text: "kinds of variables
A reason of `vcm survey`: DECL of another kind than whole numbers, numbers with a point,
truth values and texts. Such variables aren't known.",
    },
    Entry {
        keys: &["functions and texts in a test"],
        text: "functions and texts in a test
A reason of `vcm survey`: an IF by a function or a text isn't tried, with all of its
block. ABS beside a relation is put otherwise.
Do: try the text with `--whole`, which follows some of them.",
    },
    Entry {
        keys: &["functions in expressions"],
        text: "functions in expressions
A reason of `vcm survey`: SQRT, COS and the like aren't reckoned here. What hangs on the
value isn't tried.
Do: try the text with `--whole`, which follows those of numbers.",
    },
    Entry {
        keys: &["values that aren't known here"],
        text: "values that aren't known here
A reason of `vcm survey`: the statement uses a variable that a question, a file, a
function or a feature which isn't touched gave.
Do: look for the line above that gives it; the reason stands there.",
    },
    Entry {
        keys: &["lengths in inches that aren't written out"],
        text: "lengths in inches that aren't written out
A reason of `vcm survey`: a length in inches is an expression, which can't be multiplied
here. In a text that declares REAL or DOUBLE, or has two units, nothing that moves is
tried.
Do: take `--whole`, which converts expressions too.",
    },
    Entry {
        keys: &["settings that aren't known here"],
        text: "settings that aren't known here
A reason of `vcm survey`: a word of SNSET that vcm doesn't know. What it changes isn't
tried.",
    },
    Entry {
        keys: &["not a word of DMIS that is known here"],
        text: "not a word of DMIS that is known here
A reason of `vcm survey`: no statement of the standard goes by this word, as far as vcm
knows: a slip, or a word of the system's own.
Do: look at the spelling. With `--whole`, `--harmless WORD` passes over it.",
    },
    Entry {
        keys: &["a word of the standard that isn't known here"],
        text: "a word of the standard that isn't known here
A reason of `vcm survey`: GECOMP, PUSH or POP. What they do isn't followed.",
    },
];

const POINTS_UNTRIED: [Entry; 5] = [
    Entry {
        keys: &["SNSET/CLRSRF"],
        text: "SNSET/CLRSRF: the machine adds moves of its own
A reason of `vcm survey`: the machine goes to a clearance surface between points. Those
ways aren't tried, and the motions after them are put as if there were none.
Do: write the GOTO that the machine adds.",
    },
    Entry {
        keys: &["points without a place or direction"],
        text: "points without a place or direction
A reason of `vcm survey`: this PTMEAS has no direction, or no place by X, Y and Z, so
there is no approach point in front of it.
Do: write both, as PTMEAS/CART,x,y,z,i,j,k.",
    },
    Entry {
        keys: &["approach distances that aren't known"],
        text: "approach distances that aren't known
A reason of `vcm survey`: on the ways to this point SNSET/APPRCH isn't the same, or
isn't a number.
Do: set it above the point.",
    },
    Entry {
        keys: &["other forms of GOTO"],
        text: "other forms of GOTO
A reason of `vcm survey`: GOTO by steps, by angles or with words of the head, as
GOTO/INCR or GOTO/POL.
Do: write the place by X, Y and Z, or take `--whole`, which follows some of them.",
    },
    Entry {
        keys: &["GOTARG and ENDGO without each other"],
        text: "GOTARG and ENDGO without each other
A reason of `vcm survey`: a GOTARG without its ENDGO, or the other way round, or with
more than moves and speeds between them.",
    },
];

// Frames that are put otherwise.
pub(crate) fn frame_put_entries() -> &'static [Entry] {
    &FRAMES_PUT
}

// Points, outputs and tests that are put otherwise.
pub(crate) fn point_put_entries() -> &'static [Entry] {
    &POINTS_PUT
}

// Numbers, names and units that are put otherwise.
pub(crate) fn number_put_entries() -> &'static [Entry] {
    &NUMBERS_PUT
}

// Reports, names and datums that are left out.
pub(crate) fn report_left_entries() -> &'static [Entry] {
    &REPORTS_LEFT
}

// Features and sensors that are left out.
pub(crate) fn feature_left_entries() -> &'static [Entry] {
    &FEATURES_LEFT
}

// Texts, faults, corners and home, which are left out.
pub(crate) fn flow_left_entries() -> &'static [Entry] {
    &FLOW_LEFT
}

// What the machine does by itself.
pub(crate) fn machine_untried_entries() -> &'static [Entry] {
    &MACHINE_UNTRIED
}

// Frames that aren't known, and what is done by hand.
pub(crate) fn frame_untried_entries() -> &'static [Entry] {
    &FRAMES_UNTRIED
}

// Values that aren't known.
pub(crate) fn value_untried_entries() -> &'static [Entry] {
    &VALUES_UNTRIED
}

// Points and motions that aren't known.
pub(crate) fn point_untried_entries() -> &'static [Entry] {
    &POINTS_UNTRIED
}
