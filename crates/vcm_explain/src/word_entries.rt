//! What words of DMIS mean that vcm reads, and what becomes of them in producers' texts.

use crate::entry::Entry;

const FRONT: [Entry; 5] = [
    Entry {
        keys: &["DMISMN", "ENDFIL"],
        text: "DMISMN, ENDFIL
The first statement of a program, with a text in apostrophes, and its last one, each
once. A run that comes to ENDFIL has ended.",
    },
    Entry {
        keys: &["UNITS", "INCH", "ANGDEC"],
        text: "UNITS
In which units the program gives lengths and angles: `UNITS/MM,ANGDEC`, above all that
moves. A text that is in INCH as a whole is converted by `vcm adapt`, as far as its
lengths are written out. With `--whole` texts in INCH, FEET, CM or M are converted.",
    },
    Entry {
        keys: &[
            "DECL", "LONG", "DOUBLE", "CHAR", "GLOBAL", "COMMON", "LOCAL",
        ],
        text: "DECL
Declares variables: INTGR or LONG, REAL or DOUBLE, and BOOL. They are 0 or .FALSE. at
first. `vcm adapt` leaves variables of texts (CHAR) out; with `--whole` those that are
compared with written texts alone are followed.",
    },
    Entry {
        keys: &["ASSIGN"],
        text: "ASSIGN
`X=ASSIGN/Y+1` gives a variable, which is declared above, the value of an expression. In
a producer's text it isn't tried where the value isn't known, and by `vcm adapt` where a
function stands in it.",
    },
    Entry {
        keys: &["TEXT", "OPER", "QUERY"],
        text: "TEXT
`TEXT/OPER,'..'` is one line of output. Questions (TEXT/QUERY) and other texts to the
operator are left out by `vcm adapt`, and what hangs on an answer isn't tried. With
`--whole` the answer is given by `--given`, as `--given V=5`.",
    },
];

const MOVING: [Entry; 6] = [
    Entry {
        keys: &["GOTO", "INCR"],
        text: "GOTO
`GOTO/x,y,z` and `GOTO/CART,x,y,z` are straight moves of the tip's centre to a place in
the current frame. Steps (INCR) along an axis and polar places (POL) are followed with
`--whole`; `vcm adapt` doesn't try them.",
    },
    Entry {
        keys: &["GOHOME", "FROM"],
        text: "GOHOME, FROM
GOHOME is a straight move to home, which the part file has. FROM says another home:
`vcm adapt` leaves it out, and the survey tells what to write as `home`. With `--whole`
GOHOME goes to the place that FROM says.",
    },
    Entry {
        keys: &["GOTARG", "ENDGO"],
        text: "GOTARG, ENDGO
GOTARG says where the probe goes at last, ENDGO goes there, and the moves between lead
round what is in the way. `vcm adapt` writes a GOTO for ENDGO; with `--whole` both are
followed.",
    },
    Entry {
        keys: &["FLY", "FINPOS"],
        text: "FLY, FINPOS
FLY, and FINPOS/OFF, let the machine round corners off. vcm goes to the corners
themselves, so the machine may come nearer to what lies inside a corner. `vcm adapt`
leaves FLY out; with `--whole` a notice names both.",
    },
    Entry {
        keys: &["MODE", "MAN", "PROG", "AUTO"],
        text: "MODE
Who leads the probe: the program (PROG), the machine by itself (AUTO) or the operator
(MAN). It has no effect in a program of vcm's own. In a producer's text nothing that
moves is tried after MODE/MAN, up to the next MODE. With `--whole` no points are tried
under MODE/AUTO, unless `--auto` says that the machine takes none of its own.",
    },
    Entry {
        keys: &["FEDRAT", "ACLRAT"],
        text: "FEDRAT, ACLRAT
Speed and acceleration. They have no effect: vcm asks where the probe goes, and not
when.",
    },
];

const BLOCKS: [Entry; 5] = [
    Entry {
        keys: &["IF", "ELSE", "ENDIF"],
        text: "IF, ELSE, ENDIF
A choice by a truth value in parentheses, as `IF/(I.EQ.3)`. In a producer's text an IF
by a value that isn't known isn't tried, with all of its block.",
    },
    Entry {
        keys: &["DO", "ENDDO"],
        text: "DO, ENDDO
A loop: `DO/I,1,4` has the rounds 1 to 4, and a fourth field is the increment. Limit and
increment are evaluated once, before the first round.",
    },
    Entry {
        keys: &["JUMPTO"],
        text: "JUMPTO
A jump to a label, as `JUMPTO/(END)`, which stands in the same block or in one around
it. With `--whole` a choice by something that isn't known ends the run where one of its
blocks has a jump, since it isn't known how the program goes on.",
    },
    Entry {
        keys: &["SELECT", "CASE", "ENDCAS", "DFTCAS", "ENDSEL"],
        text: "SELECT, CASE, ENDCAS, DFTCAS, ENDSEL
A choice among blocks by a whole number. The block of the first CASE with that number is
carried out, or else that of DFTCAS. With `--whole` a CASE may have several values, or
texts.",
    },
    Entry {
        keys: &["MACRO", "ENDMAC", "CALL"],
        text: "MACRO, ENDMAC, CALL
A macro, and a call of it: its statements stand in place of the call, with the arguments
in place of the parameters. `'P'` in quotes stands for the name of a feature or frame. A
CALL of another program isn't followed; with `--whole --harmless NAME` it is passed
over.",
    },
];

const FRAMES: [Entry; 3] = [
    Entry {
        keys: &["TRANS", "ROTATE", "XORIG", "YORIG", "ZORIG"],
        text: "TRANS, ROTATE
`D(A)=TRANS/XORIG,5` shifts the part coordinates along their own axes,
`D(A)=ROTATE/ZAXIS,90` turns them by quarter turns. The new frame is current from there
on, and saved under its name. In producers' texts, what moves in a frame with another
turn isn't tried.",
    },
    Entry {
        keys: &["RECALL"],
        text: "RECALL
`RECALL/D(A)` makes a saved frame current again. In a producer's text, where that frame
isn't known, all that moves after it isn't tried; frames of a file or another program
are such. With `--whole`, `--frame` says where one lies.",
    },
    Entry {
        keys: &["DATDEF", "DATSET"],
        text: "DATDEF, DATSET
DATDEF makes a measured feature a datum, and DATSET makes a frame of datums. It is
followed where each datum is a point that was measured along an axis and gives an
origin.
Do: else say where the frame lies by `--frame A=100,50,0`, in millimetres.",
    },
];

const MEASURING: [Entry; 5] = [
    Entry {
        keys: &["FEAT", "POINT"],
        text: "FEAT
`F(P)=FEAT/POINT,CART,x,y,z,i,j,k` declares a point with its direction out of the
material, along an axis. Other features, and slanted points, are left out by
`vcm adapt`; their PTMEAS are approached. OUTPUT prints a feature in the same form.",
    },
    Entry {
        keys: &[
            "CIRCLE", "PLANE", "CYLNDR", "SPHERE", "CONE", "ARC", "ELLIPS", "CPARLN", "PARPLN",
            "TORUS", "GCURVE", "GSURF", "RCTNGL", "EDGEPT", "SYMPLN", "PATERN",
        ],
        text: "CIRCLE, PLANE, CYLNDR, SPHERE and other features
A feature of several points. vcm fits none, and `vcm check` refuses it. `vcm adapt`
leaves its FEAT out and approaches each PTMEAS of its MEAS, with `--touch` touches those
along an axis. With `--whole` each PTMEAS along an axis is a touch of its own.",
    },
    Entry {
        keys: &["MEAS", "PTMEAS", "ENDMES"],
        text: "MEAS, PTMEAS, ENDMES
One point: the probe goes in front of the place of PTMEAS, along its direction until it
touches, and back. A program of vcm has MEAS/POINT with one PTMEAS. Of a MEAS of several
points `vcm adapt` approaches each, or touches it with `--touch`; with `--whole` each is
a touch.",
    },
    Entry {
        keys: &["SNSET", "APPRCH", "RETRCT", "SEARCH", "DEPTH", "CLRSRF"],
        text: "SNSET
How far in front of a point the probe begins (APPRCH), how far it goes back (RETRCT),
and how far past the place it searches (SEARCH, DEPTH), in millimetres. They are 2 mm at
first, and DEPTH 0. Ways over a clearance surface (CLRSRF) aren't followed. With
`--whole` points want a SNSET above them, or `--apprch`, `--search` and `--retrct`.",
    },
    Entry {
        keys: &["OBTAIN", "OUTPUT"],
        text: "OBTAIN, OUTPUT
`X=OBTAIN/FA(P),5` gives a variable word 3 to 8 (x, y, z, i, j, k) of a measured
feature, or of a declared one, F(P). `OUTPUT/FA(P)` prints it. In a producer's text the
value isn't known where the feature wasn't measured in the current frame.",
    },
];

const PROBES: [Entry; 5] = [
    Entry {
        keys: &["SNSLCT", "SNSDEF"],
        text: "SNSLCT, SNSDEF
SNSLCT selects a sensor, SNSDEF describes one. They have no effect: the tip is that of
the part file. With `--whole` and a file of several probes SNSLCT puts the probe of this
name on. Without such a file a change is reported as another tip.",
    },
    Entry {
        keys: &["PRCOMP"],
        text: "PRCOMP
Whether the machine takes the radius of the tip off. It has no effect. After PRCOMP/OFF
the places of points may be those of the tip's centre, and with `--whole` points aren't
tried until PRCOMP/ON.",
    },
    Entry {
        keys: &["WKPLAN"],
        text: "WKPLAN
The plane of angles and arcs. It turns no frame, and has no effect; ROTATE turns a
frame. With `--whole` polar places are tried in the plane of X and Y alone.",
    },
    Entry {
        keys: &["DECPL", "FILNAM", "DISPLY", "VFORM"],
        text: "DECPL, FILNAM, DISPLY, VFORM
How many decimals are shown, the name of the program's file, and what is displayed or
printed where. They have no effect.",
    },
    Entry {
        keys: &["ERROR"],
        text: "ERROR
Says where the machine goes on after a fault, as a missed point. vcm ends a run there,
so such a jump isn't tried. `vcm adapt` leaves it out; with `--whole` a notice names it.",
    },
];

const VALUES: [Entry; 2] = [
    Entry {
        keys: &["POL", "CART"],
        text: "POL, CART
How a place is given: by X, Y and Z (CART), or by a radius, an angle and a height (POL).
Polar places of GOTO and PTMEAS are followed with `--whole`, where radius and angle are
numbers. `vcm check` refuses them, and `vcm adapt` doesn't put them otherwise.",
    },
    Entry {
        keys: &[
            "SIN", "COS", "TAN", "ASIN", "ACOS", "ATAN", "SQRT", "ABS", "DTOR", "RTOD", "NINT",
            "INT", "DBLE", "CONCAT",
        ],
        text: "SIN, COS, SQRT, ABS and other functions
A program of vcm's own has none; `vcm adapt` takes ABS in a test alone. With `--whole`
SQRT, SIN, COS, TAN, DTOR, RTOD, ABS, NINT, INT and DBLE of a number are that value, and
others aren't followed.",
    },
];

// What stands in front of a program.
pub(crate) fn front_word_entries() -> &'static [Entry] {
    &FRONT
}

// Motions, and how they go.
pub(crate) fn moving_word_entries() -> &'static [Entry] {
    &MOVING
}

// Choices, loops, jumps and macros.
pub(crate) fn block_word_entries() -> &'static [Entry] {
    &BLOCKS
}

// Frames.
pub(crate) fn frame_word_entries() -> &'static [Entry] {
    &FRAMES
}

// Features and their points.
pub(crate) fn measuring_word_entries() -> &'static [Entry] {
    &MEASURING
}

// Sensors and settings.
pub(crate) fn probe_word_entries() -> &'static [Entry] {
    &PROBES
}

// Places and functions.
pub(crate) fn value_word_entries() -> &'static [Entry] {
    &VALUES
}
