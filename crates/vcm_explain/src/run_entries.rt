//! What a stop, a notice or a fault of a device means.

use crate::entry::Entry;

const MOTION: [Entry; 4] = [
    Entry {
        keys: &["ENDED"],
        text: "ENDED
The program came to its ENDFIL: all moves were free and all points were touched. Status
0.",
    },
    Entry {
        keys: &["COLLISION"],
        text: "COLLISION
On a straight way the tip of the probe meets a block. `block 2` is the second block of
the part file, `permille 666` says that 666 thousandths of the way are free. One common
point is enough: an edge or a face that is only touched counts. MOVE is a GOTO or
GOHOME; APPROACH the way to the point in front of the feature; RETRACT the way back from
the touched point. The position told is the one before the statement. Status 3.
Do: for a MOVE or an APPROACH, add a GOTO that leads round the block or over it. For a
RETRACT, make RETRCT shorter.
For example, from line 3 on, beside part-a.toml of the examples:
  GOTO/20,20,10
gives: stop COLLISION MOVE block 1 permille 888 at 0 line 3
For example, from line 3 on, beside part-a.toml of the examples:
  GOTO/20,20,20.001
gives: stop ENDED",
    },
    Entry {
        keys: &["MISSED"],
        text: "MISSED
The search came to its end and touched nothing. The tip's face begins APPRCH in front of
the nominal place and ends past it by SEARCH or DEPTH, whichever is greater (2 mm at
first). Status 3.
Do: look at the nominal place, at its direction (it leads out of the material) and at
the frame that is current; or make SEARCH longer.
For example, from line 3 on, beside part-a.toml of the examples:
  F(P1)=FEAT/POINT,CART,20,20,23,0,0,1
  MEAS/POINT,F(P1),1
  PTMEAS/CART,20,20,23
  ENDMES
gives: stop MISSED at 2 line 5",
    },
    Entry {
        keys: &["TRAVEL"],
        text: "TRAVEL
A point lies outside the machine's limits, `low` and `high` of the part file: the end of
a MOVE, the point in front of a feature (APPROACH), the end of the search (SEARCH),
whether or not the probe would touch before it, or the point after the touch (RETRACT).
Nothing of the statement was done. Status 3.
Do: change the point, or shorten APPRCH, SEARCH, DEPTH or RETRCT near the limits. Look
at the frame: a shift may be counted twice.
For example, from line 3 on, beside part-a.toml of the examples:
  GOTO/501,0,100
gives: stop TRAVEL MOVE at 0 line 3",
    },
];

const ARITHMETIC: [Entry; 4] = [
    Entry {
        keys: &["OVERFLOW"],
        text: "OVERFLOW
A result doesn't fit into 64 bits. In micrometres that is over nine thousand million
kilometres, so it is hardly ever meant. Status 3.
Do: look for a variable that grows in a loop without end, or a number with digits too
many.
For example, from line 3 on, beside part-a.toml of the examples:
  DECL/INTGR,I
  I=ASSIGN/9223372036854775807+1
gives: stop OVERFLOW at 0 line 4",
    },
    Entry {
        keys: &["DIVZERO"],
        text: "DIVZERO
A division by zero. Both sides of `.AND.` and `.OR.` are always worked out, so a test in
front of it in the same expression doesn't help. Status 3.
Do: ask in an IF of its own first.
For example, from line 3 on, beside part-a.toml of the examples:
  DECL/INTGR,I
  I=ASSIGN/1/0
gives: stop DIVZERO at 0 line 4",
    },
    Entry {
        keys: &["ZEROSTEP"],
        text: "ZEROSTEP
The increment of a DO is 0, so it would never end. Status 3.
For example, from line 3 on, beside part-a.toml of the examples:
  DECL/INTGR,I
  DO/I,1,3,0
  ENDDO
gives: stop ZEROSTEP at 0 line 4",
    },
    Entry {
        keys: &["UNDEFINED"],
        text: "UNDEFINED
Something is read that isn't there yet: `F(P1)` where its FEAT wasn't carried out,
`FA(P1)` where it wasn't measured, `D(D1)` where no TRANS or ROTATE of that name was
carried out. Control didn't come by, or no MEAS of the text measures it. Status 3.
Do: look for the measurement, and at the IFs and jumps around it or the declaration.
For example, from line 3 on, beside part-a.toml of the examples:
  F(P1)=FEAT/POINT,CART,20,20,20,0,0,1
  OUTPUT/FA(P1)
gives: stop UNDEFINED FA(P1) at 1 line 4",
    },
];

const NOTICE: [Entry; 6] = [
    Entry {
        keys: &["BADSETTING"],
        text: "BADSETTING
SNSET gets a length that its setting can't have: APPRCH and RETRCT are 0.001 to 1000 mm,
SEARCH and DEPTH 0 to 1000 mm. Status 3.
For example, from line 3 on, beside part-a.toml of the examples:
  SNSET/RETRCT,0
gives: stop BADSETTING at 0 line 3",
    },
    Entry {
        keys: &["OUTPUTFULL"],
        text: "OUTPUTFULL
The run would print more than 100,000 lines. Status 3.
Do: look for a loop that doesn't end, or divide the run.",
    },
    Entry {
        keys: &["no stop"],
        text: "no stop
`no stop after N steps`: the limit of steps was met, 1,000,000 where `--steps` isn't
given. The position is that after these steps. Status 4.
Do: a program that should have ended has a loop without end: `vcm debug` shows which;
else give a greater `--steps`, at most 1,000,000,000.",
    },
    Entry {
        keys: &["notice: the boxes and the swing of the probes"],
        text: "notice: the boxes and the swing of the probes
With a file of several probes: the head turns in the run, and the tip stands where it puts
it, but shaft, head and swing aren't tried by this command. `vcm clearance` tries them.",
    },
    Entry {
        keys: &["notices"],
        text: "notices
All notices in one line, at a terminal and with `--talk`: so many statements, on these
lines, are taken and do nothing here. Through a pipe, without `--talk`, each has a line
of its own.",
    },
    Entry {
        keys: &["notice"],
        text: "notice
`notice line 3: MODE has no effect`: the statement is taken and does nothing here. These
are MODE, FEDRAT, ACLRAT, FINPOS, PRCOMP, DECPL, FILNAM, DISPLY, WKPLAN, SNSLCT, SNSDEF
and VFORM. Speeds, displays and tools don't change where the probe goes, but look at
PRCOMP, WKPLAN and SNSLCT: a real machine may do something that vcm doesn't. A notice
changes neither the result nor the status.
For example, from line 3 on:
  MODE/MAN
gives: ok 1 statements",
    },
];

const DEVICE: [Entry; 5] = [
    Entry {
        keys: &["no memory"],
        text: "no memory
Memory ran out. `no memory after N steps` is told in a run, `no memory` elsewhere.
Status 5. Standard output is empty, but for what was written before. That may be lines
of a trace, of points, contacts or a clearance, a front of a page, or the replies of a
session. Of several programs the lines of those before stand there. Of `vcm survey`,
`vcm adapt` and a job at a terminal it may be all. Of an image no byte is written.
Do: close other programs, or try on a larger machine. A session goes on: it stands after
the steps that were done, and the command may be given again.",
    },
    Entry {
        keys: &["cannot read"],
        text: "cannot read
The file can't be opened or read. Status 6. The name is printed as it was given.",
    },
    Entry {
        keys: &["cannot write"],
        text: "cannot write
The image or standard output can't be written: a full disk, a folder that isn't there, a
closed pipe. Status 6. An image that was begun may be incomplete.",
    },
    Entry {
        keys: &["input too long"],
        text: "input too long
A file has more than 33,554,432 bytes, a model more than 50,000,084, a session of the
debugger more than 10,000 lines or 1,048,576 bytes of commands, or a message of an editor
more than 1,048,576. Status 6.
Do: for a session, begin a new one; `run K` and breakpoints need fewer lines than single
steps.",
    },
    Entry {
        keys: &["usage"],
        text: "usage
The command line has a form that vcm doesn't know, or asks for something that nothing is
known of. Status 2.
Do: `vcm help` lists the commands, `vcm help run` tells what one of them takes. The N of
`--steps N` is decimal digits alone, a number from 0 to 1000000000.",
    },
];

// Explanations of an end, and of stops by motion.
pub(crate) fn motion_entries() -> &'static [Entry] {
    &MOTION
}

// Explanations of stops by arithmetic and by what was never set.
pub(crate) fn arithmetic_entries() -> &'static [Entry] {
    &ARITHMETIC
}

// Explanations of other stops, and of notices.
pub(crate) fn notice_entries() -> &'static [Entry] {
    &NOTICE
}

// Explanations of memory, of devices and of the command line.
pub(crate) fn device_entries() -> &'static [Entry] {
    &DEVICE
}
