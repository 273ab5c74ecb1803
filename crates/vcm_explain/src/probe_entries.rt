//! What a refusal of a probe file, or a line of a clearance, means.

use crate::entry::Entry;

const FILE: [Entry; 5] = [
    Entry {
        keys: &["B00"],
        text: "B00 NoMemory
Memory ran out while the probe file was read: `no memory`, status 5.",
    },
    Entry {
        keys: &["B01"],
        text: "B01 NotToml
The probe file isn't TOML, or isn't UTF-8, or has a whole number outside 64 bits.
For example, a probe file:
  [[box]
gives: B01 NotToml",
    },
    Entry {
        keys: &["B02"],
        text: "B02 BadKey
With `box` alone: there is no array of tables `[[box]]`, or it is empty. With the number
of a box: its `name` is missing or isn't a text of 1 to 16 letters, digits, `-` and `_`,
or its `low` or `high` isn't a list of three whole numbers. Lengths are whole
micrometres: 0.7 mm is 700.
For example, a probe file:
  [[box]]
  name = \"shaft\"
  low  = [-0.7, -0.7, 1]
  high = [0.7, 0.7, 50]
gives: B02 BadKey box 1 low",
    },
    Entry {
        keys: &["B03"],
        text: "B03 OutOfRange
A coordinate of a box is more than 10,000,000 micrometres (10 m) from the centre of the
tip.
For example, a probe file:
  [[box]]
  name = \"ram\"
  low  = [-60000, -60000, 20000]
  high = [60000, 60000, 10000001]
gives: B03 OutOfRange box 1 high",
    },
    Entry {
        keys: &["B04"],
        text: "B04 LowAboveHigh
On some axis the low corner of that box is above the high one. Equal is allowed: a box
may be flat.
For example, a probe file:
  [[box]]
  name = \"shaft\"
  low  = [-700, 700, 1000]
  high = [700, -700, 50000]
gives: B04 LowAboveHigh box 1",
    },
];

const NAMES: [Entry; 3] = [
    Entry {
        keys: &["B05", "TooManyBoxes"],
        text: "B05 TooManyBoxes
There are more than 16 boxes. In a file of several probes, told with the number of the
probe, or for the swing: there are more than 64.
Do: join boxes that lie one above the other, or run the program once for each part of
the probe.",
    },
    Entry {
        keys: &["B06", "UnknownKey"],
        text: "B06 UnknownKey
Another key than `box` stands in the probe file, or, with the number of a box, another
than `name`, `low` and `high` in it. A key that is passed over in silence would be a box
that isn't tried. The tip itself stands in the part file, since it may touch. `UnknownKey
probe` is told of a file of several probes where a command takes one probe alone, as
`vcm judge`.
For example, a probe file:
  [[box]]
  name = \"shaft\"
  low  = [-700, -700, 1000]
  hihg = [700, 700, 50000]
gives: B06 UnknownKey box 1 hihg",
    },
    Entry {
        keys: &["B07"],
        text: "B07 DuplicateName
A box above has the same name, or a probe above: `B07 DuplicateName probe 2`. Boxes of one
name are one body in a file of several probes, and may repeat there.
Do: give each box, or probe, a name of its own; the lines of a clearance tell them by their
names.",
    },
];

const SEVERAL: [Entry; 5] = [
    Entry {
        keys: &["B08", "TooManyProbes"],
        text: "B08 TooManyProbes
There are more than 64 probes.
Do: leave out those that the program doesn't choose.
For example, a probe file:
  probe = [
  {}, {}, {}, {}, {}, {}, {}, {}, {}, {}, {}, {}, {}, {}, {}, {}, {}, {}, {}, {},
  {}, {}, {}, {}, {}, {}, {}, {}, {}, {}, {}, {}, {}, {}, {}, {}, {}, {}, {}, {},
  {}, {}, {}, {}, {}, {}, {}, {}, {}, {}, {}, {}, {}, {}, {}, {}, {}, {}, {}, {},
  {}, {}, {}, {}, {},
  ]
gives: B08 TooManyProbes",
    },
    Entry {
        keys: &["B09"],
        text: "B09 DuplicateNumber
A probe above has the same number. The number is the value of the variable by which the
program chooses the probe.
For example, a probe file:
  [[probe]]
  name = \"T1\"
  number = 1
  pivot = [0, 0, 100000]
  [[probe.box]]
  name = \"shaft\"
  low  = [-700, -700, 5000]
  high = [700, 700, 50000]
  [[probe]]
  name = \"T2\"
  number = 1
  pivot = [0, 0, 100000]
  [[probe.box]]
  name = \"shaft\"
  low  = [-700, -700, 5000]
  high = [700, 700, 50000]
gives: B09 DuplicateNumber probe 2",
    },
    Entry {
        keys: &["B10"],
        text: "B10 HomeNotClear
The tip of this probe, which is half as wide as its key `tip` says, meets a block where the
probe is at home. The number counts the probes of the file from 1.
Do: move `home` in the part file, or check `tip`, which is half the diameter of the ball.",
    },
    Entry {
        keys: &["B11", "LimitsTooFar"],
        text: "B11 LimitsTooFar
A limit of the machine, `low` or `high` of the part file, is more than 980 m from 0. A turn
of the head could put the tip farther than a kilometre, where vcm doesn't count.
Do: write the limits that the machine has.",
    },
    Entry {
        keys: &["B12", "NoVariable"],
        text: "B12 NoVariable
The program says by a variable which probe is chosen, and has no INTGR variable of this
name outside of macros. The name is PROBE, unless the probe file says another one with
`variable`.
Do: write DECL/INTGR,PROBE, and PROBE=ASSIGN/1 before the first motion: it chooses the
probe whose `number` is 1.
For example, a probe file:
  variable = \"TOOL\"
  [[probe]]
  name = \"T1\"
  number = 1
  pivot = [0, 0, 100000]
  [[probe.box]]
  name = \"shaft\"
  low  = [-700, -700, 5000]
  high = [700, 700, 50000]
gives: B12 NoVariable TOOL",
    },
];

const TURNS: [Entry; 7] = [
    Entry {
        keys: &["this file has one probe"],
        text: "this file has one probe
Of a probe file without the key `probe` only its boxes could be tried, which `vcm clearance`,
`vcm view` and `vcm why` do. The other commands take files of several probes with `--probe`,
since these change where the tip stands.",
    },
    Entry {
        keys: &["first"],
        text: "first
A line of `vcm clearance` with a file of several probes: after this step a probe is on,
the first of the run. `position` tells where the centre of its tip stands.",
    },
    Entry {
        keys: &["change"],
        text: "change
A line of `vcm clearance` with a file of several probes: after this step another probe is
on. The pivot of the head stays, so the centre of the tip stands elsewhere: the first place
is that of the old one, the second that of the new one. The next way begins there.",
    },
    Entry {
        keys: &["probe", "not used"],
        text: "probe
A line of `vcm clearance` with a file of several probes: how many ways the probe went,
and below it what its boxes meet. `not used` says that it went none, so nothing of it
was tried. In the debugger it is the probe that is on, with its number; `probe none`
before one is put on.",
    },
    Entry {
        keys: &["swing", "changes"],
        text: "swing
A line of `vcm clearance` with a file of several probes. `changes 2` says how often another
probe was put on. Where the head turns for it, the boxes of the swing, which hold all that
turns, are tried about the pivot: `swing head met 1` says at how many turns they meet a
block, `clear 33655` how far their sides may be moved out so that they meet none.",
    },
    Entry {
        keys: &["beyond"],
        text: "beyond
A line of `vcm clearance` with a probe file that has `travel`: at the end of this way the
pivot of the head lies outside those limits, at `position`. The last line counts such
ways. Status 3.
Do: check how far the ram can go, or measure the point with another probe.",
    },
    Entry {
        keys: &["no probe"],
        text: "no probe
The end of a run with a file of several probes: the next statement moves, and the probe
whose number the variable has isn't on, since no probe has this number, or none was
chosen yet. The run ends before it. Status 3.
Do: choose a probe before the first motion, and check the numbers in the probe file.",
    },
];

const LINES: [Entry; 3] = [
    Entry {
        keys: &["contact", "met"],
        text: "contact
A line of `vcm clearance`: on this way of the run a box of the probe enters a block.
`SEARCH` and the like say which way of the step it is, `permille 321` how many
thousandths of the whole way lie before the contact, `position` where the centre of the
tip stands there. A box that stays in a block isn't told again. `box shaft met 4` says
on how many ways it meets a block, told or not. Status 3.
Do: go over or round the block, turn the way, or take a longer or thinner stylus.",
    },
    Entry {
        keys: &["clear", "box"],
        text: "clear
A line of `vcm clearance`: this box of the probe meets no block on any way of the run.
`clear 4299` says that all six sides of it may be moved out by 4,299 micrometres, and it
still meets none; with one more it meets the block that the line below tells, there.
50,000 is the most that is tried, and has no such line.",
    },
    Entry {
        keys: &["ways"],
        text: "ways
A line of `vcm clearance`: how many straight ways the probe went in the run. A move is
one; a measured point is up to three, the approach, the search and the way back. `ways 0`
means that nothing was tried, not even home. With `--whole` it tells too how many motions
of the text weren't tried, here and above the margin of `vcm margin`: `ways 46, not tried 7`,
and from which line on none was. What is clear is clear on the ways that were tried.",
    },
];

// Explanations of the form of a probe file: B00 to B04.
pub(crate) fn box_entries() -> &'static [Entry] {
    &FILE
}

// Explanations of what it holds: B05 to B07.
pub(crate) fn box_name_entries() -> &'static [Entry] {
    &NAMES
}

// Explanations of files of several probes: B08 to B12.
pub(crate) fn several_entries() -> &'static [Entry] {
    &SEVERAL
}

// Explanations of the lines of a clearance with several probes.
pub(crate) fn turning_entries() -> &'static [Entry] {
    &TURNS
}

// Explanations of the lines of a clearance.
pub(crate) fn clearance_entries() -> &'static [Entry] {
    &LINES
}
