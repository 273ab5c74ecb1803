//! What a refusal of a part file, an image or a listing means.

use crate::entry::Entry;

const PART: [Entry; 4] = [
    Entry {
        keys: &["P00", "NoMemory"],
        text: "P00 NoMemory
Memory ran out while the part file was read: `no memory`, status 5.",
    },
    Entry {
        keys: &["P01", "NotToml"],
        text: "P01 NotToml
The part file isn't TOML, or isn't UTF-8. Numbers are written without blanks or units,
lists in brackets with commas.
At a terminal, with `--talk`, and from `vcm part FILE`, a second line names the file and
the line on which the statement begins that never ends as TOML.
Do: look there for a bracket, a comma or a quotation mark that is missing.
For example, a part file:
  low = -500000, -500000, -500000
gives: P01 NotToml",
    },
    Entry {
        keys: &["P02", "BadKey"],
        text: "P02 BadKey
`low`, `high` or `home` is missing or isn't a list of three whole numbers, `tip` isn't a
whole number, or `block` isn't written as `[[block]]` tables. With a number behind it,
that block's `low` or `high` is meant; blocks count from 1. A number with a point is no
whole number: 10 mm is 10000, not 10.0.
At a terminal, with `--talk`, and from `vcm part FILE`, a second line names the file, the
line and the key, and what it wants.
For example, a part file:
  low = [-500000, -500000, -500000]
  high = [500000, 500000, 500000]
  home = [0, 0, 100.5]
gives: P02 BadKey",
    },
    Entry {
        keys: &["P03", "OutOfRange"],
        text: "P03 OutOfRange
A coordinate is more than 1,000,000,000 micrometres (1 km) from 0, or `tip` is not from
0 to 50,000.
Do: look whether a number is in nanometres or has a digit too many.
For example, a part file:
  low = [-500000, -500000, -500000]
  high = [500000, 500000, 5000000000]
  home = [0, 0, 100000]
gives: P03 OutOfRange",
    },
];

const PLACING: [Entry; 3] = [
    Entry {
        keys: &["P04", "LowAboveHigh"],
        text: "P04 LowAboveHigh
On some axis the low corner is above the high one. Without a number the limits are
meant, else that block. Equal is allowed: a sheet without thickness.
For example, a part file:
  low = [-500000, -500000, -500000]
  high = [500000, 500000, 500000]
  home = [0, 0, 100000]
  [[block]]
  low = [30000, 10000, 0]
  high = [10000, 30000, 20000]
gives: P04 LowAboveHigh block 1",
    },
    Entry {
        keys: &["P05", "TooManyBlocks"],
        text: "P05 TooManyBlocks
The part has more than 4,096 blocks.
Do: join blocks that lie side by side; leave out what the probe doesn't come near.",
    },
    Entry {
        keys: &["P06", "HomeNotClear"],
        text: "P06 HomeNotClear
The probe can't stand at home: it is outside the limits, or it meets a block there. One
common point of its tip and a block is enough.
Do: raise home.
For example, a part file:
  low = [-500000, -500000, -500000]
  high = [500000, 500000, 500000]
  home = [20000, 20000, 20000]
  [[block]]
  low = [10000, 10000, 0]
  high = [30000, 30000, 20000]
gives: P06 HomeNotClear",
    },
];

const IMAGE: [Entry; 5] = [
    Entry {
        keys: &["I00", "NoMemory"],
        text: "I00 NoMemory
Memory ran out while an image was loaded: `no memory`, status 5.",
    },
    Entry {
        keys: &["I01", "BadMagic"],
        text: "I01 BadMagic
An image begins with the four bytes `VCMI`, and this one doesn't.
Do: every command of vcm takes a file without them for a program's text, so you meet this
only from other tools. Build the image anew with `vcm build`.",
    },
    Entry {
        keys: &["I02", "Short"],
        text: "I02 Short
The image ends too early: it was cut off, perhaps while it was copied.
Do: build it anew, or copy it again as a binary file.",
    },
    Entry {
        keys: &["I03", "BadVersion"],
        text: "I03 BadVersion
The image has a version that this vcm doesn't know. It was built by a newer one, or is
damaged.
Do: build it anew from the program with this vcm.",
    },
    Entry {
        keys: &["I04", "BadField"],
        text: "I04 BadField
A field of the image holds a value that it can't have: a kind that isn't one or that the
image's version doesn't have, a name with a wrong letter, a count over its limit.
Do: the image is damaged; build it anew.",
    },
];

const CODE: [Entry; 5] = [
    Entry {
        keys: &["I05", "Trailing"],
        text: "I05 Trailing
There are bytes behind the end of the image.
Do: build it anew. Some ways of copying add bytes, as text mode does.",
    },
    Entry {
        keys: &["I06", "BadIndex"],
        text: "I06 BadIndex
A statement of the image names a variable, feature or frame that its tables don't have.
Do: the image is damaged or was made by hand; build it anew, or see the page on images.",
    },
    Entry {
        keys: &["I07", "BadTarget"],
        text: "I07 BadTarget
A statement of the image goes to a statement that isn't there.
Do: as for I06.",
    },
    Entry {
        keys: &["I08", "BadOperand"],
        text: "I08 BadOperand
An expression of the image doesn't give a value of the kind that its place wants, or
needs too many places.
Do: as for I06.",
    },
    Entry {
        keys: &["I09", "RunsOff"],
        text: "I09 RunsOff
The image has no statements, or its last one isn't ENDFIL, so a run could leave it.
Do: as for I06.",
    },
];

const LISTING: [Entry; 5] = [
    Entry {
        keys: &["L00", "NoMemory"],
        text: "L00 NoMemory
Memory ran out while a listing was read: `no memory`, status 5.",
    },
    Entry {
        keys: &["L01", "BadLine"],
        text: "L01 BadLine
A line of the listing doesn't have the shape of any: a word that isn't one, or one of
SELECT and its cases behind VCM-LISTING 1, two blanks, a blank at the end, a last line
without its line feed.
Do: compare the line with what `vcm list` prints for a program with such a statement.
For example, a listing:
  VCM-LISTING 1
  0 3 GOHOME now
  1 4 ENDFIL
gives: L01 BadLine line 2",
    },
    Entry {
        keys: &["L02", "BadNumber"],
        text: "L02 BadNumber
A number of the line is written otherwise than in plain decimal (`05`, `+5`, `-0`), or
is outside the range of its place.
For example, a listing:
  VCM-LISTING 1
  0 03 GOHOME
  1 4 ENDFIL
gives: L02 BadNumber line 2",
    },
    Entry {
        keys: &["L03", "OutOfOrder"],
        text: "L03 OutOfOrder
The lines of the listing aren't numbered 0, 1, 2, .. in each table, or a table comes
after a later one. Their order is: variables, features, frames, statements.
Do: renumber after you add or take away a line, and the targets (`@5`) with them.
For example, a listing:
  VCM-LISTING 1
  0 3 GOHOME
  2 4 ENDFIL
gives: L03 OutOfOrder line 3",
    },
    Entry {
        keys: &["L04", "NotValid"],
        text: "L04 NotValid
Each line is right by itself, and the whole is no code that can run: a name's index that
isn't there, a target that isn't a statement, an expression of the wrong kind, a last
statement that isn't ENDFIL. The last line is told, wherever the fault is.
For example, a listing:
  VCM-LISTING 1
  0 3 GOTO [I20] [I20 SCALE] [I50 SCALE]
  1 4 ENDFIL
gives: L04 NotValid line 3",
    },
];

// Explanations of part files: P00 to P03.
pub(crate) fn part_entries() -> &'static [Entry] {
    &PART
}

// Explanations of blocks and the home: P04 to P06.
pub(crate) fn placing_entries() -> &'static [Entry] {
    &PLACING
}

// Explanations of images: I00 to I04.
pub(crate) fn image_entries() -> &'static [Entry] {
    &IMAGE
}

// Explanations of the code in an image: I05 to I09.
pub(crate) fn code_entries() -> &'static [Entry] {
    &CODE
}

// Explanations of listings: L00 to L04.
pub(crate) fn listing_entries() -> &'static [Entry] {
    &LISTING
}
