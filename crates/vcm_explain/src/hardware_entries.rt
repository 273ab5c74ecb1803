//! What a refusal of a description of what hangs on the head means.

use crate::entry::Entry;

const FORM: [Entry; 4] = [
    Entry {
        keys: &["H00"],
        text: "H00 NoMemory
Memory ran out while the description was read: `no memory`, status 5.",
    },
    Entry {
        keys: &["H01"],
        text: "H01 NotToml
The description isn't TOML, or isn't UTF-8, or has a whole number outside 64 bits.
For example, a description:
  [[head]
gives: H01 NotToml",
    },
    Entry {
        keys: &["H02"],
        text: "H02 BadKey
A key is missing where it has to stand, or its value isn't what it has to be. Lengths are
whole micrometres, angles whole thousandths of a degree: 45 degrees are 45000. Names of
heads, parts and tips have 1 to 16 letters, digits, `-` and `_`; those of probes have up
to 64, and `+` and `.` too.
For example, a description:
  step = 2000
  [[part]]
  name = \"shaft\"
  from = [0, 0, 0]
  to = [0, 0, -50.5]
gives: H02 BadKey part 1 to",
    },
    Entry {
        keys: &["H03"],
        text: "H03 OutOfRange
A number is out of its range: `step` is 100 to 1,000,000, a coordinate at most 1,000,000
(1 m) from the turning centre, a diameter 0 to 1,000,000, that of a tip to 100,000, the
number of a probe 1 to 999,999, and an angle from -180,000 to 180,000.
For example, a description:
  step = 50
gives: H03 OutOfRange step",
    },
];

const PARTS: [Entry; 3] = [
    Entry {
        keys: &["H04", "NotAlongAxis"],
        text: "H04 NotAlongAxis
The ends of that part don't differ on just one axis. A part is a cylinder along an axis,
as it hangs at A 0, B 0; one that stands slanted there can't be described.
Do: describe a slanted stylus by a cylinder along an axis that holds it.
For example, a description:
  step = 2000
  [[part]]
  name = \"arm\"
  from = [0, 0, -40000]
  to = [0, 20000, -60000]
gives: H04 NotAlongAxis part 1",
    },
    Entry {
        keys: &["H05"],
        text: "H05 TooManyBoxes
That probe would have so many boxes; a probe file has at most 64 for each of its probes.
Do: give a greater `step`, of thick parts above all.
For example, a description:
  step = 500
  part = [{name = \"shaft\", from = [0, 0, 0], to = [0, 0, -50000], diameter = 1500}]
  tip = [{name = \"T1\", at = [0, 0, -50000], diameter = 3000}]
  probe = [{name = \"T1A45B0\", tip = \"T1\", a = 45000, b = 0}]
gives: H05 TooManyBoxes probe 1 73",
    },
    Entry {
        keys: &["H06"],
        text: "H06 UnknownKey
Another key stands there than may stand there: beside `step`, `turn`, `variable`, `head`,
`part`, `tip` and `probe`; or in one of their tables. A key that is passed over in silence
could be a part that no box holds.
For example, a description:
  steps = 2000
gives: H06 UnknownKey steps",
    },
];

const NAMES: [Entry; 3] = [
    Entry {
        keys: &["H07"],
        text: "H07 DuplicateName
A tip above, or a probe above, has the same name. Parts may share a name, and are then one
body.
For example, a description:
  step = 2000
  part = [{name = \"shaft\", from = [0, 0, 0], to = [0, 0, -50000], diameter = 1500}]
  tip = [{name = \"T1\", at = [0, 0, -50000], diameter = 3000},
  {name = \"T1\", at = [20000, 0, -40000], diameter = 3000}]
gives: H07 DuplicateName tip 2",
    },
    Entry {
        keys: &["H08", "UnknownTip"],
        text: "H08 UnknownTip
No tip has the name that this probe has at `tip`; capitals and small letters count.
For example, a description:
  step = 2000
  part = [{name = \"shaft\", from = [0, 0, 0], to = [0, 0, -50000], diameter = 1500}]
  tip = [{name = \"T1\", at = [0, 0, -50000], diameter = 3000}]
  probe = [{name = \"T2A0B0\", tip = \"T2\", a = 0, b = 0}]
gives: H08 UnknownTip probe 1",
    },
    Entry {
        keys: &["H09", "NotAStep"],
        text: "H09 NotAStep
An angle is no multiple of 7.5 degrees, which is 7500. What an indexing head turns by is a
multiple of that.
For example, a description:
  step = 2000
  turn = 5000
gives: H09 NotAStep turn",
    },
];

const MANY: [Entry; 3] = [
    Entry {
        keys: &["H10"],
        text: "H10 LowAboveHigh
On some axis the low corner of that box, which stands still, is above the high one. Equal
is allowed: a box may be flat.
For example, a description:
  step = 2000
  [[head]]
  name = \"head\"
  low = [-31000, -31000, 120000]
  high = [31000, 31000, 31000]
gives: H10 LowAboveHigh head 1",
    },
    Entry {
        keys: &["H11", "TooMany"],
        text: "H11 TooMany
There are more than 32 boxes that stand still (`head`), parts or tips, or more than 64
probes.
Do: describe what is close together by one box or one part that holds all of it, and
write a file for each group of probes.
For example, a description:
  step = 2000
  head = [{}, {}, {}, {}, {}, {}, {}, {}, {}, {}, {}, {}, {}, {}, {}, {}, {},
  {}, {}, {}, {}, {}, {}, {}, {}, {}, {}, {}, {}, {}, {}, {}, {}]
gives: H11 TooMany head",
    },
    Entry {
        keys: &["H12", "DuplicateNumber"],
        text: "H12 DuplicateNumber
A probe above has the same number. One that says none has its place in the file, from 1.
For example, a description:
  step = 2000
  part = [{name = \"shaft\", from = [0, 0, 0], to = [0, 0, -50000], diameter = 1500}]
  tip = [{name = \"T1\", at = [0, 0, -50000], diameter = 3000}]
  probe = [{name = \"T1A0B0\", tip = \"T1\", a = 0, b = 0, number = 2},
  {name = \"T1A90B0\", tip = \"T1\", a = 90000, b = 0}]
gives: H12 DuplicateNumber probe 2",
    },
];

// Explanations of the form of a description: H00 to H03.
pub(crate) fn hardware_entries() -> &'static [Entry] {
    &FORM
}

// Explanations of parts and boxes: H04 to H06.
pub(crate) fn hardware_part_entries() -> &'static [Entry] {
    &PARTS
}

// Explanations of names and angles: H07 to H09.
pub(crate) fn hardware_name_entries() -> &'static [Entry] {
    &NAMES
}

// Explanations of what stands still, and of how many there may be: H10 to H12.
pub(crate) fn hardware_count_entries() -> &'static [Entry] {
    &MANY
}
