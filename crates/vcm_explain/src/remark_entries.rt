//! What remarks on measurements mean.

use crate::entry::Entry;

const REMARKS: [Entry; 2] = [
    Entry {
        keys: &["remark"],
        text: "remark
A line of `vcm points`, behind the rows: a point is measured otherwise than its FEAT says, and
the run may be right all the same. The place of a PTMEAS is farther from that of the FEAT than
the approach distance, or its direction is another one: often a line was copied, and a name or a
number in it wasn't changed. A FEAT is measured again, so the first point is lost, or never. A
DO has no round: its first value is past the last one each time. `--quiet` leaves remarks out.",
    },
    Entry {
        keys: &["aside"],
        text: "aside
A column of `vcm points`: how far the touched place lies beside the line through the nominal
one along the direction of the measurement, in millimetres. The deviation, which is along that
line, tells nothing of it. Both are empty where the column `frame` is `other`: then the FEAT was
carried out in another frame than the PTMEAS.",
    },
];

/// Those of remarks on measurements.
pub(crate) fn remark_entries() -> &'static [Entry] {
    &REMARKS
}
