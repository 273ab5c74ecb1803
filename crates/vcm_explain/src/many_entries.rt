//! What the lines of many programs, and of a workpiece off its place, mean.

use crate::entry::Entry;

const MANY: [Entry; 7] = [
    Entry {
        keys: &["at place"],
        text: "at place
A second line, below a refusal: the workpiece can't be at the place that `--place` says. A
block would leave the range of lengths (P03), or home would lie in it (P06). What to do:
move it less, or give the block `fixture = true`, where it stays.",
    },
    Entry {
        keys: &[
            "places of",
            "27 ended",
            "ended, first",
            "come to line",
            "is not come to",
        ],
        text: "places of
Lines of `vcm place`: how many blocks are moved, how many runs ended so, and the first
place of them, in millimetres off the part's own. With `--from-line` it is told too how
many runs come to that line otherwise than the one at the part's own place. What is
measured before it decides there how the program goes on. `line 74 is not come to` says
that the run at the part's own place never comes there.",
    },
    Entry {
        keys: &["judge", "ENDED,", "program,part,status"],
        text: "judge
A line of `vcm judge`, or a heading of `--csv`: the program, and what came of it, as
`vcm run` tells it. Behind that stand how many statements and measured points there
were, and the greatest deviation. `margin` is the greatest half width of the tip with
which the run goes as it does, `clearance` the least room round the boxes of a probe. At
the end: how many motions weren't tried, how many remarks `vcm points` would make, and how
many notices there were. Lengths are in millimetres.
Do: `vcm explain COLLISION` tells more of such a stop.",
    },
    Entry {
        keys: &["deviation"],
        text: "deviation
A line of `vcm place`, and a part of a line of `vcm judge`: the measured point that lies
farthest off its nominal place, along the direction that it was measured in, with its
feature and source line. With the part off its place, a program that is aligned by what it
measured has none; one that isn't has the length that the part was moved by.",
    },
    Entry {
        keys: &["programs", "program", "of"],
        text: "programs
The last line of `vcm judge`: how many programs there were, and how many of them ended,
ended with something untried, or came to another stop. The others ran out of steps, were
refused, wanted memory, or couldn't be read. The status is the worst of theirs. At a
terminal `200 of 500 programs` tells how many were tried so far.",
    },
    Entry {
        keys: &["no part"],
        text: "no part
Of a program of `vcm judge`: its part file isn't there. That of a/b.dmi is a/b.toml. What
to do: give the part file that name, or name one for all programs by `--part`.",
    },
    Entry {
        keys: &["at"],
        text: "at
A line of `vcm clearance`, below a body that is clear. With its sides moved out by so
many micrometres, one more than it has room, the body meets this block, there. In
`vcm margin` a tip of so many micrometres half width, one more than the margin, meets or
measures this.",
    },
];

/// Those of many programs, and of a workpiece off its place.
pub(crate) fn many_entries() -> &'static [Entry] {
    &MANY
}
