//! What the lines about part files and command lines mean.

use crate::entry::Entry;

const WORKPIECE: [Entry; 5] = [
    Entry {
        keys: &["limits"],
        text: "limits
A line of `vcm part`: from where to where the centre of the tip may go on the machine,
in millimetres. They are `low` and `high` of the part file.",
    },
    Entry {
        keys: &["tip"],
        text: "tip
A line of `vcm part`: half the width of the probe's tip, in millimetres. The part file
has it in micrometres, `tip = 2000`; 0 is a tip that is a point.",
    },
    Entry {
        keys: &["blocks of a part"],
        text: "blocks of a part
A line of `vcm part`: how many blocks the part file has, and the least box around all of
them, in millimetres on the machine.
Do: look whether the part lies there, and is as long as the real one.",
    },
    Entry {
        keys: &["block"],
        text: "block
`block 3 is \"clamp\"` tells the name that this block of the part file has. In
`vcm part` the line has its number, its line in the file, its name, its lengths along x,
y and z, and its low corner, in millimetres. Blocks count from 1.",
    },
    Entry {
        keys: &["is not used"],
        text: "is not used
A notice of a part file: nothing uses this key, so what it says has no effect. Often a
name is misspelled, as `tipp`; or a key of the machine stands below `[[block]]`, and
belongs to that block.
Do: mend it, or take it away. With `--strict` such a file is refused.",
    },
];

const REFUSED: [Entry; 6] = [
    Entry {
        keys: &["this is no TOML"],
        text: "this is no TOML
Below `P01 NotToml`: the statement that begins on this line never ends as TOML, or the
reader stopped there.
Do: look for a bracket, a comma or a quotation mark that is missing, or a key that
stands twice.",
    },
    Entry {
        keys: &["a byte here is no UTF-8"],
        text: "a byte here is no UTF-8
Below `P01 NotToml`: on this line of the part file stands a byte that is no UTF-8, as an
umlaut in an older coding.
Do: save the file as UTF-8, or write the word without it.",
    },
    Entry {
        keys: &[
            "low",
            "high",
            "home wants",
            "home is missing",
            "home:",
            "tip wants",
            "tip:",
            "block wants",
        ],
        text: "low, high, home, tip
Below a refusal of a part file: the file, the line, the block if there is one, the key,
and what is wrong with it. `low`, `high` and `home` want three whole numbers of
micrometres, as `[0, 0, 100000]`, at most 1,000,000,000 from 0; `low` isn't above
`high`. `tip` wants one from 0 to 50,000, and each block a heading `[[block]]`.",
    },
    Entry {
        keys: &["at home", "home,"],
        text: "at home
Below `P06 HomeNotClear`: where home is, in millimetres, and why the probe can't stand
there. It lies outside of `low` and `high`, or the tip meets the block that is told.
Do: raise home, or move the block.",
    },
    Entry {
        keys: &["blocks, where 4096 are the most"],
        text: "blocks, where 4096 are the most
Below `P05 TooManyBlocks`: how many blocks the part file has.
Do: join blocks that lie side by side; leave out what the probe doesn't come near.",
    },
    Entry {
        keys: &["--strict refuses"],
        text: "--strict refuses
The part file has keys that nothing uses, which the notices above it tell, and
`--strict` was given. Status 1.
Do: mend these keys, or leave `--strict` out.",
    },
];

const COMMAND_LINE: [Entry; 6] = [
    Entry {
        keys: &[
            "usage: the image can't be written",
            "the image can't be written",
        ],
        text: "the image can't be written to the file that is read
`vcm build` or `vcm asm` was to write an image over the program or listing that it
reads. Nothing is written. Status 2. Names are compared as they are written: a link
isn't seen.
Do: give the image a name of its own, as part.vcmi.",
    },
    Entry {
        keys: &[
            "error:",
            "tip: to pass",
            "tip: a similar",
            "For more information",
        ],
        text: "error
The command line lacks a word that the command wants, or has one that it doesn't take.
The line `Usage` shows the form. Status 2.
Do: `vcm help run` tells what the command takes.",
    },
    Entry {
        keys: &["--whole takes a producer's text"],
        text: "--whole takes a producer's text as it stands
Below a refusal of a statement or a word that vcm's own language doesn't have.
Do: if the text is a producer's, try `vcm run --whole`, which follows such texts and
reports what it didn't try.",
    },
    Entry {
        keys: &["standard input has no line"],
        text: "standard input has no line %%
vcm without words reads a job: a part file, then a line with `%%` alone, then a program.
What came has no such line.
Do: put the two files together, as `(cat part.toml; echo %%; cat program.dmi) | vcm`; or
take `vcm run program.dmi part.toml`.",
    },
    Entry {
        keys: &["reads a job from standard input"],
        text: "reads a job from standard input
vcm was called without words, at a terminal. It waits for a job: a part file, a line
`%%`, and a program.
Do: `vcm help` lists the commands; end the input to leave it.",
    },
    Entry {
        keys: &["vcm explain alone"],
        text: "vcm explain alone prints what is known
Nothing is known of these words. `vcm explain` without words lists what is known: codes,
stops and lines. Numbers and names in a line don't matter.",
    },
];

// Explanations of the lines of `vcm part`.
pub(crate) fn workpiece_entries() -> &'static [Entry] {
    &WORKPIECE
}

// Explanations of second lines about part files.
pub(crate) fn refused_part_entries() -> &'static [Entry] {
    &REFUSED
}

// Explanations of what is told of a command line.
pub(crate) fn command_line_entries() -> &'static [Entry] {
    &COMMAND_LINE
}
