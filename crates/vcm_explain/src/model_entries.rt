//! What a refusal of a model, or a line of `vcm blocks`, means.

use crate::entry::Entry;

const FORM: [Entry; 5] = [
    Entry {
        keys: &["M00"],
        text: "M00 NoMemory
Memory ran out while the blocks of a model were worked out: `no memory`, status 5.
Do: give a greater `--within`, or export the model coarser.",
    },
    Entry {
        keys: &["M01", "NotStl"],
        text: "M01 NotStl
The model is no STL: neither a text that begins with `solid` nor a binary file. STEP,
IGES, 3MF and OBJ aren't read.
Do: export the model from CAD as STL.
For example, a model:
  ISO-10303-21;
gives: M01 NotStl",
    },
    Entry {
        keys: &["M02", "BadLength"],
        text: "M02 BadLength
The model is no text, and a binary STL of so many triangles has another length: 84 bytes,
and 50 for each triangle.
Do: the file is cut off, or was changed by a copy as text: export or copy it anew. Where
the number of triangles makes no sense the file is no STL; STEP, IGES and 3MF aren't read.",
    },
    Entry {
        keys: &["M03", "BadText"],
        text: "M03 BadText
On this line of the model, an STL written as text, stands what isn't expected there, or
the text ends there within a solid. A loop has three corners; words are in small letters
or in capitals.
Do: export the model anew, as binary STL where CAD can.
For example, a model:
  solid part
  facet normal 0 0 1
  outer loop
  vertex 0 0 0
  vertex 20 0
gives: M03 BadText line 5",
    },
    Entry {
        keys: &["M04", "NoNumber"],
        text: "M04 NoNumber
A coordinate of this triangle is no number, or is infinite; triangles count from 1.
Do: mend the mesh in CAD, and export it anew.
For example, a model:
  solid part
  facet normal 0 0 1
  outer loop
  vertex 0 0 0
  vertex 20 0 zero
gives: M04 NoNumber triangle 1",
    },
];

const SIZE: [Entry; 5] = [
    Entry {
        keys: &["M05"],
        text: "M05 OutOfRange
A corner of this triangle lies more than 1,000,000,000 micrometres (1 km) from 0 on the
machine; triangles count from 1.
Do: look whether `--unit` and `--at` are right.
For example, a model:
  solid part
  facet normal 0 0 1
  outer loop
  vertex 0 0 0
  vertex 20 0 2000000
gives: M05 OutOfRange triangle 1",
    },
    Entry {
        keys: &["M06", "NoTriangles"],
        text: "M06 NoTriangles
The model has no triangle.
Do: look whether a body was chosen when it was exported.
For example, a model:
  solid part
  endsolid part
gives: M06 NoTriangles",
    },
    Entry {
        keys: &["M07", "TooManyTriangles"],
        text: "M07 TooManyTriangles
The model has more than 1,000,000 triangles.
Do: export it coarser, or in pieces: a call of `vcm blocks` for each of them, `--into` what
the one before wrote.",
    },
    Entry {
        keys: &["M08"],
        text: "M08 TooManyBlocks
Within this length, in millimetres, the model takes more blocks than `--most` allows, or
than a part file has room for beside its own: 4,096 in all. Where `--within` isn't given,
it does so at each finer length too.
Do: give a greater `--within`, or leave out of the model what the probe doesn't come near.",
    },
    Entry {
        keys: &["M09"],
        text: "M09 TooFine
Within this length, in millimetres, the grid that the blocks are made of would have more
than 268,435,456 elements.
Do: give a greater `--within`, or fewer points for `--near`.",
    },
];

const WRITING: [Entry; 3] = [
    Entry {
        keys: &["M10", "NotAdded"],
        text: "M10 NotAdded
The text that would be written, read as a part file, isn't the part with these blocks
after its own. So it is where the blocks of the part stand in one line, `block = [..]`;
without `--into` where the model is so far from 0 that limits round it are no limits.
Do: write the blocks of the part as `[[block]]`, or look at `--at`.",
    },
    Entry {
        keys: &["M11", "NoPoints"],
        text: "M11 NoPoints
This line of the file of `--near` is no row of points. Its first line names the columns
`mx`, `my`, `mz`, `mi`, `mj` and `mk`; each further line has a place in millimetres there,
with three decimals at most, and a direction along an axis of the machine.
Do: write it with `vcm points PROGRAM PART --machine`.",
    },
    Entry {
        keys: &["M12", "NotCovered"],
        text: "M12 NotCovered
The blocks that were found don't cover the model. That is a fault of vcm, which tries all
of them before it writes any, and so writes nothing.
Do: try another `--within`, and report the model with the command line.",
    },
];

const FOUND: [Entry; 4] = [
    Entry {
        keys: &["model"],
        text: "model
A line of `vcm blocks`: how many triangles the model has, how long it is along the axes of
the machine, and from where to where it lies there, in millimetres. A wrong `--unit` or
`--turn` is seen here.",
    },
    Entry {
        keys: &["blocks"],
        text: "blocks
A line of `vcm blocks`: how many blocks cover the model, and how far one of them may reach
beyond it on each axis, in millimetres; `exact` where together they are the model. `after
2 of the part`: so many of the part file of `--into` stand before them. In `vcm part` the
line has the least box around all blocks.",
    },
    Entry {
        keys: &["volume"],
        text: "volume
A line of `vcm blocks`: the volume of the model and that of its blocks. Where solids
overlap, what they share counts twice in the first. An open model has no such line.",
    },
    Entry {
        keys: &["within"],
        text: "within
A line of `vcm blocks` at a terminal, or with `--talk`: a length in millimetres that was
tried, and how many blocks it takes. The last one that fits is written.",
    },
];

const NOTICES: [Entry; 5] = [
    Entry {
        keys: &["edges belong to an odd number of triangles"],
        text: "edges belong to an odd number of triangles
A notice of `vcm blocks`: the model is open, or triangles of it lie one in another. The
blocks cover all of it; its inside is free where a hole is wider than the length.
Do: where the probe could come in, close the model in CAD.",
    },
    Entry {
        keys: &["edges are gone along twice in one direction"],
        text: "edges are gone along twice in one direction
A notice of `vcm blocks`: some triangles are turned over, so what is told of volumes may be
wrong. The blocks are the same.",
    },
    Entry {
        keys: &[
            "notice the triangles turn inward",
            "the triangles turn inward",
        ],
        text: "notice the triangles turn inward
A notice of `vcm blocks`: all triangles are turned over, as those of a hollow are. The
blocks are the same.",
    },
    Entry {
        keys: &["triangles have no area"],
        text: "triangles have no area
A notice of `vcm blocks`: the corners of so many triangles lie on a line, to the nearest
micrometre. They are covered as the others are.",
    },
    Entry {
        keys: &["notice no tip", "no tip"],
        text: "notice no tip
A notice of `vcm blocks` without `--into`: the part file that is written has no `tip`, so
a run beside it tries the probe as a point.
Do: give the part file of the machine with `--into`, or add `tip` to what is written.",
    },
];

// Explanations of models that can't be read: M00 to M04.
pub(crate) fn model_entries() -> &'static [Entry] {
    &FORM
}

// Explanations of models that are too large, or nothing: M05 to M09.
pub(crate) fn model_size_entries() -> &'static [Entry] {
    &SIZE
}

// Explanations of part files that can't be written: M10 to M12.
pub(crate) fn model_writing_entries() -> &'static [Entry] {
    &WRITING
}

// Explanations of what is found of a model.
pub(crate) fn model_line_entries() -> &'static [Entry] {
    &FOUND
}

// Explanations of the notices of models.
pub(crate) fn model_notice_entries() -> &'static [Entry] {
    &NOTICES
}
