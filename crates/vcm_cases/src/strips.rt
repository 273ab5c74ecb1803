//! What no command line shows: a run among blocks in strips, however few they are, and the tip as a box of a probe file.

use crate::texts::{Texts, joined, number_text};
use std::alloc::Global;
use vcm_motion::Strips;
use vcm_part::{PartData, read_part};
use vcm_run::{run_text, write_result};

// Whether the run of a program among blocks in strips prints this.
fn prints(alloc: Global, strips: &Strips, program: &str, steps: u64, output: &[u8]) -> bool {
    let mut out = Vec::new(alloc);
    match run_text(alloc, strips, program.as_bytes(), steps) {
        Ok(summary) => {
            write_result(summary.world(), &summary.ran(), &mut out).is_ok()
                && out.as_slice() == output
        }
        Err(_) => false,
    }
}

// The same beside a workpiece with the blocks in strips.
fn prints_beside(alloc: Global, part: &PartData, program: &str, steps: u64, output: &[u8]) -> bool {
    match Strips::build(alloc, part) {
        Ok(strips) => prints(alloc, &strips, program, steps, output),
        Err(_) => false,
    }
}

/// Whether a run prints this with the blocks in strips, however few they are.
pub(crate) fn is_printed_by_strips(texts: &Texts, steps: u64, output: &[u8]) -> bool {
    match read_part(texts.alloc, texts.part.as_bytes()) {
        Ok(part) => prints_beside(texts.alloc, &part, &texts.program, steps, output),
        Err(_) => false,
    }
}

// Half the width of the tip of a workpiece.
fn half_width(texts: &Texts) -> u64 {
    match read_part(texts.alloc, texts.part.as_bytes()) {
        Ok(part) => u64::from(part.bounds().tip),
        Err(_) => 0,
    }
}

/// The probe file with the box that is the tip.
pub(crate) fn tip_file(texts: &Texts) -> String {
    let tip = number_text(texts.alloc, half_width(texts));
    joined(
        texts.alloc,
        &[
            "[[box]]\nname = \"tip\"\nlow = [-",
            &tip,
            ", -",
            &tip,
            ", -",
            &tip,
            "]\nhigh = [",
            &tip,
            ", ",
            &tip,
            ", ",
            &tip,
            "]\n",
        ],
    )
}
