//! What a sheet shows.

use crate::lines::Lines;
use crate::paper::Paper;
use crate::readings::Reading;
use vcm_marks::PlacedMark;
use vcm_part::PartData;
use vcm_state::World;

/// What a sheet shows: a workpiece, with the names of its blocks; the state at the end of a run of so many steps; the marks of its way, before which so
/// many pieces are left out; what its steps measured; and of these what comes from some source lines. It names the files of the program and of the part, and
/// has lines of what wasn't tried in its heading. On a paper it has a title block, with the title of the program.
#[derive(Clone, Copy)]
pub struct Sheet<'a> {
    pub part: &'a PartData,
    pub world: &'a World,
    pub done: u64,
    pub marks: &'a [PlacedMark],
    pub left_out: u64,
    pub readings: &'a [Reading],
    pub is_close: bool,
    pub lines: Lines,
    pub program_name: &'a [u8],
    pub part_name: &'a [u8],
    pub block_names: &'a [Vec<u8>],
    pub untried: &'a [Vec<u8>],
    pub paper: Option<Paper>,
    pub title: &'a [u8],
}
