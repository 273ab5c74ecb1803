//! Workpieces whose blocks are cut into strips.

ghost use Rattle.std.specs.Prelude.{◌≡◌, IfOk, IsTrue};
ghost use Rattle.vcm_num.specs.Point.{coordinate, is_near};
ghost use Rattle.vcm_spec.specs.Contact.{IsContact};
ghost use Rattle.vcm_spec.specs.Workpiece.{IsValid};
ghost use Rattle.vcm_motion.specs.Strips.{compared, listed_below, starts_to, width_of};

use crate::face::{Face, first_face};
use crate::layout::{STRIPS, fill, rise, spans_of};
use crate::listed::first_in_strips;
use crate::part::Part;
use std::alloc::Global;
use vcm_num::{Axis, NoMemory, Point};
use vcm_part::{PartData, is_some_met};
use vcm_spec::{Block3, Bounds, Hit};

/// A workpiece that borrows its blocks, and keeps for each of 64 strips of the x axis which of them stand there. The outer two strips are unbounded.
#[derive(Drop)]
pub struct Strips<'a> {
    bounds: Bounds,
    blocks: &'a [Block3],
    // Where each strip begins in the order, and where the last one ends.
    starts: Vec<u32>,
    // The blocks of each strip, one strip after the other.
    order: Vec<u32>,
    ghost valid: { IsValid (record { bounds = bounds; blocks = blocks.now }) },
    ghost started: { starts.items ≡ starts_to (coordinate bounds.low 0) (width_of bounds) blocks.now 64 },
    ghost ordered: { order.items ≡ listed_below (coordinate bounds.low 0) (width_of bounds) blocks.now 64 },
}

// The width of a strip.
fn width(bounds: &Bounds) -> u32
    requires low { IsTrue (is_near bounds.now.low) }
    requires high { IsTrue (is_near bounds.now.high) }
    ensures { result ≡ width_of bounds.now }
{
    rise(bounds.low.0[0], bounds.high.0[0]) / STRIPS as u32 + 1
}

impl<'a> Strips<'a> {
    /// The workpiece of a part file.
    ///
    /// Errors: want of memory for its strips, in each of which a block that meets it is listed: up to 64 times 4,096 numbers.
    pub fn build(alloc: Global, part: &'a PartData) -> Result<Strips<'a>, NoMemory>
        ensures { IfOk result (λ s. ⟦<Strips<'a> as Part>⟧.part s ≡ part.now) }
    {
        let bounds = part.bounds();
        let blocks = part.blocks();
        let low = bounds.low.0[0];
        let width = width(&bounds);
        let spans = spans_of(alloc, blocks, low, width)?;
        let mut order = Vec::new(alloc);
        let mut starts = Vec::with_capacity(alloc, STRIPS + 1)?;
        starts.push(0)?;
        for strip in 0..STRIPS {
            fill(&mut order, &spans, strip)?;
            starts.push(order.len() as u32)?;
        }
        Ok(Strips {
            bounds,
            blocks,
            starts,
            order,
        })
    }

    /// The first block that the tip meets on the straight move between two points, as `first_hit` gives it, and how many blocks were
    /// compared with the move: those of the strips that the tip reaches on the way, a block once for each of them. Both points are at most
    /// 1,000,000,000 micrometres from 0 on each axis.
    pub fn first_hit_counted(&self, from: Point, to: Point) -> (Option<Hit>, u32)
        requires from { IsTrue (is_near from) }
        requires to { IsTrue (is_near to) }
        ensures hit { IsContact (⟦<Strips<'a> as Part>⟧.part self.now) (coordinate from) (coordinate to) result.0 }
        ensures count { result.1 ≡ compared (⟦<Strips<'a> as Part>⟧.part self.now) (coordinate from) (coordinate to) }
    {
        let low = self.bounds.low.0[0];
        let width = width(&self.bounds);
        first_in_strips(
            self.blocks,
            self.bounds.tip,
            low,
            width,
            &self.starts,
            &self.order,
            from,
            to,
        )
    }
}

impl<'a> Part for Strips<'a> {
    ghost part = { λ s. record { bounds = s.bounds; blocks = s.blocks.now } };

    ghost valid = { λ s. s.valid };

    fn bounds(&self) -> Bounds {
        self.bounds
    }

    fn inside(&self, at: Point) -> bool {
        is_some_met(self.blocks, self.bounds.tip, at)
    }

    fn first_hit(&self, from: Point, to: Point) -> Option<Hit> {
        self.first_hit_counted(from, to).0
    }

    fn first_face(&self, from: Point, toward: Axis, length: u32) -> Option<Face> {
        first_face(self.blocks, self.bounds.tip, from, toward, length)
    }
}
