//! The kind of workpiece that suits the number of its blocks.

ghost use Rattle.std.specs.Prelude.{◌≡◌, true, false, length, nat_lt, IfOk};
ghost use Rattle.vcm_spec.specs.Workpiece.{IsValid};
ghost use Rattle.vcm_motion.specs.declared.any_part.AnyPart.TheVariants.{Few, Many};

use crate::blocks::Blocks;
use crate::face::Face;
use crate::part::Part;
use crate::strips::Strips;
use std::alloc::Global;
use vcm_num::{Axis, NoMemory, Point};
use vcm_part::PartData;
use vcm_spec::{Bounds, Hit};

// How many blocks are compared one by one.
const FEW: usize = 16;

/// A workpiece with few blocks, which are compared one by one, or with many, in strips.
#[derive(Drop)]
pub enum AnyPart<'a> {
    Few(Blocks<'a>),
    Many(Strips<'a>),
}

impl<'a> AnyPart<'a> {
    /// The workpiece of a part file, in strips where it has more than 16 blocks.
    ///
    /// Errors: want of memory for the strips.
    pub fn of(alloc: Global, part: &'a PartData) -> Result<AnyPart<'a>, NoMemory>
        ensures meaning { IfOk result (λ p. ⟦<AnyPart<'a> as Part>⟧.part p ≡ part.now) }
        ensures kind { IfOk result (λ p. elim p [ Few b ↦ false | Many s ↦ true ] ≡ nat_lt 16 (length part.now.blocks)) }
    {
        if part.blocks().len() <= FEW {
            return Ok(AnyPart::Few(Blocks::new(part)));
        }
        let strips = Strips::build(alloc, part)?;
        Ok(AnyPart::Many(strips))
    }
}

impl<'a> Part for AnyPart<'a> {
    ghost part = { λ p. elim p [ Few b ↦ ⟦<Blocks<'a> as Part>⟧.part b | Many s ↦ ⟦<Strips<'a> as Part>⟧.part s ] };

    ghost valid = { λ p. elim p as (λ k. IsValid (elim k [ Few b ↦ ⟦<Blocks<'a> as Part>⟧.part b | Many s ↦ ⟦<Strips<'a> as Part>⟧.part s ])) [ Few b ↦ b.valid | Many s ↦ s.valid ] };

    fn bounds(&self) -> Bounds {
        match self {
            AnyPart::Few(blocks) => blocks.bounds(),
            AnyPart::Many(strips) => strips.bounds(),
        }
    }

    fn inside(&self, at: Point) -> bool {
        match self {
            AnyPart::Few(blocks) => blocks.inside(at),
            AnyPart::Many(strips) => strips.inside(at),
        }
    }

    fn first_hit(&self, from: Point, to: Point) -> Option<Hit> {
        match self {
            AnyPart::Few(blocks) => blocks.first_hit(from, to),
            AnyPart::Many(strips) => strips.first_hit(from, to),
        }
    }

    fn first_face(&self, from: Point, toward: Axis, length: u32) -> Option<Face> {
        match self {
            AnyPart::Few(blocks) => blocks.first_face(from, toward, length),
            AnyPart::Many(strips) => strips.first_face(from, toward, length),
        }
    }
}
