//! The way.

ghost use Rattle.std.specs.Prelude.{◌≡◌, ◌≤◌, ◌<◌, true, List, [], ◌++◌, OnOk};
ghost use Rattle.vcm_marks.specs.declared.mark.PlacedMark.{PlacedMark as Stands};
ghost use Rattle.vcm_marks.specs.Pieces.{is_piece, counted, pieces};
ghost use Rattle.vcm_way.specs.Ways.{placed, last_pieces, most_pieces};
ghost use Rattle.vcm_way.specs.Keeping.{kept, shortened, StandsFor};
ghost use Rattle.vcm_way.specs.inner.Added.{more};

use std::alloc::Global;
use std::marker::Model;
use vcm_marks::{Mark, Moment, PlacedMark};
use vcm_num::NoMemory;

// Whether a mark is a piece.
fn is_piece(mark: &Mark) -> bool
    ensures { result ≡ is_piece mark.now }
{
    match mark {
        Mark::Goes(_) => true,
        Mark::Touches(_) => false,
        Mark::Meets(_) => false,
    }
}

// How many pieces there are among marks.
fn pieces_of(marks: &[PlacedMark]) -> usize
    ensures { result ≡ pieces marks.now }
{
    let mut count = 0;
    let mut rest = marks;
    while let Some((first, after)) = rest.split_first() {
        if is_piece(&first.mark) {
            count += 1;
        }
        rest = after;
    }
    count
}

// How many pieces are left behind a mark, where so many are left with it.
fn left_behind(mark: &Mark, left: usize) -> usize
    requires { is_piece mark.now ≡ true → 0 < left }
    ensures { counted (is_piece mark.now) result ≡ left }
{
    if is_piece(mark) { left - 1 } else { left }
}

// The last marks, so that at most so many pieces are left, and how many these are; of marks with so many pieces.
fn last_of(marks: &[PlacedMark], count: usize, most: usize) -> (&[PlacedMark], usize)
    requires { count ≡ pieces marks.now }
    ensures last { result.0.now ≡ last_pieces most marks.now }
    ensures counted { result.1 ≡ pieces result.0.now }
    ensures fewer { result.1 ≤ count }
{
    let mut rest = marks;
    let mut left = count;
    while let Some((first, after)) = rest.split_first() {
        if left <= most {
            return (rest, left);
        }
        left = left_behind(&first.mark, left);
        rest = after;
    }
    (rest, left)
}

/// The way of the probe: its last 20,000 pieces, and the touched points and the contact of the steps that these belong to. Contracts see it
/// as a `Kept`.
#[derive(Drop)]
pub struct Way {
    marks: Vec<PlacedMark>,
    left_out: u64,
}

impl Model for Way {
    ghost use Rattle.std.specs.Coded.{codes};
    ghost use Rattle.vcm_marks.specs.contracts.mark.PlacedMark as placed;
    ghost use Rattle.vcm_way.specs.Ways.{Kept};

    ghost Value = { Kept };

    ghost coded = { Prim.hlevel (codes, placed.the_row.coded) };

    ghost view = { λ w. record { marks = w.marks.items; left_out = w.left_out } };
}

impl Way {
    /// The way of no step.
    pub fn new(alloc: Global) -> Way
        ensures { result ≡ kept [] 0 }
    {
        Way {
            marks: Vec::new(alloc),
            left_out: 0,
        }
    }

    // The marks of one more step.
    fn add(&mut self, place: Moment, marks: &[Mark]) -> Result<(), NoMemory>
        ensures { OnOk result (self.new ≡ more self.old (placed place.step place.number place.line marks.now)) }
    {
        for mark in marks {
            self.marks.push(PlacedMark {
                mark: *mark,
                step: place.step,
                number: place.number,
                line: place.line,
                is_elsewhere: false,
            })?;
        }
        Ok(())
    }

    /// Leaves out the first marks, so that at most so many pieces are left.
    ///
    /// Errors: want of memory, or more pieces are left out than 64 bits count.
    pub fn keep_last(&mut self, alloc: Global, most: usize) -> Result<(), NoMemory>
        requires { most ≡ most_pieces }
        ensures { OnOk result (self.new ≡ shortened self.old) }
    {
        let count = pieces_of(self.marks.as_slice());
        let (last, left) = last_of(self.marks.as_slice(), count, most);
        let Some(left_out) = self.left_out.checked_add((count - left) as u64) else {
            return Err(NoMemory);
        };
        self.marks = Vec::from_slice(alloc, last)?;
        self.left_out = left_out;
        Ok(())
    }

    /// The marks of one more step. Where there are three times as many marks as pieces are kept, the first ones are left out.
    ///
    /// Errors: want of memory, or more pieces are left out than 64 bits count.
    pub fn add_step(
        &mut self,
        alloc: Global,
        most: usize,
        place: Moment,
        marks: &[Mark],
    ) -> Result<(), NoMemory>
        requires { most ≡ most_pieces }
        ensures { OnOk result ((whole : List Stands) → StandsFor self.old whole
            → StandsFor self.new (whole ++ placed place.step place.number place.line marks.now)) }
    {
        self.add(place, marks)?;
        if self.marks.len() / 3 > most {
            self.keep_last(alloc, most)
        } else {
            Ok(())
        }
    }

    /// The marks that are kept, in the order of the way.
    pub fn marks(&self) -> &[PlacedMark]
        ensures { result.now ≡ self.now.marks }
    {
        self.marks.as_slice()
    }

    /// How many pieces of the way are left out at its front.
    pub fn left_out(&self) -> u64
        ensures { result ≡ self.now.left_out }
    {
        self.left_out
    }
}
