//! Where the numbers of points stand in a view.

ghost use Rattle.std.specs.Prelude.{◌≡◌, [], IfOk, OnOk};
ghost use Rattle.vcm_picture.specs.Names.{beside};
ghost use Rattle.vcm_picture.specs.Ranges.{IsLetters};
ghost use Rattle.vcm_sheet.specs.Numbers.{letters_of, with_number, with_numbers, numbers_beside};

use crate::points::Pointed;
use std::alloc::Global;
use vcm_num::{NoMemory, int_text};
use vcm_picture::{Scope, label_beside, spot_of};
use vcm_svg::{BoundedSpot, Rect, TextBox};

/// The number of a point that found room: the point, its place in the view, and the box of its number.
#[derive(Clone, Copy)]
pub struct Numbered {
    pub point: Pointed,
    pub at: BoundedSpot,
    pub area: TextBox,
}

// How many letters the number of a point has.
fn letters_of(point: &Pointed) -> i64
    ensures letters { result ≡ letters_of point.now.number }
    ensures few { IsLetters result }
{
    int_text(point.number).as_slice().len() as i64
}

// The box of a point's number, whose place in the view this is, if it finds room.
fn number_box(scope: Scope, at: BoundedSpot, point: &Pointed, taken: &[Rect]) -> Option<TextBox>
    ensures { result ≡ beside scope at (letters_of point.now.number) taken.now }
{
    label_beside(scope, at, letters_of(point), taken)
}

// Takes the box of a point's number, if it finds room, and keeps the number.
fn number_point(
    scope: Scope,
    point: &Pointed,
    taken: &mut Vec<Rect>,
    numbers: &mut Vec<Numbered>,
) -> Result<(), NoMemory>
    ensures { OnOk result (record { taken = taken.new.items; numbers = numbers.new.items } ≡ with_number scope point.now (record { taken = taken.old.items; numbers = numbers.old.items })) }
{
    let at = spot_of(scope, point.touched.at);
    match number_box(scope, at, point, taken.as_slice()) {
        Some(area) => {
            taken.push(area.rect())?;
            numbers.push(Numbered {
                point: *point,
                at,
                area,
            })?;
            Ok(())
        }
        None => Ok(()),
    }
}

// Takes the boxes of the numbers of points that find room, and keeps these numbers.
fn number_points(
    scope: Scope,
    points: &[Pointed],
    taken: &mut Vec<Rect>,
    numbers: &mut Vec<Numbered>,
) -> Result<(), NoMemory>
    ensures { OnOk result (record { taken = taken.new.items; numbers = numbers.new.items } ≡ with_numbers scope points.now (record { taken = taken.old.items; numbers = numbers.old.items })) }
{
    for point in points {
        number_point(scope, point, taken, numbers)?;
    }
    Ok(())
}

/// The numbers of points that find room in a view, beside what is taken, each in the first of four boxes beside its point that is free.
///
/// # Errors
///
/// Out of memory.
pub fn numbers_of(
    alloc: Global,
    scope: Scope,
    points: &[Pointed],
    taken: &mut Vec<Rect>,
) -> Result<Vec<Numbered>, NoMemory>
    ensures numbers { IfOk result (λ v. v.items ≡ numbers_beside scope points.now taken.old.items) }
    ensures taken { IfOk result (λ v. taken.new.items ≡ (with_numbers scope points.now (record { taken = taken.old.items; numbers = [] })).taken) }
{
    let mut numbers = Vec::new(alloc);
    number_points(scope, points, taken, &mut numbers)?;
    Ok(numbers)
}
