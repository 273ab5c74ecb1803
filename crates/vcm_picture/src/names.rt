//! Names beside their points.

ghost use Rattle.std.specs.Prelude.{◌≡◌, ◌≤◌, ◌+ℤ◌, ◌++◌, ◌&&◌, pos, int_le, length, decimal, option_to_list, OnOk, IfOk};
ghost use Rattle.std.specs.List.{list_any, find};
ghost use Rattle.std.specs.Ordering.{int_eq};
ghost use Rattle.vcm_report.specs.Printed.{name_at};
ghost use Rattle.vcm_svg.specs.Rect.{meets};
ghost use Rattle.vcm_picture.specs.Names.{is_free, sides, beside, contact_box, some_contact_box, is_at, end_box, first_names, with_first, figure_boxes, all_figure_boxes, is_same_name, is_named, feature_box, with_touched, with_mark, with_all_touched};
ghost use Rattle.vcm_picture.specs.Ranges.{IsLetters};

use crate::shown::{Seen, Shown};
use crate::view::{Scope, spot_of};
use crate::whole::{letters_wide, text_box};
use vcm_items::Name;
use vcm_marks::{Contact, Mark, PlacedMark, Touched};
use vcm_num::{NoMemory, Point, int_text};
use vcm_svg::{BoundedSpot, Length, Rect, Spot, TextBox, Unit, meets};

/// The name of a feature that found room: its place, its box and its feature's index.
#[derive(Clone, Copy)]
pub struct Named {
    pub at: BoundedSpot,
    pub area: TextBox,
    pub feature: u16,
}

/// The boxes of the names that are placed first, where they find room.
#[derive(Clone, Copy)]
pub struct FirstNames {
    pub contact: Option<TextBox>,
    pub end: Option<TextBox>,
    pub home: Option<TextBox>,
}

/// The name of the feature with an index, or nothing where there is none.
pub fn name_at(features: &[Name], index: u16) -> &[u8]
    ensures name { result.now ≡ name_at features.now index }
    ensures short { length result.now ≤ 16 }
{
    match features.get(index as usize) {
        Some(name) => name.as_bytes(),
        None => &[],
    }
}

// Whether an area meets one of those that are taken.
fn is_taken(area: Rect, taken: &[Rect]) -> bool
    ensures { result ≡ list_any (λ o. meets o area) taken.now }
{
    taken.iter().any(|other| meets(*other, area))
}

// Whether a box lies in a view, from left to right.
fn is_between(area: Rect, scope: Scope) -> bool
    ensures { result ≡ (int_le (pos 0) area.left && int_le area.right scope.wide) }
{
    0 <= area.left && area.right <= scope.wide().get()
}

// Whether a box lies in a view and meets no box that is taken.
fn is_free(area: Rect, scope: Scope, taken: &[Rect]) -> bool
    ensures { result ≡ is_free area scope.wide taken.now }
{
    is_between(area, scope) && !is_taken(area, taken)
}

// The boxes beside a place for a text of that width, in the order in which they are tried.
fn sides(at: BoundedSpot, unit: Unit, wide: Length) -> [TextBox; 4]
    ensures { result ≡ sides at unit wide }
{
    let Spot { x, y } = at.spot();
    let size = unit.get();
    let high = unit.times(9);
    let right = x + 8 * size;
    let left = x - 8 * size - wide.get();
    let upper = y - 13 * size;
    let lower = y + 4 * size;
    [
        text_box(right, upper, wide, high),
        text_box(right, lower, wide, high),
        text_box(left, upper, wide, high),
        text_box(left, lower, wide, high),
    ]
}

// The first of some boxes that is free.
fn first_free(scope: Scope, boxes: &[TextBox], taken: &[Rect]) -> Option<TextBox>
    ensures { result ≡ find (λ a. is_free a scope.wide taken.now) boxes.now }
{
    boxes
        .iter()
        .copied()
        .find(|area| is_free(area.rect(), scope, taken))
}

// The first box beside a place where a text of so many letters finds room.
fn beside(scope: Scope, at: BoundedSpot, letters: i64, taken: &[Rect]) -> Option<TextBox>
    requires { IsLetters letters }
    ensures { result ≡ beside scope at letters taken.now }
{
    let boxes = sides(at, scope.unit(), letters_wide(letters, scope.unit()));
    first_free(scope, &boxes, taken)
}

/// The first of four boxes beside a place where a text of so many letters lies in the width of a view and meets nothing that is taken: right above,
/// right below, left above, left below.
pub fn label_beside(scope: Scope, at: BoundedSpot, letters: i64, taken: &[Rect]) -> Option<TextBox>
    requires { IsLetters letters }
    ensures { result ≡ beside scope at letters taken.now }
{
    beside(scope, at, letters, taken)
}

// Takes a box, if there is one.
fn take_box(taken: &mut Vec<Rect>, area: &Option<TextBox>) -> Result<(), NoMemory>
    ensures { OnOk result (taken.new.items ≡ taken.old.items ++ option_to_list area.now) }
{
    if let Some(area) = area {
        taken.push(area.rect())?;
    }
    Ok(())
}

// How many letters the contact's name has: `block`, a blank and its number.
fn contact_letters(contact: Contact) -> i64
    ensures letters { result ≡ pos 6 +ℤ pos (length (decimal contact.block)) }
    ensures few { IsLetters result }
{
    6 + int_text(i64::from(contact.block)).as_slice().len() as i64
}

// The box of the contact's name.
fn contact_box(scope: Scope, contact: Contact) -> Option<TextBox>
    ensures { result ≡ contact_box scope contact }
{
    let at = spot_of(scope, contact.at);
    beside(scope, at, contact_letters(contact), &[])
}

// The box of the name of the contact, if there is one.
fn some_contact_box(scope: Scope, contact: Option<Contact>) -> Option<TextBox>
    ensures { result ≡ some_contact_box scope contact }
{
    match contact {
        Some(contact) => contact_box(scope, contact),
        None => None,
    }
}

// Whether two points are one.
fn is_at(a: Point, b: Point) -> bool
    ensures { result ≡ is_at a b }
{
    let Point([x, y, z]) = a;
    let Point([p, q, r]) = b;
    x == p && y == q && z == r
}

// The box of the end's name, which there is where the end isn't at home.
fn end_box(scope: Scope, position: Point, home: Point, taken: &[Rect]) -> Option<TextBox>
    ensures { result ≡ end_box scope position home taken.now }
{
    if is_at(position, home) {
        return None;
    }
    beside(scope, spot_of(scope, position), 3, taken)
}

/// The names of the contact, of the end and of home.
pub(crate) fn first_names(
    scope: Scope,
    contact: Option<Contact>,
    position: Point,
    home: Point,
    taken: &mut Vec<Rect>,
) -> Result<FirstNames, NoMemory>
    ensures names { IfOk result (λ names. names ≡ first_names scope contact position home taken.old.items) }
    ensures taken { IfOk result (λ names. taken.new.items ≡ with_first taken.old.items names) }
{
    let contact = some_contact_box(scope, contact);
    take_box(taken, &contact)?;
    let end = end_box(scope, position, home, taken.as_slice());
    take_box(taken, &end)?;
    let home = beside(scope, spot_of(scope, home), 4, taken.as_slice());
    take_box(taken, &home)?;
    Ok(FirstNames { contact, end, home })
}

// Takes the box of a number, if there is one.
fn take_figure(taken: &mut Vec<Rect>, shown: Shown) -> Result<(), NoMemory>
    ensures { OnOk result (taken.new.items ≡ taken.old.items ++ figure_boxes shown) }
{
    match shown {
        Shown::Open(Some(figure)) => {
            taken.push(figure.area)?;
            Ok(())
        }
        Shown::Open(None) => Ok(()),
        Shown::Hidden => Ok(()),
        Shown::Repeated => Ok(()),
    }
}

/// Takes the boxes of the numbers.
pub(crate) fn take_figures(taken: &mut Vec<Rect>, all: &[Seen]) -> Result<(), NoMemory>
    ensures { OnOk result (taken.new.items ≡ taken.old.items ++ all_figure_boxes all.now) }
{
    for seen in all {
        take_figure(taken, seen.shown)?;
    }
    Ok(())
}

// Whether two places are one.
fn is_one(a: Spot, b: Spot) -> bool
    ensures { result ≡ (int_eq a.x b.x && int_eq a.y b.y) }
{
    a.x == b.x && a.y == b.y
}

// Whether a name is that of a feature which stands at a place.
fn is_same_name(features: &[Name], other: &Named, at: BoundedSpot, name: &[u8]) -> bool
    ensures { result ≡ is_same_name features.now other.now at name.now }
{
    is_one(other.at.spot(), at.spot()) && name_at(features, other.feature) == name
}

// Whether the same name stands at the place.
fn is_named(features: &[Name], named: &[Named], at: BoundedSpot, name: &[u8]) -> bool
    ensures { result ≡ is_named features.now named.now at name.now }
{
    named
        .iter()
        .any(|other| is_same_name(features, other, at, name))
}

// The box of a feature's name at a place, if it isn't named there yet and finds room.
fn feature_box(
    scope: Scope,
    features: &[Name],
    at: BoundedSpot,
    feature: u16,
    taken: &[Rect],
    named: &[Named],
) -> Option<TextBox>
    ensures { result ≡ feature_box scope features.now at feature taken.now named.now }
{
    let name = name_at(features, feature);
    if is_named(features, named, at, name) {
        return None;
    }
    beside(scope, at, name.len() as i64, taken)
}

// Takes the box of a touched point's name, if it finds room, and keeps the name.
fn name_touched(
    scope: Scope,
    features: &[Name],
    touched: &Touched,
    taken: &mut Vec<Rect>,
    named: &mut Vec<Named>,
) -> Result<(), NoMemory>
    ensures { OnOk result (record { taken = taken.new.items; named = named.new.items } ≡ with_touched scope features.now touched.now (record { taken = taken.old.items; named = named.old.items })) }
{
    let at = spot_of(scope, touched.at);
    let feature = touched.feature;
    match feature_box(
        scope,
        features,
        at,
        feature,
        taken.as_slice(),
        named.as_slice(),
    ) {
        Some(area) => {
            taken.push(area.rect())?;
            named.push(Named { at, area, feature })?;
            Ok(())
        }
        None => Ok(()),
    }
}

// The same of a mark.
fn name_mark(
    scope: Scope,
    features: &[Name],
    mark: &Mark,
    taken: &mut Vec<Rect>,
    named: &mut Vec<Named>,
) -> Result<(), NoMemory>
    ensures { OnOk result (record { taken = taken.new.items; named = named.new.items } ≡ with_mark scope features.now mark.now (record { taken = taken.old.items; named = named.old.items })) }
{
    match mark {
        Mark::Touches(touched) => name_touched(scope, features, touched, taken, named),
        Mark::Goes(_) => Ok(()),
        Mark::Meets(_) => Ok(()),
    }
}

/// The names of the touched points that find room.
pub(crate) fn feature_names(
    scope: Scope,
    features: &[Name],
    marks: &[PlacedMark],
    taken: &mut Vec<Rect>,
    named: &mut Vec<Named>,
) -> Result<(), NoMemory>
    ensures { OnOk result (record { taken = taken.new.items; named = named.new.items } ≡ with_all_touched scope features.now marks.now (record { taken = taken.old.items; named = named.old.items })) }
{
    for placed in marks {
        name_mark(scope, features, &placed.mark, taken, named)?;
    }
    Ok(())
}
