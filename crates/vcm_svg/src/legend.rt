//! The legend, and the bar that shows a length.

ghost use Rattle.std.specs.Prelude.{◌≡◌, ◌++◌, ◌≤ℤ◌, pos, map, OnOk};
ghost use Rattle.vcm_svg.specs.Legend.{right_of, size_of, sign_outline, sign_in_row, row_text, words_label, rows_text, legend_text, last_within, bar_of, bar_label, bar_with, bar_text};

use crate::outlines::{Outline, bar_line, circle, cross, dash, square_round};
use crate::pieces::Fragment;
use crate::ranges::{BoundedSpot, Length, Site, Unit};
use crate::shapes::{Class, Lettering, Placement, put_path, put_text};
use crate::whole::{quotient, scaled};
use vcm_num::NoMemory;

/// The sign of a row of the legend.
#[derive(Clone, Copy)]
pub enum Sign {
    Line,
    Point,
    Circle,
    Square,
    Cross,
}

// How many units to the right of its row's place a sign stands.
fn right_of(sign: Sign) -> u16
    ensures { pos result ≡ right_of sign }
{
    match sign {
        Sign::Line => 0,
        Sign::Point => 20,
        Sign::Circle => 20,
        Sign::Square => 20,
        Sign::Cross => 20,
    }
}

// How many units long a sign is, or how many its edge is from its middle.
fn size_of(sign: Sign) -> u16
    ensures { pos result ≡ size_of sign }
{
    match sign {
        Sign::Line => 40,
        Sign::Point => 3,
        Sign::Circle => 5,
        Sign::Square => 5,
        Sign::Cross => 5,
    }
}

// The outline of a sign at a place, of this size.
fn sign_outline(sign: Sign, at: Site, size: Length) -> Outline
    ensures { result ≡ sign_outline sign at size }
{
    match sign {
        Sign::Line => dash(at, size),
        Sign::Point => circle(at, size),
        Sign::Circle => circle(at, size),
        Sign::Square => square_round(at, size),
        Sign::Cross => cross(at, size),
    }
}

// The outline of a sign in a row so many units below a place.
fn sign_in_row(at: BoundedSpot, unit: Unit, down: u8, sign: Sign) -> Outline
    ensures { result ≡ sign_in_row at unit down sign }
{
    let site = at.moved(unit.times(right_of(sign)), unit.times(u16::from(down)));
    sign_outline(sign, site, unit.times(size_of(sign)))
}

// Where the words of a row stand, so many units below a place.
fn words_label(at: BoundedSpot, unit: Unit, down: u8) -> Placement
    ensures { result ≡ words_label at unit down }
{
    let site = at.moved(unit.times(48), unit.times(u16::from(down) + 3));
    Placement {
        at: site.spot(),
        size: unit.get(),
        class: Lettering::Plain,
    }
}

/// Appends a row of a legend: a sign and its words, so many units below a place.
pub fn put_row(
    out: &mut Vec<u8>,
    at: BoundedSpot,
    unit: Unit,
    down: u8,
    class: Class,
    sign: Sign,
    words: &[u8],
) -> Result<(), NoMemory>
    ensures { OnOk result (out.new.items ≡ out.old.items ++ row_text at unit (down, class, sign, words.now)) }
{
    put_path(out, class, sign_in_row(at, unit, down, sign))?;
    put_text(out, words_label(at, unit, down), &[Fragment::Text(words)])
}

// Appends rows.
fn put_rows(
    out: &mut Vec<u8>,
    at: BoundedSpot,
    unit: Unit,
    rows: &[(u8, Class, Sign, &[u8])],
) -> Result<(), NoMemory>
    ensures { OnOk result (out.new.items ≡ out.old.items ++ rows_text at unit (map (λ row. (row.0, row.1, row.2, row.3.now)) rows.now)) }
{
    for row in rows {
        put_row(out, at, unit, row.0, row.1, row.2, row.3)?;
    }
    Ok(())
}

/// The rows of the legend: how many units each stands below the first one, the class and the form of its sign, and its words.
const ROWS: &[(u8, Class, Sign, &[u8])] = &[
    (0, Class::Move, Sign::Line, b"move"),
    (15, Class::Approach, Sign::Line, b"approach"),
    (30, Class::Search, Sign::Line, b"search"),
    (45, Class::Retract, Sign::Line, b"retract"),
    (60, Class::Rest, Sign::Line, b"not reached"),
    (75, Class::Touched, Sign::Point, b"point touched"),
    (90, Class::Place, Sign::Circle, b"end"),
    (105, Class::Place, Sign::Square, b"home"),
    (120, Class::Cross, Sign::Cross, b"contact"),
    (135, Class::Limits, Sign::Line, b"limits"),
    (150, Class::Hidden, Sign::Line, b"hidden block"),
];

/// Appends the legend at a place.
pub fn put_legend(out: &mut Vec<u8>, at: BoundedSpot, unit: Unit) -> Result<(), NoMemory>
    ensures { OnOk result (out.new.items ≡ out.old.items ++ legend_text at unit) }
{
    put_rows(out, at, unit, ROWS)
}

// The lengths that a bar may have, in units of the picture.
const BARS: [i64; 30] = [
    1, 2, 5, 10, 20, 50, 100, 200, 500, 1000, 2000, 5000, 10000, 20000, 50000, 100000, 200000,
    500000, 1000000, 2000000, 5000000, 10000000, 20000000, 50000000, 100000000, 200000000,
    500000000, 1000000000, 2000000000, 5000000000,
];

// The last of these lengths that is at most a number, or else the length that is given.
fn last_within(most: i64, first: i64, bars: &[i64]) -> i64
    ensures { result ≡ last_within most first bars.now }
{
    let mut best = first;
    for bar in bars {
        if *bar <= most {
            best = *bar;
        }
    }
    best
}

// The length of the bar.
fn bar_of(most: i64) -> Length
    ensures { result ≡ bar_of most }
{
    Length::new(last_within(most, 1, &BARS))
}

// Where the words of a bar stand.
fn bar_label(at: BoundedSpot, unit: Unit, long: Length) -> Placement
    ensures { result ≡ bar_label at unit long }
{
    Placement {
        at: at.behind(long, unit.times(8)),
        size: unit.get(),
        class: Lettering::Plain,
    }
}

// Appends a bar of that length.
fn put_bar_with(
    out: &mut Vec<u8>,
    at: BoundedSpot,
    unit: Unit,
    grain: Unit,
    long: Length,
) -> Result<(), NoMemory>
    requires fine { grain ≤ℤ pos 1000 }
    ensures { OnOk result (out.new.items ≡ out.old.items ++ bar_with at unit grain long) }
{
    put_path(out, Class::Cross, bar_line(at.site(), unit.times(5), long))?;
    put_text(
        out,
        bar_label(at, unit, long),
        &[
            Fragment::Length(scaled(long, grain)),
            Fragment::Text(b" mm; third-angle projection"),
        ],
    )
}

/// Appends the bar that shows a length, of a view of that width.
pub fn put_bar(
    out: &mut Vec<u8>,
    at: BoundedSpot,
    unit: Unit,
    grain: Unit,
    wide: i64,
) -> Result<(), NoMemory>
    requires fine { grain ≤ℤ pos 1000 }
    ensures { OnOk result (out.new.items ≡ out.old.items ++ bar_text at unit grain wide) }
{
    put_bar_with(out, at, unit, grain, bar_of(quotient(wide, 4)))
}
