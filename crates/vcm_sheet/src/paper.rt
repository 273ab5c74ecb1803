//! The papers that a sheet is drawn on, and what has room there. Lengths on paper are counted in quarters of a millimetre, the unit of texts.

ghost use Rattle.std.specs.Prelude.{◌≡◌, ◌≤◌, pos, ◌+ℤ◌, ◌*ℤ◌, ◌≤ℤ◌};
ghost use Rattle.std.specs.Int.{int_max};
ghost use Rattle.std.specs.List.{AllByRecursion};
ghost use Rattle.vcm_num.specs.Point.{coordinate};
ghost use Rattle.vcm_sheet.specs.Paper.{wide_of, high_of, rows_on, all_rows_on, listed_in, room_of, tables_wide, wide_room, high_room, IsScale, first_above, scale_above, tenths, scale_beside, scale_over, are_below, scale_on, room_beside, room_below, unit_at, window_on};

use vcm_picture::Window;
use vcm_svg::{Unit, quotient};

/// A paper, with its longer side across.
#[derive(Clone, Copy)]
pub enum Paper {
    A4,
    A3,
}

/// How many rows a column of points has, and how many points and names of blocks are listed at most.
#[derive(Clone, Copy)]
pub(crate) struct Room {
    pub(crate) rows: usize,
    pub(crate) points: usize,
    pub(crate) names: usize,
}

/// How wide a paper is.
pub(crate) fn wide_of(paper: Paper) -> u16
    ensures value { result ≡ wide_of paper }
    ensures most { result ≤ 1680 }
{
    match paper {
        Paper::A4 => 1188,
        Paper::A3 => 1680,
    }
}

/// How high a paper is.
pub(crate) fn high_of(paper: Paper) -> u16
    ensures value { result ≡ high_of paper }
    ensures most { result ≤ 1188 }
{
    match paper {
        Paper::A4 => 840,
        Paper::A3 => 1188,
    }
}

// How many rows a column of points has, below a heading of so many lines.
fn rows_on(paper: Paper, lines: u16) -> u16
    requires { lines ≤ 100 }
    ensures value { result ≡ rows_on paper lines }
    ensures some { 1 ≤ result }
    ensures most { result ≤ 1188 }
{
    let room = high_of(paper).saturating_sub(128);
    (room.saturating_sub(18 * lines + 276) / 14).max(1)
}

// How many rows all columns have.
fn all_rows_on(paper: Paper, rows: u16) -> u16
    requires { rows ≤ 1188 }
    ensures value { result ≡ all_rows_on paper rows }
{
    match paper {
        Paper::A4 => rows,
        Paper::A3 => rows + rows,
    }
}

// How many of so many points are listed.
fn listed_in(all: usize, points: usize) -> usize
    ensures { result ≡ listed_in all points }
{
    if points <= all {
        points
    } else {
        all.saturating_sub(1)
    }
}

/// How wide the tables are, of which that of the points has so many.
pub(crate) fn tables_wide(paper: Paper, rows: usize, points: usize) -> u16
    ensures value { result ≡ tables_wide paper rows points }
    ensures most { result ≤ 1240 }
{
    if points == 0 {
        return 350;
    }
    match paper {
        Paper::A3 if rows < points => 1240,
        _ => 620,
    }
}

// How wide the top and the side view may be together.
fn wide_room(paper: Paper, tables: u16) -> u16
    requires { tables ≤ 1240 }
    ensures value { result ≡ wide_room paper tables }
    ensures some { 1 ≤ result }
{
    let room = wide_of(paper).saturating_sub(120);
    room.saturating_sub(tables + 170).max(1)
}

// How high the top and the front view may be together.
fn high_room(paper: Paper, lines: u16) -> u16
    requires { lines ≤ 100 }
    ensures value { result ≡ high_room paper lines }
    ensures some { 1 ≤ result }
{
    let room = high_of(paper).saturating_sub(128);
    room.saturating_sub(18 * lines + 160).max(1)
}

// The scales of drawings, in tenths of the N of 1:N, but for the last one.
const SCALES: [i64; 17] = [
    1, 2, 5, 10, 20, 50, 100, 200, 500, 1000, 2000, 5000, 10_000, 20_000, 50_000, 100_000, 200_000,
];

// The last one.
const LAST_SCALE: i64 = 500_000;

// The first of some scales above a number, or the last one.
fn first_above(scales: &[i64], number: i64) -> i64
    requires { AllByRecursion IsScale scales.now }
    ensures value { result ≡ first_above number scales.now }
    ensures scale { IsScale result }
{
    match scales {
        [] => LAST_SCALE,
        [first, ..] if number < *first => *first,
        [_, rest @ ..] => first_above(rest, number),
    }
}

// The least scale above a number, or the last one.
fn scale_above(number: i64) -> i64
    ensures value { result ≡ scale_above number }
    ensures scale { IsScale result }
{
    first_above(&SCALES, number)
}

// How many tenths of the N of 1:N a length is of a room, rounded down.
fn tenths(length: i64, room: u16) -> i64
    requires { 1 ≤ room }
    ensures { result ≡ tenths length room }
{
    quotient(length, 25 * i64::from(room))
}

// How far the top and the side view extend, one beside the other.
fn across_of(window: Window) -> i64
    ensures { result ≡ coordinate window.full 0 +ℤ coordinate window.full 1 }
{
    window.full(0) + window.full(1)
}

// How far the top and the front view extend, one below the other.
fn down_of(window: Window) -> i64
    ensures { result ≡ coordinate window.full 1 +ℤ coordinate window.full 2 }
{
    window.full(1) + window.full(2)
}

// The scale at which the views of a window have so much room.
fn scale_in(window: Window, wide: u16, high: u16) -> i64
    requires wide { 1 ≤ wide }
    requires high { 1 ≤ high }
    ensures value { result ≡ scale_above (int_max (tenths (coordinate window.full 0 +ℤ coordinate window.full 1) wide) (tenths (coordinate window.full 1 +ℤ coordinate window.full 2) high)) }
    ensures scale { IsScale result }
{
    let across = tenths(across_of(window), wide);
    let down = tenths(down_of(window), high);
    scale_above(across.max(down))
}

// The scale at which they have room left of the tables.
fn scale_beside(paper: Paper, lines: u16, points: usize, window: Window) -> i64
    requires { lines ≤ 100 }
    ensures value { result ≡ scale_beside paper lines points window }
    ensures scale { IsScale result }
{
    let rows = usize::from(rows_on(paper, lines));
    let wide = wide_room(paper, tables_wide(paper, rows, points));
    scale_in(window, wide, high_room(paper, lines))
}

// The scale at which they have room above the tables.
fn scale_over(paper: Paper, lines: u16, window: Window) -> i64
    requires { lines ≤ 100 }
    ensures value { result ≡ scale_over paper lines window }
    ensures scale { IsScale result }
{
    let high = high_room(paper, lines).saturating_sub(210).max(1);
    scale_in(window, wide_room(paper, 0), high)
}

/// Whether the tables are below the views, and not right of them.
pub(crate) fn are_below(paper: Paper, lines: u16, points: usize, window: Window) -> bool
    requires { lines ≤ 100 }
    ensures { result ≡ are_below paper lines points window }
{
    points <= 12 && scale_over(paper, lines, window) < scale_beside(paper, lines, points, window)
}

/// The scale of a sheet, in tenths of the N of 1:N.
pub(crate) fn scale_on(paper: Paper, lines: u16, points: usize, window: Window) -> i64
    requires { lines ≤ 100 }
    ensures value { result ≡ scale_on paper lines points window }
    ensures scale { IsScale result }
{
    if are_below(paper, lines, points, window) {
        scale_over(paper, lines, window)
    } else {
        scale_beside(paper, lines, points, window)
    }
}

// What has room right of the views.
fn room_beside(paper: Paper, lines: u16, points: usize) -> Room
    requires { lines ≤ 100 }
    ensures value { result ≡ room_beside paper lines points }
    ensures some { 1 ≤ result.rows }
{
    let few = rows_on(paper, lines);
    let rows = usize::from(few);
    Room {
        rows,
        points: listed_in(usize::from(all_rows_on(paper, few)), points),
        names: rows.saturating_sub(rows.min(points)).saturating_sub(3),
    }
}

// What has room below them.
fn room_below(points: usize) -> Room
    ensures { result ≡ room_below points }
{
    let rows: usize = 12;
    Room {
        rows,
        points,
        names: rows.saturating_sub(points).saturating_sub(3),
    }
}

/// What has room below a heading of so many lines, of so many points.
pub(crate) fn room_of(paper: Option<Paper>, lines: u16, points: usize, window: Window) -> Room
    requires { lines ≤ 100 }
    ensures value { result ≡ room_of paper lines points window }
    ensures some { 1 ≤ result.rows }
{
    let Some(paper) = paper else {
        return Room {
            rows: 40,
            points,
            names: 40,
        };
    };
    if are_below(paper, lines, points, window) {
        room_below(points)
    } else {
        room_beside(paper, lines, points)
    }
}

// A quarter of a millimetre of paper in micrometres, at a scale.
fn quarter_at(scale: i64) -> i64
    requires { IsScale scale }
    ensures value { result ≡ pos 25 *ℤ scale }
    ensures some { pos 25 ≤ℤ result }
    ensures slim { result ≤ℤ pos 12500000 }
{
    25 * scale
}

// The same in units of a picture.
fn unit_at(scale: i64, grain: Unit) -> Unit
    requires { IsScale scale }
    ensures value { result ≡ unit_at scale grain }
    ensures slim { result ≤ℤ pos 17179870 }
{
    Unit::new(quotient(quarter_at(scale), grain.get()).max(1))
}

/// The window of a sheet on a paper.
pub(crate) fn window_on(paper: Option<Paper>, lines: u16, points: usize, window: Window) -> Window
    requires { lines ≤ 100 }
    ensures { result ≡ window_on paper lines points window }
{
    match paper {
        Some(paper) => {
            let scale = scale_on(paper, lines, points, window);
            window.with_unit(unit_at(scale, window.grain()))
        }
        None => window,
    }
}
