//! The whole sheet.

ghost use Rattle.std.specs.Prelude.{◌≡◌, ◌≤◌, ◌<◌, ◌++◌, ◌∷◌, [], flat_map, IfOk, OnOk};
ghost use Rattle.vcm_picture.specs.Marks.{contact_of};
ghost use Rattle.vcm_picture.specs.View.{scope_of};
ghost use Rattle.vcm_picture.specs.declared.view.View.TheVariants.{Top, Front, Side};
ghost use Rattle.vcm_sheet.specs.Content.{filing, shown_in, title_said, used_of, tables, bar_said, block_if, whole, content};
ghost use Rattle.vcm_sheet.specs.Filed.{IsFiled};
ghost use Rattle.vcm_sheet.specs.Paper.{room_of};
ghost use Rattle.vcm_sheet.specs.Sayings.{IsMute, Adds, Says};
ghost use Rattle.vcm_sheet.specs.Views.{drawn_at, number_said, missing_words, missing_line, view_said};

use crate::block::{begin_frame, put_block};
use crate::frames::{AxisTicks, has_origin, put_axes, put_ticks, put_words, ticks_in};
use crate::heading::{heading_lines, put_heading};
use crate::legend::{NONE, Used, used_in};
use crate::lines::{draws_end, marks_on};
use crate::names::put_name;
use crate::numbers::Numbered;
use crate::paper::{
    Paper, Room, are_below, high_of, room_of, scale_on, tables_wide, wide_of, window_on,
};
use crate::places::{corner, moved, units};
use crate::points::{Pointed, all_points, points_on};
use crate::rows::{COLUMN_WIDTH, columns_of, put_blocks, put_points, put_signs};
use crate::subject::Sheet;
use crate::views::{Drawing, drawing_of};
use std::alloc::Global;
use std::io::Write;
use vcm_items::Name;
use vcm_marks::PlacedMark;
use vcm_num::{NoMemory, write_all};
use vcm_picture::{
    PictureFault, Scope, View, Window, are_few, begin_view, contact_of, first_line, put_clips,
    put_shapes, scope_of, window_shown,
};
use vcm_svg::{
    BoundedSpot, Class, Fragment, Lettering, Outline, Placement, Spot, Unit, put, put_bar,
    put_notes_style, put_path, put_style, put_text, quotient,
};

/// The views, in the order in which they are drawn.
const VIEWS: [View; 3] = [View::Top, View::Front, View::Side];

/// The three views of a sheet.
#[derive(Drop)]
struct Drawings {
    top: Drawing,
    front: Drawing,
    side: Drawing,
}

/// Where the parts of a sheet stand, and its size, in its units.
#[derive(Clone, Copy)]
struct Places {
    top: BoundedSpot,
    front: BoundedSpot,
    side: BoundedSpot,
    bar: BoundedSpot,
    wide: i64,
    high: i64,
}

// The drawing of a view.
fn drawn(
    alloc: Global,
    window: Window,
    view: View,
    sheet: &Sheet<'_>,
    is_drawn: bool,
    marks: &[PlacedMark],
    points: &[Pointed],
) -> Result<Drawing, NoMemory>
    ensures { IfOk result (λ d. shown_in d ≡ drawn_at is_drawn (scope_of window view) sheet.now.part.now sheet.now.world.now marks.now points.now) }
{
    let scope = scope_of(window, view);
    let (part, world) = (sheet.part, sheet.world);
    drawing_of(alloc, is_drawn, scope, part, world, marks, points)
}

// The drawings of the three views.
fn drawings_of(
    alloc: Global,
    window: Window,
    sheet: &Sheet<'_>,
    is_drawn: bool,
    marks: &[PlacedMark],
    points: &[Pointed],
) -> Result<Drawings, NoMemory>
    ensures top { IfOk result (λ d. shown_in d.top ≡ drawn_at is_drawn (scope_of window Top) sheet.now.part.now sheet.now.world.now marks.now points.now) }
    ensures front { IfOk result (λ d. shown_in d.front ≡ drawn_at is_drawn (scope_of window Front) sheet.now.part.now sheet.now.world.now marks.now points.now) }
    ensures side { IfOk result (λ d. shown_in d.side ≡ drawn_at is_drawn (scope_of window Side) sheet.now.part.now sheet.now.world.now marks.now points.now) }
{
    let top = drawn(alloc, window, View::Top, sheet, is_drawn, marks, points)?;
    let front = drawn(alloc, window, View::Front, sheet, is_drawn, marks, points)?;
    let side = drawn(alloc, window, View::Side, sheet, is_drawn, marks, points)?;
    Ok(Drawings { top, front, side })
}

// Which marks stand in the three views.
fn used_of(window: Window, drawings: &Drawings) -> Used
    ensures { result ≡ used_of window (shown_in drawings.now.top) (shown_in drawings.now.front) (shown_in drawings.now.side) }
{
    let top = scope_of(window, View::Top);
    let front = scope_of(window, View::Front);
    let side = scope_of(window, View::Side);
    let used = used_in(top, NONE, drawings.top.shapes.as_slice());
    let used = used_in(front, used, drawings.front.shapes.as_slice());
    used_in(side, used, drawings.side.shapes.as_slice())
}

// What stands where: a paper, if there is one, and whether the tables are below the views there; and how many points there are, for which there is so much room.
#[derive(Clone, Copy)]
struct Sizes {
    paper: Option<Paper>,
    is_below: bool,
    room: Room,
    points: usize,
}

// What has room on a sheet whose heading has so many lines, and where the tables are.
fn sizes_of(paper: Option<Paper>, lines: u16, points: usize, window: Window) -> Sizes
    requires { lines ≤ 100 }
    ensures room { result.room ≡ room_of paper lines points window }
    ensures some { 1 ≤ result.room.rows }
{
    let is_below = match paper {
        Some(paper) => are_below(paper, lines, points, window),
        None => false,
    };
    Sizes {
        paper,
        is_below,
        room: room_of(paper, lines, points, window),
        points,
    }
}

// How far from the upper edge of the frame the tables stand on a paper where they are below the views: 13 rows and a gap above its foot.
fn below_views(paper: Paper) -> i64 {
    i64::from(high_of(paper)) - 128 - 192
}

// How far from the left edge the tables stand: right of the top view, or on a paper at the right edge of the frame.
fn tables_left(window: Window, sizes: Sizes) -> i64 {
    let unit = window.unit();
    match sizes.paper {
        Some(_) if sizes.is_below => units(20, unit),
        Some(paper) => {
            let wide = tables_wide(paper, sizes.room.rows, sizes.points);
            let right = i64::from(wide_of(paper)) - 120;
            units(right.saturating_sub(i64::from(wide)), unit)
        }
        None => units(130, unit).saturating_add(scope_of(window, View::Top).wide().get()),
    }
}

// The place of the tables, in a sheet whose heading ends so many units below its upper edge.
fn tables_place(window: Window, sizes: Sizes, down: i64) -> Spot {
    let upper = match sizes.paper {
        Some(paper) if sizes.is_below => below_views(paper),
        _ => down.saturating_add(36),
    };
    let place = corner(tables_left(window, sizes), units(upper, window.unit()));
    place.spot()
}

// The place of the table of points: below the legend, which begins and ends there, or beside it.
fn points_place(unit: Unit, sizes: Sizes, legend: Spot, below: Spot) -> Spot {
    if sizes.is_below {
        moved(legend, units(370, unit), units(-8, unit))
    } else {
        below
    }
}

// How many units the tables are wide.
fn tables_width(sizes: Sizes) -> i64 {
    columns_of(sizes.room.rows, sizes.points)
        .saturating_mul(COLUMN_WIDTH)
        .max(350)
}

// The size of a sheet: that of its paper, or what its parts need, which end so far to the right and so far down.
fn size_of(unit: Unit, sizes: Sizes, right: i64, foot: i64) -> (i64, i64) {
    match sizes.paper {
        Some(paper) => (
            units(i64::from(wide_of(paper)), unit),
            units(i64::from(high_of(paper)), unit),
        ),
        None => (
            right.saturating_add(units(20, unit)),
            foot.saturating_add(units(60, unit)),
        ),
    }
}

// How far down the lower views stand: below the top view, and without a paper below the tables too, which end so far down.
fn lower_views(window: Window, sizes: Sizes, upper: i64, below: i64) -> i64 {
    let top = upper.saturating_add(scope_of(window, View::Top).high().get());
    let above = match sizes.paper {
        Some(_) => top,
        None => top.max(below),
    };
    above.saturating_add(units(48, window.unit()))
}

// Where the parts of a sheet stand, whose heading ends so many units below its upper edge, and whose tables begin and end there.
fn places_of(window: Window, sizes: Sizes, down: i64, tables: Spot, below: Spot) -> Places {
    let unit = window.unit();
    let side = scope_of(window, View::Side);
    let left = units(60, unit);
    let upper = units(down.saturating_add(28), unit);
    let lower = lower_views(window, sizes, upper, below.y);
    let foot = lower.saturating_add(side.high().get());
    let beside = units(130, unit).saturating_add(scope_of(window, View::Top).wide().get());
    let right = tables
        .x
        .saturating_add(side.wide().get().max(units(tables_width(sizes), unit)));
    let (wide, high) = size_of(unit, sizes, right, foot);
    Places {
        top: corner(left, upper),
        front: corner(left, lower),
        side: corner(beside, lower),
        bar: corner(left, foot.saturating_add(units(42, unit))),
        wide,
        high,
    }
}

// Appends the number of a point in its box.
fn put_number(out: &mut Vec<u8>, unit: Unit, number: &Numbered) -> Result<(), NoMemory>
    ensures { OnOk result (Adds (number_said unit number.now) out.old.items out.new.items) }
{
    let at = number.area.first_letter(unit.times(8));
    put_words(
        out,
        b" class=\"p c\"",
        unit,
        at,
        &[Fragment::Number(number.point.number)],
    )
}

// Appends the numbers of points, each in its box.
fn put_numbers(out: &mut Vec<u8>, unit: Unit, numbers: &[Numbered]) -> Result<(), NoMemory>
    ensures { OnOk result (Adds (flat_map (number_said unit) numbers.now) out.old.items out.new.items) }
{
    for number in numbers {
        put_number(out, unit, number)?;
    }
    Ok(())
}

// Where the words are that say how many numbers found no room in a view.
fn missing_label(scope: Scope, at: Spot) -> Placement {
    let unit = scope.unit();
    Placement {
        at: moved(at, 0, units(-18, unit)),
        size: unit.get(),
        class: Lettering::Plain,
    }
}

// What is said of so many numbers.
fn missing_words(missing: usize) -> &'static [u8]
    ensures { result.now ≡ missing_words missing }
{
    if missing == 1 {
        b" number has no room"
    } else {
        b" numbers have no room"
    }
}

// Appends how many numbers found no room in a view, if there are any.
fn put_missing(
    out: &mut Vec<u8>,
    scope: Scope,
    at: Spot,
    points: usize,
    numbers: usize,
) -> Result<(), NoMemory>
    ensures { OnOk result (Adds (missing_line points numbers) out.old.items out.new.items) }
{
    let missing = points.saturating_sub(numbers);
    if missing == 0 {
        return Ok(());
    }
    put_text(
        out,
        missing_label(scope, at),
        &[
            Fragment::Count(missing as u64),
            Fragment::Text(missing_words(missing)),
        ],
    )
}

// Appends a view at its place.
fn put_drawing(
    out: &mut Vec<u8>,
    scope: Scope,
    at: BoundedSpot,
    drawing: &Drawing,
    ticks: &AxisTicks,
    features: &[Name],
    stopped: &[u8],
    points: usize,
) -> Result<(), NoMemory>
    ensures { OnOk result (Adds (view_said features.now stopped.now scope ticks.now (shown_in drawing.now) points) out.old.items out.new.items) }
{
    let numbers = drawing.numbers.as_slice();
    put_missing(out, scope, at.spot(), points, numbers.len())?;
    begin_view(out, scope, at)?;
    put_axes(out, scope, ticks)?;
    put_shapes(out, features, stopped, drawing.shapes.as_slice())?;
    put_numbers(out, scope.unit(), numbers)?;
    put(out, &[Fragment::Text(b"</g>\n")])?;
    put_ticks(out, scope, at.spot(), ticks)
}

// Appends the three views.
fn put_drawings(
    out: &mut Vec<u8>,
    window: Window,
    places: &Places,
    drawings: &Drawings,
    ticks: &AxisTicks,
    features: &[Name],
    stopped: &[u8],
    points: usize,
) -> Result<(), NoMemory>
    ensures { OnOk result (Adds (view_said features.now stopped.now (scope_of window Top) ticks.now (shown_in drawings.now.top) points
        ++ (view_said features.now stopped.now (scope_of window Front) ticks.now (shown_in drawings.now.front) points
        ++ view_said features.now stopped.now (scope_of window Side) ticks.now (shown_in drawings.now.side) points)) out.old.items out.new.items) }
{
    let top = scope_of(window, View::Top);
    let front = scope_of(window, View::Front);
    let side = scope_of(window, View::Side);
    put_drawing(
        out,
        top,
        places.top,
        &drawings.top,
        ticks,
        features,
        stopped,
        points,
    )?;
    put_drawing(
        out,
        front,
        places.front,
        &drawings.front,
        ticks,
        features,
        stopped,
        points,
    )?;
    put_drawing(
        out,
        side,
        places.side,
        &drawings.side,
        ticks,
        features,
        stopped,
        points,
    )
}

// Appends the tables, and gives the place below them.
fn put_tables(
    alloc: Global,
    out: &mut Vec<u8>,
    at: Spot,
    unit: Unit,
    used: Used,
    ticks: &AxisTicks,
    sheet: &Sheet<'_>,
    sizes: Sizes,
    points: &[Pointed],
) -> Result<Spot, NoMemory>
    requires { 0 < sizes.room.rows }
    ensures { IfOk result (λ next. Adds (tables (filing sheet.now) used ticks.now sizes.room points.now) out.old.items out.new.items) }
{
    let features = sheet.world.tables().features();
    let room = sizes.room;
    let below = put_signs(out, at, unit, used, has_origin(ticks))?;
    let at = points_place(unit, sizes, at, below);
    let at = put_points(out, at, unit, room, features, sheet.readings, points)?;
    put_blocks(alloc, out, at, unit, room.names, sheet.block_names)
}

// The width and the height of a sheet on a screen, or in millimetres on a paper, where texts are a quarter of one for each unit.
fn size_shown(unit: Unit, places: &Places, paper: Option<Paper>) -> (i64, i64) {
    match paper {
        Some(paper) => (
            quotient(i64::from(wide_of(paper)), 4),
            quotient(i64::from(high_of(paper)), 4),
        ),
        None => (
            quotient(places.wide, unit.get()),
            quotient(places.high, unit.get()),
        ),
    }
}

// In what it is measured.
fn measure_of(paper: Option<Paper>) -> &'static [u8]
    ensures { IsMute result.now }
{
    match paper {
        Some(_) => b"mm",
        None => b"",
    }
}

// Appends the beginning of the sheet, with its size.
fn put_size(
    out: &mut Vec<u8>,
    unit: Unit,
    places: &Places,
    paper: Option<Paper>,
) -> Result<(), NoMemory>
    ensures { OnOk result (Adds [] out.old.items out.new.items) }
{
    let (wide, high) = size_shown(unit, places, paper);
    let measure = measure_of(paper);
    put(
        out,
        &[
            Fragment::Text(b"<svg xmlns=\"http://www.w3.org/2000/svg\" viewBox=\"0 0 "),
            Fragment::Number(places.wide),
            Fragment::Text(b" "),
            Fragment::Number(places.high),
            Fragment::Text(b"\" width=\""),
            Fragment::Number(wide),
            Fragment::Text(measure),
            Fragment::Text(b"\" height=\""),
            Fragment::Number(high),
            Fragment::Text(measure),
            Fragment::Text(b"\">\n"),
        ],
    )
}

// Appends the title: the file of the program, and the first line of the heading.
fn put_title(out: &mut Vec<u8>, sheet: &Sheet<'_>, first: &[u8]) -> Result<(), NoMemory>
    ensures { OnOk result (Adds (title_said (filing sheet.now) first.now ∷ []) out.old.items out.new.items) }
{
    put(out, &[Fragment::Text(b"<title>")])?;
    put_name(out, sheet.program_name)?;
    put(out, &[Fragment::Text(b": "), Fragment::Text(first)])?;
    put(out, &[Fragment::Text(b"</title>\n")])
}

// Appends the head: the size of the sheet, and its title.
fn put_head(
    out: &mut Vec<u8>,
    unit: Unit,
    places: &Places,
    sheet: &Sheet<'_>,
    first: &[u8],
) -> Result<(), NoMemory>
    ensures { OnOk result (Adds (title_said (filing sheet.now) first.now ∷ []) out.old.items out.new.items) }
{
    put_size(out, unit, places, sheet.paper)?;
    put_title(out, sheet, first)
}

// Appends what the style of a sheet has beside that of a picture.
fn put_sheet_style(out: &mut Vec<u8>, unit: Unit) -> Result<(), NoMemory>
    ensures { OnOk result (Adds [] out.old.items out.new.items) }
{
    put(
        out,
        &[
            Fragment::Text(
                b"<style>\n.t{text-anchor:middle}\n.r{text-anchor:end}\n.c{fill:#b34700;font-weight:bold}\n.k{stroke:#555;stroke-width:",
            ),
            Fragment::Number(unit.get()),
            Fragment::Text(b"}\n.z{fill:none;stroke:#999;stroke-width:"),
            Fragment::Number(unit.get()),
            Fragment::Text(b";stroke-dasharray:"),
            Fragment::Number(units(12, unit)),
            Fragment::Text(b" "),
            Fragment::Number(units(4, unit)),
            Fragment::Text(b"}\n</style>\n"),
        ],
    )
}

// Appends the style of what wasn't tried, if something wasn't.
fn put_style_of_notes(out: &mut Vec<u8>, unit: Unit, has_notes: bool) -> Result<(), NoMemory>
    ensures { OnOk result (Adds [] out.old.items out.new.items) }
{
    if has_notes {
        put_notes_style(out, unit)
    } else {
        Ok(())
    }
}

// The background of a sheet.
fn ground_of(places: &Places) -> Outline {
    Outline::Rectangle(Spot { x: 0, y: 0 }, places.wide, places.high)
}

// Appends the style, the clip paths and the background.
fn put_ground(
    out: &mut Vec<u8>,
    window: Window,
    places: &Places,
    blocks: usize,
    marks: &[PlacedMark],
    has_notes: bool,
) -> Result<(), NoMemory>
    ensures { OnOk result (Adds [] out.old.items out.new.items) }
{
    put_style(out, window.unit(), blocks, are_few(marks))?;
    put_sheet_style(out, window.unit())?;
    put_style_of_notes(out, window.unit(), has_notes)?;
    put_clips(out, &VIEWS, window)?;
    put_path(out, Class::Sheet, ground_of(places))
}

// Appends the bar that shows a length.
fn put_length(out: &mut Vec<u8>, window: Window, places: &Places) -> Result<(), NoMemory>
    ensures { OnOk result (Adds (bar_said window) out.old.items out.new.items) }
{
    let scope = scope_of(window, View::Top);
    let wide = scope.wide().get();
    put_bar(out, places.bar, window.unit(), window.grain(), wide)
}

// Appends the beginning of what stands in the frame of a paper.
fn begin_paper(out: &mut Vec<u8>, unit: Unit, paper: Option<Paper>) -> Result<(), NoMemory>
    ensures { OnOk result (Adds [] out.old.items out.new.items) }
{
    match paper {
        Some(_) => begin_frame(out, unit),
        None => Ok(()),
    }
}

// Appends the title block, on a paper, below a heading of so many lines.
fn put_block_if(
    alloc: Global,
    out: &mut Vec<u8>,
    window: Window,
    sheet: &Sheet<'_>,
    lines: u16,
    points: usize,
) -> Result<(), NoMemory>
    requires { lines ≤ 100 }
    ensures { OnOk result (Adds (block_if (filing sheet.now) sheet.now.paper lines points window) out.old.items out.new.items) }
{
    match sheet.paper {
        Some(paper) => {
            let scale = scale_on(paper, lines, points, window);
            let tip = sheet.part.bounds().tip;
            put_block(
                alloc,
                out,
                window.unit(),
                paper,
                sheet.title,
                sheet.part_name,
                tip,
                scale,
            )
        }
        None => Ok(()),
    }
}

// Appends the bar that shows a length and the title block, and ends the sheet.
fn put_foot(
    alloc: Global,
    out: &mut Vec<u8>,
    window: Window,
    places: &Places,
    sheet: &Sheet<'_>,
    lines: u16,
    points: usize,
) -> Result<(), NoMemory>
    requires { lines ≤ 100 }
    ensures { OnOk result (Adds (bar_said window ++ block_if (filing sheet.now) sheet.now.paper lines points window) out.old.items out.new.items) }
{
    put_length(out, window, places)?;
    put_block_if(alloc, out, window, sheet, lines, points)?;
    put(out, &[Fragment::Text(b"</svg>\n")])
}

// Puts a sheet together of its views, its heading, which ends so many units below the upper edge, and its points.
fn put_whole(
    alloc: Global,
    sheet: &Sheet<'_>,
    window: Window,
    drawings: &Drawings,
    is_drawn: bool,
    marks: &[PlacedMark],
    points: &[Pointed],
    first: &[u8],
) -> Result<Vec<u8>, NoMemory>
    ensures { IfOk result (λ v. Says (whole (filing sheet.now) first.now is_drawn window (shown_in drawings.now.top) (shown_in drawings.now.front) (shown_in drawings.now.side) (contact_of marks.now) points.now) v.items) }
{
    let unit = window.unit();
    let ticks = ticks_in(alloc, window)?;
    let mut heading = Vec::new(alloc);
    let contact = contact_of(marks);
    let down = put_heading(alloc, &mut heading, unit, first, sheet, is_drawn, contact)?;
    let lines = heading_lines(sheet, is_drawn, contact);
    let sizes = sizes_of(sheet.paper, lines, points.len(), window);
    let mut tables = Vec::new(alloc);
    let place = tables_place(window, sizes, down);
    let used = used_of(window, drawings);
    let below = put_tables(
        alloc,
        &mut tables,
        place,
        unit,
        used,
        &ticks,
        sheet,
        sizes,
        points,
    )?;
    let places = places_of(window, sizes, down, place, below);
    let mut out = Vec::new(alloc);
    put_head(&mut out, unit, &places, sheet, first)?;
    let has_notes = !sheet.untried.is_empty();
    put_ground(
        &mut out,
        window,
        &places,
        sheet.part.blocks().len(),
        marks,
        has_notes,
    )?;
    begin_paper(&mut out, unit, sheet.paper)?;
    out.append(&mut heading)?;
    let features = sheet.world.tables().features();
    put_drawings(
        &mut out,
        window,
        &places,
        drawings,
        &ticks,
        features,
        first,
        points.len(),
    )?;
    out.append(&mut tables)?;
    put_foot(alloc, &mut out, window, &places, sheet, lines, points.len())?;
    Ok(out)
}

// The bytes of a sheet.
fn sheet_bytes(alloc: Global, sheet: &Sheet<'_>) -> Result<Vec<u8>, NoMemory>
    ensures { IfOk result (λ v. Says (content (filing sheet.now)) v.items) }
{
    let shown = marks_on(alloc, sheet.lines, sheet.marks)?;
    let marks = shown.as_slice();
    let numbered = points_on(all_points(alloc, sheet.marks)?, sheet.lines);
    let points = numbered.as_slice();
    let world = sheet.world;
    let round = window_shown(sheet.part, world, marks, sheet.is_close);
    let is_drawn = draws_end(sheet.lines, sheet.marks);
    let lines = heading_lines(sheet, is_drawn, contact_of(marks));
    let window = window_on(sheet.paper, lines, points.len(), round);
    let drawings = drawings_of(alloc, window, sheet, is_drawn, marks, points)?;
    let line = first_line(alloc, world.tables(), world.stop(), sheet.done)?;
    let first = line.as_slice();
    put_whole(
        alloc, sheet, window, &drawings, is_drawn, marks, points, first,
    )
}

/// Writes a sheet as SVG. It says what `content` in `specs/Content.antt` says of what is filed: the stop, the files, the touched points with their numbers, the
/// tables and the ticks.
///
/// # Errors
///
/// `NoMemory`: nothing was written; the call may be repeated. `Write`: the writer failed, or took no byte; then it has taken a front of the sheet,
/// and not all of it.
pub fn write_sheet<W: Write>(
    alloc: Global,
    sheet: &Sheet<'_>,
    writer: &mut W,
) -> Result<(), PictureFault>
    ensures { IsFiled (content (filing sheet.now)) (W.contents writer.old) (W.contents writer.new) result }
{
    let Ok(bytes) = sheet_bytes(alloc, sheet) else {
        return Err(PictureFault::NoMemory);
    };
    match write_all(writer, bytes.as_slice()) {
        Ok(()) => Ok(()),
        Err(_) => Err(PictureFault::Write),
    }
}
