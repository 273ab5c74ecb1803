//! The whole picture.

ghost use Rattle.std.specs.Prelude.{◌≡◌, ◌++◌, ◌<◌, ◌≤ℤ◌, pos, map, OnOk, IfOk, IsTrue};
ghost use Rattle.std.specs.List.{list_all};
ghost use Rattle.vcm_spec.specs.Workpiece.{is_block};
ghost use Rattle.vcm_picture.specs.Picture.{above, heading_high, below_heading, headings_text, units, laid_out, layout_with, layout_of, head_text, clip_text, clips_text, background_text, window_for, window_round, view_spot, views_text, legend_spot, bar_place, foot_text, picture_of, picture_text, sheet};
ghost use Rattle.vcm_picture.specs.Drawing.{scene, view_text};
ghost use Rattle.vcm_picture.specs.Ranges.{IsLayout};
ghost use Rattle.vcm_svg.specs.Ranges.{IsSize, IsSmall};
ghost use Rattle.vcm_picture.specs.inner.Layouts.{IsLine, IsSlim};
ghost use Rattle.vcm_picture.specs.Outcome.{IsPicture};
ghost use Rattle.vcm_picture.specs.View.{scope_of};
ghost use Rattle.vcm_svg.specs.Rect.{spot};

use crate::drawing::{frame_of, put_view};
use crate::heading::first_line;
use crate::marks::{are_few, begin_elsewhere};
use crate::span::span_of;
use crate::view::{View, clip, scope_of};
use crate::window::{Window, window_of};
use std::alloc::Global;
use std::io::Write;
use std::marker::Model;
use vcm_marks::PlacedMark;
use vcm_num::{NoMemory, Point, write_all};
use vcm_part::PartData;
use vcm_spec::Block3;
use vcm_state::World;
use vcm_svg::{
    BoundedSpot, Class, Fragment, Outline, Spot, Unit, notes_high, put, put_bar, put_heading,
    put_legend, put_notes, put_outline, put_path, put_style, quotient,
};

/// Why a picture isn't written.
#[derive(Clone, Copy)]
pub enum PictureFault {
    /// A growth of memory was refused; nothing was written.
    NoMemory,
    /// The writer failed, or took no byte; it has taken a front of the picture that is not all.
    Write,
}

/// The views, in the order in which they are drawn.
const VIEWS: [View; 3] = [View::Top, View::Front, View::Side];

/// Where the parts of a picture stand, and its size, in its units.
#[derive(Clone, Copy)]
pub struct Layout {
    left: i64,
    top: i64,
    front: i64,
    side: i64,
    wide: i64,
    high: i64,
}

impl Model for Layout {
    ghost use Rattle.vcm_picture.specs.Picture.{laid_out};
    ghost use Rattle.vcm_picture.specs.Ranges.{IsLayout};
    ghost use Rattle.vcm_picture.specs.Sights.{Layout as Meaning};

    ghost Value = { Meaning };

    ghost view = { λ l. laid_out l.left l.top l.front l.side l.wide l.high };

    ghost invariant = { λ l. IsLayout (laid_out l.left l.top l.front l.side l.wide l.high) };

    ghost inverse = { λ l. record { left = l.left; top = l.top; front = l.front; side = l.side; wide = l.wide; high = l.high } };
}

// A layout of these numbers.
fn laid_out(left: i64, top: i64, front: i64, side: i64, wide: i64, high: i64) -> Layout
    requires { IsLayout (laid_out left top front side wide high) }
    ensures { result ≡ laid_out left top front side wide high }
{
    Layout {
        left,
        top,
        front,
        side,
        wide,
        high,
    }
}

// The layout of this unit, height of the heading and widths of the axes.
fn layout_with(unit: i64, above: i64, wide: i64, deep: i64, high: i64) -> Layout
    requires unit { IsSlim unit }
    requires above { IsLine above }
    requires wide { IsSize wide }
    requires deep { IsSize deep }
    requires high { IsSize high }
    ensures { result ≡ layout_with unit above wide deep high }
{
    let left = 20 * unit;
    let top = above * unit;
    let front = top + deep + 30 * unit;
    let side = left + wide + 30 * unit;
    laid_out(
        left,
        top,
        front,
        side,
        side + deep + 20 * unit,
        front + high + 50 * unit,
    )
}

// How wide an axis is in units of the picture.
fn units(window: Window, axis: usize) -> i64
    requires { axis < 3 }
    ensures units { result ≡ units window axis }
    ensures size { IsSize result }
{
    quotient(window.full(axis), window.grain().get())
}

// The layout, with the top view so many units below the upper edge.
fn layout_of(window: Window, above: i64) -> Layout
    requires above { IsLine above }
    ensures { result ≡ layout_of window above }
{
    layout_with(
        window.unit().get(),
        above,
        units(window, 0),
        units(window, 1),
        units(window, 2),
    )
}

// Appends the head: the size of the picture, and its title.
fn put_head(out: &mut Vec<u8>, layout: Layout, unit: Unit, first: &[u8]) -> Result<(), NoMemory>
    ensures { OnOk result (out.new.items ≡ out.old.items ++ head_text layout unit first.now) }
{
    let unit = unit.get();
    put(
        out,
        &[
            Fragment::Text(b"<svg xmlns=\"http://www.w3.org/2000/svg\" viewBox=\"0 0 "),
            Fragment::Number(layout.wide),
            Fragment::Text(b" "),
            Fragment::Number(layout.high),
            Fragment::Text(b"\" width=\""),
            Fragment::Number(quotient(layout.wide, unit)),
            Fragment::Text(b"\" height=\""),
            Fragment::Number(quotient(layout.high, unit)),
            Fragment::Text(b"\">\n<title>"),
            Fragment::Text(first),
            Fragment::Text(b"</title>\n"),
        ],
    )
}

// Appends the clip path of a view.
fn put_clip(out: &mut Vec<u8>, view: View, window: Window) -> Result<(), NoMemory>
    ensures { OnOk result (out.new.items ≡ out.old.items ++ clip_text window view) }
{
    let scope = scope_of(window, view);
    put(
        out,
        &[
            Fragment::Text(b"<clipPath id=\"v"),
            Fragment::Text(clip(view)),
            Fragment::Text(b"\"><path d=\""),
        ],
    )?;
    put_outline(out, frame_of(scope))?;
    put(out, &[Fragment::Text(b"\"/></clipPath>\n")])
}

/// Appends the clip paths of some views.
pub fn put_clips(out: &mut Vec<u8>, views: &[View], window: Window) -> Result<(), NoMemory>
    ensures { OnOk result (out.new.items ≡ out.old.items ++ clips_text window views.now) }
{
    for view in views {
        put_clip(out, *view, window)?;
    }
    Ok(())
}

// Appends the clip paths, and the background.
fn put_background(out: &mut Vec<u8>, window: Window, layout: Layout) -> Result<(), NoMemory>
    ensures { OnOk result (out.new.items ≡ out.old.items ++ background_text window layout) }
{
    put_clips(out, &VIEWS, window)?;
    let sheet = Outline::Rectangle(Spot { x: 0, y: 0 }, layout.wide, layout.high);
    put_path(out, Class::Sheet, sheet)
}

// The window round these points, blocks and marks.
fn window_for(
    is_close: bool,
    home: Point,
    position: Point,
    blocks: &[Block3],
    marks: &[PlacedMark],
) -> Window
    requires blocks { IsTrue (list_all is_block blocks.now) }
    ensures { result ≡ window_for is_close home position blocks.now marks.now }
{
    window_of(
        span_of(0, is_close, home, position, blocks, marks),
        span_of(1, is_close, home, position, blocks, marks),
        span_of(2, is_close, home, position, blocks, marks),
    )
}

// The window of a picture.
fn window_round(part: &PartData, world: &World, marks: &[PlacedMark], is_close: bool) -> Window
    ensures { result ≡ window_round part.now world.now marks.now is_close }
{
    window_for(
        is_close,
        part.bounds().home,
        world.position(),
        part.blocks(),
        marks,
    )
}

/// The window of a picture: of home, the position at the end, the blocks and the pieces, or, of a close one, of the blocks alone.
pub fn window_shown(part: &PartData, world: &World, marks: &[PlacedMark], is_close: bool) -> Window
    ensures { result ≡ window_round part.now world.now marks.now is_close }
{
    window_round(part, world, marks, is_close)
}

// A place of small numbers.
fn corner(x: i64, y: i64) -> BoundedSpot
    requires x { IsSmall x }
    requires y { IsSmall y }
    ensures { result ≡ spot x y }
{
    BoundedSpot::new(Spot { x, y })
}

// Where a view stands.
fn view_spot(layout: Layout, view: View) -> BoundedSpot
    ensures { result ≡ view_spot layout view }
{
    match view {
        View::Top => corner(layout.left, layout.top),
        View::Front => corner(layout.left, layout.front),
        View::Side => corner(layout.side, layout.front),
    }
}

// Appends a view at its place.
fn put_view_at(
    alloc: Global,
    out: &mut Vec<u8>,
    window: Window,
    layout: Layout,
    view: View,
    part: &PartData,
    world: &World,
    stopped: &[u8],
    marks: &[PlacedMark],
) -> Result<(), NoMemory>
    ensures { OnOk result (out.new.items ≡ out.old.items ++ view_text (scope_of window view) (view_spot layout view) (scene part.now world.now stopped.now) marks.now) }
{
    let scope = scope_of(window, view);
    let at = view_spot(layout, view);
    put_view(alloc, out, scope, at, part, world, stopped, marks)
}

// Appends views, each at its place.
fn put_views(
    alloc: Global,
    out: &mut Vec<u8>,
    views: &[View],
    window: Window,
    layout: Layout,
    part: &PartData,
    world: &World,
    stopped: &[u8],
    marks: &[PlacedMark],
) -> Result<(), NoMemory>
    ensures { OnOk result (out.new.items ≡ out.old.items ++ views_text window layout (scene part.now world.now stopped.now) marks.now views.now) }
{
    for view in views {
        put_view_at(
            alloc, out, window, layout, *view, part, world, stopped, marks,
        )?;
    }
    Ok(())
}

// Where the legend stands.
fn legend_spot(layout: Layout, unit: Unit) -> BoundedSpot
    ensures { result ≡ legend_spot layout unit }
{
    corner(layout.side, layout.top + 8 * unit.get())
}

// Where the bar stands.
fn bar_place(layout: Layout, unit: Unit) -> BoundedSpot
    ensures { result ≡ bar_place layout unit }
{
    corner(layout.left, layout.high - 28 * unit.get())
}

// Appends the legend and the bar, and ends the picture.
fn put_foot(out: &mut Vec<u8>, window: Window, layout: Layout) -> Result<(), NoMemory>
    ensures { OnOk result (out.new.items ≡ out.old.items ++ foot_text window layout) }
{
    let unit = window.unit();
    put_legend(out, legend_spot(layout, unit), unit)?;
    put_bar(
        out,
        bar_place(layout, unit),
        unit,
        window.grain(),
        units(window, 0),
    )?;
    put(out, &[Fragment::Text(b"</svg>\n")])
}

// How many units the heading is high, without what wasn't tried.
fn heading_high(left_out: u64) -> i64
    ensures high { result ≡ heading_high left_out }
    ensures from_below { pos 0 ≤ℤ result }
    ensures from_above { result ≤ℤ pos 100 }
{
    if left_out == 0 { 82 } else { 100 }
}

// How many units the top view stands below the upper edge.
fn above(left_out: u64, untried: &[Vec<u8>]) -> i64
    ensures above { result ≡ above left_out (map (λ line. line.items) untried.now) }
    ensures line { IsLine result }
{
    heading_high(left_out) + notes_high(untried)
}

// How many units below the upper edge the first line of what wasn't tried stands.
fn below_heading(left_out: u64) -> u16
    ensures { result ≡ below_heading left_out }
{
    if left_out == 0 { 56 } else { 74 }
}

// Appends the heading, and what wasn't tried below it.
fn put_headings(
    out: &mut Vec<u8>,
    window: Window,
    layout: Layout,
    first: &[u8],
    position: Point,
    done: u64,
    marks: &[PlacedMark],
    left_out: u64,
    untried: &[Vec<u8>],
) -> Result<(), NoMemory>
    ensures { OnOk result (out.new.items ≡ out.old.items ++ headings_text window layout first.now position done marks.now left_out (map (λ line. line.items) untried.now)) }
{
    let unit = window.unit();
    put_heading(out, unit, first, position, done, left_out)?;
    put_notes(
        out,
        unit,
        below_heading(left_out),
        untried,
        legend_spot(layout, unit),
        begin_elsewhere(marks),
    )
}

// Appends the picture with this window, layout and first line of the heading.
fn put_picture(
    alloc: Global,
    out: &mut Vec<u8>,
    part: &PartData,
    world: &World,
    done: u64,
    marks: &[PlacedMark],
    left_out: u64,
    untried: &[Vec<u8>],
    window: Window,
    layout: Layout,
    first: &[u8],
) -> Result<(), NoMemory>
    ensures { OnOk result (out.new.items ≡ out.old.items ++ picture_of part.now world.now done marks.now left_out (map (λ line. line.items) untried.now) window layout first.now) }
{
    let unit = window.unit();
    put_head(out, layout, unit, first)?;
    put_style(out, unit, part.blocks().len(), are_few(marks))?;
    put_background(out, window, layout)?;
    let position = world.position();
    put_headings(
        out, window, layout, first, position, done, marks, left_out, untried,
    )?;
    put_views(
        alloc, out, &VIEWS, window, layout, part, world, first, marks,
    )?;
    put_foot(out, window, layout)
}

// The picture.
fn picture(
    alloc: Global,
    part: &PartData,
    world: &World,
    done: u64,
    marks: &[PlacedMark],
    left_out: u64,
    is_close: bool,
    untried: &[Vec<u8>],
) -> Result<Vec<u8>, NoMemory>
    ensures { IfOk result (λ bytes. bytes.items ≡ picture_text (sheet part.now world.now done marks.now left_out is_close (map (λ line. line.items) untried.now))) }
{
    let window = window_round(part, world, marks, is_close);
    let layout = layout_of(window, above(left_out, untried));
    let first = first_line(alloc, world.tables(), world.stop(), done)?;
    let mut out = Vec::new(alloc);
    put_picture(
        alloc,
        &mut out,
        part,
        world,
        done,
        marks,
        left_out,
        untried,
        window,
        layout,
        first.as_slice(),
    )?;
    Ok(out)
}

// Writes all bytes.
fn write_bytes<W: Write>(writer: &mut W, bytes: &[u8]) -> Result<(), PictureFault>
    ensures { IsPicture (W.contents writer.old) (W.contents writer.new) bytes.now result }
{
    match write_all(writer, bytes) {
        Ok(()) => Ok(()),
        Err(_) => Err(PictureFault::Write),
    }
}

/// Writes a picture of a workpiece and of the way of the probe as SVG: three views with the blocks, the marks of the way, and the state at the end
/// of a run of so many steps. `left_out` pieces of the way are left out before the marks. A close picture shows the blocks as large as they
/// are. Lines of what wasn't tried stand in its heading, 40 at most.
///
/// # Errors
///
/// `NoMemory`: nothing was written; the call may be repeated. `Write`: the writer failed, or took no byte; then it has taken a front of the
/// picture, and not all of it.
pub fn write_picture<W: Write>(
    alloc: Global,
    part: &PartData,
    world: &World,
    done: u64,
    marks: &[PlacedMark],
    left_out: u64,
    is_close: bool,
    untried: &[Vec<u8>],
    writer: &mut W,
) -> Result<(), PictureFault>
    ensures { IsPicture (W.contents writer.old) (W.contents writer.new) (picture_text (sheet part.now world.now done marks.now left_out is_close (map (λ line. line.items) untried.now))) result }
{
    match picture(alloc, part, world, done, marks, left_out, is_close, untried) {
        Ok(bytes) => write_bytes(writer, bytes.as_slice()),
        Err(_) => Err(PictureFault::NoMemory),
    }
}
