//! The tables of a sheet: the legend, the touched points and the names of blocks.

ghost use Rattle.std.specs.Prelude.{◌≡◌, ◌≤◌, ◌%◌, nat_eq, [], ◌∷◌, ◌++◌, ◌<◌, codes, map, flat_map, length, take, OnOk, IfOk};
ghost use Rattle.std.specs.List.{take_while};
ghost use Rattle.std.specs.Str.{bytes_eq};
ghost use Rattle.vcm_svg.specs.Pieces.{piece_text, point_text};
ghost use Rattle.vcm_sheet.specs.Readings.{place_words, deviation_words};
ghost use Rattle.vcm_sheet.specs.Sayings.{Adds, say};
ghost use Rattle.vcm_sheet.specs.Tables.{sign_row, way_signs, mark_signs, legend, more_rows, point_row, points_head, head_if, head_at, heads_before, points_table, goes_on, number_if, named_before, last_named, numbers, block_row, blocks_head, table_of, blocks_table};
ghost use Rattle.vcm_sheet.specs.Written.{name_of};

use crate::legend::Used;
use crate::names::{name_of, written};
use crate::paper::Room;
use crate::places::{corner, moved, units};
use crate::points::Pointed;
use crate::readings::{Reading, deviation_words, place_words, reading_of};
use std::alloc::Global;
use vcm_items::Name;
use vcm_num::{NoMemory, Point, is};
use vcm_picture::name_at;
use vcm_svg::{Class, Fragment, Lettering, Placement, Sign, Spot, Unit, put, put_row, put_text};

/// How many units a row is high.
pub(crate) const PITCH: i64 = 14;

/// How many units a column of points is wide.
pub(crate) const COLUMN_WIDTH: i64 = 620;

// The place of the next row.
fn below(at: Spot, unit: Unit) -> Spot {
    moved(at, 0, units(PITCH, unit))
}

// Where words of a row stand, so many units to the right.
fn cell(at: Spot, unit: Unit, right: i64) -> Placement {
    Placement {
        at: moved(at, units(right, unit), units(3, unit)),
        size: unit.get(),
        class: Lettering::Plain,
    }
}

// Appends words of a row, so many units to the right.
fn put_cell(
    out: &mut Vec<u8>,
    at: Spot,
    unit: Unit,
    right: i64,
    words: Fragment<'_>,
) -> Result<(), NoMemory>
    ensures { OnOk result (Adds (say (piece_text words.entry ∷ []) ∷ []) out.old.items out.new.items) }
{
    put_text(out, cell(at, unit, right), &[words])
}

// Appends a row of the legend, if its marks are drawn.
fn put_sign(
    out: &mut Vec<u8>,
    at: Spot,
    unit: Unit,
    is_drawn: bool,
    class: Class,
    sign: Sign,
    words: &[u8],
) -> Result<Spot, NoMemory>
    ensures { IfOk result (λ next. Adds (sign_row is_drawn words.now) out.old.items out.new.items) }
{
    if !is_drawn {
        return Ok(at);
    }
    put_row(out, corner(at.x, at.y), unit, 0, class, sign, words)?;
    Ok(below(at, unit))
}

// Appends the rows of pieces of the way that are drawn.
fn put_ways(out: &mut Vec<u8>, at: Spot, unit: Unit, used: Used) -> Result<Spot, NoMemory>
    ensures { IfOk result (λ next. Adds (way_signs used) out.old.items out.new.items) }
{
    let line = Sign::Line;
    let at = put_sign(out, at, unit, used.moves, Class::Move, line, b"move")?;
    let at = put_sign(
        out,
        at,
        unit,
        used.approach,
        Class::Approach,
        line,
        b"approach",
    )?;
    let at = put_sign(out, at, unit, used.search, Class::Search, line, b"search")?;
    let at = put_sign(
        out,
        at,
        unit,
        used.retract,
        Class::Retract,
        line,
        b"retract",
    )?;
    let at = put_sign(out, at, unit, used.rest, Class::Rest, line, b"not reached")?;
    put_sign(
        out,
        at,
        unit,
        used.elsewhere,
        Class::Elsewhere,
        line,
        b"begins elsewhere",
    )
}

// Appends the rows of the other marks that are drawn.
fn put_marks(out: &mut Vec<u8>, at: Spot, unit: Unit, used: Used) -> Result<Spot, NoMemory>
    ensures { IfOk result (λ next. Adds (mark_signs used) out.old.items out.new.items) }
{
    let at = put_sign(
        out,
        at,
        unit,
        used.touched,
        Class::Touched,
        Sign::Point,
        b"point touched, with its number",
    )?;
    let at = put_sign(out, at, unit, used.end, Class::Place, Sign::Circle, b"end")?;
    let at = put_sign(
        out,
        at,
        unit,
        used.home,
        Class::Place,
        Sign::Square,
        b"home",
    )?;
    let at = put_sign(
        out,
        at,
        unit,
        used.contact,
        Class::Cross,
        Sign::Cross,
        b"contact",
    )?;
    let at = put_sign(
        out,
        at,
        unit,
        used.limits,
        Class::Limits,
        Sign::Line,
        b"limits",
    )?;
    put_sign(
        out,
        at,
        unit,
        used.hidden,
        Class::Hidden,
        Sign::Line,
        b"hidden block",
    )
}

// Appends the row of the lines through the origin, if there are any.
fn put_origin(out: &mut Vec<u8>, at: Spot, unit: Unit, has_origin: bool) -> Result<Spot, NoMemory>
    ensures { IfOk result (λ next. Adds (sign_row has_origin (codes "X, Y or Z is 0")) out.old.items out.new.items) }
{
    if !has_origin {
        return Ok(at);
    }
    put(
        out,
        &[
            Fragment::Text(b"<path class=\"z\" d=\"M"),
            Fragment::Number(at.x),
            Fragment::Text(b" "),
            Fragment::Number(at.y),
            Fragment::Text(b"h"),
            Fragment::Number(units(40, unit)),
            Fragment::Text(b"\"/>\n"),
        ],
    )?;
    put_cell(out, at, unit, 48, Fragment::Text(b"X, Y or Z is 0"))?;
    Ok(below(at, unit))
}

/// Appends the rows of the legend whose marks are drawn, and gives the place below them.
pub(crate) fn put_signs(
    out: &mut Vec<u8>,
    at: Spot,
    unit: Unit,
    used: Used,
    has_origin: bool,
) -> Result<Spot, NoMemory>
    ensures { IfOk result (λ next. Adds (legend used has_origin) out.old.items out.new.items) }
{
    let at = put_ways(out, at, unit, used)?;
    let at = put_marks(out, at, unit, used)?;
    put_origin(out, at, unit, has_origin)
}

// Where the row of the point with this index stands: so many rows in a column, the next column beside it.
fn row_place(at: Spot, unit: Unit, rows: i64, index: i64) -> Spot {
    let column = index.div_euclid(rows.max(1));
    let row = index.rem_euclid(rows.max(1));
    moved(
        at,
        units(column.saturating_mul(COLUMN_WIDTH), unit),
        units(row.saturating_mul(PITCH), unit),
    )
}

// Appends the places of a point, on the machine and in the part, and its deviation.
fn put_measured(
    out: &mut Vec<u8>,
    at: Spot,
    unit: Unit,
    touched: Point,
    reading: Option<Reading>,
) -> Result<(), NoMemory>
    ensures { OnOk result (Adds (say (point_text touched ∷ []) ∷ say (place_words reading ∷ []) ∷ say (deviation_words reading ∷ []) ∷ []) out.old.items out.new.items) }
{
    put_cell(out, at, unit, 184, Fragment::At(touched))?;
    put_cell(out, at, unit, 352, place_words(reading))?;
    put_cell(out, at, unit, 520, deviation_words(reading))
}

// Appends the row of a point.
fn put_point(
    out: &mut Vec<u8>,
    at: Spot,
    unit: Unit,
    features: &[Name],
    readings: &[Reading],
    point: &Pointed,
) -> Result<(), NoMemory>
    ensures { OnOk result (Adds (point_row features.now readings.now point.now) out.old.items out.new.items) }
{
    let line = u64::from(point.step.line);
    let name = name_at(features, point.touched.feature);
    let reading = reading_of(readings, point.step.step);
    put_cell(out, at, unit, 0, Fragment::Number(point.number))?;
    put_cell(out, at, unit, 36, Fragment::Count(line))?;
    put_cell(out, at, unit, 78, Fragment::Text(name))?;
    put_measured(out, at, unit, point.touched.at, reading)
}

// Appends a row that tells how many more than so many there are, if there are any.
fn put_more(
    out: &mut Vec<u8>,
    at: Spot,
    unit: Unit,
    most: usize,
    all: usize,
    words: &[u8],
) -> Result<Spot, NoMemory>
    ensures { IfOk result (λ next. Adds (more_rows most all words.now) out.old.items out.new.items) }
{
    let more = all.saturating_sub(most);
    if more == 0 {
        return Ok(at);
    }
    put_text(
        out,
        cell(at, unit, 0),
        &[
            Fragment::Text(b"and "),
            Fragment::Count(more as u64),
            Fragment::Text(words),
        ],
    )?;
    Ok(below(at, unit))
}

// The first rows of a table, so many at most.
fn first_rows<T>(most: usize, rows: &[T]) -> &[T]
    ensures { result.now ≡ take most rows.now }
{
    &rows[..rows.len().min(most)]
}

// Appends what heads the places of points and their deviations.
fn put_measured_head(out: &mut Vec<u8>, at: Spot, unit: Unit) -> Result<(), NoMemory>
    ensures { OnOk result (Adds (say (codes "touched at, mm" ∷ []) ∷ say (codes "in the part, mm" ∷ []) ∷ say (codes "deviation, mm" ∷ []) ∷ []) out.old.items out.new.items) }
{
    put_cell(out, at, unit, 184, Fragment::Text(b"touched at, mm"))?;
    put_cell(out, at, unit, 352, Fragment::Text(b"in the part, mm"))?;
    put_cell(out, at, unit, 520, Fragment::Text(b"deviation, mm"))
}

// Appends the head of a column of points.
fn put_points_head(out: &mut Vec<u8>, at: Spot, unit: Unit) -> Result<(), NoMemory>
    ensures { OnOk result (Adds points_head out.old.items out.new.items) }
{
    put_cell(out, at, unit, 0, Fragment::Text(b"point"))?;
    put_cell(out, at, unit, 36, Fragment::Text(b"line"))?;
    put_cell(out, at, unit, 78, Fragment::Text(b"feature"))?;
    put_measured_head(out, at, unit)
}

// A count as a signed number; no table has so many rows that it would be another one.
fn signed(count: usize) -> i64 {
    match i64::try_from(count) {
        Ok(number) => number,
        Err(_) => 0,
    }
}

// Whether the point with this index is the first one of its column of so many rows.
fn is_first(rows: usize, index: usize) -> bool
    requires { 0 < rows }
    ensures { result ≡ nat_eq (index % rows) 0 }
{
    index % rows == 0
}

// Appends the head of a column of points, if a point is the first one there.
fn put_head_if(out: &mut Vec<u8>, at: Spot, unit: Unit, is_first: bool) -> Result<(), NoMemory>
    ensures { OnOk result (Adds (head_if is_first) out.old.items out.new.items) }
{
    if !is_first {
        return Ok(());
    }
    put_points_head(out, at, unit)
}

// Appends the head of the column of the point with this index, if it is the first one there.
fn put_head_at(
    out: &mut Vec<u8>,
    at: Spot,
    unit: Unit,
    rows: usize,
    index: usize,
) -> Result<(), NoMemory>
    requires { 0 < rows }
    ensures { OnOk result (Adds (head_at rows index) out.old.items out.new.items) }
{
    let place = row_place(at, unit, signed(rows), signed(index));
    put_head_if(out, place, unit, is_first(rows, index))
}

// Appends the heads of the columns of so many points.
fn put_heads(
    out: &mut Vec<u8>,
    at: Spot,
    unit: Unit,
    rows: usize,
    count: usize,
) -> Result<(), NoMemory>
    requires { 0 < rows }
    ensures { OnOk result (Adds (heads_before rows count) out.old.items out.new.items) }
{
    for index in 0..count {
        put_head_at(out, at, unit, rows, index)?;
    }
    Ok(())
}

// Appends the rows of points, so many in a column.
fn put_point_rows(
    out: &mut Vec<u8>,
    at: Spot,
    unit: Unit,
    rows: usize,
    features: &[Name],
    readings: &[Reading],
    points: &[Pointed],
) -> Result<(), NoMemory>
    ensures { OnOk result (Adds (flat_map (point_row features.now readings.now) points.now) out.old.items out.new.items) }
{
    let mut index: i64 = 0;
    for point in points {
        let place = row_place(at, unit, signed(rows), index);
        put_point(out, place, unit, features, readings, point)?;
        index = index.saturating_add(1);
    }
    Ok(())
}

/// How many columns of so many rows so many points need.
pub(crate) fn columns_of(rows: usize, points: usize) -> i64 {
    let rows = signed(rows).max(1);
    signed(points)
        .saturating_add(rows.saturating_sub(1))
        .div_euclid(rows)
}

// The place below the table of so many points, which begins there.
fn below_points(at: Spot, unit: Unit, rows: usize, points: usize) -> Spot {
    if points == 0 {
        return at;
    }
    let rows = signed(points.min(rows)).saturating_add(1);
    moved(
        at,
        0,
        units(rows.saturating_mul(PITCH).saturating_add(8), unit),
    )
}

// Appends how many more points there are than so many, behind these.
fn put_more_points(
    out: &mut Vec<u8>,
    at: Spot,
    unit: Unit,
    room: Room,
    points: usize,
) -> Result<(), NoMemory>
    ensures { OnOk result (Adds (more_rows room.points points (codes " more points")) out.old.items out.new.items) }
{
    let place = row_place(at, unit, signed(room.rows), signed(room.points));
    put_more(out, place, unit, room.points, points, b" more points")?;
    Ok(())
}

/// Appends the table of points, if there are any, and gives the place below it.
pub(crate) fn put_points(
    out: &mut Vec<u8>,
    at: Spot,
    unit: Unit,
    room: Room,
    features: &[Name],
    readings: &[Reading],
    points: &[Pointed],
) -> Result<Spot, NoMemory>
    requires { 0 < room.rows }
    ensures { IfOk result (λ next. Adds (points_table features.now readings.now room points.now) out.old.items out.new.items) }
{
    let head = moved(at, 0, units(8, unit));
    let shown = first_rows(room.points, points);
    put_heads(out, head, unit, room.rows, shown.len())?;
    let first = below(head, unit);
    put_point_rows(out, first, unit, room.rows, features, readings, shown)?;
    put_more_points(out, first, unit, room, points.len())?;
    Ok(below_points(at, unit, room.rows, points.len()))
}

// Whether a block has the name of the block before it.
fn goes_on(names: &[Vec<u8>], block: usize) -> bool
    ensures { result ≡ goes_on (map (λ n. n.items) names.now) block }
{
    block > 1
        && is(
            name_of(names, block.saturating_sub(1)),
            name_of(names, block),
        )
}

// Appends the number of a block, if a name begins with it.
fn push_named(blocks: &mut Vec<usize>, names: &[Vec<u8>], block: usize) -> Result<(), NoMemory>
    ensures { OnOk result (blocks.new.items ≡ blocks.old.items ++ number_if (map (λ n. n.items) names.now) block) }
{
    if name_of(names, block).is_empty() || goes_on(names, block) {
        return Ok(());
    }
    blocks.push(block)?;
    Ok(())
}

// The numbers of the blocks with which a name begins.
fn named_blocks(alloc: Global, names: &[Vec<u8>]) -> Result<Vec<usize>, NoMemory>
    ensures { IfOk result (λ v. v.items ≡ named_before (map (λ n. n.items) names.now) (length names.now)) }
{
    let mut blocks = Vec::new(alloc);
    for index in 0..names.len() {
        push_named(&mut blocks, names, index + 1)?;
    }
    Ok(blocks)
}

// How many names at the front are this one.
fn same_names(names: &[Vec<u8>], name: &[u8]) -> usize
    ensures same { result ≡ length (take_while (λ n. bytes_eq name.now n.items) names.now) }
    ensures within { result ≤ length names.now }
{
    names
        .iter()
        .take_while(|next| is(name, next.as_slice()))
        .count()
}

// The last one of the blocks from this one on that have its name, one after another.
fn last_named(names: &[Vec<u8>], block: usize) -> usize
    ensures { result ≡ last_named (map (λ n. n.items) names.now) block }
{
    if block >= names.len() {
        return block;
    }
    block + same_names(&names[block..], name_of(names, block))
}

// Appends the number of a block, or those of the first and the last of several.
fn put_range(
    out: &mut Vec<u8>,
    at: Spot,
    unit: Unit,
    first: usize,
    last: usize,
) -> Result<(), NoMemory>
    ensures { OnOk result (Adds (say (numbers first last) ∷ []) out.old.items out.new.items) }
{
    if first == last {
        return put_cell(out, at, unit, 0, Fragment::Count(first as u64));
    }
    put_text(
        out,
        cell(at, unit, 0),
        &[
            Fragment::Count(first as u64),
            Fragment::Text(b"-"),
            Fragment::Count(last as u64),
        ],
    )
}

// Appends the row of a name that begins with this block, and gives the place below it.
fn put_block(
    alloc: Global,
    out: &mut Vec<u8>,
    at: Spot,
    unit: Unit,
    names: &[Vec<u8>],
    block: usize,
) -> Result<Spot, NoMemory>
    ensures { IfOk result (λ next. Adds (block_row (map (λ n. n.items) names.now) block) out.old.items out.new.items) }
{
    let name = written(alloc, name_of(names, block))?;
    put_range(out, at, unit, block, last_named(names, block))?;
    put_cell(out, at, unit, 78, Fragment::Text(name.as_slice()))?;
    Ok(below(at, unit))
}

// Appends the head of the table of blocks, and gives the place below it.
fn put_blocks_head(out: &mut Vec<u8>, at: Spot, unit: Unit) -> Result<Spot, NoMemory>
    ensures { IfOk result (λ next. Adds blocks_head out.old.items out.new.items) }
{
    let at = moved(at, 0, units(8, unit));
    put_cell(out, at, unit, 0, Fragment::Text(b"block"))?;
    put_cell(out, at, unit, 78, Fragment::Text(b"name"))?;
    Ok(below(at, unit))
}

// Appends the rows of the names that begin with these blocks, and gives the place below them.
fn put_block_rows(
    alloc: Global,
    out: &mut Vec<u8>,
    at: Spot,
    unit: Unit,
    names: &[Vec<u8>],
    blocks: &[usize],
) -> Result<Spot, NoMemory>
    ensures { IfOk result (λ next. Adds (flat_map (block_row (map (λ n. n.items) names.now)) blocks.now) out.old.items out.new.items) }
{
    let mut at = at;
    for block in blocks {
        at = put_block(alloc, out, at, unit, names, *block)?;
    }
    Ok(at)
}

// Appends the table of the names that begin with these blocks, so many at most, if there are any, and gives the place below it.
fn put_table(
    alloc: Global,
    out: &mut Vec<u8>,
    at: Spot,
    unit: Unit,
    most: usize,
    names: &[Vec<u8>],
    blocks: &[usize],
) -> Result<Spot, NoMemory>
    ensures { IfOk result (λ next. Adds (table_of most (map (λ n. n.items) names.now) blocks.now) out.old.items out.new.items) }
{
    if blocks.is_empty() {
        return Ok(at);
    }
    let at = put_blocks_head(out, at, unit)?;
    let at = put_block_rows(alloc, out, at, unit, names, first_rows(most, blocks))?;
    put_more(out, at, unit, most, blocks.len(), b" more names")
}

/// Appends the table of the names of blocks, so many at most, if there are any, and gives the place below it.
pub(crate) fn put_blocks(
    alloc: Global,
    out: &mut Vec<u8>,
    at: Spot,
    unit: Unit,
    most: usize,
    names: &[Vec<u8>],
) -> Result<Spot, NoMemory>
    ensures { IfOk result (λ next. Adds (blocks_table most (map (λ n. n.items) names.now)) out.old.items out.new.items) }
{
    let blocks = named_blocks(alloc, names)?;
    put_table(alloc, out, at, unit, most, names, blocks.as_slice())
}
