//! The part file, and what is told of it.

use crate::edges::Edges;
use crate::extent::sizes;
use crate::options::BlocksOptions;
use crate::told::{At, Millimetres};
use crate::volume::{block_volume, is_flat, six_volumes};
use std::alloc::Global;
use std::fmt::Write as _;
use vcm_mesh::Triangle;
use vcm_num::{NoMemory, Point};
use vcm_spec::{Block3, Bounds};

/// What was found: a model, its box and its edges, and the blocks that cover it.
#[derive(Clone, Copy)]
pub(crate) struct Outcome<'a> {
    pub triangles: &'a [Triangle],
    pub around: Block3,
    pub edges: Edges,
    pub is_exact: bool,
    pub blocks: &'a [Block3],
    pub within: u32,
    /// How many blocks of a part file stand before them, if there is one.
    pub before: Option<usize>,
}

// Appends a point as a key of a part file.
fn put_point(text: &mut String, key: &str, point: Point) -> Result<(), NoMemory> {
    let Point([x, y, z]) = point;
    Ok(writeln!(text, "{key} = [{x}, {y}, {z}]")?)
}

// Appends the limits of a machine and its home.
fn put_bounds(text: &mut String, bounds: &Bounds) -> Result<(), NoMemory> {
    put_point(text, "low", bounds.low)?;
    put_point(text, "high", bounds.high)?;
    put_point(text, "home", bounds.home)
}

// Appends a part file, and a line feed if it has none at its end.
fn put_part(text: &mut String, part: &str) -> Result<(), NoMemory> {
    text.push_str(part)?;
    if !part.is_empty() && !part.ends_with('\n') {
        text.push_str("\n")?;
    }
    Ok(())
}

// Appends a word as it can be shown, control characters as question marks.
fn put_shown(text: &mut String, word: &str) -> Result<(), NoMemory> {
    for letter in word.chars() {
        text.push(if letter.is_control() { '?' } else { letter })?;
    }
    Ok(())
}

// Appends the command as a line of comment.
fn put_command(text: &mut String, words: &[&str]) -> Result<(), NoMemory> {
    text.push_str("\n# vcm blocks")?;
    for word in words {
        text.push_str(" ")?;
        put_shown(text, word)?;
    }
    Ok(text.push_str("\n")?)
}

// Appends the counts as a line of comment.
fn put_counts(text: &mut String, outcome: &Outcome<'_>) -> Result<(), NoMemory> {
    let (blocks, triangles) = (outcome.blocks.len(), outcome.triangles.len());
    let [x, y, z] = sizes(&outcome.around);
    let (x, y, z) = (Millimetres(x), Millimetres(y), Millimetres(z));
    let low = At(outcome.around.low);
    write!(
        text,
        "# {blocks} blocks cover {triangles} triangles, {x} x {y} x {z} mm from {low}; "
    )?;
    if outcome.is_exact {
        return Ok(text.push_str("they are exact\n")?);
    }
    let within = Millimetres::of(outcome.within);
    Ok(writeln!(text, "within {within} mm")?)
}

// Appends the name of a block as a text of TOML.
fn put_name(text: &mut String, name: &str) -> Result<(), NoMemory> {
    text.push_str("[[block]]\nname = \"")?;
    for letter in name.chars() {
        if letter == '"' || letter == '\\' {
            text.push('\\')?;
        }
        text.push(letter)?;
    }
    Ok(text.push_str("\"\n")?)
}

// Appends blocks.
fn put_blocks(text: &mut String, name: &str, blocks: &[Block3]) -> Result<(), NoMemory> {
    for block in blocks {
        put_name(text, name)?;
        put_point(text, "low", block.low)?;
        put_point(text, "high", block.high)?;
    }
    Ok(())
}

/// The text of the part file: the one that blocks are added to, or the limits of a first look, then two lines of comment, then the blocks.
pub(crate) fn part_text(
    alloc: Global,
    part: Option<&str>,
    bounds: &Bounds,
    options: &BlocksOptions<'_>,
    outcome: &Outcome<'_>,
) -> Result<String, NoMemory> {
    let mut text = String::new(alloc);
    match part {
        Some(part) => put_part(&mut text, part)?,
        None => put_bounds(&mut text, bounds)?,
    }
    put_command(&mut text, options.words)?;
    put_counts(&mut text, outcome)?;
    put_blocks(&mut text, options.name, outcome.blocks)?;
    Ok(text)
}

// Appends how large the model is, and where it lies.
fn put_model(text: &mut String, outcome: &Outcome<'_>) -> Result<(), NoMemory> {
    let triangles = outcome.triangles.len();
    let [x, y, z] = sizes(&outcome.around);
    let (x, y, z) = (Millimetres(x), Millimetres(y), Millimetres(z));
    let (low, high) = (At(outcome.around.low), At(outcome.around.high));
    Ok(writeln!(
        text,
        "model {triangles} triangles, {x} x {y} x {z} mm, from {low} to {high}"
    )?)
}

// Appends how many blocks there are, and how far they may reach beyond the model.
fn put_count(text: &mut String, outcome: &Outcome<'_>) -> Result<(), NoMemory> {
    let blocks = outcome.blocks.len();
    write!(text, "blocks {blocks}, ")?;
    if outcome.is_exact {
        text.push_str("exact")?;
    } else {
        let within = Millimetres::of(outcome.within);
        write!(text, "within {within} mm")?;
    }
    if let Some(before) = outcome.before
        && before != 0
    {
        write!(text, ", after {before} of the part")?;
    }
    Ok(text.push_str("\n")?)
}

// A volume in cubic millimetres, to the nearest whole number, of so many parts of a cubic micrometre.
fn cubic_millimetres(volume: u128, parts: u128) -> u128 {
    let one = parts.saturating_mul(1_000_000_000);
    volume.saturating_add(one / 2).checked_div(one).unwrap_or(0)
}

// Appends the volumes of the model and of the blocks.
fn put_volumes(text: &mut String, model: i128, blocks: u128) -> Result<(), NoMemory> {
    let model = cubic_millimetres(model.unsigned_abs(), 6);
    let blocks = cubic_millimetres(blocks, 1);
    Ok(writeln!(
        text,
        "volume {model} mm3 of the model, {blocks} mm3 of the blocks"
    )?)
}

// Appends what is to be noticed of edges.
fn put_edges(text: &mut String, outcome: &Outcome<'_>) -> Result<(), NoMemory> {
    let Edges { odd, twice } = outcome.edges;
    if odd != 0 {
        let within = Millimetres::of(outcome.within);
        writeln!(
            text,
            "notice {odd} edges belong to an odd number of triangles: the model is open, and its inside isn't filled where a hole is wider than {within} mm"
        )?;
    }
    if twice != 0 {
        writeln!(
            text,
            "notice {twice} edges are gone along twice in one direction: some triangles are turned over"
        )?;
    }
    Ok(())
}

// How many triangles have no area.
fn count_flat(triangles: &[Triangle]) -> usize {
    let mut count: usize = 0;
    for triangle in triangles {
        if is_flat(triangle) {
            count = count.saturating_add(1);
        }
    }
    count
}

// Appends what else is to be noticed.
fn put_notices(text: &mut String, outcome: &Outcome<'_>, model: i128) -> Result<(), NoMemory> {
    if outcome.edges.odd == 0 && model < 0 {
        text.push_str("notice the triangles turn inward\n")?;
    }
    let flat = count_flat(outcome.triangles);
    if flat != 0 {
        writeln!(text, "notice {flat} triangles have no area")?;
    }
    if outcome.before.is_none() {
        text.push_str("notice no tip: a point is tried\n")?;
    }
    Ok(())
}

/// What is told of a model and of its blocks, line by line.
pub(crate) fn told_text(alloc: Global, outcome: &Outcome<'_>) -> Result<String, NoMemory> {
    let mut text = String::new(alloc);
    put_model(&mut text, outcome)?;
    put_count(&mut text, outcome)?;
    let model = six_volumes(outcome.triangles);
    if outcome.edges.odd == 0 && model != 0 {
        let blocks = block_volume(alloc, outcome.blocks)?;
        put_volumes(&mut text, model, blocks)?;
    }
    put_edges(&mut text, outcome)?;
    put_notices(&mut text, outcome, model)?;
    Ok(text)
}
