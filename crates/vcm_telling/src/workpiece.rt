//! A workpiece as it was read.

use crate::millimetres::{At, Millimetres};
use std::alloc::Global;
use std::fmt::Write as _;
use vcm_keys::{block_lines, block_names, places_of};
use vcm_num::{NoMemory, Point};
use vcm_part::PartData;
use vcm_spec::Block3;

// A block as it is told: its number, its line, which is 0 where it isn't known, and its name, which may be empty.
#[derive(Clone, Copy)]
struct Shown<'a> {
    number: usize,
    line: usize,
    name: &'a [u8],
    block: Block3,
}

// How long a box is along the axes.
fn sizes(block: Block3) -> [i64; 3] {
    let Point([a, b, c]) = block.low;
    let Point([d, e, f]) = block.high;
    [
        d.saturating_sub(a),
        e.saturating_sub(b),
        f.saturating_sub(c),
    ]
}

// The line of a block.
fn put_block(text: &mut String, shown: Shown<'_>) -> Result<(), NoMemory> {
    let number = shown.number;
    write!(text, "block {number}")?;
    let line = shown.line;
    if line != 0 {
        write!(text, " line {line}")?;
    }
    let name = std::str::from_utf8(shown.name).unwrap_or("");
    if !name.is_empty() {
        write!(text, " {name}")?;
    }
    let [x, y, z] = sizes(shown.block);
    let (x, y, z) = (Millimetres(x), Millimetres(y), Millimetres(z));
    let low = At(shown.block.low);
    Ok(writeln!(text, " {x} x {y} x {z} at {low}")?)
}

// The lesser of two places along each axis, and the greater.
fn lesser(first: Point, second: Point) -> Point {
    let Point([a, b, c]) = first;
    let Point([d, e, f]) = second;
    Point([a.min(d), b.min(e), c.min(f)])
}

fn greater(first: Point, second: Point) -> Point {
    let Point([a, b, c]) = first;
    let Point([d, e, f]) = second;
    Point([a.max(d), b.max(e), c.max(f)])
}

// The least box around all blocks, if there is one.
fn around(blocks: &[Block3]) -> Option<Block3> {
    let (first, others) = blocks.split_first()?;
    let mut low = first.low;
    let mut high = first.high;
    for block in others {
        low = lesser(low, block.low);
        high = greater(high, block.high);
    }
    Some(Block3 { low, high })
}

// The lines of the machine, and how many blocks there are.
fn put_machine(text: &mut String, part: &PartData) -> Result<(), NoMemory> {
    let bounds = part.bounds();
    let (low, high, home) = (At(bounds.low), At(bounds.high), At(bounds.home));
    let tip = Millimetres(i64::from(bounds.tip));
    writeln!(text, "limits {low} to {high}")?;
    writeln!(text, "home {home}")?;
    writeln!(text, "tip {tip}")?;
    let count = part.blocks().len();
    match around(part.blocks()) {
        None => Ok(writeln!(text, "blocks {count}")?),
        Some(all) => {
            let (low, high) = (At(all.low), At(all.high));
            Ok(writeln!(text, "blocks {count}, from {low} to {high}")?)
        }
    }
}

// The lines of blocks, of which the lines and names are these.
fn put_blocks(
    text: &mut String,
    blocks: &[Block3],
    lines: &[usize],
    names: &[Vec<u8>],
) -> Result<(), NoMemory> {
    let are_known = lines.len() == blocks.len();
    for (index, block) in blocks.iter().enumerate() {
        let line = match lines.get(index) {
            Some(line) if are_known => *line,
            _ => 0,
        };
        let name: &[u8] = match names.get(index) {
            Some(name) => name,
            None => &[],
        };
        let shown = Shown {
            number: index.saturating_add(1),
            line,
            name,
            block: *block,
        };
        put_block(text, shown)?;
    }
    Ok(())
}

/// What is told of a workpiece and of the bytes of its part file, in millimetres: the limits of the machine, home, half the width of the tip, how many blocks there
/// are and the least box around them, and each block with its number, the line on which it begins, its name, its lengths and its low corner.
///
/// # Errors
///
/// Out of memory.
pub fn part_text(alloc: Global, part: &PartData, bytes: &[u8]) -> Result<String, NoMemory> {
    let places = places_of(alloc, bytes)?;
    let lines = block_lines(alloc, &places)?;
    drop(places);
    let names = block_names(alloc, bytes)?;
    let mut text = String::new(alloc);
    put_machine(&mut text, part)?;
    put_blocks(&mut text, part.blocks(), &lines, &names)?;
    Ok(text)
}
