//! The style of a picture.

ghost use Rattle.std.specs.Prelude.{◌≡◌, ◌++◌, map, OnOk};
ghost use Rattle.vcm_svg.specs.Style.{width_text, widths, edge_of, broad_if, end_text, notes_style, style_text};

use crate::pieces::{Fragment, put, put_bytes};
use crate::ranges::Unit;
use crate::whole::quotient;
use vcm_num::NoMemory;

/// The most blocks of a picture with broad edges.
const FEW_BLOCKS: usize = 500;

/// The style of texts, and of all that is no block and no way. Behind each text stands so many times a width.
const GENERAL: &[(&[u8], u8)] = &[
    (
        b"<style>\ntext{font:10px monospace;fill:#000}\n.h{font-size:13px}\n.w{fill:#fff}\n.f{fill:#fff;stroke:#999;stroke-width:",
        1,
    ),
    (b"}\n.l{fill:none;stroke:#000;stroke-width:", 1),
    (b";stroke-dasharray:", 8),
    (b" ", 2),
    (b" ", 1),
    (b" ", 2),
];

/// The style of blocks.
const BLOCKS: &[(&[u8], u8)] = &[
    (
        b"}\n.b{fill:#ddd;fill-opacity:.7;stroke:#555;stroke-width:",
        1,
    ),
    (b"}\n.i{fill:none;stroke:#555;stroke-width:", 1),
    (b";stroke-dasharray:", 3),
    (b" ", 3),
    (b"}\n.g{fill:none;stroke:#000;stroke-width:", 3),
];

/// The style of texts on blocks, and of moves.
const MOVES: &[u8] =
    b"}\n.n{fill:#555}\n.p,.n{paint-order:stroke;stroke:#fff;stroke-width:3px;stroke-linejoin:round}\n.move,.approach,.search,.retract,.rest{fill:none;stroke-linecap:round}\n.move{stroke:#0072b2;stroke-width:";

/// The style of approaches, searches, retracts and what wasn't reached, and of points and signs.
const WAYS: &[(&[u8], u8)] = &[
    (b"}\n.approach{stroke:#009e73;stroke-width:", 2),
    (b";stroke-dasharray:", 8),
    (b" ", 4),
    (b"}\n.search{stroke:#d55e00;stroke-width:", 4),
    (b"}\n.retract{stroke:#cc79a7;stroke-width:", 2),
    (b";stroke-dasharray:", 1),
    (b" ", 4),
    (b"}\n.rest{stroke:#000;stroke-width:", 1),
    (b";stroke-dasharray:", 2),
    (b" ", 4),
    (b"}\n.d{fill:#d55e00;stroke:#fff;stroke-width:", 1),
    (b"}\n.o{fill:none;stroke:#000;stroke-width:", 2),
    (b"}\n.q{fill:none;stroke:#000;stroke-width:", 1),
    (b"}\n.x{fill:none;stroke:#000;stroke-width:", 3),
];

/// The style of lines of what wasn't tried, and of ways that begin elsewhere.
const NOTES: &[(&[u8], u8)] = &[
    (
        b"<style>\n.u{fill:#8a5a00}\n.elsewhere{fill:none;stroke-linecap:round;stroke:#8a5a00;stroke-width:",
        2,
    ),
    (b";stroke-dasharray:", 11),
    (b" ", 6),
];

/// The end of the style where moves have no arrows.
const END: &[u8] = b"}\n</style>\n";

/// The end of the style, and the arrow at the end of moves.
const ARROW: &[u8] =
    b"}\n</style>\n<defs><marker id=\"a\" viewBox=\"0 0 8 6\" refX=\"8\" refY=\"3\" markerWidth=\"5\" markerHeight=\"4\" orient=\"auto\"><path d=\"M0 0L8 3L0 6z\" fill=\"#0072b2\"/></marker></defs>\n<style>.a{marker-end:url(#a)}</style>\n";

// The width of the edges of blocks.
fn edge_of(unit: Unit, blocks: usize) -> Unit
    ensures { result ≡ edge_of unit blocks }
{
    if blocks <= FEW_BLOCKS {
        unit
    } else {
        Unit::new(quotient(unit.get(), 4).max(1))
    }
}

// Appends a text, and behind it so many times a unit.
fn put_width(out: &mut Vec<u8>, unit: Unit, text: &[u8], count: u8) -> Result<(), NoMemory>
    ensures { OnOk result (out.new.items ≡ out.old.items ++ width_text unit (text.now, count)) }
{
    put(
        out,
        &[
            Fragment::Text(text),
            Fragment::Number(unit.times(u16::from(count)).get()),
        ],
    )
}

// Appends texts, and behind each so many times a unit.
fn put_widths(out: &mut Vec<u8>, unit: Unit, table: &[(&[u8], u8)]) -> Result<(), NoMemory>
    ensures { OnOk result (out.new.items ≡ out.old.items ++ widths unit (map (λ row. (row.0.now, row.1)) table.now)) }
{
    for row in table {
        put_width(out, unit, row.0, row.1)?;
    }
    Ok(())
}

// How many units wide moves are.
fn broad_if(is_few: bool) -> u8
    ensures { result ≡ broad_if is_few }
{
    if is_few { 2 } else { 1 }
}

// Appends the end of the style.
fn put_end(out: &mut Vec<u8>, is_few: bool) -> Result<(), NoMemory>
    ensures { OnOk result (out.new.items ≡ out.old.items ++ end_text is_few) }
{
    if is_few {
        put_bytes(out, ARROW)
    } else {
        put_bytes(out, END)
    }
}

/// Appends the style of a picture with this unit, so many blocks, and few pieces or many.
pub fn put_style(out: &mut Vec<u8>, unit: Unit, blocks: usize, is_few: bool) -> Result<(), NoMemory>
    ensures { OnOk result (out.new.items ≡ out.old.items ++ style_text unit blocks is_few) }
{
    put_widths(out, unit, GENERAL)?;
    put_widths(out, edge_of(unit, blocks), BLOCKS)?;
    put_width(out, unit, MOVES, broad_if(is_few))?;
    put_widths(out, unit, WAYS)?;
    put_end(out, is_few)
}

/// Appends the style of lines of what wasn't tried, and of ways that begin elsewhere.
pub fn put_notes_style(out: &mut Vec<u8>, unit: Unit) -> Result<(), NoMemory>
    ensures { OnOk result (out.new.items ≡ out.old.items ++ notes_style unit) }
{
    put_widths(out, unit, NOTES)?;
    put_bytes(out, END)
}
