//! What a refusal is about, in words.

use crate::about::{About, Block, Misfit, Near, Sort, Word};
use crate::words::{around, closer, kind_word, opener, operator, sign, word_text};
use std::alloc::{AllocError, Global};
use std::fmt::Write as _;
use vcm_items::Name;
use vcm_num::MOST_PARAMETERS;

// The letters of a name.
fn letters(name: &Name) -> &str {
    std::str::from_utf8(name.as_bytes()).unwrap_or("")
}

// Appends a name as it is written where it is used.
fn put_name(sort: Sort, name: &Name, out: &mut String) -> Result<(), AllocError> {
    let (front, end) = around(sort);
    let name = letters(name);
    write!(out, "{front}{name}{end}")
}

// Appends that a name is missing, and which one is near.
fn put_missing(
    sort: Sort,
    name: &Name,
    near: &Option<Near>,
    out: &mut String,
) -> Result<(), AllocError> {
    out.push_str(match sort {
        Sort::Variable => "no DECL names ",
        Sort::Feature => "no FEAT names ",
        Sort::Frame => "no frame is saved as ",
        Sort::Label => "no label ",
        Sort::Macro => "no MACRO names ",
    })?;
    put_name(sort, name, out)?;
    if sort == Sort::Label {
        out.push_str(" stands here")?;
    }
    if let Some(near) = near {
        out.push_str("; ")?;
        put_name(sort, &near.name, out)?;
        let line = near.line;
        write!(out, " of line {line} is near")?;
    }
    Ok(())
}

// Appends how many parameters a macro has, and how many arguments are given.
fn put_count(
    name: &Name,
    line: u32,
    count: usize,
    given: usize,
    out: &mut String,
) -> Result<(), AllocError> {
    put_name(Sort::Macro, name, out)?;
    let parameters = if count == 1 {
        "parameter"
    } else {
        "parameters"
    };
    write!(out, " of line {line} has {count} {parameters}, ")?;
    if count > MOST_PARAMETERS {
        write!(out, "{MOST_PARAMETERS} are the most")
    } else if given == 1 {
        out.push_str("1 is given")
    } else {
        write!(out, "{given} are given")
    }
}

// Appends what an argument isn't.
fn put_argument(
    number: usize,
    name: &Name,
    line: u32,
    misfit: Misfit,
    out: &mut String,
) -> Result<(), AllocError> {
    write!(out, "argument {number} for ")?;
    put_name(Sort::Macro, name, out)?;
    write!(out, " of line {line} is no ")?;
    out.push_str(match misfit {
        Misfit::NoName => "name",
        Misfit::NoVariable => "variable",
        Misfit::NoValue => "expression",
    })
}

// Appends that a word stands in no such block.
fn put_blockless(word: Word, block: Block, out: &mut String) -> Result<(), AllocError> {
    let (word, opener) = (word_text(word), opener(block));
    if word.starts_with("END") {
        write!(out, "{word} closes no {opener}")
    } else {
        write!(out, "{word} stands in no {opener}")
    }
}

// Appends how many PTMEAS a MEAS has.
fn put_touches(line: u32, count: usize, out: &mut String) -> Result<(), AllocError> {
    if count == 0 {
        write!(out, "MEAS of line {line} has no PTMEAS")
    } else {
        write!(out, "MEAS of line {line} has {count} PTMEAS")
    }
}

// Appends what is wrong with blocks and their order.
fn put_block(about: &About, out: &mut String) -> Result<(), AllocError> {
    match about {
        About::Unended(block, line) => {
            let (opener, closer) = (opener(*block), closer(*block));
            write!(out, "{opener} of line {line} has no {closer}")
        }
        About::Blockless(word, block) => put_blockless(*word, *block, out),
        About::Inside(word, block, line) => {
            let (word, opener) = (word_text(*word), opener(*block));
            write!(out, "{word} stands in the {opener} of line {line}")
        }
        About::Has(block, line, word) => {
            let (word, opener) = (word_text(*word), opener(*block));
            write!(out, "{opener} of line {line} has its {word} already")
        }
        About::Deep => out.push_str("more than 32 blocks are open"),
        About::Touches(line, count) => put_touches(*line, *count, out),
        About::Outside => out.push_str("PTMEAS outside of MEAS"),
        About::NothingAbove(word) => {
            let word = word_text(*word);
            write!(out, "no {word} above it")
        }
        About::Above(word, line) => {
            let word = word_text(*word);
            write!(out, "{word} of line {line} stands above it")
        }
        About::Endless => out.push_str("no ENDFIL at the end"),
        _ => Ok(()),
    }
}

// Appends what is wrong with kinds.
fn put_kinds(about: &About, out: &mut String) -> Result<(), AllocError> {
    match about {
        About::Operator(op, left, right) => {
            let (left, op, right) = (kind_word(*left), operator(*op), kind_word(*right));
            write!(out, "{left} {op} {right}")
        }
        About::Sign(prefix, kind) => {
            let (sign, kind) = (sign(*prefix), kind_word(*kind));
            write!(out, "{sign} {kind}")
        }
        About::Place(kind, wanted) => {
            let (kind, wanted) = (kind_word(*kind), kind_word(*wanted));
            write!(out, "{kind} where {wanted} is wanted")
        }
        _ => Ok(()),
    }
}

// Appends what a refusal is about.
fn put_about(about: &About, out: &mut String) -> Result<(), AllocError> {
    match about {
        About::Nothing => Ok(()),
        About::Missing(sort, name, near) => put_missing(*sort, name, near, out),
        About::Declared(sort, name, line) => {
            put_name(*sort, name, out)?;
            write!(out, " is declared in line {line}")
        }
        About::Operator(_, _, _) | About::Sign(_, _) | About::Place(_, _) => put_kinds(about, out),
        About::Inward(name, line, block) => {
            put_name(Sort::Label, name, out)?;
            write!(out, " of line {line} stands in the block of line {block}")
        }
        About::Count(name, line, count, given) => put_count(name, *line, *count, *given, out),
        About::Argument(number, name, line, misfit) => {
            put_argument(*number, name, *line, *misfit, out)
        }
        _ => put_block(about, out),
    }
}

/// What a refusal is about, in words; nothing where nothing more is known.
///
/// # Errors
///
/// Out of memory.
pub fn about_words(alloc: Global, about: &About) -> Result<String, AllocError> {
    let mut out = String::new(alloc);
    put_about(about, &mut out)?;
    Ok(out)
}
