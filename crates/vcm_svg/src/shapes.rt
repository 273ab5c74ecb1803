//! Texts and paths of a picture.

ghost use Rattle.std.specs.Prelude.{◌≡◌, ◌++◌, OnOk};
ghost use Rattle.vcm_svg.specs.Pieces.{texts};
ghost use Rattle.vcm_svg.specs.Shapes.{attribute, class_name, text_front, text, path_front, path, told};

use crate::outlines::{Outline, put_outline};
use crate::pieces::{Fragment, put};
use crate::rect::Spot;
use vcm_num::NoMemory;

/// The class of a text.
#[derive(Clone, Copy)]
pub enum Lettering {
    Plain,
    Heading,
    Number,
    Name,
    Note,
}

/// The class of a path.
#[derive(Clone, Copy)]
pub enum Class {
    Sheet,
    Frame,
    Limits,
    Block,
    Hidden,
    Hit,
    Move,
    Arrow,
    Approach,
    Search,
    Retract,
    Rest,
    Elsewhere,
    Touched,
    Place,
    Tip,
    Cross,
}

/// Where a text stands, how large it is, and its class.
#[derive(Clone, Copy)]
pub struct Placement {
    pub at: Spot,
    pub size: i64,
    pub class: Lettering,
}

// What a text's class adds to its element.
fn attribute<'a>(class: Lettering) -> &'a [u8]
    ensures { result.now ≡ attribute class }
{
    match class {
        Lettering::Plain => b"",
        Lettering::Heading => b" class=\"h\"",
        Lettering::Number => b" class=\"n\"",
        Lettering::Name => b" class=\"p\"",
        Lettering::Note => b" class=\"h u\"",
    }
}

// The name of a path's class.
fn class_name<'a>(class: Class) -> &'a [u8]
    ensures { result.now ≡ class_name class }
{
    match class {
        Class::Sheet => b"w",
        Class::Frame => b"f",
        Class::Limits => b"l",
        Class::Block => b"b",
        Class::Hidden => b"i",
        Class::Hit => b"g",
        Class::Move => b"move",
        Class::Arrow => b"move a",
        Class::Approach => b"approach",
        Class::Search => b"search",
        Class::Retract => b"retract",
        Class::Rest => b"rest",
        Class::Elsewhere => b"elsewhere",
        Class::Touched => b"d",
        Class::Place => b"o",
        Class::Tip => b"q",
        Class::Cross => b"x",
    }
}

// Appends the beginning of a text.
fn begin_text(out: &mut Vec<u8>, label: Placement) -> Result<(), NoMemory>
    ensures { OnOk result (out.new.items ≡ out.old.items ++ text_front label) }
{
    put(
        out,
        &[
            Fragment::Text(b"<text transform=\"matrix("),
            Fragment::Number(label.size),
            Fragment::Text(b" 0 0 "),
            Fragment::Number(label.size),
            Fragment::Text(b" "),
            Fragment::Number(label.at.x),
            Fragment::Text(b" "),
            Fragment::Number(label.at.y),
            Fragment::Text(b")\""),
            Fragment::Text(attribute(label.class)),
            Fragment::Text(b">"),
        ],
    )
}

/// Appends a text.
pub fn put_text(out: &mut Vec<u8>, label: Placement, words: &[Fragment]) -> Result<(), NoMemory>
    ensures { OnOk result (out.new.items ≡ out.old.items ++ text label (texts words.now)) }
{
    begin_text(out, label)?;
    put(out, words)?;
    put(out, &[Fragment::Text(b"</text>\n")])
}

// Appends the beginning of a path.
fn begin_path(out: &mut Vec<u8>, class: Class) -> Result<(), NoMemory>
    ensures { OnOk result (out.new.items ≡ out.old.items ++ path_front class) }
{
    put(
        out,
        &[
            Fragment::Text(b"<path class=\""),
            Fragment::Text(class_name(class)),
            Fragment::Text(b"\" d=\""),
        ],
    )
}

/// Appends a path of an outline.
pub fn put_path(out: &mut Vec<u8>, class: Class, outline: Outline) -> Result<(), NoMemory>
    ensures { OnOk result (out.new.items ≡ out.old.items ++ path class outline) }
{
    begin_path(out, class)?;
    put_outline(out, outline)?;
    put(out, &[Fragment::Text(b"\"/>\n")])
}

/// Appends a path of an outline, with a tooltip.
pub fn put_told(
    out: &mut Vec<u8>,
    class: Class,
    outline: Outline,
    tip: &[Fragment],
) -> Result<(), NoMemory>
    ensures { OnOk result (out.new.items ≡ out.old.items ++ told class outline (texts tip.now)) }
{
    begin_path(out, class)?;
    put_outline(out, outline)?;
    put(out, &[Fragment::Text(b"\"><title>")])?;
    put(out, tip)?;
    put(out, &[Fragment::Text(b"</title></path>\n")])
}
