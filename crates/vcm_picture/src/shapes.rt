//! The shapes of a view, and how they are written.

ghost use Rattle.std.specs.Prelude.{◌≡◌, ◌++◌, option_to_list, OnOk};
ghost use Rattle.std.specs.List.{flat_map};
ghost use Rattle.vcm_svg.specs.Shapes.{told, text};
ghost use Rattle.vcm_picture.specs.Shapes.{step_of, going_text, piece_tip, touched_tip, contact_tip, tip_text, words_text, shape_text, shapes_text};

use crate::names::name_at;
use vcm_items::Name;
use vcm_marks::{Contact, Going, Leg, Moment, PlacedMark, Touched};
use vcm_num::{NoMemory, Point};
use vcm_spec::Block3;
use vcm_svg::{Class, Fragment, Outline, Placement, put_path, put_text, put_told};

/// What the tooltip of a path tells.
#[derive(Clone, Copy)]
pub enum Tip {
    /// A block: its number and its corners.
    Block(u32, Block3),
    /// A piece of the way, of a step.
    Leg(Moment, Leg),
    /// A point that was touched in a step.
    Touched(Moment, Touched),
    /// The limits: their corners.
    Limits(Point, Point),
    Home(Point),
    End(Point),
    TipAtEnd,
    TipAtContact,
    /// The contact, with the line of the stop.
    Contact(Contact),
}

/// The words of a text.
#[derive(Clone, Copy)]
pub enum Words {
    /// The number of a block.
    Number(u32),
    /// The number of the block of the contact.
    Block(u32),
    End,
    Home,
    /// The name of the feature with this index.
    Feature(u16),
}

/// A shape of a view.
#[derive(Clone, Copy)]
pub enum Shape {
    Path(Class, Outline),
    /// A path with a tooltip.
    Told(Class, Outline, Tip),
    Text(Placement, Words),
}

/// The step of a mark.
pub fn step_of(placed: &PlacedMark) -> Moment
    ensures { result ≡ step_of placed.now }
{
    Moment {
        step: placed.step,
        number: placed.number,
        line: placed.line,
    }
}

/// Appends a shape, if there is one.
pub(crate) fn push_shape(shapes: &mut Vec<Shape>, shape: Option<Shape>) -> Result<(), NoMemory>
    ensures { OnOk result (shapes.new.items ≡ shapes.old.items ++ option_to_list shape) }
{
    if let Some(shape) = shape {
        shapes.push(shape)?;
    }
    Ok(())
}

/// Appends those of some shapes that there are.
pub(crate) fn push_shapes(shapes: &mut Vec<Shape>, more: &[Option<Shape>]) -> Result<(), NoMemory>
    ensures { OnOk result (shapes.new.items ≡ shapes.old.items ++ flat_map option_to_list more.now) }
{
    for shape in more {
        push_shape(shapes, *shape)?;
    }
    Ok(())
}

// What a piece is, in its tooltip.
fn going_text<'a>(going: Going) -> &'a [u8]
    ensures { result.now ≡ going_text going }
{
    match going {
        Going::Move => b"move ",
        Going::Approach => b"approach ",
        Going::Search => b"search ",
        Going::Retract => b"retract ",
        Going::Rest => b"not reached ",
    }
}

// Appends a path with the tooltip of a piece that is called this.
fn put_piece(
    out: &mut Vec<u8>,
    class: Class,
    outline: Outline,
    step: Moment,
    going: &[u8],
    piece: Leg,
) -> Result<(), NoMemory>
    ensures { OnOk result (out.new.items ≡ out.old.items ++ told class outline (piece_tip step going.now piece)) }
{
    put_told(
        out,
        class,
        outline,
        &[
            Fragment::Text(b"step "),
            Fragment::Count(step.step),
            Fragment::Text(b" statement "),
            Fragment::Count(u64::from(step.number)),
            Fragment::Text(b" line "),
            Fragment::Count(u64::from(step.line)),
            Fragment::Text(b": "),
            Fragment::Text(going),
            Fragment::At(piece.from),
            Fragment::Text(b" to "),
            Fragment::At(piece.aim),
        ],
    )
}

// Appends a path with the tooltip of a touched point of the feature with this name.
fn put_touched(
    out: &mut Vec<u8>,
    class: Class,
    outline: Outline,
    step: Moment,
    name: &[u8],
    at: Point,
) -> Result<(), NoMemory>
    ensures { OnOk result (out.new.items ≡ out.old.items ++ told class outline (touched_tip step name.now at)) }
{
    put_told(
        out,
        class,
        outline,
        &[
            Fragment::Text(b"step "),
            Fragment::Count(step.step),
            Fragment::Text(b" statement "),
            Fragment::Count(u64::from(step.number)),
            Fragment::Text(b" line "),
            Fragment::Count(u64::from(step.line)),
            Fragment::Text(b": "),
            Fragment::Text(name),
            Fragment::Text(b" touched at "),
            Fragment::At(at),
        ],
    )
}

// Appends a path with the tooltip of the contact.
fn put_contact(
    out: &mut Vec<u8>,
    class: Class,
    outline: Outline,
    stopped: &[u8],
    contact: Contact,
) -> Result<(), NoMemory>
    ensures { OnOk result (out.new.items ≡ out.old.items ++ told class outline (contact_tip stopped.now contact)) }
{
    put_told(
        out,
        class,
        outline,
        &[
            Fragment::Text(stopped),
            Fragment::Text(b", of the way "),
            Fragment::At(contact.from),
            Fragment::Text(b" to "),
            Fragment::At(contact.aim),
        ],
    )
}

// Appends a path with its tooltip.
fn put_tip(
    out: &mut Vec<u8>,
    features: &[Name],
    stopped: &[u8],
    class: Class,
    outline: Outline,
    tip: Tip,
) -> Result<(), NoMemory>
    ensures { OnOk result (out.new.items ≡ out.old.items ++ told class outline (tip_text features.now stopped.now tip)) }
{
    match tip {
        Tip::Block(number, block) => put_told(
            out,
            class,
            outline,
            &[
                Fragment::Text(b"block "),
                Fragment::Count(u64::from(number)),
                Fragment::Text(b": "),
                Fragment::At(block.low),
                Fragment::Text(b" to "),
                Fragment::At(block.high),
            ],
        ),
        Tip::Leg(step, piece) => {
            put_piece(out, class, outline, step, going_text(piece.going), piece)
        }
        Tip::Touched(step, touched) => {
            let name = name_at(features, touched.feature);
            put_touched(out, class, outline, step, name, touched.at)
        }
        Tip::Limits(low, high) => put_told(
            out,
            class,
            outline,
            &[
                Fragment::Text(b"limits: "),
                Fragment::At(low),
                Fragment::Text(b" to "),
                Fragment::At(high),
            ],
        ),
        Tip::Home(at) => put_told(
            out,
            class,
            outline,
            &[Fragment::Text(b"home: "), Fragment::At(at)],
        ),
        Tip::End(at) => put_told(
            out,
            class,
            outline,
            &[Fragment::Text(b"end: "), Fragment::At(at)],
        ),
        Tip::TipAtEnd => put_told(
            out,
            class,
            outline,
            &[Fragment::Text(b"the tip at the end")],
        ),
        Tip::TipAtContact => put_told(
            out,
            class,
            outline,
            &[Fragment::Text(b"the tip at the contact")],
        ),
        Tip::Contact(contact) => put_contact(out, class, outline, stopped, contact),
    }
}

// Appends a text.
fn put_words(
    out: &mut Vec<u8>,
    features: &[Name],
    label: Placement,
    words: Words,
) -> Result<(), NoMemory>
    ensures { OnOk result (out.new.items ≡ out.old.items ++ text label (words_text features.now words)) }
{
    match words {
        Words::Number(number) => put_text(out, label, &[Fragment::Count(u64::from(number))]),
        Words::Block(number) => put_text(
            out,
            label,
            &[
                Fragment::Text(b"block "),
                Fragment::Count(u64::from(number)),
            ],
        ),
        Words::End => put_text(out, label, &[Fragment::Text(b"end")]),
        Words::Home => put_text(out, label, &[Fragment::Text(b"home")]),
        Words::Feature(feature) => {
            put_text(out, label, &[Fragment::Text(name_at(features, feature))])
        }
    }
}

// Appends a shape.
fn put_shape(
    out: &mut Vec<u8>,
    features: &[Name],
    stopped: &[u8],
    shape: Shape,
) -> Result<(), NoMemory>
    ensures { OnOk result (out.new.items ≡ out.old.items ++ shape_text features.now stopped.now shape) }
{
    match shape {
        Shape::Path(class, outline) => put_path(out, class, outline),
        Shape::Told(class, outline, tip) => put_tip(out, features, stopped, class, outline, tip),
        Shape::Text(label, words) => put_words(out, features, label, words),
    }
}

/// Appends shapes, in a view whose features have these names, of a run with this first line of the heading.
pub fn put_shapes(
    out: &mut Vec<u8>,
    features: &[Name],
    stopped: &[u8],
    shapes: &[Shape],
) -> Result<(), NoMemory>
    ensures { OnOk result (out.new.items ≡ out.old.items ++ shapes_text features.now stopped.now shapes.now) }
{
    for shape in shapes {
        put_shape(out, features, stopped, *shape)?;
    }
    Ok(())
}
