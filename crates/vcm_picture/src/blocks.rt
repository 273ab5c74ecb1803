//! The blocks of a view, and their numbers.

ghost use Rattle.std.specs.Prelude.{◌≡◌, ◌++◌, OnOk};
ghost use Rattle.vcm_picture.specs.Blocks.{block_shape, open_shape, hidden_shape, hit_shape, number_shape, open_shapes, hidden_shapes, number_shapes, blocks_shapes};

use crate::shapes::{Shape, Tip, Words, push_shape};
use crate::shown::{Face, Seen, Shown};
use vcm_marks::Contact;
use vcm_num::NoMemory;
use vcm_svg::{Class, rect_outline};

// A block with its tooltip.
fn block_shape(class: Class, face: &Face) -> Shape
    ensures { result ≡ block_shape class face.now }
{
    Shape::Told(
        class,
        rect_outline(face.rect),
        Tip::Block(face.number, face.block),
    )
}

// A block, where it is open.
fn open_shape(seen: &Seen) -> Option<Shape>
    ensures { result ≡ open_shape seen.now.face seen.now.shown }
{
    match seen.shown {
        Shown::Open(_) => Some(block_shape(Class::Block, &seen.face)),
        Shown::Hidden => None,
        Shown::Repeated => None,
    }
}

// A block, where it is hidden.
fn hidden_shape(seen: &Seen) -> Option<Shape>
    ensures { result ≡ hidden_shape seen.now.face seen.now.shown }
{
    match seen.shown {
        Shown::Hidden => Some(block_shape(Class::Hidden, &seen.face)),
        Shown::Open(_) => None,
        Shown::Repeated => None,
    }
}

// The outline of the block of the contact.
fn hit_shape(faces: &[Face], contact: Option<Contact>) -> Option<Shape>
    ensures { result ≡ hit_shape faces.now contact }
{
    let contact = contact?;
    let face = faces.get((contact.block as usize).saturating_sub(1))?;
    Some(Shape::Path(Class::Hit, rect_outline(face.rect)))
}

// The number of a block, if it has a box.
fn number_shape(seen: &Seen) -> Option<Shape>
    ensures { result ≡ number_shape seen.now.face seen.now.shown }
{
    match seen.shown {
        Shown::Open(Some(figure)) => Some(Shape::Text(
            figure.label,
            Words::Number(seen.face.number),
        )),
        Shown::Open(None) => None,
        Shown::Hidden => None,
        Shown::Repeated => None,
    }
}

// Appends the open blocks.
fn push_open(shapes: &mut Vec<Shape>, all: &[Seen]) -> Result<(), NoMemory>
    ensures { OnOk result (shapes.new.items ≡ shapes.old.items ++ open_shapes all.now) }
{
    for seen in all {
        push_shape(shapes, open_shape(seen))?;
    }
    Ok(())
}

// Appends the hidden blocks.
fn push_hidden(shapes: &mut Vec<Shape>, all: &[Seen]) -> Result<(), NoMemory>
    ensures { OnOk result (shapes.new.items ≡ shapes.old.items ++ hidden_shapes all.now) }
{
    for seen in all {
        push_shape(shapes, hidden_shape(seen))?;
    }
    Ok(())
}

// Appends the numbers.
fn push_numbers(shapes: &mut Vec<Shape>, all: &[Seen]) -> Result<(), NoMemory>
    ensures { OnOk result (shapes.new.items ≡ shapes.old.items ++ number_shapes all.now) }
{
    for seen in all {
        push_shape(shapes, number_shape(seen))?;
    }
    Ok(())
}

/// Appends the blocks of a view, with the outline of the block of the contact.
pub(crate) fn push_blocks(
    shapes: &mut Vec<Shape>,
    faces: &[Face],
    all: &[Seen],
    contact: Option<Contact>,
) -> Result<(), NoMemory>
    ensures { OnOk result (shapes.new.items ≡ shapes.old.items ++ blocks_shapes faces.now all.now contact) }
{
    push_open(shapes, all)?;
    push_hidden(shapes, all)?;
    push_shape(shapes, hit_shape(faces, contact))?;
    push_numbers(shapes, all)
}
