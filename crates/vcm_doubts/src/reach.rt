//! Jump labels, and the blocks that they stand in.

ghost use Rattle.std.specs.Prelude.{◌≡◌, ◌++◌, ◌∷◌, [], IfOk, OnOk};
ghost use Rattle.std.specs.List.{list_any};
ghost use Rattle.vcm_doubts.specs.Doubts.{without_last, open_behind, marked_by, marked_from, outermost, is_reached};

use std::alloc::Global;
use std::marker::Model;
use vcm_forms::{Form, Statement};
use vcm_items::Name;
use vcm_num::{Items, NoMemory, is};

/// A jump label: its name, and the blocks that it stands in, the outermost first, each by the line at which it begins. Contracts see it as the `Marked` of the
/// definitions.
#[derive(Drop)]
pub(crate) struct Marked {
    name: Name,
    blocks: Vec<u32>,
}

impl Model for Marked {
    ghost use Rattle.vcm_doubts.specs.Doubts.{Marked as Meaning};

    ghost Value = { Meaning };

    ghost view = { λ l. record { name = l.name; blocks = l.blocks.items } };
}

/// Outside of macros all stands in one block.
pub(crate) fn outermost(alloc: Global) -> Result<Vec<u32>, NoMemory>
    ensures { IfOk result (λ blocks. blocks.items ≡ outermost) }
{
    let mut blocks = Vec::new(alloc);
    blocks.push(0)?;
    Ok(blocks)
}

// The innermost block ends.
fn leave(blocks: &mut Vec<u32>)
    ensures { blocks.new.items ≡ without_last blocks.old.items }
{
    let inner = blocks.len().saturating_sub(1);
    blocks.truncate(inner);
}

// A block begins on a line.
fn enter(blocks: &mut Vec<u32>, line: u32) -> Result<(), NoMemory>
    ensures { OnOk result (blocks.new.items ≡ blocks.old.items ++ line ∷ []) }
{
    blocks.push(line)?;
    Ok(())
}

// A macro begins on a line, or what is outside of them again.
fn begin(blocks: &mut Vec<u32>, line: u32) -> Result<(), NoMemory>
    ensures { OnOk result (blocks.new.items ≡ line ∷ []) }
{
    blocks.clear();
    blocks.push(line)?;
    Ok(())
}

/// A statement on a line is passed: the blocks that are open behind it.
///
/// # Errors
///
/// Out of memory.
pub(crate) fn go_behind(blocks: &mut Vec<u32>, line: u32, form: &Form) -> Result<(), NoMemory>
    ensures { OnOk result (blocks.new.items ≡ open_behind blocks.old.items line form.now) }
{
    match form {
        Form::Test(_) | Form::Choose(_) | Form::Repeat(_) | Form::Case(_) | Form::Default => {
            enter(blocks, line)
        }
        Form::Otherwise => {
            leave(blocks);
            enter(blocks, line)
        }
        Form::TestEnd | Form::ChooseEnd | Form::RepeatEnd | Form::CaseEnd => {
            leave(blocks);
            Ok(())
        }
        Form::Macro(_, _) => begin(blocks, line),
        Form::MacroEnd => begin(blocks, 0),
        _ => Ok(()),
    }
}

// These blocks once more.
fn copied(alloc: Global, blocks: &[u32]) -> Result<Vec<u32>, NoMemory>
    ensures { IfOk result (λ copy. copy.items ≡ blocks.now) }
{
    let mut copy = Vec::new(alloc);
    copy.extend_from_slice(blocks)?;
    Ok(copy)
}

// The jump label that a statement in these blocks is.
fn add_label(
    alloc: Global,
    labels: &mut Items<Marked>,
    blocks: &[u32],
    form: &Form,
) -> Result<(), NoMemory>
    ensures { OnOk result (labels.new ≡ labels.old ++ marked_by blocks.now form.now) }
{
    match form {
        Form::Mark(name) => {
            let blocks = copied(alloc, blocks)?;
            labels.push(Marked {
                name: name.copy(),
                blocks,
            })?;
            Ok(())
        }
        _ => Ok(()),
    }
}

/// The jump labels of statements.
///
/// # Errors
///
/// Out of memory.
pub(crate) fn labels_of(alloc: Global, statements: &[Statement]) -> Result<Items<Marked>, NoMemory>
    ensures { IfOk result (λ labels. labels ≡ marked_from outermost statements.now) }
{
    let mut labels = Items::new(alloc);
    let mut blocks = outermost(alloc)?;
    for statement in statements {
        add_label(alloc, &mut labels, &blocks, &statement.form)?;
        go_behind(&mut blocks, statement.line, &statement.form)?;
    }
    Ok(labels)
}

// Whether a label is the one of this name, in one of these blocks.
fn is_reached(blocks: &[u32], name: &[u8], label: &Marked) -> bool
    ensures { result ≡ is_reached blocks.now name.now label.now }
{
    is(name, label.name.as_bytes()) && blocks.starts_with(&label.blocks)
}

/// Whether a jump in these blocks goes to a label in one of them.
pub(crate) fn has_reached(labels: &[Marked], blocks: &[u32], name: &[u8]) -> bool
    ensures { result ≡ list_any (is_reached blocks.now name.now) labels.now }
{
    labels.iter().any(|label| is_reached(blocks, name, label))
}
