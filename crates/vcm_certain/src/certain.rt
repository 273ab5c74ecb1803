//! Whether a text is put as it is written.

ghost use Rattle.std.specs.Prelude.{◌≡◌, ◌++◌, [], ◌∷◌, length, IfOk, OnOk};
ghost use Rattle.std.specs.List.{list_any};
ghost use Rattle.vcm_certain.specs.Certain.{nothing_sure, opened, given_before, branched, closed, with_given, sure_behind, index_of, indices_of, is_frame_placed, are_sure, is_certain};
ghost use Rattle.vcm_certain.specs.inner.Knowing.{known};

use crate::gives::{again, give, is_jump};
use crate::sure::is_sure;
use std::alloc::Global;
use vcm_events::slanted_name;
use vcm_forms::{Form, Target};
use vcm_items::BoundedStack;
use vcm_macro::Placed;
use vcm_num::{DEEPEST_BLOCKS, NoMemory};

/// The expansion of features among what is given: no variable has it.
pub const FEATURE: u32 = 4_294_967_295;

/// What is sure at a place in writing.
#[derive(Drop)]
pub struct Known {
    pub given: Vec<Target>,
    pub blocks: BoundedStack<usize>,
    pub straight: bool,
}

// Whether a statement makes or recalls a frame.
fn is_frame(placed: &Placed) -> bool
    ensures { result ≡ is_frame_placed placed.now }
{
    match &placed.statement.form {
        Form::Shift(label, _) => slanted_name() != *label,
        Form::Rotation(_, _, _) | Form::Restore(_) => true,
        _ => false,
    }
}

// Whether one of the statements does.
fn has_frames(all: &[Placed]) -> bool
    ensures { result ≡ list_any is_frame_placed all.now }
{
    all.iter().any(|placed| is_frame(placed))
}

// The index of a loop.
fn put_index(indices: &mut Vec<Target>, form: &Form) -> Result<(), NoMemory>
    ensures { OnOk result (indices.new.items ≡ indices.old.items ++ index_of form.now) }
{
    match form {
        Form::Repeat(rounds) => {
            indices.push(again(&rounds.variable))?;
            Ok(())
        }
        _ => Ok(()),
    }
}

// The indices of loops.
fn indices_of(alloc: Global, all: &[Placed]) -> Result<Vec<Target>, NoMemory>
    ensures { IfOk result (λ ts. ts.items ≡ indices_of all.now) }
{
    let mut indices = Vec::new(alloc);
    for placed in all {
        put_index(&mut indices, &placed.statement.form)?;
    }
    Ok(indices)
}

// A block begins.
fn open_block(sure: &mut Known)
    ensures { known sure.new ≡ opened (known sure.old) [] }
{
    if sure.blocks.len() < DEEPEST_BLOCKS {
        sure.blocks.push(sure.given.len());
    }
}

// A loop begins, with its index given.
fn open_loop(sure: &mut Known, index: &Target) -> Result<(), NoMemory>
    ensures { OnOk result (known sure.new ≡ opened (known sure.old) (index.now ∷ [])) }
{
    open_block(sure);
    sure.given.push(again(index))?;
    Ok(())
}

// How much was given where the innermost block begins.
fn given_before(sure: &Known) -> usize
    ensures { result ≡ given_before sure.now.blocks (length sure.now.given.items) }
{
    if sure.blocks.len() > 0 {
        sure.blocks.top()
    } else {
        sure.given.len()
    }
}

// Another branch of the innermost block begins.
fn branch(sure: &mut Known)
    ensures { known sure.new ≡ branched (known sure.old) }
{
    let before = given_before(sure);
    sure.given.truncate(before);
}

// The innermost block ends.
fn close_block(sure: &mut Known)
    ensures { known sure.new ≡ closed (known sure.old) }
{
    branch(sure);
    sure.blocks.pop();
}

// Something more is given.
fn give_more(sure: &mut Known, indices: &[Target], form: &Form) -> Result<(), NoMemory>
    ensures { OnOk result (known sure.new ≡ with_given indices.now (known sure.old) form.now) }
{
    give(&mut sure.given, sure.straight, indices, form)?;
    sure.straight = sure.straight && !is_jump(form);
    Ok(())
}

// What is sure behind a statement.
fn pass(sure: &mut Known, indices: &[Target], form: &Form) -> Result<(), NoMemory>
    ensures { OnOk result (known sure.new ≡ sure_behind indices.now (known sure.old) form.now) }
{
    match form {
        Form::Test(_) | Form::Choose(_) => open_block(sure),
        Form::Repeat(rounds) => open_loop(sure, &rounds.variable)?,
        Form::Otherwise | Form::Case(_) | Form::CaseEnd | Form::Default => branch(sure),
        Form::TestEnd | Form::ChooseEnd | Form::RepeatEnd => close_block(sure),
        _ => give_more(sure, indices, form)?,
    }
    Ok(())
}

// Whether all statements are sure, one behind the other.
fn are_sure(
    frames: bool,
    indices: &[Target],
    sure: &mut Known,
    all: &[Placed],
) -> Result<bool, NoMemory>
    ensures { IfOk result (λ b. b ≡ are_sure frames indices.now (known sure.old) all.now) }
{
    for placed in all {
        let form = &placed.statement.form;
        if !is_sure(frames, sure.given.as_slice(), form) {
            return Ok(false);
        }
        pass(sure, indices, form)?;
    }
    Ok(true)
}

/// Whether an expanded text is read in one way and loses nothing: each of its values is the machine's, each variable has one where it is asked, the distances of points
/// are set before the first of them, and nothing hangs on a frame that features were measured in.
///
/// # Errors
///
/// Out of memory.
pub fn is_certain(alloc: Global, all: &[Placed]) -> Result<bool, NoMemory>
    ensures { IfOk result (λ b. b ≡ is_certain all.now) }
{
    let indices = indices_of(alloc, all)?;
    let mut sure = Known {
        given: Vec::new(alloc),
        blocks: BoundedStack::new(),
        straight: true,
    };
    are_sure(has_frames(all), &indices, &mut sure, all)
}
