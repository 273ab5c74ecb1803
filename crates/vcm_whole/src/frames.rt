//! The frames that the statements of a text make or recall by their names.

ghost use Rattle.std.specs.Prelude.{◌≡◌, ◌++◌, IfOk, OnOk};
ghost use Rattle.std.specs.List.{list_any};
ghost use Rattle.vcm_whole.specs.Frames.{frame_in, is_left, makes, leaves, begins_macro, may_make, takes_given, named_by, named_on, named_frames};

use std::alloc::Global;
use vcm_events::{is_origin, slanted_name};
use vcm_forms::{Form, Offset, Statement};
use vcm_items::Name;
use vcm_num::{Items, NoMemory, is};

/// A statement that makes or recalls a frame by its name.
#[derive(Drop)]
pub struct FrameLine {
    /// The line of the statement.
    pub line: u32,
    /// The name of the frame.
    pub name: Name,
    /// Whether a frame that is given under this name is taken here.
    pub takes_given: bool,
}

// The frame that a statement makes or recalls by its name, if it does.
fn frame_in(form: &Form) -> Option<Name>
    ensures { result ≡ frame_in form.now }
{
    match form {
        Form::Shift(label, _) => {
            if slanted_name() == *label {
                None
            } else {
                Some(label.copy())
            }
        }
        Form::Rotation(label, _, _) => Some(label.copy()),
        Form::Restore(label) => Some(label.copy()),
        _ => None,
    }
}

// Whether shifts are those of a frame of something that isn't known, or by datums.
fn is_left(offsets: &[Offset]) -> bool
    ensures { result ≡ is_left offsets.now }
{
    match offsets.first() {
        Some(offset) => is_origin(&offset.length),
        None => true,
    }
}

// Whether a statement makes a frame of this name by shifts or a turn.
fn makes(name: &Name, form: &Form) -> bool
    ensures { result ≡ makes name.now form.now }
{
    match form {
        Form::Shift(label, offsets) => {
            !is_left(offsets.as_slice()) && is(label.as_bytes(), name.as_bytes())
        }
        Form::Rotation(label, _, _) => is(label.as_bytes(), name.as_bytes()),
        _ => false,
    }
}

// Whether it makes one of something that isn't known, or by datums.
fn leaves(name: &Name, form: &Form) -> bool
    ensures { result ≡ leaves name.now form.now }
{
    match form {
        Form::Shift(label, offsets) => {
            is_left(offsets.as_slice()) && is(label.as_bytes(), name.as_bytes())
        }
        _ => false,
    }
}

// Whether a statement begins a macro.
fn begins_macro(form: &Form) -> bool
    ensures { result ≡ begins_macro form.now }
{
    matches!(form, Form::Macro(_, _))
}

// Whether one of the statements makes a frame of this name by shifts or a turn.
fn any_makes(all: &[Statement], name: &Name) -> bool
    ensures { result ≡ list_any (λ s. makes name.now s.form) all.now }
{
    all.iter().any(|statement| makes(name, &statement.form))
}

// Whether one of the statements makes it of something that isn't known, or by datums.
fn any_leaves(all: &[Statement], name: &Name) -> bool
    ensures { result ≡ list_any (λ s. leaves name.now s.form) all.now }
{
    all.iter().any(|statement| leaves(name, &statement.form))
}

// Whether one of the statements begins a macro.
fn has_macros(all: &[Statement]) -> bool
    ensures { result ≡ list_any (λ s. begins_macro s.form) all.now }
{
    all.iter().any(|statement| begins_macro(&statement.form))
}

// Whether a frame of this name is one that the text makes by shifts or turns, or may make in a macro.
fn may_make(all: &[Statement], name: &Name) -> bool
    ensures { result ≡ may_make all.now name.now }
{
    any_makes(all, name) || has_macros(all)
}

// Whether a frame that is given is taken at a statement.
fn takes_given(all: &[Statement], form: &Form) -> bool
    ensures { result ≡ takes_given all.now form.now }
{
    match form {
        Form::Shift(_, offsets) => is_left(offsets.as_slice()),
        Form::Restore(label) => any_leaves(all, label) || !may_make(all, label),
        _ => false,
    }
}

// Adds a statement with the frame that it names.
fn add_frame(
    frames: &mut Items<FrameLine>,
    all: &[Statement],
    statement: &Statement,
    name: Option<Name>,
) -> Result<(), NoMemory>
    ensures { OnOk result (frames.new ≡ frames.old ++ named_by all.now statement.now name) }
{
    match name {
        Some(name) => {
            let takes_given = takes_given(all, &statement.form);
            frames.push(FrameLine {
                line: statement.line,
                name,
                takes_given,
            })?;
            Ok(())
        }
        None => Ok(()),
    }
}

// Adds a statement that names a frame, which doesn't stand on the first line.
fn add_named(
    frames: &mut Items<FrameLine>,
    all: &[Statement],
    statement: &Statement,
) -> Result<(), NoMemory>
    ensures { OnOk result (frames.new ≡ frames.old ++ named_on all.now statement.now) }
{
    if statement.line == 1 {
        Ok(())
    } else {
        add_frame(frames, all, statement, frame_in(&statement.form))
    }
}

/// The lines of statements that make or recall a frame by its name, in order; those that the command line gives stand on the first line, and aren't among them.
///
/// # Errors
///
/// Out of memory.
pub(crate) fn named_frames(alloc: Global, all: &[Statement]) -> Result<Items<FrameLine>, NoMemory>
    ensures { IfOk result (λ frames. frames ≡ named_frames all.now) }
{
    let mut frames = Items::new(alloc);
    for statement in all {
        add_named(&mut frames, all, statement)?;
    }
    Ok(frames)
}
