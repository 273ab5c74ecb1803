//! What is given and the text never uses.

ghost use Rattle.std.specs.Prelude.{◌≡◌, false, IfOk};
ghost use Rattle.std.specs.Str.{bytes_eq};
ghost use Rattle.vcm_given.specs.Unused.{is_this, hands_over, places, takes, makes, deeper, depth_behind, is_jump, nothing_above, above_behind, takes_at, is_taken, unmade, is_asked, unasked, is_gone_by, unspoken, unused};
ghost use Rattle.std.specs.List.{list_any};
ghost use Rattle.vcm_given.specs.Chosen.{asked_from};
ghost use Rattle.vcm_given.specs.Texts.{fitting_answers as fitting};

use crate::answers::{Asked, ask_all};
use crate::choices::{Answer, Choices, GivenFrame};
use crate::spoken::goes_by;
use crate::texts::fitting_answers;
use std::alloc::Global;
use vcm_forms::{Argument, Form, Statement};
use vcm_items::Name;
use vcm_lines::Logical;
use vcm_num::{NoMemory, is};

/// Deeper blocks aren't counted: a text that has them is refused.
pub const DEEPEST: u32 = 1_000;

/// What stands above a statement: whether it is sure that the text has made the frame of its own, whether no label and no jump stands there, and how many
/// blocks and macros are open.
#[derive(Clone, Copy)]
pub struct Above {
    pub made: bool,
    pub straight: bool,
    pub depth: u32,
}

// Whether an argument is this name.
fn is_this(name: &Name, argument: &Argument) -> bool
    ensures { result ≡ is_this name.now argument.now.name }
{
    match &argument.name {
        Some(other) => is(other.as_bytes(), name.as_bytes()),
        None => false,
    }
}

// Whether a call hands over this name.
fn hands_over(name: &Name, arguments: &[Argument]) -> bool
    ensures { result ≡ hands_over name.now arguments.now }
{
    arguments.iter().any(|argument| is_this(name, argument))
}

// Whether a statement makes the frame with this name of something that isn't known.
fn places(name: &Name, form: &Form) -> bool
    ensures { result ≡ places name.now form.now }
{
    match form {
        Form::Shift(label, offsets) => {
            offsets.as_slice().is_empty() && is(label.as_bytes(), name.as_bytes())
        }
        _ => false,
    }
}

// Whether a statement takes the frame as it is given.
fn takes(name: &Name, form: &Form) -> bool
    ensures { result ≡ takes name.now form.now }
{
    match form {
        Form::Restore(label) => is(label.as_bytes(), name.as_bytes()),
        Form::Call(_, arguments) => hands_over(name, arguments.as_slice()),
        _ => places(name, form),
    }
}

// Whether a statement makes the frame of its own.
fn makes(name: &Name, form: &Form) -> bool
    ensures { result ≡ makes name.now form.now }
{
    match form {
        Form::Shift(label, offsets) => {
            !offsets.as_slice().is_empty() && is(label.as_bytes(), name.as_bytes())
        }
        Form::Rotation(label, _, _) => is(label.as_bytes(), name.as_bytes()),
        _ => false,
    }
}

// One more block or macro is open.
fn deeper(depth: u32) -> u32
    ensures { result ≡ deeper depth }
{
    if depth < DEEPEST { depth + 1 } else { depth }
}

// How many blocks and macros are open behind a statement.
fn depth_behind(depth: u32, form: &Form) -> u32
    ensures { result ≡ depth_behind depth form.now }
{
    match form {
        Form::Test(_) | Form::Choose(_) | Form::Repeat(_) | Form::Macro(_, _) => deeper(depth),
        Form::TestEnd | Form::ChooseEnd | Form::RepeatEnd | Form::MacroEnd => {
            depth.saturating_sub(1)
        }
        _ => depth,
    }
}

// Whether a statement is a label or a jump.
fn is_jump(form: &Form) -> bool
    ensures { result ≡ is_jump form.now }
{
    matches!(form, Form::Mark(_) | Form::Leap(_))
}

// What stands above behind a statement.
fn above_behind(name: &Name, above: Above, form: &Form) -> Above
    ensures { result ≡ above_behind name.now above form.now }
{
    let sure = makes(name, form) && above.straight && above.depth == 0;
    Above {
        made: above.made || sure,
        straight: above.straight && !is_jump(form),
        depth: depth_behind(above.depth, form),
    }
}

// Whether a statement takes the frame as it is given, or places it so where the text has made it.
fn takes_at(name: &Name, above: Above, form: &Form) -> bool
    ensures { result ≡ takes_at name.now above form.now }
{
    if above.made {
        places(name, form)
    } else {
        takes(name, form)
    }
}

// Whether one of the statements does.
fn is_taken(name: &Name, said: &[Statement]) -> bool
    ensures { result ≡ is_taken name.now nothing_above said.now }
{
    let mut above = Above {
        made: false,
        straight: true,
        depth: 0,
    };
    for statement in said {
        if takes_at(name, above, &statement.form) {
            return true;
        }
        above = above_behind(name, above, &statement.form);
    }
    false
}

// The first frame that changes nothing.
fn unmade(said: &[Statement], frames: &[GivenFrame]) -> Option<Name>
    ensures { result ≡ unmade said.now frames.now }
{
    for frame in frames {
        if !is_taken(&frame.name, said) {
            return Some(frame.name.copy());
        }
    }
    None
}

// Whether a question asks for this variable.
fn asks_for(one: &Asked, name: &[u8]) -> bool
    ensures { result ≡ bytes_eq one.now.answer.variable name.now }
{
    is(one.answer.variable.name().as_bytes(), name)
}

// Whether one of the questions does.
fn is_asked(all: &[Asked], name: &[u8]) -> bool
    ensures { result ≡ is_asked all.now name.now }
{
    all.iter().any(|one| asks_for(one, name))
}

// The first variable that no question asks for.
fn unasked(all: &[Asked], answers: &[Answer]) -> Option<Name>
    ensures { result ≡ unasked all.now answers.now }
{
    for answer in answers {
        let name = answer.variable.name();
        if !is_asked(all, name.as_bytes()) {
            return Some(name.copy());
        }
    }
    None
}

// Whether one of the statements goes by a word.
fn is_spoken(lines: &[Logical], name: &Name) -> bool
    ensures { result ≡ list_any (is_gone_by name.now) lines.now }
{
    lines.iter().any(|logical| goes_by(logical, name))
}

// The first word that no statement goes by.
fn unspoken(lines: &[Logical], names: &[Name]) -> Option<Name>
    ensures { result ≡ unspoken lines.now names.now }
{
    for name in names {
        if !is_spoken(lines, name) {
            return Some(name.copy());
        }
    }
    None
}

// The questions of a text, with the answers that fit their variables.
fn asked_by(alloc: Global, answers: &[Answer], lines: &[Logical]) -> Result<Vec<Asked>, NoMemory>
    ensures { IfOk result (λ qs. qs.items ≡ asked_from (fitting answers.now lines.now) false lines.now) }
{
    let own = fitting_answers(alloc, answers, lines)?;
    ask_all(alloc, own.as_slice(), lines)
}

// The first variable that no question asks for, or whose answer doesn't fit it.
fn first_unasked(
    alloc: Global,
    answers: &[Answer],
    lines: &[Logical],
) -> Result<Option<Name>, NoMemory>
    ensures { IfOk result (λ name. name ≡ unasked (asked_from (fitting answers.now lines.now) false lines.now) answers.now) }
{
    let asked = asked_by(alloc, answers, lines)?;
    Ok(unasked(&asked, answers))
}

/// The first name that is given and that the text never uses: a frame that no statement takes as it is given, a variable that no question asks for, or a harmless word that
/// no statement goes by.
///
/// # Errors
///
/// Out of memory.
pub fn first_unused(
    alloc: Global,
    choices: &Choices,
    lines: &[Logical],
    said: &[Statement],
) -> Result<Option<Name>, NoMemory>
    ensures { IfOk result (λ name. name ≡ unused choices.now lines.now said.now) }
{
    if let Some(name) = unmade(said, choices.frames.as_slice()) {
        return Ok(Some(name));
    }
    match first_unasked(alloc, choices.answers.as_slice(), lines)? {
        Some(name) => Ok(Some(name)),
        None => Ok(unspoken(lines, choices.harmless.as_slice())),
    }
}
