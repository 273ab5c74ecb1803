//! The words of `vcm blocks`: its options, and the comment that a part file has of them.

use std::alloc::Global;
use vcm_blocks::{
    BlocksOptions, file_name, length_word, model_name, most_word, name_word, shift_word, turn_word,
    unit_word,
};
use vcm_devices::{DASH, Request};
use vcm_mesh::{LengthUnit, Placing, Turn};
use vcm_messages::Message;
use vcm_num::{MOST_BLOCKS, NoMemory, Point};
use vcm_usage::{Choice, Files, Usage};

const UNIT: Message<'static> = Message::Option {
    words: "--unit wants mm or inch",
};

const TURN: Message<'static> = Message::Option {
    words: "--turn wants quarter turns with commas between them, as x90 or x90,z-90",
};

const AT: Message<'static> = Message::Option {
    words: "--at wants X,Y,Z in millimetres, with three decimals at most",
};

const WITHIN: Message<'static> = Message::Option {
    words: "--within wants millimetres from 0.001 to 1000000, with three decimals at most",
};

const MOST: Message<'static> = Message::Option {
    words: "--most wants a number from 1 to 4096",
};

const NAME: Message<'static> = Message::Option {
    words: "--name wants 1 to 32 printable characters",
};

// What a length of the model is.
fn unit_of(word: Option<&str>) -> Result<LengthUnit, Message<'static>> {
    match word {
        Some(word) => unit_word(word.as_bytes()).ok_or(UNIT),
        None => Ok(LengthUnit::Millimetre),
    }
}

// How the model is turned.
fn turn_of(word: Option<&str>) -> Result<Turn, Message<'static>> {
    match word {
        Some(word) => turn_word(word.as_bytes()).ok_or(TURN),
        None => Ok(Turn::none()),
    }
}

// Where its origin lies on the machine.
fn shift_of(word: Option<&str>) -> Result<Point, Message<'static>> {
    match word {
        Some(word) => shift_word(word.as_bytes()).ok_or(AT),
        None => Ok(Point::new(0, 0, 0)),
    }
}

// How far a block may reach beyond it, if that is said.
fn within_of(word: Option<&str>) -> Result<Option<u32>, Message<'static>> {
    match word {
        Some(word) => match length_word(word.as_bytes()) {
            Some(length) => Ok(Some(length)),
            None => Err(WITHIN),
        },
        None => Ok(None),
    }
}

// The most blocks.
fn most_of(word: Option<&str>) -> Result<usize, Message<'static>> {
    match word {
        Some(word) => most_word(word.as_bytes()).ok_or(MOST),
        None => Ok(MOST_BLOCKS),
    }
}

// The name of the blocks of a model.
fn name_of<'a>(word: Option<&'a str>, model: &'a str) -> Result<&'a str, Message<'static>> {
    match word {
        Some(word) => name_word(word).ok_or(NAME),
        None if model == DASH => Ok(model_name("")),
        None => Ok(model_name(model)),
    }
}

/// What a command line asks of the blocks of a model: how it is placed, how far a block may reach beyond it in micrometres, the most blocks, and their name.
#[derive(Clone, Copy)]
pub(crate) struct Asked<'a> {
    placing: Placing,
    within: Option<u32>,
    most: usize,
    name: &'a str,
}

/// What a command line asks.
///
/// Errors: the first option that can't be read.
pub(crate) fn asked_of<'a>(request: &Request<'a, '_>) -> Result<Asked<'a>, Message<'static>> {
    let placing = Placing {
        unit: unit_of(request.value(Choice::Unit))?,
        turn: turn_of(request.value(Choice::Turn))?,
        at: shift_of(request.value(Choice::At))?,
    };
    Ok(Asked {
        placing,
        within: within_of(request.value(Choice::Within))?,
        most: most_of(request.value(Choice::Most))?,
        name: name_of(request.value(Choice::Name), request.input())?,
    })
}

/// The same, with these words for the comment.
pub(crate) fn options_with<'a>(asked: &Asked<'a>, words: &'a [&'a str]) -> BlocksOptions<'a> {
    BlocksOptions {
        placing: asked.placing,
        within: asked.within,
        most: asked.most,
        name: asked.name,
        words,
    }
}

// What stands before the sign of equality of an option, and what stands after it.
fn cut(word: &str) -> (&str, Option<&str>) {
    match word.split_once('=') {
        Some((front, value)) => (front, Some(value)),
        None => (word, None),
    }
}

// The option that a word names.
fn option_in(usage: &Usage, word: &str) -> Option<Choice> {
    usage.choice_of(word.strip_prefix("--")?)
}

// The value of an option, a file without its folders.
fn value_shown(choice: Choice, value: &str) -> &str {
    match choice.spelled().files {
        Files::None => value,
        _ => file_name(value),
    }
}

// Whether an option has a value.
fn is_valued(choice: Choice) -> bool {
    !choice.spelled().value.is_empty()
}

// Adds an option with its value, if that stands in the same word, and gives the option where the value comes next. What only says how much is reported is
// left out.
fn put_option<'a>(
    words: &mut Vec<&'a str>,
    choice: Choice,
    front: &'a str,
    value: Option<&'a str>,
) -> Result<Option<Choice>, NoMemory> {
    if !is_valued(choice) {
        return Ok(None);
    }
    words.push(front)?;
    match value {
        Some(value) => {
            words.push(value_shown(choice, value))?;
            Ok(None)
        }
        None => Ok(Some(choice)),
    }
}

// Adds a word, which is the value of an option if one is open, and gives the option whose value comes next.
fn put_word<'a>(
    words: &mut Vec<&'a str>,
    usage: &Usage,
    open: Option<Choice>,
    word: &'a str,
) -> Result<Option<Choice>, NoMemory> {
    if let Some(choice) = open {
        words.push(value_shown(choice, word))?;
        return Ok(None);
    }
    let (front, value) = cut(word);
    match option_in(usage, front) {
        Some(choice) => put_option(words, choice, front, value),
        None => {
            words.push(file_name(word))?;
            Ok(None)
        }
    }
}

/// The words of a command line after the command as the comment of a part file has them: files without their folders, and without the options that have no
/// value.
///
/// Errors: want of memory.
pub(crate) fn comment_words<'a>(
    alloc: Global,
    usage: &Usage,
    given: &'a [String],
) -> Result<Vec<&'a str>, NoMemory> {
    let mut words = Vec::new(alloc);
    let mut open = None;
    for word in given {
        open = put_word(&mut words, usage, open, word)?;
    }
    Ok(words)
}
