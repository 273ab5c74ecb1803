//! What a command line says of a producer's text: settings that the text is silent of, where frames lie, what the operator answers.

use std::alloc::Global;
use vcm_devices::Request;
use vcm_given::{Answer, Choices, GivenFrame, Value};
use vcm_items::{Name, VariableName, is_name, is_variable_name};
use vcm_lines::OwnedBytes;
use vcm_messages::Message;
use vcm_num::{Items, NoMemory};
use vcm_plain::millionths_of;
use vcm_sentences::read_decimal;
use vcm_short_names::ShortName;
use vcm_spec::{FrameAxis, Quarters};
use vcm_survey::{GivenFrame as Placed, Position, Stand, Turn};
use vcm_usage::Choice;

const FRAME: Message<'static> = Message::Option {
    words: "--frame wants LABEL=X,Y,Z or LABEL=X,Y,Z,Z90, each label once, in millimetres with three decimals at most",
};

const GIVEN: Message<'static> = Message::Option {
    words: "--given wants V=5, V=2.5, V=.TRUE., V=.FALSE. or V='YES', each variable once, with three decimals at most",
};

const LENGTH: Message<'static> = Message::Option {
    words: "--apprch, --retrct and --search want millimetres, a number from 0 to 1000 with three decimals at most",
};

const HARMLESS: Message<'static> = Message::Option {
    words: "--harmless wants a word that statements of the text go by, or the name of a program that it calls, each once",
};

const TABLE: Message<'static> = Message::Option {
    words: "--table wants degrees, a number from 0 to 360 with six decimals at most",
};

/// The options that are about a producer's text as it stands.
pub(crate) const ABOUT_WHOLE: [Choice; 9] = [
    Choice::Frame,
    Choice::Given,
    Choice::Approach,
    Choice::Retract,
    Choice::Search,
    Choice::Auto,
    Choice::Approached,
    Choice::Harmless,
    Choice::Table,
];

// The greatest length of a setting, in micrometres.
const LONGEST: i64 = 1_000_000;

// How far the origin of a frame may lie from the machine's on each axis, in micrometres.
const FARTHEST: i64 = 1_000_000_000;

// A decimal number, in thousandths; none where it has finer digits.
fn thousandths_of(text: &[u8]) -> Option<i64> {
    let decimal = read_decimal(text)?;
    if decimal.is_fine {
        None
    } else {
        Some(decimal.value / 10_000)
    }
}

// The length of a setting, in micrometres.
fn length_of(text: &str) -> Option<i32> {
    let length = thousandths_of(text.as_bytes())?;
    if length < 0 || length > LONGEST {
        return None;
    }
    i32::try_from(length).ok()
}

// The length that an option gives, if it is there.
fn setting_of(request: &Request<'_, '_>, choice: Choice) -> Result<Option<i32>, Message<'static>> {
    match request.value(choice) {
        None => Ok(None),
        Some(text) => match length_of(text) {
            Some(length) => Ok(Some(length)),
            None => Err(LENGTH),
        },
    }
}

// A coordinate of an origin, in micrometres.
fn coordinate_of(length: i64) -> Option<i32> {
    if length.saturating_abs() > FARTHEST {
        return None;
    }
    i32::try_from(length).ok()
}

// The turn of a frame; none where it is none.
fn turn_of(turn: Option<Turn>) -> Option<(FrameAxis, Quarters)> {
    let turn = turn?;
    let axis = match turn.axis {
        0 => FrameAxis::X,
        1 => FrameAxis::Y,
        _ => FrameAxis::Z,
    };
    match turn.degrees {
        90 | -270 => Some((axis, Quarters::One)),
        180 | -180 => Some((axis, Quarters::Two)),
        270 | -90 => Some((axis, Quarters::Three)),
        _ => None,
    }
}

// A label as the text has it: a long one is that of its short name, or what it would begin with.
fn label_of(alloc: Global, label: &[u8], names: &[ShortName]) -> Result<Option<Name>, NoMemory> {
    if is_name(label) {
        return Ok(Some(Name::new(label)));
    }
    let mut short = Vec::from_slice(alloc, label)?;
    short.truncate(16);
    if label.len() <= 16 || !is_name(&short) {
        return Ok(None);
    }
    for one in names {
        if one.long.as_slice() == label && is_name(one.short.as_slice()) {
            return Ok(Some(Name::new(one.short.as_slice())));
        }
    }
    Ok(Some(Name::new(&short)))
}

// The frame with this name, which stands here.
fn frame_of(name: Name, stand: Stand) -> Option<GivenFrame> {
    let Position { x, y, z } = stand.origin;
    Some(GivenFrame {
        name,
        x: coordinate_of(x)?,
        y: coordinate_of(y)?,
        z: coordinate_of(z)?,
        turn: turn_of(stand.turn),
    })
}

// The frame that a word gives.
fn read_frame(
    alloc: Global,
    word: &str,
    names: &[ShortName],
) -> Result<Option<GivenFrame>, NoMemory> {
    let Some((name, place)) = word.split_once('=') else {
        return Ok(None);
    };
    match Placed::read(alloc, name.as_bytes(), place.as_bytes())? {
        Some(placed) => match label_of(alloc, placed.label.as_slice(), names)? {
            Some(name) => Ok(frame_of(name, placed.stand)),
            None => Ok(None),
        },
        None => Ok(None),
    }
}

// Whether a frame of this name is given.
fn has_frame(frames: &[GivenFrame], name: &Name) -> bool {
    for frame in frames {
        if frame.name == *name {
            return true;
        }
    }
    false
}

// The frames that words give; none where one of them is no frame.
fn frames_of(
    alloc: Global,
    words: &[&str],
    names: &[ShortName],
) -> Result<Option<Items<GivenFrame>>, NoMemory> {
    let mut frames = Items::new(alloc);
    for word in words {
        let Some(frame) = read_frame(alloc, word, names)? else {
            return Ok(None);
        };
        if has_frame(frames.as_slice(), &frame.name) {
            return Ok(None);
        }
        frames.push(frame)?;
    }
    Ok(Some(frames))
}

// The number that a text is.
fn number_of(text: &str) -> Option<Value> {
    let number = thousandths_of(text.as_bytes())?;
    if text.as_bytes().contains(&b'.') {
        Some(Value::Real(i32::try_from(number).ok()?))
    } else {
        Some(Value::Int(i32::try_from(number / 1_000).ok()?))
    }
}

// What stands between apostrophes, with none in it.
fn quoted_in(text: &str) -> Option<&[u8]> {
    let inner = text.strip_prefix('\'')?.strip_suffix('\'')?.as_bytes();
    if inner.contains(&b'\'') {
        None
    } else {
        Some(inner)
    }
}

// The value that a word is.
fn value_of(alloc: Global, text: &str) -> Result<Option<Value>, NoMemory> {
    if let Some(inner) = quoted_in(text) {
        return Ok(Some(Value::Text(OwnedBytes::copied(alloc, inner)?)));
    }
    if text.eq_ignore_ascii_case(".TRUE.") {
        Ok(Some(Value::Truth(true)))
    } else if text.eq_ignore_ascii_case(".FALSE.") {
        Ok(Some(Value::Truth(false)))
    } else {
        Ok(number_of(text))
    }
}

// The answer that a word gives.
fn read_answer(alloc: Global, word: &str, names: &[ShortName]) -> Result<Option<Answer>, NoMemory> {
    let Some((name, text)) = word.split_once('=') else {
        return Ok(None);
    };
    let Some(value) = value_of(alloc, text)? else {
        return Ok(None);
    };
    let name = name.to_ascii_uppercase(alloc)?;
    let Some(name) = label_of(alloc, name.as_bytes(), names)? else {
        return Ok(None);
    };
    if !is_variable_name(name.as_bytes()) {
        return Ok(None);
    }
    Ok(Some(Answer {
        variable: VariableName::new(name.as_bytes()),
        value,
    }))
}

// Whether an answer for this variable is given.
fn has_answer(answers: &[Answer], variable: &Name) -> bool {
    for answer in answers {
        if answer.variable.name() == variable {
            return true;
        }
    }
    false
}

// The answers that words give; none where one of them is no answer.
fn answers_of(
    alloc: Global,
    words: &[&str],
    names: &[ShortName],
) -> Result<Option<Items<Answer>>, NoMemory> {
    let mut answers = Items::new(alloc);
    for word in words {
        let Some(answer) = read_answer(alloc, word, names)? else {
            return Ok(None);
        };
        if has_answer(answers.as_slice(), answer.variable.name()) {
            return Ok(None);
        }
        answers.push(answer)?;
    }
    Ok(Some(answers))
}

// The word that a text is, written as the program has it: in upper case, and short where it is long.
fn word_of(alloc: Global, word: &str, names: &[ShortName]) -> Result<Option<Name>, NoMemory> {
    let word = word.to_ascii_uppercase(alloc)?;
    label_of(alloc, word.as_bytes(), names)
}

// Whether a word is given.
fn has_word(words: &[Name], word: &Name) -> bool {
    for other in words {
        if other == word {
            return true;
        }
    }
    false
}

// The words that are harmless; none where one of them is no word.
fn harmless_of(
    alloc: Global,
    words: &[&str],
    names: &[ShortName],
) -> Result<Option<Items<Name>>, NoMemory> {
    let mut harmless = Items::new(alloc);
    for word in words {
        let Some(word) = word_of(alloc, word, names)? else {
            return Ok(None);
        };
        if has_word(harmless.as_slice(), &word) {
            return Ok(None);
        }
        harmless.push(word)?;
    }
    Ok(Some(harmless))
}

// A number of degrees up to a whole turn, in millionths.
fn angle_of(text: &[u8]) -> Option<u64> {
    let angle = millionths_of(text)?;
    if angle > 360_000_000 || text.starts_with(b"-") {
        None
    } else {
        Some(angle)
    }
}

// Where the rotary table stands at the start, if that is given.
fn table_of(request: &Request<'_, '_>) -> Result<Option<u64>, Message<'static>> {
    match request.value(Choice::Table) {
        None => Ok(None),
        Some(text) => match angle_of(text.as_bytes()) {
            Some(angle) => Ok(Some(angle)),
            None => Err(TABLE),
        },
    }
}

// What was read of words, or what is told where it isn't that.
fn told<T>(
    read: Result<Option<T>, NoMemory>,
    message: Message<'static>,
) -> Result<T, Message<'static>> {
    match read {
        Ok(Some(found)) => Ok(found),
        Ok(None) => Err(message),
        Err(_) => Err(Message::NoMemory),
    }
}

/// What a command line says of a producer's text whose long names are written short so, beside a tip of this half width in micrometres; or what is told of a wrong
/// option.
pub fn choices_of(
    alloc: Global,
    request: &Request<'_, '_>,
    names: &[ShortName],
    tip: u32,
) -> Result<Choices, Message<'static>> {
    let frames = frames_of(alloc, request.values(Choice::Frame), names);
    let frames = told(frames, FRAME)?;
    let answers = answers_of(alloc, request.values(Choice::Given), names);
    let answers = told(answers, GIVEN)?;
    let harmless = harmless_of(alloc, request.values(Choice::Harmless), names);
    Ok(Choices {
        approach: setting_of(request, Choice::Approach)?,
        retract: setting_of(request, Choice::Retract)?,
        search: setting_of(request, Choice::Search)?,
        frames,
        answers,
        is_auto: request.has(Choice::Auto),
        is_approached: request.has(Choice::Approached),
        tip: i32::try_from(tip).unwrap_or(0),
        harmless: told(harmless, HARMLESS)?,
        table: table_of(request)?,
        probes: Items::new(alloc),
    })
}

/// Whether an option is there that is about a producer's text as it stands.
pub fn says_of_whole(request: &Request<'_, '_>) -> bool {
    for choice in &ABOUT_WHOLE {
        let is_there = match choice {
            Choice::Frame | Choice::Given | Choice::Harmless => {
                !request.values(*choice).is_empty()
            }
            Choice::Auto | Choice::Approached => request.has(*choice),
            _ => request.value(*choice).is_some(),
        };
        if is_there {
            return true;
        }
    }
    false
}
