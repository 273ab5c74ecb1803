//! A producer's text that is put as a program, with what the command line says of it, and its names.

use crate::choices::choices_of;
use crate::probes_given::{common_tip, probes_given, with_aliases};
use crate::whole_views::Running;
use std::alloc::Global;
use vcm_devices::Request;
use vcm_given::Choices;
use vcm_job::{Given, InputRefusal, RunFault, is_image};
use vcm_messages::{Message, message_of};
use vcm_num::{Items, MOST_STATEMENTS, NoMemory};
use vcm_probe_set::ProbeSet;
use vcm_short_names::{ShortName, Shortened, long_name, long_out, shorten_names};
use vcm_untried::NamedFrame;
use vcm_whole::{Facts, FrameLine, Whole, build_whole, count_put};

const IMAGE: Message<'static> = Message::Option {
    words: "--whole takes the text of a program, and no image",
};

/// The exit status of a run that came to the end of its text, where something of it wasn't tried.
pub const NOT_ALL_TRIED: u8 = 7;

/// A producer's text that is put as a program, the text with its long names written short, and these names.
#[derive(Drop)]
pub struct Built {
    pub whole: Whole,
    pub text: Vec<u8>,
    pub names: Items<ShortName>,
}

/// A producer's text that is put as a program, beside a tip of this half width, or what is told where it isn't.
pub fn put_whole<'a>(
    alloc: Global,
    request: &Request<'_, '_>,
    tip: u32,
    input: &'a str,
    text: &[u8],
) -> Result<Built, Message<'a>> {
    put_whole_with(alloc, request, tip, None, input, text)
}

// A text with its long names written short; sensors with the names of these probes have aliases, if some are given.
fn shortened(alloc: Global, set: Option<&ProbeSet>, text: &[u8]) -> Result<Shortened, NoMemory> {
    match set {
        Some(set) => shorten_names(alloc, &with_aliases(alloc, set, text)?),
        None => shorten_names(alloc, text),
    }
}

// What a command line says of such a text; the tip is the one that all these probes have alike, if they have one.
fn choices_with(
    alloc: Global,
    request: &Request<'_, '_>,
    names: &[ShortName],
    tip: u32,
    set: Option<&ProbeSet>,
) -> Result<Choices, Message<'static>> {
    let mut choices = choices_of(alloc, request, names, tip)?;
    let Some(set) = set else {
        return Ok(choices);
    };
    let Ok(probes) = probes_given(alloc, set, names, tip) else {
        return Err(Message::NoMemory);
    };
    if let Some(tip) = common_tip(probes.as_slice()) {
        choices.tip = tip;
    }
    choices.probes = probes;
    Ok(choices)
}

/// The same where SNSLCT puts on one of these probes, if some are given.
pub(crate) fn put_whole_with<'a>(
    alloc: Global,
    request: &Request<'_, '_>,
    tip: u32,
    set: Option<&ProbeSet>,
    input: &'a str,
    text: &[u8],
) -> Result<Built, Message<'a>> {
    if is_image(text) {
        return Err(IMAGE);
    }
    let Ok(Shortened { text, names }) = shortened(alloc, set, text) else {
        return Err(Message::NoMemory);
    };
    let choices = choices_with(alloc, request, names.as_slice(), tip, set)?;
    match build_whole(alloc, &choices, &text) {
        Ok(whole) => Ok(Built { whole, text, names }),
        Err(refusal) => {
            let message = message_of(RunFault::Refused(InputRefusal::Text(refusal)), input);
            Err(counted_out(alloc, &choices, &text, message))
        }
    }
}

// A refusal; where the text is put as too many statements, with their number.
fn counted_out<'a>(
    alloc: Global,
    choices: &Choices,
    text: &[u8],
    message: Message<'a>,
) -> Message<'a> {
    match message {
        Message::Source { words, line } if words.starts_with("E20") => {
            match count_put(alloc, choices, text) {
                Some(count) if count > MOST_STATEMENTS => Message::Put { words, line, count },
                _ => message,
            }
        }
        message => message,
    }
}

/// The program that a text is put as; as it is written it has its text beside it, from which its calls are told.
pub fn whole_from<'a>(
    alloc: Global,
    request: &Request<'_, '_>,
    tip: u32,
    input: &'a str,
    source: Vec<u8>,
) -> Result<Running, Message<'a>> {
    whole_with(alloc, request, tip, None, input, source)
}

/// The same where SNSLCT puts on one of these probes, if some are given.
pub fn whole_with<'a>(
    alloc: Global,
    request: &Request<'_, '_>,
    tip: u32,
    set: Option<&ProbeSet>,
    input: &'a str,
    source: Vec<u8>,
) -> Result<Running, Message<'a>> {
    let Built { whole, text, names } = put_whole_with(alloc, request, tip, set, input, &source)?;
    let Whole {
        image,
        notices,
        remarks,
        facts,
    } = whole;
    let text = if facts.is_as_written {
        Some(text)
    } else {
        None
    };
    let given = Given {
        image,
        text,
        notices,
    };
    Ok(Running {
        given,
        remarks,
        facts,
        names,
        source,
    })
}

/// A name that the command line gives and the text never asks for, if there is one, as the text has it.
pub fn unused_name<'a>(facts: &'a Facts, names: &'a [ShortName]) -> Option<&'a str> {
    let name = facts.unused.as_ref()?;
    Some(std::str::from_utf8(long_out(names, name.as_bytes())).unwrap_or("?"))
}

/// Tells of such a name, and gives the exit status, if there is one.
pub fn status_of_unused<R: Eprint>(rt: &R, facts: &Facts, names: &[ShortName]) -> Option<u8> {
    let name = unused_name(facts, names)?;
    let _ = eprintln!(rt; "usage: the text never asks for {name}");
    Some(2)
}

/// The statements that make or recall a frame, with the names that the text has for them.
pub fn frames_named(
    alloc: Global,
    frames: &[FrameLine],
    names: &[ShortName],
) -> Result<Items<NamedFrame>, NoMemory> {
    let mut named = Items::new(alloc);
    for frame in frames {
        let name = long_name(alloc, names, frame.name.as_bytes())?;
        named.push(NamedFrame {
            line: frame.line,
            name,
            takes_given: frame.takes_given,
        })?;
    }
    Ok(named)
}
