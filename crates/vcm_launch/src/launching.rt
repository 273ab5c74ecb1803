//! What a launch asks for, and the program that it names.

use crate::whole::says_of_whole;
use json::Value;
use std::rt::Files;
use vcm_dap::{Settings, WholeText};
use vcm_debug::Count;
use vcm_job::{DebugFault, Given, given_of, read_all};
use vcm_messages::{Message, message_of};
use vcm_wire::Request;

const WANTS_WHOLE: &str =
    "frame, given, apprch, retrct, search, auto, approach, harmless and table want whole";

// The most steps of a motion, where `steps` isn't given.
const STEPS: u64 = 1_000_000;

/// What a launch asks for.
#[derive(Drop)]
pub(crate) struct Asked<'v> {
    pub program: &'v str,
    pub part: &'v str,
    source: Option<&'v str>,
    steps: Count,
    stop_on_entry: bool,
    no_debug: bool,
    pub is_whole: bool,
}

impl Asked<'_> {
    /// The most steps of a motion.
    pub(crate) fn steps(&self) -> u64 {
        u64::from(self.steps.get())
    }
}

// A flag of a request, which is off where it isn't there.
fn flag(request: &Request<'_, '_>, name: &str) -> bool {
    request.argument(name).and_then(Value::as_bool) == Some(true)
}

// A text of a request.
fn text<'v>(request: &Request<'v, '_>, name: &str) -> Option<&'v str> {
    request.argument(name).and_then(Value::as_str)
}

// The most steps of a motion that a launch asks for.
fn steps_of(request: &Request<'_, '_>) -> Option<Count> {
    let steps = match request.argument("steps") {
        None => STEPS,
        Some(steps) => steps.as_u64()?,
    };
    Count::new(steps).ok()
}

/// What a launch asks for, or why it is refused.
pub(crate) fn launch_of<'v>(request: &Request<'v, '_>) -> Result<Asked<'v>, &'static str> {
    let Some(program) = text(request, "program") else {
        return Err("launch wants program, the path of the program or image");
    };
    let Some(part) = text(request, "part") else {
        return Err("launch wants part, the path of the part file");
    };
    let Some(steps) = steps_of(request) else {
        return Err("steps is 1 to 1000000");
    };
    let is_whole = flag(request, "whole");
    if !is_whole && says_of_whole(request) {
        return Err(WANTS_WHOLE);
    }
    Ok(Asked {
        program,
        part,
        source: text(request, "source"),
        steps,
        stop_on_entry: flag(request, "stopOnEntry"),
        no_debug: flag(request, "noDebug"),
        is_whole,
    })
}

/// What a launch asks for of the adapter. The text that is shown is the program, or none, where no other one is given.
pub(crate) fn settings_of<'v>(
    asked: Asked<'v>,
    tip: u32,
    has_text: bool,
    whole: Option<WholeText<'v>>,
) -> Settings<'v> {
    let source = match asked.source {
        None if has_text => Some(asked.program),
        source => source,
    };
    Settings {
        source,
        steps: asked.steps,
        tip,
        stop_on_entry: asked.stop_on_entry,
        no_debug: asked.no_debug,
        whole,
    }
}

/// The program or image of a file.
pub(crate) fn program_of<'a, R: Files + AllocGlobal>(
    rt: &R,
    name: &'a str,
) -> Result<Given, Message<'a>> {
    let Ok(mut file) = std::fs::open(rt, name) else {
        return Err(Message::Read { name });
    };
    let bytes = match read_all(rt.alloc(), &mut file) {
        Ok(bytes) => bytes,
        Err(fault) => return Err(message_of(DebugFault::from(fault), name)),
    };
    given_of(rt.alloc(), bytes).map_err(|fault| message_of(fault, name))
}
