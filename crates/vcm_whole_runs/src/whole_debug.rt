//! A session of the debugger on a producer's text as it stands.

use crate::whole_reading::{Selecting, tell_reading};
use crate::whole_views::Running;
use std::alloc::Global;
use std::rt::Files;
use vcm_devices::{NamedSetting, Request, Voice, debug_text, fails_in_view};

/// Answers the commands of standard input on what a producer's text is put as, tells how it is read, and gives the exit status.
pub fn debug_running<R: Files + Input + Print + Eprint + AllocGlobal>(
    rt: &R,
    voice: Voice,
    request: &Request<'_, '_>,
    setting: &NamedSetting,
    running: &Running,
) -> u8 {
    let name = request.input();
    let (part, given) = (&setting.part, &running.given);
    match debug_text(rt, voice, name, part, given, &running.source) {
        Ok(()) => {
            let names = running.names.as_slice();
            tell_reading(
                rt,
                voice,
                "",
                Selecting::Part,
                &running.facts,
                names,
                request,
            );
            0
        }
        Err(message) => fails_in_view(rt, voice, message, name),
    }
}
