//! The debug adapter on standard input and output.

use crate::whole_launch::Opener;
use std::rt::Files;
use vcm_devices::{fails, output};
use vcm_launch::serve_dap;
use vcm_messages::Message;

// Answers all requests of standard input.
fn serve<Rt: Files + Input + Print + AllocGlobal>(rt: &Rt) -> Result<(), Message<'static>> {
    serve_dap(rt, &Opener { rt }, &mut rt.reader(), output(rt)?)
}

/// Speaks the Debug Adapter Protocol on standard input and output, and gives the exit status: 0 at the end; 5 want of memory; 6 a device, or an input that
/// is none.
pub fn serve_editor<Rt: Files + Input + Print + Eprint + AllocGlobal>(rt: &Rt) -> u8 {
    match serve(rt) {
        Ok(()) => 0,
        Err(message) => fails(rt, message),
    }
}
