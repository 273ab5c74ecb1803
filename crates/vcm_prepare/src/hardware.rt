//! Probe files of what hangs on a head.

use std::rt::Files;
use vcm_devices::{Request, bytes_of, fails, fails_unless_closed, print_bytes};
use vcm_hardware::{
    Description, HardwareFault, Refusal, read_hardware, write_probe_file, write_refusal,
};
use vcm_messages::Message;

// Tells that a description is refused, and gives the exit status.
fn refuse<R: Eprint + AllocGlobal>(rt: &R, refusal: &Refusal) -> u8 {
    let mut line = Vec::new(rt.alloc());
    if write_refusal(refusal, &mut line).is_err() {
        return fails(rt, Message::NoMemory);
    }
    let line = std::str::from_utf8(line.as_slice()).unwrap_or("");
    let _ = eprintln!(rt; "{line}");
    1
}

// Tells why a description isn't read, and gives the exit status.
fn tell_fault<R: Eprint + AllocGlobal>(rt: &R, fault: HardwareFault) -> u8 {
    match fault {
        HardwareFault::NoMemory => fails(rt, Message::NoMemory),
        HardwareFault::Refused(refusal) => refuse(rt, &refusal),
    }
}

// Prints the probe file of a description, and gives the exit status.
fn show_probes<R: Print + Eprint + AllocGlobal>(rt: &R, description: &Description) -> u8 {
    let mut text = Vec::new(rt.alloc());
    if write_probe_file(description, &mut text).is_err() {
        return fails(rt, Message::NoMemory);
    }
    match print_bytes(rt, text.as_slice()) {
        Ok(()) => 0,
        Err(message) => fails_unless_closed(rt, message),
    }
}

/// Prints the probe file of what hangs on a head, and gives the exit status: 1 where its description is refused, 5 and 6 for want of memory and a device.
pub fn probe_file<R: Files + Input + Print + Eprint + AllocGlobal>(
    rt: &R,
    request: &Request<'_, '_>,
) -> u8 {
    let bytes = match bytes_of(rt, request.input()) {
        Ok(bytes) => bytes,
        Err(message) => return fails(rt, message),
    };
    match read_hardware(rt.alloc(), bytes.as_slice()) {
        Ok(description) => show_probes(rt, &description),
        Err(fault) => tell_fault(rt, fault),
    }
}
