//! Images with a changed byte, and fronts of images: the loader judges them as a plain reader does.

use crate::plain::judged;
use std::alloc::Global;
use vcm_fields::ImageFault;
use vcm_loader::load;
use vcm_test_tools::{MOVE, changed, image_of};

// The number of a refusal.
fn number(fault: ImageFault) -> u8 {
    match fault {
        ImageFault::NoMemory => 0,
        ImageFault::BadMagic => 1,
        ImageFault::Short => 2,
        ImageFault::BadVersion => 3,
        ImageFault::BadField => 4,
        ImageFault::Trailing => 5,
        ImageFault::BadIndex => 6,
        ImageFault::BadTarget => 7,
        ImageFault::BadOperand => 8,
        ImageFault::RunsOff => 9,
    }
}

// The number of the refusal of bytes, none where they load.
fn refusal(alloc: Global, bytes: &[u8]) -> Option<u8> {
    match load(alloc, bytes) {
        Ok(_) => None,
        Err(fault) => Some(number(fault)),
    }
}

#[test]
fn each_changed_byte(rt: HostRuntime) {
    assert!(rt; agree_between(rt.alloc(), &MOVE, 0, 62));
}

// Statements with a SELECT in a loop: two blocks of CASE, and one of DFTCAS.
const CHOICES: &str =
    "DECL/INTGR,I\nDO/I,1,4\nSELECT/I\nCASE/1\nTEXT/OPER,'ONE'\nENDCAS\nCASE/3\nTEXT/OPER,'THREE'\nENDCAS\nDFTCAS\nTEXT/OPER,'ELSE'\nENDCAS\nENDSEL\nENDDO\n";

// Whether the loader says of an image with any other value of a byte what the plain reader says, for the bytes from one place to before another.
fn agree_between(alloc: Global, image: &[u8], from: usize, to: usize) -> bool {
    for place in from..to {
        for byte in 0..=255 {
            let Some(bytes) = changed(alloc, image, place, byte) else {
                return false;
            };
            if refusal(alloc, &bytes) != judged(alloc, &bytes).err() {
                return false;
            }
        }
    }
    true
}

// Whether each proper front of bytes is too short.
fn fronts_are_short(alloc: Global, image: &[u8]) -> bool {
    for length in 0..image.len() {
        let (front, _) = image.split_at(length);
        if refusal(alloc, front) != Some(2) {
            return false;
        }
    }
    true
}

// Whether the image of a SELECT loads, its fronts are too short, and the loader and the plain reader agree on it with any byte changed.
fn agree_on_choices(alloc: Global) -> Option<bool> {
    let image = image_of(alloc, CHOICES)?;
    Some(
        refusal(alloc, &image).is_none()
            && fronts_are_short(alloc, &image)
            && agree_between(alloc, &image, 0, image.len()),
    )
}

#[test]
fn an_image_of_the_second_version(rt: HostRuntime) {
    assert!(rt; agree_on_choices(rt.alloc()) == Some(true));
}
