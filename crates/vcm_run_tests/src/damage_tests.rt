//! The image of a move with any one byte changed: where it still loads, it runs as a plain machine of a move does.

use crate::plain::judged;
use std::alloc::Global;
use vcm_motion::{Blocks, Part};
use vcm_num::Point;
use vcm_part::read_part;
use vcm_run::run_image;
use vcm_spec::{MovePhase, Stop, StopPlace};
use vcm_test_tools::{BOUNDS, MOVE, changed};

// What the run of an image shows: where it stopped, where the probe is, and how many steps were done.
#[derive(Clone, Copy, PartialEq, Eq)]
struct Seen {
    stop: Option<StopPlace>,
    position: Point,
    done: u64,
}

// A byte of an image, 0 behind its end.
fn byte_at(image: &[u8], place: usize) -> u8 {
    match image.get(place) {
        Some(byte) => *byte,
        None => 0,
    }
}

// The source line of a statement, which stands behind its kind.
fn line_at(image: &[u8], kind: usize) -> u32 {
    u32::from_le_bytes([
        byte_at(image, kind.saturating_add(1)),
        byte_at(image, kind.saturating_add(2)),
        byte_at(image, kind.saturating_add(3)),
        byte_at(image, kind.saturating_add(4)),
    ])
}

// A whole number of millimetres, in micrometres; none where 64 bits don't hold it.
fn length_at(image: &[u8], place: usize) -> Option<i64> {
    let millimetres = i64::from_le_bytes([
        byte_at(image, place),
        byte_at(image, place.saturating_add(1)),
        byte_at(image, place.saturating_add(2)),
        byte_at(image, place.saturating_add(3)),
        byte_at(image, place.saturating_add(4)),
        byte_at(image, place.saturating_add(5)),
        byte_at(image, place.saturating_add(6)),
        byte_at(image, place.saturating_add(7)),
    ]);
    millimetres.checked_mul(1000)
}

// Whether a coordinate is within the limits.
fn is_within(length: i64) -> bool {
    -500_000 <= length && length <= 500_000
}

// What a plain machine shows of an image of a move among no blocks: its three lengths stand at these places, and the end behind them.
fn wanted(image: &[u8]) -> Seen {
    let home = Point([0, 0, 100_000]);
    let stopped = |stop| Seen {
        stop: Some(StopPlace {
            stop,
            number: 0,
            line: line_at(image, 16),
        }),
        position: home,
        done: 1,
    };
    match (
        length_at(image, 24),
        length_at(image, 36),
        length_at(image, 48),
    ) {
        (Some(x), Some(y), Some(z)) if is_within(x) && is_within(y) && is_within(z) => Seen {
            stop: Some(StopPlace {
                stop: Stop::Ended,
                number: 1,
                line: line_at(image, 57),
            }),
            position: Point([x, y, z]),
            done: 2,
        },
        (Some(_), Some(_), Some(_)) => stopped(Stop::Travel(MovePhase::Move)),
        _ => stopped(Stop::Overflow),
    }
}

// What the run of an image for ten steps shows; none where it isn't run.
fn shown<P: Part>(alloc: Global, part: &P, image: &[u8]) -> Option<Seen> {
    let summary = run_image(alloc, part, image, 10).ok()?;
    Some(Seen {
        stop: summary.world().stop(),
        position: summary.world().position(),
        done: summary.ran().done,
    })
}

// Whether an image that the plain reader takes runs as the plain machine says, and any other isn't run.
fn agrees<P: Part>(alloc: Global, part: &P, image: &[u8]) -> bool {
    let wanted = match judged(alloc, image) {
        Ok(()) => Some(wanted(image)),
        Err(_) => None,
    };
    shown(alloc, part, image) == wanted
}

// Whether that is so of the image of a move with each value of the byte at a place.
fn agree_at<P: Part>(alloc: Global, part: &P, place: usize) -> bool {
    for byte in 0..=255 {
        let Some(image) = changed(alloc, &MOVE, place, byte) else {
            return false;
        };
        if !agrees(alloc, part, &image) {
            return false;
        }
    }
    true
}

// Whether it is so at each place, among no blocks.
fn all_agree(alloc: Global) -> Option<bool> {
    let part = read_part(alloc, BOUNDS.as_bytes()).ok()?;
    let blocks = Blocks::new(&part);
    for place in 0..MOVE.len() {
        if !agree_at(alloc, &blocks, place) {
            return Some(false);
        }
    }
    Some(true)
}

#[test]
fn changed_images_run_as_a_plain_machine_says(rt: HostRuntime) {
    assert!(rt; all_agree(rt.alloc()) == Some(true));
}
