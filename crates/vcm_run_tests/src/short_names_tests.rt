//! Small texts with long names.

use std::alloc::Global;
use vcm_num::is;
use vcm_short_names::{ShortName, shorten_names};

// Whether a text becomes another.
fn becomes(alloc: Global, text: &[u8], other: &[u8]) -> Option<bool> {
    let shortened = shorten_names(alloc, text).ok()?;
    Some(is(&shortened.text, other))
}

// Whether a name is this.
fn is_named(name: &ShortName, long: &[u8], short: &[u8], line: u32) -> bool {
    is(name.long.as_slice(), long) && is(name.short.as_slice(), short) && name.line == line
}

#[test]
fn a_long_name_is_written_short(rt: HostRuntime) {
    let alloc = rt.alloc();
    assert!(rt;
        becomes(
            alloc,
            b"D(GROBAUSRICHTUNG_PALETTE_3)\n",
            b"D(GROBAUSRICHTUNG_)\n"
        ) == Some(true)
    );
    assert!(rt;
        becomes(
            alloc,
            b"A/'GROBAUSRICHTUNG_PALETTE_3'\r\n",
            b"A/'GROBAUSRICHTUNG_PALETTE_3'\r\n"
        ) == Some(true)
    );
    assert!(rt; becomes(alloc, b"", b"") == Some(true));
}

// Whether two names that are alike are told, with their lines.
fn tells_both(alloc: Global) -> Option<bool> {
    let text = b"\nD(Grobausrichtung_1)\nD(GROBAUSRICHTUNG_2)\nD(GROBAUSRICHTUNG_1)\n";
    let names = shorten_names(alloc, text).ok()?.names;
    match names.as_slice() {
        [one, other] => Some(
            is_named(one, b"GROBAUSRICHTUNG_1", b"GROBAUSRICHTUNG_", 2)
                && is_named(other, b"GROBAUSRICHTUNG_2", b"GROBAUSRICHTU_01", 3),
        ),
        _ => Some(false),
    }
}

#[test]
fn names_that_are_alike_get_numbers(rt: HostRuntime) {
    assert!(rt; tells_both(rt.alloc()) == Some(true));
}
