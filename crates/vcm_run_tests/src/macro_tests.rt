//! A long body of a macro that is called often: a matter of time.

use std::alloc::Global;
use vcm_test_tools::program_of;
use vcm_tree::accept;

// How many statements are left of so many calls of a macro with so many lines that have no effect.
fn without_effect(alloc: Global, lines: u32, calls: u32) -> Option<usize> {
    let mut text = String::from_str(alloc, "M(A)=MACRO\n").ok()?;
    for _ in 0..lines {
        text.push_str("MODE/MAN\n").ok()?;
    }
    text.push_str("ENDMAC\n").ok()?;
    for _ in 0..calls {
        text.push_str("CALL/M(A)\n").ok()?;
    }
    let program = program_of(alloc, &text)?;
    let accepted = accept(alloc, program.as_bytes()).ok()?;
    Some(accepted.count())
}

#[test]
fn long_bodies(rt: HostRuntime) {
    assert!(rt; without_effect(rt.alloc(), 9_900, 9_900) == Some(1));
}
