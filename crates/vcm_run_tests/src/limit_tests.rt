//! A listing at the limit of branches, and one past it.

use std::alloc::Global;
use vcm_listing::{ListCode, ListFault, read_listing};

// What reading a listing with so many branches of a SELECT tells: nothing where it has an image. None where memory runs out.
fn branches(alloc: Global, count: u32) -> Option<Option<ListFault>> {
    let mut text = String::from_str(alloc, "VCM-LISTING 2\n0 3 SELECT [I0] {0@1").ok()?;
    for _ in 1..count {
        text.push_str(" 0@1").ok()?;
    }
    text.push_str("} @1\n1 4 ENDSEL\n2 5 ENDFIL\n").ok()?;
    Some(read_listing(alloc, text.as_bytes()).err())
}

// Whether 20,000 branches have an image, and one more is refused.
fn are_limited(alloc: Global) -> bool {
    let code = ListCode::BadNumber;
    branches(alloc, 20_000) == Some(None)
        && branches(alloc, 20_001) == Some(Some(ListFault { code, line: 2 }))
}

#[test]
fn branches_in_a_listing(rt: HostRuntime) {
    assert!(rt; are_limited(rt.alloc()));
}
