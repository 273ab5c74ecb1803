//! Where a SELECT goes.

/// A branch of a SELECT: the value of a `CASE`, and the number of the first statement of its block.
#[derive(Clone, Copy)]
pub struct Branch {
    pub value: i64,
    pub target: u32,
}
