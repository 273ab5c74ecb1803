//! What a DO keeps for its ENDDO.

/// The limit and the increment of a loop, which no statement of the program sees.
#[derive(Clone, Copy)]
pub struct Pair {
    pub limit: i64,
    pub increment: i64,
}
