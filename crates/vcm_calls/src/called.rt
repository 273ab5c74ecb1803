//! CALLs that are carried out.

/// A CALL that is carried out: its line, and how deep it is nested, 1 outside macros.
#[derive(Clone, Copy)]
pub struct Called {
    pub line: u32,
    pub depth: usize,
}
