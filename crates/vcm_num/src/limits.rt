//! The limits of programs, of workpieces and of runs, as definitions name them.

/// The most statements of a program: as it is read, with its macros expanded, and as a code.
pub const MOST_STATEMENTS: usize = 20_000;

/// The most branches of a SELECT.
pub const MOST_BRANCHES: usize = 20_000;

/// The most variables of a program, its most features, and its most frames.
pub const MOST_NAMES: usize = 4096;

/// The most bytes of a name.
pub const LONGEST_NAME: usize = 16;

/// The most bytes of a text.
pub const LONGEST_TEXT: usize = 1024;

/// The most bytes of a line of a program.
pub const LONGEST_LINE: usize = 1024;

/// The most bytes of a statement that goes over several lines.
pub const LONGEST_STATEMENT: usize = 4096;

/// The most items of an expression in postfix order.
pub const MOST_ITEMS: usize = 1024;

/// The most values and operators of an expression as it is written.
pub const MOST_NODES: usize = 512;

/// How deep the operators of an expression stand in one another, and its parentheses.
pub const DEEPEST_EXPRESSION: usize = 32;

/// How deep blocks stand in one another: loops, choices, measurements.
pub const DEEPEST_BLOCKS: usize = 32;

/// How deep calls of macros stand in one another.
pub const DEEPEST_CALLS: usize = 16;

/// The most parameters of a macro.
pub const MOST_PARAMETERS: usize = 16;

/// The most blocks of a workpiece.
pub const MOST_BLOCKS: usize = 4096;

/// The most micrometres from the middle of a tip to its sides.
pub const WIDEST_TIP: u32 = 50_000;

/// The most micrometres of room that are told of a box at the probe.
pub const MOST_ROOM: u32 = 50_000;

/// The longest way that a setting of the probe gives, in micrometres: approach, retract, search, depth.
pub const LONGEST_SETTING: u32 = 1_000_000;

/// The most output lines of a run.
pub const MOST_LINES: usize = 100_000;
