//! What a launch asks for.

use std::marker::Model;
use vcm_console::Count;

/// Something of a producer's text that a run comes by and doesn't try.
#[derive(Clone, Copy)]
pub struct Untried {
    /// The step that comes by it.
    pub step: u64,
    /// Its source line.
    pub line: u32,
    /// The place of its words in `WholeText::words`.
    pub words: usize,
}

/// What is shown of a producer's text beside its session.
#[derive(Drop)]
pub struct WholeText<'s> {
    /// What its run doesn't try, in the order of the steps.
    pub untried: &'s [Untried],
    /// The words for what isn't tried.
    pub words: &'s [Vec<u8>],
    /// What is told of that where the session ends: lines with line feeds.
    pub told: &'s [u8],
    /// The exit status of a run that comes to its end.
    pub status: u8,
}

/// What a launch asks for, beside the program and the workpiece. Contracts see it as a `Wanted`.
#[derive(Drop)]
pub struct Settings<'s> {
    /// The path of the text that is shown, if there is one.
    pub source: Option<&'s str>,
    /// The most steps of a motion.
    pub steps: Count,
    /// Half the width of the tip, in micrometres.
    pub tip: u32,
    /// Whether it stands before the first statement.
    pub stop_on_entry: bool,
    /// Whether it runs to the end without any stop on the way.
    pub no_debug: bool,
    /// What is shown of a producer's text; none of a program as it is written.
    pub whole: Option<WholeText<'s>>,
}

impl<'s> Model for Settings<'s> {
    ghost use Rattle.std.specs.Prelude.{option_map};
    ghost use Rattle.vcm_dap.specs.Adapting.{Wanted};

    ghost Value = { Wanted };

    ghost view = { λ s. record { source = option_map (λ t. t.now) s.source; steps = s.steps; stop_on_entry = s.stop_on_entry; no_debug = s.no_debug; told = option_map (λ w. w.told.now) s.whole } };
}
