//! Laws of runs beside workpieces and of margins, each the contract of a function without a body.

ghost use Rattle.vcm_margin.specs.Laws.{AlikeRunsShowTheSame, GoingAlikeIsMonotone, MarginsAreGreatest, MarginsAreOne, MarginsTellFaultsOrPoints};

/// Runs that go alike show the same at each step: the same output lines, variables, frames, settings and features, all but the place of the probe.
pub fn alike_runs_show_the_same()
    ensures { AlikeRunsShowTheSame }
{}

/// Where a run comes to the program's end, or to no stop, and goes alike with a wider tip, it does with each tip between that and its own. So it goes
/// with none that is wider than a margin tells.
pub fn margins_are_greatest()
    ensures between { GoingAlikeIsMonotone }
    ensures greatest { MarginsAreGreatest }
{}

/// Such a run has one margin: one half width, and one thing that is met with one micrometre more.
pub fn margins_are_one()
    ensures { MarginsAreOne }
{}

/// What such a run meets with one micrometre more is a block at home, a stop, or another measured point; never another next statement, or no stop.
pub fn margins_tell_faults_or_points()
    ensures { MarginsTellFaultsOrPoints }
{}
