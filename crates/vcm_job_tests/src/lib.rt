//! The tests of jobs and of sessions of the debugger: what no row of `vcm_cases` shows, and no growth that `tools/gate` refuses.
#![tactic(auto)]

#[cfg(test)]
mod back_tests;
#[cfg(test)]
mod job_tests;
#[cfg(test)]
mod scarce_tests;
