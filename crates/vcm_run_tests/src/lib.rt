//! The tests of parts, images, listings, runs and whole texts: what no row of `vcm_cases` shows, as damaged images; and calls under little memory that no command shows.
#![tactic(auto)]

#[cfg(test)]
mod alone_tests;
#[cfg(test)]
mod damage_tests;
#[cfg(test)]
mod doubts_tests;
#[cfg(test)]
mod given_tests;
#[cfg(test)]
mod limit_tests;
#[cfg(test)]
mod loader_tests;
#[cfg(test)]
mod macro_tests;
#[cfg(test)]
mod plain;
#[cfg(test)]
mod plain_items;
#[cfg(test)]
mod plain_parts;
#[cfg(test)]
mod scarce_tests;
#[cfg(test)]
mod short_names_tests;
#[cfg(test)]
mod strip_tests;
#[cfg(test)]
mod untried_tests;
