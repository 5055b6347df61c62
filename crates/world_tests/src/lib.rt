//! Tests of what stands between a world and its programs: a recovery that is broken off anywhere, and done again. A crate with tests is proved
//! twice, so these stand beside their crates and not in them.
#![tactic(auto)]

#[cfg(test)]
mod disks;
#[cfg(test)]
mod recovering;
#[cfg(test)]
mod recovering_tests;
