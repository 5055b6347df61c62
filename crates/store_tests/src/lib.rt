//! Tests of the crates that keep a volume on a disk: worked rows, each public call once, and each allocation and each disk
//! call failing in turn. A crate with tests is proved twice, so these stand beside their crates and not in them.
#![tactic(auto)]

#[cfg(test)]
mod block_cache_tests;
#[cfg(test)]
mod catchup_tests;
#[cfg(test)]
mod comparing;
#[cfg(test)]
mod config_store_tests;
#[cfg(test)]
mod configurations_tests;
#[cfg(test)]
mod disk_model_tests;
#[cfg(test)]
mod disks;
#[cfg(test)]
mod file_tests;
#[cfg(test)]
mod flusher_tests;
#[cfg(test)]
mod folder_tests;
#[cfg(test)]
mod folders;
#[cfg(test)]
mod gate_journal_tests;
#[cfg(test)]
mod home_blocks_tests;
#[cfg(test)]
mod images;
#[cfg(test)]
mod lending_tests;
#[cfg(test)]
mod local_store_tests;
#[cfg(test)]
mod migrating_tests;
#[cfg(test)]
mod pair_tests;
#[cfg(test)]
mod recovery_tests;
#[cfg(test)]
mod volume_tests;
