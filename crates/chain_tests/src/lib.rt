//! Tests of the crates between a chain's members and its clients: worked rows, outside vectors of the protocol, and each
//! public call once. A crate with tests is proved twice, so these stand beside their crates and not in them.
#![tactic(auto)]

#[cfg(test)]
mod board_tests;
#[cfg(test)]
mod chain_core_tests;
#[cfg(test)]
mod cluster_tests;
#[cfg(test)]
mod comparing;
#[cfg(test)]
mod flush_barrier_tests;
#[cfg(test)]
mod links_tests;
#[cfg(test)]
mod nbd_codec_tests;
#[cfg(test)]
mod nbd_session_tests;
#[cfg(test)]
mod pausing_tests;
#[cfg(test)]
mod serving_tests;
#[cfg(test)]
mod sessions_tests;
#[cfg(test)]
mod tail_query_tests;
#[cfg(test)]
mod version_table_tests;
#[cfg(test)]
mod world_model_tests;
