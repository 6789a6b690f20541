//! Chunks of labels, the chunks of a General, and Releases.
#![tactic(auto)]

pub mod chunk;
pub mod chunks;
pub mod release;
