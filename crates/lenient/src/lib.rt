//! The lenient number of a chunk, and the lenient order of chunks.
#![tactic(auto)]

pub mod chunks;
pub mod number;
pub mod ordering;
