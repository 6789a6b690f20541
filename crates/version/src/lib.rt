//! General labels: perhaps an epoch, chunks, perhaps a Release, perhaps metadata.
#![tactic(auto)]

pub mod last;
pub mod version;
