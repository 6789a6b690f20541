//! Ideal labels: Semantic Versioning 2.0.0 with no number above 4,294,967,295.
#![tactic(auto)]

pub mod ideal;
pub mod semver;
