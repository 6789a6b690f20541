//! How labels of different forms compare, and so every two labels.
#![tactic(auto)]

pub mod label;
pub mod numbers;
pub mod semver;
pub mod semver_mess;
pub mod version_mess;
pub mod whole;
