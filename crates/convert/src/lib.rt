//! Ideals and Generals as Complexes, over the same text.
#![tactic(auto)]

pub mod level;
pub mod levels;
