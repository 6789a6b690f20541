//! Complex labels beside their texts: their levels and MChunks, and how they compare.
#![tactic(auto)]

pub mod epoch;
pub mod levels;
pub mod views;
