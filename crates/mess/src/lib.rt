//! Complex labels: levels of MChunks, joined by level signs.
#![tactic(auto)]

mod class;
mod levels;
pub mod mchunk;
pub mod mess;
mod rest;
pub mod sep;
