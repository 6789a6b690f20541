//! What the programs do with a line: cutting it, reading hex texts and numbers, and showing a text.
#![tactic(auto)]

pub mod hex;
pub mod line;
pub mod number;
pub mod shown;
pub mod split;
