//! The line protocol: what a line asks, and what the answer is.
#![tactic(auto)]

pub mod answer;
pub mod answering;
pub mod asked;
pub mod reading;
