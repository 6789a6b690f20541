//! What a line of a job asks, and what the bench answers.
#![tactic(auto)]

pub mod against;
pub mod command;
