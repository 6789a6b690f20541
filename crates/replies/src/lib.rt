//! What is written for a line of the protocol.
#![tactic(auto)]

pub mod replying;
pub mod writing;
