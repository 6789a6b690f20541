//! General labels beside their texts: their parts, and their order.
#![tactic(auto)]

pub mod general;
pub mod last;
