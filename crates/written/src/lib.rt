//! How the parts of a label are written for a program.
#![tactic(auto)]

mod chunks;
mod complexes;
mod generals;
mod ideal;
pub mod number;
pub mod parts;
#[cfg(test)]
mod tests;
pub mod writable;
