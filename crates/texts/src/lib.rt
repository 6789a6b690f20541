//! Texts that are read, and tables of places in them.
#![tactic(auto)]

pub mod table;
mod table_push;
pub mod text;
mod text_new;

pub use text_new::{LONGEST, check_length};
