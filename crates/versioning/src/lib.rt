//! Labels of any form: the first of Ideal, General and Complex that takes a text.
#![tactic(auto)]

pub mod versioning;
