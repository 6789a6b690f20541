//! What a line asks.

/// A form of label.
#[derive(Clone, Copy)]
pub enum Form {
    SemVer,
}

/// What a line asks, with its texts as they stand in the line.
#[derive(Clone, Copy)]
pub enum Command<'a> {
    New(Form, &'a [u8]),
    Parse(Form, &'a [u8]),
    Compare(Form, &'a [u8], &'a [u8]),
}

/// A line asks no command that is known.
#[derive(Clone, Copy)]
pub struct BadCommand;
