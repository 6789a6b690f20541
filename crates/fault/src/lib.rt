//! Why a text was turned down, and where.
#![tactic(auto)]

ghost use Rattle.std.specs.Prelude.{◌≡◌, Some};
ghost use Rattle.fault.specs.Told.{label_told, cause_of};

use std::error::Error;
use std::fmt;

/// The layer that turned a text down.
#[derive(Clone, Copy, Debug, PartialEq, Eq)]
pub enum Layer {
    Label,
}

/// Why a text is no label.
#[derive(Clone, Copy, Debug, PartialEq, Eq)]
pub enum LabelFault {
    /// The text has no bytes.
    Empty,
    /// The text is longer than the longest that is read, which the case carries.
    TooLong(usize),
    /// No form takes the whole text; the case carries the most bytes that a tried `parse` read, a failed one counting 0.
    NoForm(usize),
}

impl LabelFault {
    /// The number of the cause.
    pub fn number(&self) -> u8
        ensures { result ≡ (label_told self.now).number }
    {
        match *self {
            LabelFault::Empty => 1,
            LabelFault::TooLong(_) => 2,
            LabelFault::NoForm(_) => 3,
        }
    }

    /// The place in the text.
    pub fn place(&self) -> usize
        ensures { result ≡ (label_told self.now).place }
    {
        match *self {
            LabelFault::Empty => 0,
            LabelFault::TooLong(longest) => longest,
            LabelFault::NoForm(read) => read,
        }
    }

    /// The layer that turned the text down.
    pub fn layer(&self) -> Layer
        ensures { result ≡ (label_told self.now).layer }
    {
        Layer::Label
    }
}

/// The cause in words; the caret is the mark under the place.
impl fmt::Display for LabelFault {
    ghost output = { λ fault. Some (cause_of fault) };

    fn fmt<W: fmt::Write>(&self, f: &mut fmt::Formatter<W>) -> fmt::Result {
        match self {
            LabelFault::Empty => write!(f, "the text is empty"),
            LabelFault::TooLong(longest) => write!(f, "the text is longer than {longest} bytes"),
            LabelFault::NoForm(_) => {
                write!(f, "no form takes the text; it was read up to the caret")
            }
        }
    }
}

impl Error for LabelFault {}
