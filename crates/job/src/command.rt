//! What a line of a job asks.
ghost use Rattle.std.specs.Prelude.{◌≡◌, Some};
ghost use Rattle.job.specs.Commands.{without_return, asked, named_of, command_of};

use lines::line::{is_blank, is_comment};
use lines::split::split_blank;

/// A line of a job, with the texts of its command.
#[derive(Clone, Copy)]
pub enum Command<'a> {
    Comment,
    Label(&'a [u8]),
    Against(&'a [u8], &'a [u8]),
    Unknown,
}

/// The line without one carriage return at its end.
pub fn without_return(line: &[u8]) -> &[u8]
    ensures { result.now ≡ without_return line.now }
{
    line.strip_suffix(b"\r").unwrap_or(line)
}

impl<'a> Command<'a> {
    /// The command of a name, with its texts: the last goes to the end of the line, an earlier one to the first blank.
    fn named(word: &[u8], rest: &'a [u8]) -> Command<'a>
        ensures { asked (Some result) ≡ named_of word.now rest.now }
    {
        // A `match` on the words is no shorter, and its longer arm needs a proof letter by letter.
        if word == b"label".as_slice() {
            Command::Label(rest)
        } else if word == b"against".as_slice() {
            let (first, second) = split_blank(rest);
            Command::Against(first, second)
        } else {
            Command::Unknown
        }
    }

    /// What a line asks. A line of blanks asks nothing.
    pub fn new(line: &'a [u8]) -> Option<Command<'a>>
        ensures { asked result ≡ command_of line.now }
    {
        if is_blank(line) {
            return None;
        }
        if is_comment(line) {
            return Some(Command::Comment);
        }
        let (word, rest) = split_blank(line);
        Some(Command::named(word, rest))
    }
}
