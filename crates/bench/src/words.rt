//! Words of the program, and lines as they are printed.
use lines::shown::shown;
use std::alloc::{AllocError, Global};

pub const USAGE: &str =
    "bench does the commands of a job, one to a line, and says what came of each.
Usage: bench [JOB]
JOB names a file; without it the job is read from standard input. The commands:
  label TEXT         the form and the parts of a label
  against TEXT TEXT  which of two labels is later
The last TEXT goes to the end of the line, an earlier one to the first blank.
A line that begins with # is a comment.";

/// The line as it is shown, but with its blanks.
pub fn plain(heap: Global, line: &[u8]) -> Result<String, AllocError> {
    let mut all = String::new(heap);
    for (i, word) in line.split(|b| *b == b' ').enumerate() {
        if i > 0 {
            all.push(' ')?;
        }
        all.push_str(shown(heap, word)?.as_str())?;
    }
    Ok(all)
}
