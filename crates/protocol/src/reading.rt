//! Reading a line.
ghost use Rattle.std.specs.Prelude.{◌≡◌, Some, None, MatchResult};
ghost use Rattle.lines.specs.Split.{word_of, rest_of};
ghost use Rattle.protocol.specs.Commands.{asked, found, form_of, known_of, command_of};

use crate::asked::{BadCommand, Command, Form};
use lines::line::{is_blank, is_comment};
use lines::split::split_blank;

fn form_named(name: &[u8]) -> Result<Form, BadCommand>
    ensures { MatchResult result (λ form. form_of name.now ≡ Some form) (λ _. form_of name.now ≡ None) }
{
    // A `match` on the word is no shorter, and its arm needs a proof letter by letter.
    if name == b"semver".as_slice() {
        Ok(Form::SemVer)
    } else {
        Err(BadCommand)
    }
}

// The form that stands first in the fields of a command, and what stands behind it.
fn with_form(fields: &[u8]) -> Result<(Form, &[u8]), BadCommand>
    ensures { MatchResult result (λ x. (form_of (word_of fields.now) ≡ Some x.0) × (x.1.now ≡ rest_of fields.now)) (λ _. form_of (word_of fields.now) ≡ None) }
{
    let (name, texts) = split_blank(fields);
    Ok((form_named(name)?, texts))
}

// The command that a first word names, with what stands behind it: `new FORM T`, `parse FORM T` or `cmpf FORM T1 T2`.
fn known<'a>(word: &[u8], fields: &'a [u8]) -> Result<Command<'a>, BadCommand>
    ensures { found result ≡ known_of word.now fields.now }
{
    if word == b"new".as_slice() {
        let (form, text) = with_form(fields)?;
        Ok(Command::New(form, text))
    } else if word == b"parse".as_slice() {
        let (form, text) = with_form(fields)?;
        Ok(Command::Parse(form, text))
    } else if word == b"cmpf".as_slice() {
        let (form, texts) = with_form(fields)?;
        let (first, second) = split_blank(texts);
        Ok(Command::Compare(form, first, second))
    } else {
        Err(BadCommand)
    }
}

/// What a line asks, if it gets an answer. Nothing behind the last blank, or no blank there, is a field that is empty.
pub fn command(line: &[u8]) -> Option<Result<Command<'_>, BadCommand>>
    ensures { asked result ≡ command_of line.now }
{
    if is_blank(line) || is_comment(line) {
        return None;
    }
    let (word, fields) = split_blank(line);
    Some(known(word, fields))
}
